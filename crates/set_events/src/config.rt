//! What a set is opened with.
ghost use Rattle.std.specs.Prelude.{◌≡◌, ◌<◌, ◌≤◌, ◌%◌, ◌^◌, true};
ghost use Rattle.std.proofs.Props.{props};
ghost use Rattle.set_events.specs.Method.{is_method, most_octets};

use l2_units::Profile;
use thiserror::Error;

/// The most links of a set: a signalling link code has four bits (Q.704 15.2).
const MOST_LINKS: u8 = 16;

/// The most octets that the bodies of all messages can have that are unacknowledged at once: 127 of 273 octets, or, in
/// the wide profile, 4,095 of 272.
fn most_octets(profile: Profile) -> u32
    ensures { result ≡ most_octets profile }
{
    match profile {
        Profile::Narrow => 34_671,
        Profile::Wide => 1_113_840,
    }
}

/// How a link's messages are kept safe.
#[derive(Clone, Copy, Debug, PartialEq, Eq)]
pub enum Method {
    /// Basic error correction (Q.703 5): retransmission where it's asked for.
    Basic,
    /// Preventive cyclic retransmission (Q.703 6).
    Cyclic {
        /// Unacknowledged messages that force a cycle, 1 to 127 (wide: 4,095).
        n1: u16,
        /// Octets of unacknowledged bodies that force a cycle, 1 to 34,671 (wide: 1,113,840).
        n2: u32,
    },
}

/// Why a configuration is refused. The first that applies, in this order, is answered.
#[derive(Clone, Copy, Debug, Drop, PartialEq, Eq, Error)]
pub enum ConfigFault {
    /// 1: no link, or more than 16.
    #[error("a set has 1 to 16 links")]
    Links,
    /// 2: a point code over 16,383.
    #[error("a point code has 14 bits")]
    PointCode,
    /// 3: the service indicator, the low four bits of the SIO, isn't 0.
    #[error("the service indicator of the management is 0")]
    Sio,
    /// 4: a limit of the cyclic method out of its range.
    #[error("a cycle is forced by 1 to 127 messages or by 1 to 34671 octets")]
    Cyclic,
}

/// What a set is opened with. Whoever holds one holds a configuration in range.
#[derive(Clone, Copy, Debug, PartialEq, Eq)]
pub struct SetConfig {
    /// The set's own number.
    pub set: u16,
    /// How many links it has, 1 to 16.
    pub links: u8,
    /// Its own point code, 0 to 16,383.
    pub opc: u16,
    /// The far end's point code, 0 to 16,383.
    pub dpc: u16,
    /// The SIO of the management's orders; its service indicator is 0.
    pub sio: u8,
    /// How messages are kept safe; the limits of the cyclic method are in their ranges.
    pub method: Method,
    /// How many numbers the messages of a link have.
    pub profile: Profile,
    pub ghost has_links: { 1 ≤ links },
    pub ghost links_in_range: { links ≤ 16 },
    pub ghost opc_in_range: { opc < 2 ^ 14 },
    pub ghost dpc_in_range: { dpc < 2 ^ 14 },
    pub ghost management: { sio % 16 ≡ 0 },
    pub ghost limits_in_range: { is_method profile method ≡ true } by { Prim.hlevel props },
}

impl SetConfig {
    ghost use Rattle.std.specs.Prelude.{◌≡◌, None, Some, MatchResult};
    ghost use Rattle.set_events.specs.Config.{IsConfigOf, fault_of};
    ghost use Rattle.l2_units.specs.declared.profile.Profile.TheVariants.{Narrow, Wide};

    /// A configuration of these values, of the narrow profile.
    ///
    /// Refusals, in this order: 1 [`ConfigFault::Links`], 2 [`ConfigFault::PointCode`],
    /// 3 [`ConfigFault::Sio`], 4 [`ConfigFault::Cyclic`].
    pub fn new(
        set: u16,
        links: u8,
        opc: u16,
        dpc: u16,
        sio: u8,
        method: Method,
    ) -> Result<SetConfig, ConfigFault>
        ensures ok { MatchResult result
            (λ config. fault_of Narrow links opc dpc sio method ≡ None)
            (λ fault. fault_of Narrow links opc dpc sio method ≡ Some fault) }
        ensures made { MatchResult result
            (λ config. IsConfigOf config Narrow set links opc dpc sio method)
            (λ fault. Unit {0}) }
    {
        SetConfig::of(Profile::Narrow, set, links, opc, dpc, sio, method)
    }

    /// The same of the wide profile: N1 is at most 4,095, N2 at most 1,113,840.
    pub fn new_wide(
        set: u16,
        links: u8,
        opc: u16,
        dpc: u16,
        sio: u8,
        method: Method,
    ) -> Result<SetConfig, ConfigFault>
        ensures ok { MatchResult result
            (λ config. fault_of Wide links opc dpc sio method ≡ None)
            (λ fault. fault_of Wide links opc dpc sio method ≡ Some fault) }
        ensures made { MatchResult result
            (λ config. IsConfigOf config Wide set links opc dpc sio method)
            (λ fault. Unit {0}) }
    {
        SetConfig::of(Profile::Wide, set, links, opc, dpc, sio, method)
    }

    /// A configuration of these values, of this profile, with the refusals of [`SetConfig::new`].
    pub fn of(
        profile: Profile,
        set: u16,
        links: u8,
        opc: u16,
        dpc: u16,
        sio: u8,
        method: Method,
    ) -> Result<SetConfig, ConfigFault>
        ensures ok { MatchResult result
            (λ config. fault_of profile links opc dpc sio method ≡ None)
            (λ fault. fault_of profile links opc dpc sio method ≡ Some fault) }
        ensures made { MatchResult result
            (λ config. IsConfigOf config profile set links opc dpc sio method)
            (λ fault. Unit {0}) }
    {
        if links == 0 || links > MOST_LINKS {
            return Err(ConfigFault::Links);
        }
        if opc > 16_383 || dpc > 16_383 {
            return Err(ConfigFault::PointCode);
        }
        if sio % 16 != 0 {
            return Err(ConfigFault::Sio);
        }
        if !is_in_range(profile, method) {
            return Err(ConfigFault::Cyclic);
        }
        Ok(SetConfig {
            set,
            links,
            opc,
            dpc,
            sio,
            method,
            profile,
        })
    }

    /// How many numbers the messages of a link have.
    pub fn profile(&self) -> Profile
        ensures { result ≡ self.now.profile }
    {
        self.profile
    }
}

impl ConfigFault {
    ghost use Rattle.std.specs.Prelude.{◌≡◌};
    ghost use Rattle.set_events.specs.Numbers.{config_fault_number};

    /// The refusal's number: 1 links, 2 point code, 3 SIO, 4 cyclic.
    pub fn number(self) -> u8
        ensures { result ≡ config_fault_number self }
    {
        match self {
            ConfigFault::Links => 1,
            ConfigFault::PointCode => 2,
            ConfigFault::Sio => 3,
            ConfigFault::Cyclic => 4,
        }
    }
}

/// Whether the limits of the cyclic method, if it is that, can be met.
fn is_in_range(profile: Profile, method: Method) -> bool
    ensures { result ≡ is_method profile method }
{
    match method {
        Method::Basic => true,
        Method::Cyclic { n1, n2 } => {
            (1..=profile.most_unacked()).contains(&n1) && (1..=most_octets(profile)).contains(&n2)
        }
    }
}
