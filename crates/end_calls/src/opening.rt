//! What an end is opened with.
ghost use Rattle.std.specs.Prelude.{◌≡◌, Some, None, IfOk, IfErr, Option};
ghost use Rattle.end_calls.specs.Opening.{HoldsTimers, HoldsTimes, Opens, config_refusal, first_refusal, method_of, timers_refusal, times_refusal};
ghost use Rattle.end_calls.specs.declared.fault.CallFault.{CallFault as Fault};
ghost use Rattle.end_calls.specs.declared.fault.CallFault.TheVariants.{NoMemory};
ghost use Rattle.l2_units.specs.declared.profile.Profile.TheVariants.{Narrow};
ghost use Rattle.set_events.specs.Config.{IsConfigOf};

use super::fault::CallFault;
use l3_link::Times;
use link_term::Timers;
use set_events::{Method, SetConfig};
use std::alloc::Global;
use term_managed::ManagedBench;

/// A set of links (Q.704).
#[repr(C)]
#[derive(Clone, Copy, Debug)]
pub struct SetValues {
    /// The set's own number.
    pub set: u16,
    /// Its own point code, 0 to 16,383.
    pub opc: u16,
    /// The far end's point code, 0 to 16,383.
    pub dpc: u16,
    /// N1 of the preventive cyclic method, 1 to 127; 0: the basic method.
    pub n1: u16,
    /// N2 of it, 1 to 34,671.
    pub n2: u32,
    /// How many links it has, 1 to 16.
    pub links: u8,
    /// The SIO of the management's orders; its service indicator is 0.
    pub sio: u8,
}

/// The lengths of the timers of level 2, in octet times and each at least 1 (Q.703 12.3).
#[repr(C)]
#[derive(Clone, Copy, Debug)]
pub struct TimerValues {
    pub t1: u32,
    pub t2: u32,
    pub t3: u32,
    pub t5: u32,
    pub t6: u32,
    pub t7: u32,
}

/// The lengths of the timers of level 3, in octet times and each at least 1 (Q.704 16.8); T1 and T2 of Q.707 are `k1`, `k2`.
#[repr(C)]
#[derive(Clone, Copy, Debug)]
pub struct TimeValues {
    pub t1: u32,
    pub t2: u32,
    pub t4: u32,
    pub t5: u32,
    pub t17: u32,
    pub k1: u32,
    pub k2: u32,
}

/// An end of these settings, whose links are out of service and not activated.
///
/// Refusals, in this order: 33 [`CallFault::Config`] to 36 as [`SetConfig::new`], 37 [`CallFault::Timers`], 38
/// [`CallFault::Times`], 16 [`CallFault::NoMemory`] only where memory was refused.
pub fn open(
    alloc: Global,
    set: &SetValues,
    timers: &TimerValues,
    times: &TimeValues,
) -> Result<ManagedBench, CallFault>
    ensures opened { IfOk result (λ end. Opens set.now timers.now times.now end) }
    ensures refused { (fault : Fault) → first_refusal set.now timers.now times.now ≡ Some fault → result ≡ Err fault }
    ensures memory { first_refusal set.now timers.now times.now ≡ None → IfErr result (λ fault. fault ≡ NoMemory) }
{
    let config = config_of(set)?;
    let lengths = timers_of(timers)?;
    let times = times_of(times)?;
    match ManagedBench::new(alloc, &config, lengths, times) {
        Ok(end) => Ok(end),
        Err(_) => Err(CallFault::NoMemory),
    }
}

/// The configuration of these values.
fn config_of(values: &SetValues) -> Result<SetConfig, CallFault>
    ensures ok { IfOk result (λ config. (config_refusal values.now ≡ None)
        × IsConfigOf config Narrow values.now.set values.now.links values.now.opc values.now.dpc values.now.sio
        (method_of values.now)) }
    ensures err { IfErr result (λ fault. config_refusal values.now ≡ Some fault) }
{
    match SetConfig::new(
        values.set,
        values.links,
        values.opc,
        values.dpc,
        values.sio,
        method_of(values),
    ) {
        Ok(config) => Ok(config),
        Err(fault) => Err(CallFault::Config { fault }),
    }
}

/// How messages are kept safe.
fn method_of(values: &SetValues) -> Method
    ensures { result ≡ method_of values.now }
{
    if values.n1 == 0 {
        Method::Basic
    } else {
        Method::Cyclic {
            n1: values.n1,
            n2: values.n2,
        }
    }
}

/// The timers of these lengths.
fn timers_of(values: &TimerValues) -> Result<Timers, CallFault>
    ensures ok { IfOk result (λ timers. (timers_refusal values.now ≡ None) × HoldsTimers values.now timers) }
    ensures err { IfErr result (λ fault. timers_refusal values.now ≡ Some fault) }
{
    match Timers::new(
        values.t1, values.t2, values.t3, values.t5, values.t6, values.t7,
    ) {
        Some(timers) => Ok(timers),
        None => Err(CallFault::Timers),
    }
}

/// The times of these lengths.
fn times_of(values: &TimeValues) -> Result<Times, CallFault>
    ensures ok { IfOk result (λ times. (times_refusal values.now ≡ None) × HoldsTimes values.now times) }
    ensures err { IfErr result (λ fault. times_refusal values.now ≡ Some fault) }
{
    match Times::new(
        values.t1, values.t2, values.t4, values.t5, values.t17, values.k1, values.k2,
    ) {
        Ok(times) => Ok(times),
        Err(_) => Err(CallFault::Times),
    }
}
