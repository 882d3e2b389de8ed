//! The names of messages of the ISDN user part.
ghost use Rattle.std.specs.Prelude.{◌≡◌};
ghost use Rattle.script_ladder.specs.Names.{circuit_name, isup_name, name_at, type_name};

use set_model::service_indicator;

/// The service indicator of the ISDN user part (Q.704 14.2.1).
const ISUP: u8 = 5;

/// Where the type of its messages stands: behind the SIO, the label and the circuit (Q.763 1.2, 1.3).
const TYPE: usize = 7;

/// The name of a body's message, or nothing where it's of another user part or has no name here.
pub(crate) fn isup_name(body: &[u8]) -> &'static str
    ensures { result.now ≡ isup_name body.now }
{
    if service_indicator(body) == ISUP {
        name_at(body.get(TYPE).copied())
    } else {
        ""
    }
}

/// The name of a message of this type, if there is one.
fn name_at(kind: Option<u8>) -> &'static str
    ensures { result.now ≡ name_at kind }
{
    match kind {
        Some(kind) => type_name(kind),
        None => "",
    }
}

/// The name of a message of this type (Q.763 table 4): one of a call, or else of the circuits.
fn type_name(kind: u8) -> &'static str
    ensures { result.now ≡ type_name kind }
{
    match kind {
        0x01 => "IAM",
        0x02 => "SAM",
        0x03 => "INR",
        0x04 => "INF",
        0x05 => "COT",
        0x06 => "ACM",
        0x07 => "CON",
        0x09 => "ANM",
        0x0C => "REL",
        0x0D => "SUS",
        0x0E => "RES",
        0x10 => "RLC",
        0x2C => "CPG",
        _ => circuit_name(kind),
    }
}

/// The name of a message of circuits or groups of circuits, of this type.
fn circuit_name(kind: u8) -> &'static str
    ensures { result.now ≡ circuit_name kind }
{
    match kind {
        0x11 => "CCR",
        0x12 => "RSC",
        0x13 => "BLO",
        0x14 => "UBL",
        0x15 => "BLA",
        0x16 => "UBA",
        0x17 => "GRS",
        0x18 => "CGB",
        0x19 => "CGU",
        0x1A => "CGBA",
        0x1B => "CGUA",
        0x29 => "GRA",
        0x2E => "UCIC",
        0x2F => "CFN",
        _ => "",
    }
}
