//! `mtpbank capture`: the units of a script as a pcap file.
ghost use Rattle.std.specs.Prelude.{◌≡◌, ◌≤◌, ◌^◌, ◌++◌, length, IfSome, MatchResult, OnOk};
ghost use Rattle.text_base.specs.Printing.{Prints, FailsByDevices};
ghost use Rattle.text_lines.specs.Explaining.{fault_alone};
ghost use Rattle.script_accounts.specs.Capture.{IsCapture, IsExplainedCapture, pseudo_header, shown_record};

use super::records::{head_of_capture, record_of};
use l2_units::Profile;
use pair_steps::{End, Showing, ShownRef, Step};
use pair_world::{Move, World};
use script_walk::{Account, Explained, ScriptFault, tell_explained, tell_script, world_profile};
use set_events::AnswerRef;
use std::alloc::{AllocError, Global};
use text_base::{Fault, Sink, Source};

/// The units of a script.
struct Units;

impl Account for Units {
    type Note = ();

    ghost use Rattle.script_accounts.specs.Capture.{capture_told};

    ghost told = { capture_told };

    ghost is_note = { λ world move note. Unit {0} };

    fn note(_alloc: Global, _world: &World, _next: &Move) {}

    fn tell_opening(_alloc: Global, world: &World, out: &mut Vec<u8>) -> Result<(), AllocError> {
        out.extend_from_slice(&head_of_capture(world_profile(world)))
    }

    fn tell_step(
        alloc: Global,
        number: u64,
        _note: (),
        next: &Move,
        shown: &Showing,
        world: &World,
        out: &mut Vec<u8>,
    ) -> Result<(), AllocError> {
        match next {
            Move::Step(Step::Emit { end, link }) | Move::Fill { end, link } => {
                tell_sent(alloc, world_profile(world), number, *end, *link, shown, out)
            }
            _ => Ok(()),
        }
    }

    fn tell_end(
        _alloc: Global,
        world: &Option<World>,
        out: &mut Vec<u8>,
    ) -> Result<(), AllocError> {
        match world {
            Some(_) => Ok(()),
            None => out.extend_from_slice(&head_of_capture(Profile::Narrow)),
        }
    }
}

/// Tells of the unit that the end sent on the link, if one was sent.
fn tell_sent(
    alloc: Global,
    profile: Profile,
    number: u64,
    end: End,
    link: u8,
    shown: &Showing,
    out: &mut Vec<u8>,
) -> Result<(), AllocError>
    ensures { MatchResult result
        (λ done. out.new.items
        ≡ out.old.items ++ shown_record profile number (pseudo_header profile end link) shown.now)
        (λ want. out.new.items ≡ out.old.items) }
{
    match shown.get() {
        ShownRef::Answered(AnswerRef::Sent { unit }) => {
            out.extend_from_slice(&record_of(alloc, profile, number, end, link, &unit)?)
        }
        _ => Ok(()),
    }
}

/// Plays the script that the source gives, and writes the units that its ends send as a pcap file.
///
/// Ends with the first fault; what was written before it stays written, and is a whole capture of what was sent until
/// then where the fault isn't the first line's. An input of more than 2^24 octets ends with [`Fault::Long`],
/// unless another fault comes before.
pub fn capture<S: Source, W: Sink>(
    alloc: Global,
    source: &mut S,
    sink: &mut W,
) -> Result<(), Fault<ScriptFault>>
    ensures text { IfSome (S.left source.old)
        (λ input. Prints result (IsCapture input) (W.written sink.old) (W.written sink.new)) }
    ensures bounded { IfSome (S.left source.old) (λ input. OnOk result (length input ≤ 2 ^ 24)) }
    ensures devices { IfSome (S.left source.old)
        (FailsByDevices (2 ^ 24) result (S.failures source.old) (S.failures source.new)
        (W.failures sink.old) (W.failures sink.new)) }
{
    tell_script::<Units, S, W>(alloc, source, sink)
}

/// Writes the same file, and explains the line that ends the script with a fault, as [`tell_explained`] does.
pub fn capture_explained<S: Source, W: Sink>(
    alloc: Global,
    source: &mut S,
    sink: &mut W,
) -> Result<(), Fault<Explained<ScriptFault>>>
    ensures text { IfSome (S.left source.old)
        (λ input. Prints result (IsExplainedCapture input)
        (W.written sink.old) (W.written sink.new)) }
    ensures same { IfSome (S.left source.old)
        (λ input. Prints (fault_alone result) (IsCapture input)
        (W.written sink.old) (W.written sink.new)) }
    ensures bounded { IfSome (S.left source.old) (λ input. OnOk result (length input ≤ 2 ^ 24)) }
    ensures devices { IfSome (S.left source.old)
        (FailsByDevices (2 ^ 24) result (S.failures source.old) (S.failures source.new)
        (W.failures sink.old) (W.failures sink.new)) }
{
    tell_explained::<Units, S, W>(alloc, source, sink)
}
