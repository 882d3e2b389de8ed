//! `mtpbank play`: a script of two ends, line by line.
ghost use Rattle.std.specs.Prelude.{◌≤◌, ◌^◌, length, IfSome, OnOk};
ghost use Rattle.text_base.specs.Printing.{Prints, FailsByDevices};
ghost use Rattle.script_accounts.specs.PlayText.{IsPlayText, IsExplainedPlayText};

use super::answers::Answers;
use super::wordings::{InNumbers, InWords};
use script_walk::{Explained, ScriptFault, tell_explained, tell_script};
use std::alloc::Global;
use text_base::{Fault, Sink, Source};

/// Plays the script that the source gives, and writes what its lines print.
///
/// Ends with the first fault; what was printed before it stays printed. An input of more than 2^24 octets ends with
/// [`Fault::Long`], unless another fault comes before.
pub fn play<S: Source, W: Sink>(
    alloc: Global,
    source: &mut S,
    sink: &mut W,
) -> Result<(), Fault<ScriptFault>>
    ensures text { IfSome (S.left source.old)
        (λ input. Prints result (IsPlayText input) (W.written sink.old) (W.written sink.new)) }
    ensures bounded { IfSome (S.left source.old) (λ input. OnOk result (length input ≤ 2 ^ 24)) }
    ensures devices { IfSome (S.left source.old)
        (FailsByDevices (2 ^ 24) result (S.failures source.old) (S.failures source.new)
        (W.failures sink.old) (W.failures sink.new)) }
{
    tell_script::<Answers<InNumbers>, S, W>(alloc, source, sink)
}

/// Plays the script in words, and explains the line that ends it with a fault.
///
/// What is written is as [`play`] writes it, but a number that tells why something was refused or given up has its words
/// behind it: `refused 5 (not up)`. The same fault ends it, and brings its explanation along, as [`tell_explained`] tells.
pub fn play_explained<S: Source, W: Sink>(
    alloc: Global,
    source: &mut S,
    sink: &mut W,
) -> Result<(), Fault<Explained<ScriptFault>>>
    ensures text { IfSome (S.left source.old)
        (λ input. Prints result (IsExplainedPlayText input)
        (W.written sink.old) (W.written sink.new)) }
    ensures bounded { IfSome (S.left source.old) (λ input. OnOk result (length input ≤ 2 ^ 24)) }
    ensures devices { IfSome (S.left source.old)
        (FailsByDevices (2 ^ 24) result (S.failures source.old) (S.failures source.new)
        (W.failures sink.old) (W.failures sink.new)) }
{
    tell_explained::<Answers<InWords>, S, W>(alloc, source, sink)
}
