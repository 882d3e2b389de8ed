//! The whole text of a script.
ghost use Rattle.std.specs.Prelude.{◌≤◌, ◌^◌, length, IfSome, OnOk};
ghost use Rattle.text_base.specs.Printing.{Prints, FailsByDevices};
ghost use Rattle.text_lines.specs.Explaining.{fault_alone};
ghost use Rattle.script_walk.specs.Explaining.{IsExplainedText};
ghost use Rattle.script_walk.specs.Scripts.{IsScriptText};

use super::account::Account;
use super::fault::ScriptFault;
use super::script::Script;
use std::alloc::Global;
use text_base::{Fault, LONGEST_KEPT, Sink, Source};
use text_lines::{Explained, print_explained, print_talk};

/// Plays the script that the source gives, and writes what the account tells of it.
///
/// Ends with the first fault; what was printed before it stays printed. An input of more than 2^24 octets ends with
/// [`Fault::Long`], unless another fault comes before.
pub fn tell_script<A: Account, S: Source, W: Sink>(
    alloc: Global,
    source: &mut S,
    sink: &mut W,
) -> Result<(), Fault<ScriptFault>>
    ensures text { IfSome (S.left source.old)
        (λ input. Prints result (IsScriptText A.told input)
        (W.written sink.old) (W.written sink.new)) }
    ensures bounded { IfSome (S.left source.old) (λ input. OnOk result (length input ≤ 2 ^ 24)) }
    ensures devices { IfSome (S.left source.old)
        (FailsByDevices (2 ^ 24) result (S.failures source.old) (S.failures source.new)
        (W.failures sink.old) (W.failures sink.new)) }
{
    print_talk(alloc, Script::<A>::new(), LONGEST_KEPT, source, sink)
}

/// Plays the script so; a fault of a line brings its explanation.
pub fn tell_explained<A: Account, S: Source, W: Sink>(
    alloc: Global,
    source: &mut S,
    sink: &mut W,
) -> Result<(), Fault<Explained<ScriptFault>>>
    ensures text { IfSome (S.left source.old)
        (λ input. Prints result (IsExplainedText A.told input)
        (W.written sink.old) (W.written sink.new)) }
    ensures same { IfSome (S.left source.old)
        (λ input. Prints (fault_alone result) (IsScriptText A.told input)
        (W.written sink.old) (W.written sink.new)) }
    ensures bounded { IfSome (S.left source.old) (λ input. OnOk result (length input ≤ 2 ^ 24)) }
    ensures devices { IfSome (S.left source.old)
        (FailsByDevices (2 ^ 24) result (S.failures source.old) (S.failures source.new)
        (W.failures sink.old) (W.failures sink.new)) }
{
    print_explained(alloc, Script::<A>::new(), LONGEST_KEPT, source, sink)
}
