//! What the subcommands do, over any source and sink.
ghost use Rattle.std.specs.Prelude.{◌≡◌, ◌≤◌, ◌^◌, length, IfSome, OnOk};
ghost use Rattle.text_base.specs.Printing.{Prints, FailsByDevices};
ghost use Rattle.mtpbank_words.specs.declared.words.Words.TheVariants.{Audit, Decode, Script, Terminal};
ghost use Rattle.text_calls.specs.Running.{GivesFault, IsExplainedOf, IsKeptOf, IsTextOf, IsToldOf, ReadsInput, longest_of, profile_of};

use history_audit::{AuditFault, audit, audit_explained};
use l2_units::Profile;
use mtpbank_words::{Told, Words};
use script_accounts::{
    End, Explained, ScriptFault, capture, capture_explained, history, history_explained, play,
    play_explained,
};
use script_ladder::{ladder, ladder_explained};
use std::alloc::Global;
use terminal_text::{
    TerminalFault, terminal, terminal_explained, terminal_kept, terminal_kept_explained,
};
use text_base::{Fault, Sink, Source};
use text_units::{UnreadableOctet, UnreadableUnit, decode, decode_explained, units};
use thiserror::Error;

/// How the input of a subcommand can be at fault.
#[derive(Debug, Drop, Error)]
pub enum TextFault {
    /// In a way of `units`.
    #[error("{0}")]
    Units(UnreadableOctet),
    /// In a way of a script.
    #[error("{0}")]
    Play(ScriptFault),
    /// In a way of a script, with an explanation.
    #[error("{0}")]
    Explained(Explained<ScriptFault>),
    /// In a way of `decode`.
    #[error("{0}")]
    Decode(UnreadableUnit),
    /// In a way of `decode`, with an explanation.
    #[error("{0}")]
    ExplainedDecode(Explained<UnreadableUnit>),
    /// In a way of `audit`.
    #[error("{0}")]
    Audit(AuditFault),
    /// In a way of `audit`, with an explanation.
    #[error("{0}")]
    ExplainedAudit(Explained<AuditFault>),
    /// In a way of `terminal`.
    #[error("{0}")]
    Terminal(TerminalFault),
    /// In a way of `terminal`, with an explanation.
    #[error("{0}")]
    ExplainedTerminal(Explained<TerminalFault>),
}

/// Reads what the source gives, and writes what the subcommand makes of it, up to the first fault.
pub fn run<S: Source, W: Sink>(
    alloc: Global,
    words: Words,
    source: &mut S,
    sink: &mut W,
) -> Result<(), Fault<TextFault>>
    requires reads { ReadsInput words }
    ensures text { IfSome (S.left source.old)
        (λ input. Prints result (IsTextOf words input) (W.written sink.old) (W.written sink.new)) }
    ensures bounded { IfSome (S.left source.old) (λ input. OnOk result (length input ≤ longest_of words)) }
    ensures devices { IfSome (S.left source.old)
        (FailsByDevices (longest_of words) result (S.failures source.old) (S.failures source.new)
        (W.failures sink.old) (W.failures sink.new)) }
{
    match words {
        Words::Units => of_any(units(alloc, source, sink), TextFault::Units),
        Words::Script { told, explains } => run_script(alloc, told, explains, source, sink),
        Words::Decode { wide, explains } => run_decode(alloc, wide, explains, source, sink),
        Words::Audit { explains } => run_audit(alloc, explains, source, sink),
        Words::Terminal { keeps, explains } => run_terminal(alloc, keeps, explains, source, sink),
        Words::Run(_) => unreachable!(),
    }
}

/// Carries out the script that the source gives, and writes what is told of it, with an explanation of its fault or
/// without.
fn run_script<S: Source, W: Sink>(
    alloc: Global,
    told: Told,
    explains: bool,
    source: &mut S,
    sink: &mut W,
) -> Result<(), Fault<TextFault>>
    ensures text { IfSome (S.left source.old) (λ input. Prints result (IsTextOf (Script told explains) input)
        (W.written sink.old) (W.written sink.new)) }
    ensures bounded { IfSome (S.left source.old) (λ input. OnOk result (length input ≤ 2 ^ 24)) }
    ensures devices { IfSome (S.left source.old)
        (FailsByDevices (2 ^ 24) result (S.failures source.old) (S.failures source.new)
        (W.failures sink.old) (W.failures sink.new)) }
{
    if explains {
        return of_any(
            tell_explained(alloc, told, source, sink),
            TextFault::Explained,
        );
    }
    of_any(tell(alloc, told, source, sink), TextFault::Play)
}

/// Reads the units that the source gives, and writes what they say, with an explanation of a fault or without.
fn run_decode<S: Source, W: Sink>(
    alloc: Global,
    wide: bool,
    explains: bool,
    source: &mut S,
    sink: &mut W,
) -> Result<(), Fault<TextFault>>
    ensures text { IfSome (S.left source.old) (λ input. Prints result (IsTextOf (Decode wide explains) input)
        (W.written sink.old) (W.written sink.new)) }
    ensures bounded { IfSome (S.left source.old) (λ input. OnOk result (length input ≤ 2 ^ 60)) }
    ensures devices { IfSome (S.left source.old)
        (FailsByDevices (2 ^ 60) result (S.failures source.old) (S.failures source.new)
        (W.failures sink.old) (W.failures sink.new)) }
{
    let profile = profile_of(wide);
    if explains {
        return of_any(
            decode_explained(alloc, profile, source, sink),
            TextFault::ExplainedDecode,
        );
    }
    of_any(decode(alloc, profile, source, sink), TextFault::Decode)
}

/// Reads the history that the source gives, and writes whether it's legal, with an explanation of a fault or without.
fn run_audit<S: Source, W: Sink>(
    alloc: Global,
    explains: bool,
    source: &mut S,
    sink: &mut W,
) -> Result<(), Fault<TextFault>>
    ensures text { IfSome (S.left source.old) (λ input. Prints result (IsTextOf (Audit explains) input)
        (W.written sink.old) (W.written sink.new)) }
    ensures bounded { IfSome (S.left source.old) (λ input. OnOk result (length input ≤ 2 ^ 60)) }
    ensures devices { IfSome (S.left source.old)
        (FailsByDevices (2 ^ 60) result (S.failures source.old) (S.failures source.new)
        (W.failures sink.old) (W.failures sink.new)) }
{
    if explains {
        return of_any(
            audit_explained(alloc, source, sink),
            TextFault::ExplainedAudit,
        );
    }
    of_any(audit(alloc, source, sink), TextFault::Audit)
}

/// Drives the end by the lines that the source gives, and writes what they print, with an explanation of a fault or
/// without.
fn run_terminal<S: Source, W: Sink>(
    alloc: Global,
    keeps: bool,
    explains: bool,
    source: &mut S,
    sink: &mut W,
) -> Result<(), Fault<TextFault>>
    ensures text { IfSome (S.left source.old) (λ input. Prints result (IsTextOf (Terminal keeps explains) input)
        (W.written sink.old) (W.written sink.new)) }
    ensures bounded { IfSome (S.left source.old) (λ input. OnOk result (length input ≤ 2 ^ 60)) }
    ensures devices { IfSome (S.left source.old)
        (FailsByDevices (2 ^ 60) result (S.failures source.old) (S.failures source.new)
        (W.failures sink.old) (W.failures sink.new)) }
{
    if keeps {
        return of_any(run_kept(alloc, explains, source, sink), TextFault::Terminal);
    }
    if explains {
        return of_any(
            terminal_explained(alloc, source, sink),
            TextFault::ExplainedTerminal,
        );
    }
    of_any(terminal(alloc, source, sink), TextFault::Terminal)
}

/// Drives an end that goes on behind a line at fault, whose answer is the fault, with an explanation or without.
fn run_kept<S: Source, W: Sink>(
    alloc: Global,
    explains: bool,
    source: &mut S,
    sink: &mut W,
) -> Result<(), Fault<TerminalFault>>
    ensures text { IfSome (S.left source.old)
        (λ input. Prints result (IsKeptOf explains input) (W.written sink.old) (W.written sink.new)) }
    ensures bounded { IfSome (S.left source.old) (λ input. OnOk result (length input ≤ 2 ^ 60)) }
    ensures devices { IfSome (S.left source.old)
        (FailsByDevices (2 ^ 60) result (S.failures source.old) (S.failures source.new)
        (W.failures sink.old) (W.failures sink.new)) }
{
    if explains {
        return terminal_kept_explained(alloc, source, sink);
    }
    terminal_kept(alloc, source, sink)
}

/// Carries out the script that the source gives, and writes what is told of it.
fn tell<S: Source, W: Sink>(
    alloc: Global,
    told: Told,
    source: &mut S,
    sink: &mut W,
) -> Result<(), Fault<ScriptFault>>
    ensures text { IfSome (S.left source.old)
        (λ input. Prints result (IsToldOf told input) (W.written sink.old) (W.written sink.new)) }
    ensures bounded { IfSome (S.left source.old) (λ input. OnOk result (length input ≤ 2 ^ 24)) }
    ensures devices { IfSome (S.left source.old)
        (FailsByDevices (2 ^ 24) result (S.failures source.old) (S.failures source.new)
        (W.failures sink.old) (W.failures sink.new)) }
{
    match told {
        Told::Play => play(alloc, source, sink),
        Told::Capture => capture(alloc, source, sink),
        Told::Ladder => ladder(alloc, source, sink),
        Told::HistoryOfA => history(alloc, End::A, source, sink),
        Told::HistoryOfB => history(alloc, End::B, source, sink),
    }
}

/// Writes that with an explanation of the line that ends the script with a fault.
fn tell_explained<S: Source, W: Sink>(
    alloc: Global,
    told: Told,
    source: &mut S,
    sink: &mut W,
) -> Result<(), Fault<Explained<ScriptFault>>>
    ensures text { IfSome (S.left source.old)
        (λ input. Prints result (IsExplainedOf told input) (W.written sink.old) (W.written sink.new)) }
    ensures bounded { IfSome (S.left source.old) (λ input. OnOk result (length input ≤ 2 ^ 24)) }
    ensures devices { IfSome (S.left source.old)
        (FailsByDevices (2 ^ 24) result (S.failures source.old) (S.failures source.new)
        (W.failures sink.old) (W.failures sink.new)) }
{
    match told {
        Told::Play => play_explained(alloc, source, sink),
        Told::Capture => capture_explained(alloc, source, sink),
        Told::Ladder => ladder_explained(alloc, source, sink),
        Told::HistoryOfA => history_explained(alloc, End::A, source, sink),
        Told::HistoryOfB => history_explained(alloc, End::B, source, sink),
    }
}

/// The profile of the units to decode.
fn profile_of(wide: bool) -> Profile
    ensures { result ≡ profile_of wide }
{
    if wide { Profile::Wide } else { Profile::Narrow }
}

/// What a subcommand answered, with a fault of its input as one of these.
fn of_any<T, F: FnOnce(T) -> TextFault>(
    ran: Result<(), Fault<T>>,
    of: F,
) -> Result<(), Fault<TextFault>>
    requires callable { F.IsAlwaysCallable of }
    ensures { GivesFault (F.post of) ran result }
{
    match ran {
        Ok(()) => Ok(()),
        Err(Fault::Input(fault)) => Err(Fault::Input(of(fault))),
        Err(Fault::Memory) => Err(Fault::Memory),
        Err(Fault::Read) => Err(Fault::Read),
        Err(Fault::Long) => Err(Fault::Long),
        Err(Fault::Write) => Err(Fault::Write),
    }
}
