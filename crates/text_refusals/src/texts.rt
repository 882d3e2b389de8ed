//! The texts that read an input, each with a short one.
use super::kept::Kept;
use super::{Came, holds, is_right};
use history_audit::{audit, audit_explained};
use l2_units::Profile;
use script_accounts::{
    End, capture, capture_explained, history, history_explained, play, play_explained,
};
use script_ladder::{ladder, ladder_explained};
use std::alloc::Global;
use std::test::Fail;
use terminal_text::{terminal, terminal_explained, terminal_kept, terminal_kept_explained};
use test_devices::Text;
use text_base::Fault;
use text_units::{decode, decode_explained, units};

const SCRIPT: &[u8] = b"set links=1 method=basic a=2 b=1 sio=80
together 0
offer a 8501800000
emit a 0
arrive b 0
take b
";

const HISTORY: &[u8] = b"set links=1 method=basic a=2 b=1 sio=80
terminal 0 up 0 -> done
user 0 take -> refused 9
";

const LINES: &[u8] = b"set links=1 method=basic a=2 b=1 sio=80
start 0
octets 0 7e7e
hear 0 fisu
";

const LINES_AT_FAULT: &[u8] = b"set links=1 method=basic a=2 b=1 sio=80
start 1
octets 0 7e7e
hear 0 fisu 1
";

const UNITS: &[u8] = b"7edff705f8beaf1f\n";

const OCTETS: &[u8] = b"ffff00\n80ff03850000\n";

/// The text as it's read: all at once.
fn text_of(input: &[u8]) -> Text<'_> {
    Text {
        rest: input,
        piece: 4_096,
        reads: 1_000_000,
        failures: 0,
    }
}

fn came<F: Drop>(ended: Result<(), Fault<F>>) -> Came {
    match ended {
        Ok(()) => Came::Whole,
        Err(Fault::Memory) => Came::Refused,
        Err(_) => Came::Wrong,
    }
}

/// Of two runs at most one was refused, and printed a beginning of what the other prints.
fn are_right(first: (Came, Kept), second: (Came, Kept)) -> Result<(), Fail> {
    let ((one, printed), (other, again)) = (first, second);
    let prints = match one {
        Came::Whole => printed.octets().starts_with(again.octets()),
        _ => again.octets().starts_with(printed.octets()),
    };
    let alike = one != other || printed.octets() == again.octets();
    holds(is_right(one, other) && prints && alike && printed.is_all() && again.is_all())
}

fn units_of(alloc: Global) -> (Came, Kept) {
    let (mut text, mut page) = (text_of(UNITS), Kept::new());
    let ended = came(units(alloc, &mut text, &mut page));
    (ended, page)
}

#[test]
fn a_refused_allocation_ends_units(rt: HostRuntime) -> Result<(), Fail> {
    are_right(units_of(rt.alloc()), units_of(rt.alloc()))
}

fn decode_of(alloc: Global) -> (Came, Kept) {
    let (mut text, mut page) = (text_of(OCTETS), Kept::new());
    let ended = came(decode(alloc, Profile::Narrow, &mut text, &mut page));
    (ended, page)
}

#[test]
fn a_refused_allocation_ends_decode(rt: HostRuntime) -> Result<(), Fail> {
    are_right(decode_of(rt.alloc()), decode_of(rt.alloc()))
}

fn decode_explained_of(alloc: Global) -> (Came, Kept) {
    let (mut text, mut page) = (text_of(OCTETS), Kept::new());
    let ended = came(decode_explained(alloc, Profile::Narrow, &mut text, &mut page));
    (ended, page)
}

#[test]
fn a_refused_allocation_ends_decode_explained(rt: HostRuntime) -> Result<(), Fail> {
    are_right(
        decode_explained_of(rt.alloc()),
        decode_explained_of(rt.alloc()),
    )
}

fn play_of(alloc: Global) -> (Came, Kept) {
    let (mut text, mut page) = (text_of(SCRIPT), Kept::new());
    let ended = came(play(alloc, &mut text, &mut page));
    (ended, page)
}

#[test]
fn a_refused_allocation_ends_play(rt: HostRuntime) -> Result<(), Fail> {
    are_right(play_of(rt.alloc()), play_of(rt.alloc()))
}

fn play_explained_of(alloc: Global) -> (Came, Kept) {
    let (mut text, mut page) = (text_of(SCRIPT), Kept::new());
    let ended = came(play_explained(alloc, &mut text, &mut page));
    (ended, page)
}

#[test]
fn a_refused_allocation_ends_play_explained(rt: HostRuntime) -> Result<(), Fail> {
    are_right(play_explained_of(rt.alloc()), play_explained_of(rt.alloc()))
}

fn capture_of(alloc: Global) -> (Came, Kept) {
    let (mut text, mut page) = (text_of(SCRIPT), Kept::new());
    let ended = came(capture(alloc, &mut text, &mut page));
    (ended, page)
}

#[test]
fn a_refused_allocation_ends_capture(rt: HostRuntime) -> Result<(), Fail> {
    are_right(capture_of(rt.alloc()), capture_of(rt.alloc()))
}

fn capture_explained_of(alloc: Global) -> (Came, Kept) {
    let (mut text, mut page) = (text_of(SCRIPT), Kept::new());
    let ended = came(capture_explained(alloc, &mut text, &mut page));
    (ended, page)
}

#[test]
fn a_refused_allocation_ends_capture_explained(rt: HostRuntime) -> Result<(), Fail> {
    are_right(
        capture_explained_of(rt.alloc()),
        capture_explained_of(rt.alloc()),
    )
}

fn ladder_of(alloc: Global) -> (Came, Kept) {
    let (mut text, mut page) = (text_of(SCRIPT), Kept::new());
    let ended = came(ladder(alloc, &mut text, &mut page));
    (ended, page)
}

#[test]
fn a_refused_allocation_ends_ladder(rt: HostRuntime) -> Result<(), Fail> {
    are_right(ladder_of(rt.alloc()), ladder_of(rt.alloc()))
}

fn ladder_explained_of(alloc: Global) -> (Came, Kept) {
    let (mut text, mut page) = (text_of(SCRIPT), Kept::new());
    let ended = came(ladder_explained(alloc, &mut text, &mut page));
    (ended, page)
}

#[test]
fn a_refused_allocation_ends_ladder_explained(rt: HostRuntime) -> Result<(), Fail> {
    are_right(
        ladder_explained_of(rt.alloc()),
        ladder_explained_of(rt.alloc()),
    )
}

fn history_of(alloc: Global) -> (Came, Kept) {
    let (mut text, mut page) = (text_of(SCRIPT), Kept::new());
    let ended = came(history(alloc, End::A, &mut text, &mut page));
    (ended, page)
}

#[test]
fn a_refused_allocation_ends_history(rt: HostRuntime) -> Result<(), Fail> {
    are_right(history_of(rt.alloc()), history_of(rt.alloc()))
}

fn history_explained_of(alloc: Global) -> (Came, Kept) {
    let (mut text, mut page) = (text_of(SCRIPT), Kept::new());
    let ended = came(history_explained(alloc, End::A, &mut text, &mut page));
    (ended, page)
}

#[test]
fn a_refused_allocation_ends_history_explained(rt: HostRuntime) -> Result<(), Fail> {
    are_right(
        history_explained_of(rt.alloc()),
        history_explained_of(rt.alloc()),
    )
}

fn audit_of(alloc: Global) -> (Came, Kept) {
    let (mut text, mut page) = (text_of(HISTORY), Kept::new());
    let ended = came(audit(alloc, &mut text, &mut page));
    (ended, page)
}

#[test]
fn a_refused_allocation_ends_audit(rt: HostRuntime) -> Result<(), Fail> {
    are_right(audit_of(rt.alloc()), audit_of(rt.alloc()))
}

fn audit_explained_of(alloc: Global) -> (Came, Kept) {
    let (mut text, mut page) = (text_of(HISTORY), Kept::new());
    let ended = came(audit_explained(alloc, &mut text, &mut page));
    (ended, page)
}

#[test]
fn a_refused_allocation_ends_audit_explained(rt: HostRuntime) -> Result<(), Fail> {
    are_right(
        audit_explained_of(rt.alloc()),
        audit_explained_of(rt.alloc()),
    )
}

fn terminal_of(alloc: Global) -> (Came, Kept) {
    let (mut text, mut page) = (text_of(LINES), Kept::new());
    let ended = came(terminal(alloc, &mut text, &mut page));
    (ended, page)
}

#[test]
fn a_refused_allocation_ends_terminal(rt: HostRuntime) -> Result<(), Fail> {
    are_right(terminal_of(rt.alloc()), terminal_of(rt.alloc()))
}

fn terminal_explained_of(alloc: Global) -> (Came, Kept) {
    let (mut text, mut page) = (text_of(LINES), Kept::new());
    let ended = came(terminal_explained(alloc, &mut text, &mut page));
    (ended, page)
}

#[test]
fn a_refused_allocation_ends_terminal_explained(rt: HostRuntime) -> Result<(), Fail> {
    are_right(
        terminal_explained_of(rt.alloc()),
        terminal_explained_of(rt.alloc()),
    )
}

fn terminal_kept_of(alloc: Global) -> (Came, Kept) {
    let (mut text, mut page) = (text_of(LINES_AT_FAULT), Kept::new());
    let ended = came(terminal_kept(alloc, &mut text, &mut page));
    (ended, page)
}

#[test]
fn a_refused_allocation_ends_terminal_kept(rt: HostRuntime) -> Result<(), Fail> {
    are_right(terminal_kept_of(rt.alloc()), terminal_kept_of(rt.alloc()))
}

fn terminal_kept_explained_of(alloc: Global) -> (Came, Kept) {
    let (mut text, mut page) = (text_of(LINES_AT_FAULT), Kept::new());
    let ended = came(terminal_kept_explained(alloc, &mut text, &mut page));
    (ended, page)
}

#[test]
fn a_refused_allocation_ends_terminal_kept_explained(rt: HostRuntime) -> Result<(), Fail> {
    are_right(
        terminal_kept_explained_of(rt.alloc()),
        terminal_kept_explained_of(rt.alloc()),
    )
}

/// Whether each text is whole.
pub(crate) fn are_whole(alloc: Global) -> bool {
    units_of(alloc).0 == Came::Whole
        && decode_of(alloc).0 == Came::Whole
        && decode_explained_of(alloc).0 == Came::Whole
        && play_of(alloc).0 == Came::Whole
        && play_explained_of(alloc).0 == Came::Whole
        && capture_of(alloc).0 == Came::Whole
        && capture_explained_of(alloc).0 == Came::Whole
        && ladder_of(alloc).0 == Came::Whole
        && ladder_explained_of(alloc).0 == Came::Whole
        && history_of(alloc).0 == Came::Whole
        && history_explained_of(alloc).0 == Came::Whole
        && audit_of(alloc).0 == Came::Whole
        && audit_explained_of(alloc).0 == Came::Whole
        && terminal_of(alloc).0 == Came::Whole
        && terminal_explained_of(alloc).0 == Came::Whole
        && terminal_kept_of(alloc).0 == Came::Whole
        && terminal_kept_explained_of(alloc).0 == Came::Whole
}
