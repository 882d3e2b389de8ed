//! One more entry: it's counted where it's the next in turn, else it's written.
ghost use Rattle.std.specs.Prelude.{◌≡◌, ◌≤◌, ◌<◌, ◌^◌, ◌+◌, ◌-◌, ◌*◌, ◌++◌, [], ◌∷◌, List, length, drop, vec_len, vec_capacity};
ghost use Rattle.std.specs.Prelude.{IfSome, IsTrue, IsFalse};
ghost use Rattle.set_events.specs.Lent.{HasFitUnit, answer_in, body_in, event_in, octets_in};
ghost use Rattle.set_history.specs.Told.{entry_told, behind_entry};
ghost use Rattle.set_history.specs.Written.{entry_text, IsKept};
ghost use Rattle.set_history.specs.Runs.{begun, history_told, AreRuns, IsOneEnded, IsSmall, begun_at, IsOneMore};
ghost use Rattle.set_history.specs.declared.run.Run.{Run as HistoryRun};

use super::fill_in::behind_fill_in;
use super::octets::apart;
use super::run::{LastRun, Run};
use super::watch::Watch;
use super::writing::put_entry;
use set_events::{Actor, AnswerRef, EventRef};
use std::alloc::Allocator;

/// Of a run so many entries are counted at most, and none if it has more octets.
const MOST_IN_A_RUN: usize = 0xFFFF_FFFF;

/// No entry is counted of a run that ends behind more entries.
const MOST_BEFORE: usize = 1 << 61;

/// Counts this entry if it's the next in turn.
#[inline(always)]
pub(crate) fn counted(
    last: &mut LastRun,
    octets: &[u8],
    who: Actor,
    event: &EventRef<'_>,
    answer: &AnswerRef<'_>,
) -> bool
    requires few { last.old.entries + last.old.more ≤ last.old.len }
    requires bounded { 2 * last.old.len ≤ length octets.now + 2 ^ 63 }
    requires within { last.old.begin + last.old.skip ≤ length octets.now }
    ensures yes { (runs : List HistoryRun) → AreRuns runs last.old octets.now → IsTrue result
        → AreRuns runs last.new octets.now × (history_told runs last.new octets.now ≡ history_told runs last.old octets.now
        ++ record { who = who; event = event_in event.now; answer = answer_in answer.now } ∷ []) }
    ensures no { IsFalse result → last.new ≡ last.old }
{
    if last.next >= octets.len() || last.more >= MOST_IN_A_RUN {
        return false;
    }
    match again(octets, last, who, event, answer) {
        Some(next) => {
            last.next = next;
            last.more += 1;
            last.len += 1;
            true
        }
        None => false,
    }
}

/// Where the next entry in turn stands behind this one, if this one is the next in turn.
#[inline(always)]
fn again(
    octets: &[u8],
    last: &LastRun,
    who: Actor,
    event: &EventRef<'_>,
    answer: &AnswerRef<'_>,
) -> Option<usize>
    requires within { last.now.begin + last.now.skip ≤ length octets.now }
    ensures told { IfSome result (λ _. entry_told (drop last.now.next octets.now)
        ≡ record { who = who; event = event_in event.now; answer = answer_in answer.now }) }
    ensures next { IfSome result (λ next. drop next octets.now
        ≡ begun (drop (last.now.begin + last.now.skip) octets.now) (behind_entry (drop last.now.next octets.now))) }
{
    let (_, left) = apart(octets, last.next);
    match behind_fill_in(left, who, event, answer) {
        Some(rest) => Some(in_turn(octets, rest.len(), last)),
        None => None,
    }
}

/// Where the next entry in turn stands, with so many octets left of those that come in turn.
#[inline(always)]
fn in_turn(octets: &[u8], left: usize, last: &LastRun) -> usize
    requires left { left ≤ length octets.now }
    requires within { last.now.begin + last.now.skip ≤ length octets.now }
    ensures { drop result octets.now
        ≡ begun (drop (last.now.begin + last.now.skip) octets.now) (drop (length octets.now - left) octets.now) }
{
    if left == 0 {
        last.begin + last.skip
    } else {
        octets.len() - left
    }
}

/// Begins another run where entries of the last one were counted.
#[inline(always)]
#[tactic(auto, using(crate::proofs::OneMore::small_run))]
pub(crate) fn open_run<A: Allocator>(octets: &[u8], runs: &mut Vec<Run, A>, last: &mut LastRun)
    requires room { vec_len runs.old < vec_capacity runs.old }
    requires are { AreRuns runs.old.items last.old octets.now }
    ensures are { AreRuns runs.new.items last.new octets.now }
    ensures same { history_told runs.new.items last.new octets.now ≡ history_told runs.old.items last.old octets.now }
    ensures none { last.new.more ≡ 0 }
{
    if last.more > 0 {
        begin_run(octets.len(), runs, last);
    }
}

/// Ends the last run, and begins another.
#[inline(never)]
fn begin_run<A: Allocator>(octets: usize, runs: &mut Vec<Run, A>, last: &mut LastRun)
    requires room { vec_len runs.old < vec_capacity runs.old }
    requires some { 0 < last.old.entries }
    requires within { last.old.begin ≤ octets }
    requires small { IsSmall last.old octets }
    ensures runs { IsOneEnded runs.old.items runs.new.items last.old octets }
    ensures last { last.new ≡ begun_at octets last.old.len }
{
    runs.push_reserved(Run {
        entries: last.entries as u32,
        size: (octets - last.begin) as u32,
        skip: last.skip as u32,
        more: last.more as u32,
    });
    *last = LastRun {
        begin: octets,
        entries: 0,
        skip: 0,
        more: 0,
        next: octets,
        len: last.len,
    };
}

/// Writes this entry, for which there is room. Conditions: as of [`put_entry`]. Out of line, since an idle link comes here
/// seldom.
#[inline(never)]
pub(crate) fn written<A: Allocator>(
    octets: &mut Vec<u8, A>,
    last: &mut LastRun,
    watch: &mut Watch,
    who: Actor,
    event: &EventRef<'_>,
    answer: &AnswerRef<'_>,
)
    requires room { vec_len octets.old + (37 + length (octets_in event.now) + length (body_in answer.now))
        ≤ vec_capacity octets.old }
    requires unit { HasFitUnit event.now }
    requires answer { length (body_in answer.now) ≤ 273 }
    requires few { last.old.entries + last.old.more ≤ last.old.len }
    requires bounded { 2 * last.old.len ≤ length octets.old.items + 2 ^ 63 }
    requires within { last.old.begin ≤ length octets.old.items }
    ensures items { octets.new.items ≡ octets.old.items
        ++ entry_text (record { who = who; event = event_in event.now; answer = answer_in answer.now }) }
    ensures kept { IsKept (record { who = who; event = event_in event.now; answer = answer_in answer.now }) }
    ensures last { IsOneMore last.old last.new (length octets.new.items) }
{
    let from = octets.len();
    put_entry(octets, who, event, answer);
    let to = octets.len();
    let back = watch.back(event, from, to);
    let next = expected(back, last, to);
    *last = LastRun {
        begin: last.begin,
        entries: last.entries + 1,
        skip: next - last.begin,
        more: last.more,
        next,
        len: last.len + 1,
    };
}

/// The place so far back, if entries may be counted from there on; else the end.
fn expected(back: usize, last: &LastRun, to: usize) -> usize
    requires { last.now.begin ≤ to }
    ensures within { (last.now.begin ≤ result) × (result ≤ to) }
    ensures counts { result < to → (to < last.now.begin + 2 ^ 32) × (last.now.len < 2 ^ 61) }
{
    let size = to - last.begin;
    if back > size || size >= MOST_IN_A_RUN || last.len >= MOST_BEFORE {
        to
    } else {
        to - back
    }
}
