//! Whether all that was offered was taken at the ends b, in order.
ghost use Rattle.std.specs.Prelude.{◌≡◌, ◌≢◌, ◌==◌, ◌<◌, ◌≤◌, ◌↔◌, true, IsTrue, MatchOption, map};
ghost use Rattle.set_model.specs.Rows.{stream_of};
ghost use Rattle.bank_traffic.specs.Opening.{body_of};
ghost use Rattle.run_text.specs.Verdict.{Follows, IsVerdict, TellsSet, TellsStream, taken_first};

use super::absence::cause_name;
use arrayvec::ArrayVec;
use bank_core::{SetEnd, UserFault, UserReport};
use bank_traffic::{Traffic, body_of};
use set_model::stream_of_body;
use std::fmt;
use std::fmt::Display;

/// Why a message is missing.
#[derive(Clone, Copy, Debug, PartialEq, Eq)]
pub enum Absence {
    /// Nothing waits, and nothing was given up, so it was lost.
    Lost,
    /// Its set gave messages up: this is the cause of the failure (Q.703 12) of the first of its links that failed, or 0.
    GivenUp { cause: u8 },
    /// The turns ended before all was offered and acknowledged.
    Unfinished,
}

/// The first message that wasn't taken as the next of its stream. Sets, streams and messages are counted from 0.
#[derive(Clone, Copy, Debug, PartialEq, Eq)]
pub struct Missing {
    /// The set.
    pub set: u64,
    /// The stream, which is that of the user of this number.
    pub stream: u16,
    /// Which of its messages is missing; as many as were offered where another came behind them.
    pub message: u16,
    /// Why.
    pub why: Absence,
}

impl Display for Missing {
    ghost use Rattle.std.specs.Prelude.{Some};
    ghost use Rattle.run_text.specs.Verdict.{missing_line};

    ghost output = { λ missing. Some (missing_line missing) };

    fn fmt<W: fmt::Write>(&self, f: &mut fmt::Formatter<W>) -> fmt::Result {
        let set = self.set;
        let stream = self.stream;
        let message = self.message;
        match self.why {
            Absence::Lost => {
                write!(
                    f,
                    "fault missing set={set} stream={stream} message={message}"
                )
            }
            Absence::GivenUp { cause } => {
                let name = cause_name(cause);
                write!(
                    f,
                    "fault given-up set={set} stream={stream} message={message} cause={name}"
                )
            }
            Absence::Unfinished => {
                write!(
                    f,
                    "fault unfinished set={set} stream={stream} message={message}"
                )
            }
        }
    }
}

/// The first message that is missing, set by set, and stream by stream, of what the one user at each of these ends b took; it
/// isn't looked at why.
pub fn find_missing(traffic: &Traffic, far: &[SetEnd]) -> Option<Missing>
    ensures { IsVerdict traffic.now.users traffic.now.messages 0 far.now result }
{
    let mut set: u64 = 0;
    for end in far {
        if let Some(missing) = missing_in(traffic, set, &end.users) {
            return Some(missing);
        }
        set += 1;
    }
    None
}

/// The first message that is missing in this set.
fn missing_in(
    traffic: &Traffic,
    set: u64,
    users: &[Result<UserReport, UserFault>],
) -> Option<Missing>
    ensures { TellsSet traffic.now.users traffic.now.messages set (taken_first users.now) result }
{
    let taken = match users.first() {
        Some(Ok(report)) => report.taken.as_slice(),
        _ => return missing_of_all(traffic, set, &[]),
    };
    missing_of_all(traffic, set, taken)
}

/// The first message that is missing in this set, where these were taken.
fn missing_of_all(traffic: &Traffic, set: u64, taken: &[ArrayVec<u8, 273>]) -> Option<Missing>
    ensures { TellsSet traffic.now.users traffic.now.messages set (map (λ body. body.items) taken.now) result }
{
    for stream in 0..traffic.users {
        if let Some(message) = missing_of(traffic.messages, stream, taken) {
            return Some(Missing {
                set,
                stream,
                message,
                why: Absence::Lost,
            });
        }
    }
    None
}

/// The first message of so many that is missing on this stream, where these were taken.
fn missing_of(messages: u16, stream: u16, taken: &[ArrayVec<u8, 273>]) -> Option<u16>
    ensures { TellsStream messages stream (map (λ body. body.items) taken.now) result }
{
    let mut came: u16 = 0;
    for body in taken {
        let Some(more) = follow(messages, stream, came, body.as_slice()) else {
            return Some(came);
        };
        came = more;
    }
    if came < messages { Some(came) } else { None }
}

/// How many messages of this stream came with this one, where so many came before it; `None` where it's one of the stream,
/// but not its next.
fn follow(messages: u16, stream: u16, came: u16, body: &[u8]) -> Option<u16>
    requires { came ≤ messages }
    ensures { MatchOption result
        ((stream_of body.now == stream ≡ true) × (came < messages → body.now ≢ body_of stream came))
        (λ more. Follows messages stream came body.now more) }
{
    if u16::from(stream_of_body(body)) != stream {
        return Some(came);
    }
    if came < messages && is_message(body, stream, came) {
        return Some(came + 1);
    }
    None
}

/// Whether this is the body of that message.
fn is_message(body: &[u8], stream: u16, number: u16) -> bool
    ensures { IsTrue result ↔ (body.now ≡ body_of stream number) }
{
    body == body_of(stream, number).as_slice()
}
