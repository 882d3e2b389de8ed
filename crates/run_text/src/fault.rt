//! Why a run came to no end.
ghost use Rattle.std.specs.Prelude.{◌≡◌};
ghost use Rattle.run_text.specs.Failures.{end_word};

use bank_core::UserFault;
use link_term::TermFault;
use pair_steps::End;
use std::fmt;
use std::fmt::Display;

/// Why a run came to no end, but for want of memory. Sets, users and links are counted from 0.
#[derive(Clone, Copy, Debug, PartialEq, Eq)]
pub enum RunFault {
    /// A thread couldn't be started.
    Thread,
    /// A set couldn't be closed.
    Close,
    /// This user of this end of a set ended before its job was done, by this fault.
    User {
        set: u64,
        end: End,
        user: u64,
        fault: UserFault,
    },
    /// The terminal of this link of this end of a set stopped early, by this fault.
    Terminal {
        set: u64,
        end: End,
        link: u64,
        fault: TermFault,
    },
}

impl Display for RunFault {
    ghost use Rattle.std.specs.Prelude.{Some};
    ghost use Rattle.run_text.specs.Failures.{fault_line};

    ghost output = { λ fault. Some (fault_line fault) };

    fn fmt<W: fmt::Write>(&self, f: &mut fmt::Formatter<W>) -> fmt::Result {
        match *self {
            RunFault::Thread => write!(f, "thread"),
            RunFault::Close => write!(f, "close"),
            RunFault::User {
                set,
                end,
                user,
                fault,
            } => {
                let end = word_of(end);
                let number = fault.number();
                write!(f, "user set={set} end={end} user={user} fault={number}")
            }
            RunFault::Terminal {
                set,
                end,
                link,
                fault,
            } => {
                let end = word_of(end);
                let number = fault.number();
                write!(f, "terminal set={set} end={end} link={link} fault={number}")
            }
        }
    }
}

/// The word for an end.
fn word_of(end: End) -> &'static str
    ensures { result.now ≡ end_word end }
{
    match end {
        End::A => "a",
        End::B => "b",
    }
}
