//! What can happen to two ends that are joined by lines of octets.
use link_term::{Command, Timers};
use pair_steps::End;
use set_events::{Actor, Event, SetConfig};

/// What an end is opened with.
#[derive(Clone, Copy, Debug, PartialEq, Eq)]
pub struct EndConfig {
    /// Its set.
    pub set: SetConfig,
    /// The timers of its links' terminals, in octet times (Q.703 12.3).
    pub timers: Timers,
}

/// How many octets are under way on a link at first, one way and the other: how long its lines are.
#[derive(Clone, Copy, Debug, PartialEq, Eq)]
pub struct LineLengths {
    /// To end A.
    pub to_a: u16,
    /// To end B.
    pub to_b: u16,
}

/// What can happen to two ends that are joined by lines of octets.
#[derive(Debug, Drop)]
pub enum WireStep {
    /// A turn of the link's terminal at the end, by the octet in front of the line to it; the octet that it puts joins
    /// the line to the other end.
    Turn {
        end: End,
        link: u8,
    },
    /// A command to the link's terminal at the end, which is obeyed in its next turn. One by which the link would come
    /// up does nothing while the end's set has left the link and not settled it.
    Command {
        end: End,
        link: u8,
        command: Command,
    },
    /// What the end's set is asked by its users and by level 3; it answers at once.
    Ask {
        end: End,
        who: Actor,
        event: Event,
    },
    /// The octet at this place of the link's line to the end, counted from 0, comes as another.
    Damage {
        end: End,
        link: u8,
        place: u64,
        octet: u8,
    },
}
