//! What the table keeps over every run, that is over every list of inputs from a link that isn't activated. Each
//! function does nothing: its contract is the law, and calling it costs nothing.

ghost use Rattle.l3_link.specs.Laws.{NeverLeftWaiting, OffIsSilent, StartsAfterT17, StartsSettled, TimedAfterWait};

/// A deactivated link is Off, none of its timers runs, and until it's activated it asks nothing.
pub fn a_deactivated_link_is_silent()
    ensures { OffIsSilent }
{}

/// An activated link is never left waiting: at rest T17 runs, or T1 or T2 since it was left; tested, T1 of Q.707, and
/// while it carries traffic T2 of Q.707, so that it's tested again (2.2). None has more turns left than its length.
pub fn a_link_is_never_left_waiting()
    ensures { NeverLeftWaiting }
{}

/// A link isn't started before T17 has ended since it went out of service (Q.704 12.2.2).
pub fn a_link_rests_for_t17()
    ensures { StartsAfterT17 }
{}

/// A link is started only where it's settled what the far end has of its last life (own).
pub fn a_link_is_started_settled()
    ensures { StartsSettled }
{}

/// A link that was left isn't given up before T1, or T2 where another link carries traffic (Q.704 5.6.2, 5.7.2).
pub fn a_link_is_given_up_in_time()
    ensures { TimedAfterWait }
{}
