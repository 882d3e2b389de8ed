//! A law of a terminal's turns, over definitions alone.
ghost use Rattle.term_asks.specs.Asking.{TurnsAskSo};

/// What a turn asks of the set, entry by entry, of ends that aren't busy and have no processor outage.
/// Its commands and its timers let a link fall, which the set is told where it's up there; but out of service it begins
/// to align if so commanded, and it's ready as its proving period ends. Commanded to stop it's out of service before it
/// hears anything. A FISU or an MSU brings up one that is ready; and each that comes while the link is up at the set is
/// heard there, and no status. What is sent next is the set's answer to Next where the link is up there; a FISU with the
/// numbers of the start where it's ready, or waits for Up; and else a status (Q.703 7, 11, 12).
pub fn a_turn_asks_by_where_its_link_stands()
    ensures { TurnsAskSo }
{}
