//! Laws of the numbers, over definitions alone.
ghost use Rattle.l2_window.specs.Window.{NumbersTellPlaces, NumbersNeverMislead};

/// The FSN of an unacknowledged message tells its place: its distance from the number last
/// acknowledged is one more. So no two of at most 127 messages share a number.
pub fn numbers_tell_places()
    ensures { NumbersTellPlaces }
{}

/// On a link whose lines keep order, the numbers that can meet lie in one span of 128: a BSN
/// acknowledges just what was accepted when it was sent, and an FSN is the next one, or the last,
/// exactly where the message it stands for is.
pub fn numbers_never_mislead()
    ensures { NumbersNeverMislead }
{}
