//! Laws that speak of the model of places and codes alone.
ghost use Rattle.set_route.specs.Routing.{EachCodeMovesAlone, StreamsMoveAlone};

/// What each call does to one stream of a set. At an Up it runs on the link if it ran nowhere, or if its number
/// modulo the links is that link, it is not on its way back and no message of it was ever accepted. When a link is
/// left, and it was on its way to that link, it runs where it came from; when its link settles it runs on the target,
/// or nowhere, and where it came from that link, it comes from the target. It starts its way back if it has the home
/// and runs on the alternative that are asked for, and runs on its home when its code is given back. An accepted
/// message moves no stream.
pub fn streams_move_alone()
    ensures { StreamsMoveAlone }
{}

/// What each call does to one changeback code. When its home is left, and it was open, it is spent; asking for it
/// opens it; giving it back frees it. Asking for another code, or giving that back, leaves it.
pub fn each_code_moves_alone()
    ensures { EachCodeMovesAlone }
{}
