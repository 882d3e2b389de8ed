//! What can happen in a world where a link may come up at one end alone.
use pair_steps::{End, Step};

/// What can happen in a world where a link may come up at one end alone. A link may be one that the world hasn't; such
/// a move is impossible.
#[derive(Debug, Drop)]
pub enum Move {
    /// A step, as in a world where links come up at both ends together.
    Step(Step),
    /// The link, settled at the end, comes up there alone. Where it's settled at the other end too a life of the link
    /// begins, and nothing is under way on it, either way; else the end joins that of the other, and what is under way
    /// stays so.
    Rise { end: End, link: u8 },
    /// The end's terminal, ready on the link before the end's set has it up, sends a FISU, which joins the link's line
    /// to the other end: that of an end that sent and accepted nothing (Q.703 12.1). The set isn't asked for it.
    Fill { end: End, link: u8 },
}
