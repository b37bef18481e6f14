//! What the walk of zones keeps of a node whose zone is being made.
#![tactic(auto)]

use stone_board::Point;

/// A node whose attack stands on the board: its zone so far, that of its rest after a pass once it is told, and how far the replies
/// have been gone through.
#[derive(Clone, Copy)]
pub(crate) struct Frame {
    pub(crate) node: u32,
    /// The node that answers the replies that are not listed.
    pub(crate) rest: u32,
    pub(crate) zone: u32,
    pub(crate) passed: Option<u32>,
    /// Where the next reply is looked for, in reading order.
    pub(crate) place: usize,
    /// The reply that stands on the board, if the walk is behind one.
    pub(crate) reply: Option<Point>,
}
