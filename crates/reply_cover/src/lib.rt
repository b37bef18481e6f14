//! Covers: a position that is won by many parts.
//!
//! Some wins fit no single table. But where each reply at a position leads to one at which the side to move is known to win, that
//! side wins whatever the reply. What is known of such a position is a part: its rule, its board and the moves of the win. A part
//! serves eight positions, since the image of a board under a symmetry is won exactly where the board is, so a part covers the board
//! after a reply where its board is an image of that one.
//!
//! Nothing is kept beside the parts, and no memory is taken: the replies are played one after another on the position that is lent,
//! and boards are compared point by point.
#![tactic(auto)]

mod covering;
mod images;
mod laws;

pub use covering::cover_by;
use game_rules::{Point, RuleKind};
pub use laws::{covers_are_exact, covers_win};
use stone_board::Board;

/// The most parts of a cover.
pub const MAX_PARTS: usize = 1_000;

/// A position at which the side to move is known to win.
#[derive(Drop)]
pub struct Part {
    /// Its rule.
    pub kind: RuleKind,
    /// Its board.
    pub board: Board,
    /// Within how many moves of its own the side to move wins there, whatever the replies.
    pub moves: u32,
}

/// What parts are to a position.
#[derive(Clone, Copy, Debug, PartialEq, Eq)]
pub enum Cover {
    /// Each reply that goes on is covered, and no reply wins or draws.
    Covered {
        /// The most moves of a part that covers a reply, or 0 if no reply goes on.
        moves: u32,
        /// How many replies go on.
        replies: u32,
        /// How many parts cover one.
        parts: u32,
    },
    /// This reply wins or draws, or goes on and no part covers it. It is the first such reply in reading order.
    Open(Point),
}
