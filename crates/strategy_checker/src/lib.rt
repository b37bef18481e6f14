//! The checker of tables: whether a table wins from a position, whatever the replies.
//!
//! `check` walks through a table as the game would: it plays the attack of a node, asks every reply, and goes on with the
//! answer to each. It counts its arrivals at nodes and stops where the work is spent. A table that it accepts wins: the
//! depth of the root is a number of moves within which the side to move has won, whatever the opponent does. The checker
//! believes nothing of a table; who made it, and how, plays no part.
#![tactic(auto)]

mod checks;
mod error;
mod held;
mod meeting;
mod others;
mod outlook;
mod walk;

pub use checks::{check, check_root, check_start};
pub use error::HeldError;
pub use held::{Held, HeldRoot};
use stone_board::Points;
pub use strategy_graph::Why;

/// The most roots that are held with one table.
pub const MAX_ROOTS: u32 = 1_000;

/// What the checker says of a table at a position.
#[derive(Debug, Drop)]
pub enum Verdict {
    /// The table is accepted. It wins within `moves` attacks, and nodes were arrived at `arrivals` times.
    Accepted { moves: u32, arrivals: u64 },
    /// The table is not accepted. The moves of `line` lead to a fault, and `why` says which it is.
    Refused { line: Points, why: Why },
    /// There are more arrivals than the work allows.
    Spent,
}
