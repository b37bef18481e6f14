//! The search for wins by continuous fours.
//!
//! Each attack makes a five or a four, so the defender has at most one move that does not lose at once: the block. Only it
//! is tried (Allis, van den Herik and Huntjens, "Go-Moku and Threat-Space Search"), and still the answers are those of
//! all replies. The depth grows move by move, so the first win that is found has the fewest moves.
#![tactic(auto)]

mod answer;
mod calm;
mod fewest;
mod four_points;
mod gaps;
mod memory;
mod plan;
mod root;
mod search;

pub use answer::{
    FourAnswer, finds_fours, finds_fours_without_fives, four_search, four_search_with,
};
pub use fewest::{FewestWin, FourTable, fewest_win};
pub use memory::FourMemory;
pub use strategy_compiler::SearchError;

/// The most moves within which a win by fours is searched.
pub const MAX_DEPTH: u32 = 60;
