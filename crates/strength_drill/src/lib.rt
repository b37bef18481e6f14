//! The drill: the search, the checker and the brain at work on positions that are made of a number.
//!
//! Each of the positions is searched for a win by continuous fours. The table of a win is checked, and played by a brain that holds
//! it, until the game is ended. What is counted shows that the parts agree: each table is accepted, and each game is won.
#![tactic(auto)]

mod counts;
mod draws;
mod drill;
mod drill_game;
mod positions;

pub use counts::Counts;
pub use drill::drill_counts;

/// How many positions a drill makes.
pub const POSITIONS: u32 = 60;
