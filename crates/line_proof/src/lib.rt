//! Wins along a line of threats, proved against all replies.
//!
//! A sequence of threats says where to attack, but the other side may answer otherwise than it supposes. A line proof plays
//! the gains in their order and tries every reply. Wherever two continuous fours win, they end it; wherever the other side
//! threatens to win at once, its five point is taken first. So a sequence becomes a table of answers that is accepted.
#![tactic(auto)]

mod answers;
mod doubles;
mod fives;
mod proof;

pub use proof::{LineAnswer, prove_line};
pub use strategy_compiler::SearchError;

/// The most moves within which a line is proved.
pub const MAX_DEPTH: u32 = 60;
