//! The finder of defences: which moves hold against continuous fours of the other side.
//!
//! At a position each move of the side to move is tried, and after each that goes on a win by continuous fours is searched for
//! the other side. So the moves that hold are known, all of them, and each other move has a node that wins after it. Where none
//! holds these nodes make a start, and the other side wins whatever is played first.
#![tactic(auto)]

mod finder;
mod laws;
mod written;

pub use finder::{DefenceAnswer, defences};
pub use laws::{defences_are_told, no_defence_loses, spent_is_told};
pub use strategy_compiler::SearchError;
pub use written::write_defences;
