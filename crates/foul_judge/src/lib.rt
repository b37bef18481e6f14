//! Fouls of Black, outcomes of moves, and lawful positions under a rule.
//!
//! A position is lawful by its type: its counts name a side to move, neither side has a winning run, and some point is
//! empty. The searches see a position through `Seen`, however it is kept.
#![tactic(auto)]

mod foul;
mod outcome;
mod position;
mod seen;
mod shapes;
mod short_cut;

pub use foul::foul_at;
pub use game_rules::{Foul, Outcome};
pub use outcome::{mover, outcome_at};
pub use position::{Position, PositionError, refusal};
pub use seen::Seen;
