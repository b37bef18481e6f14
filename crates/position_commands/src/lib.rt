//! The commands that are told a position and need no search of threats in every order: `foul`, `fours`, `threats` and `defend`.
//!
//! Each has a file here and one in `specs/`: its words, what it says of a position, and when it is sure to answer.
#![tactic(auto)]

mod defend;
mod fouls;
mod fours;
mod threats;

pub use defend::{Defend, lost_text_is_one};
pub use fouls::ListFouls;
pub use fours::{Fours, table_text, win_text};
pub use threats::FindSequence;
