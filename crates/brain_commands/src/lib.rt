//! The commands that let the brain play: `brain`, which serves a game manager, and `drill`, which counts what it does.
//!
//! Each has a file here and one in `specs/`: its words, what its runs show, and when it is sure to answer.
#![tactic(auto)]

mod brain;
mod drill;

pub use brain::{play, play_with};
pub use drill::print_drill;

/// The greatest number of a drill.
pub const MAX_DRILL: u32 = 999_999;
