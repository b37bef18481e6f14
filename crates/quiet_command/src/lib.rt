//! The command `quiet`, which alone needs the search for wins with quiet moves.
#![tactic(auto)]

mod quiet;

pub use quiet::Quiet;
