//! The command `solve`, which alone needs the search by proof numbers.
#![tactic(auto)]

mod solve;

pub use solve::Solve;
