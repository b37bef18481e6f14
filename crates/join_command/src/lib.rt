//! The command `join`: one table that is made of the tables of many files.
//!
//! Where each reply to an attack leads to a position that some file wins, one table has the attack and, for each reply, the root of a
//! file. `answering` finds which of the files answers after a reply, `adopting` puts their nodes into one compiler, and `joining` makes
//! the table and tells it, or a reply that no file answers.
#![tactic(auto)]

mod adopting;
mod answering;
mod joining;
mod meeting;

pub use joining::{Joining, join_with};

/// The most pairs of a node and a board that are looked at to tell whether a root answers by a zone.
pub const MAX_PAIRS: u64 = 1_000_000_000_000;
