//! The tree of the search for quiet moves, which stays within its bound, and what is noted of its nodes.
//!
//! It is a tree of `proof_tree` that grows to its bound at most, with small numbers at its leaves, so that no sum comes to infinity.
//! Every look at it, and at a note, is tested, and one past an end answers a blank.
#![tactic(auto)]

mod notes;
mod tree_growth;

pub use notes::{Note, Notes};
pub use tree_growth::{grow_leaf, is_decided, link_of, lone_leaf, numbers_of, settle_leaf};

/// The most nodes of a tree.
pub const MAX_LISTED: u32 = 4_000_000;

/// The greatest number that a node begins with.
const MOST_NUMBER: u32 = 1_000;

/// So many answers to replies without a node are kept at most.
const MOST_ANSWERS: usize = 16_777_216;
