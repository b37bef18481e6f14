//! The search for wins by threats, led by proof numbers.
//!
//! In the game of threats each attack wins or leaves the attacker a five point or a double point, and the defender may
//! reply anywhere. The search grows a tree of its positions at the leaf that is the most proving one (Allis, van der
//! Meulen and van den Herik, "Proof-Number Search"). Most replies to a three are settled as soon as they are made, since
//! the double point still stands after them. One of them gets a node, and its win meets the others, which get none and
//! count nothing; so the tree holds few nodes that aren't open. Positions of the attacker that are settled are remembered, and
//! so is what a look at one of the defender came to, since moves in other orders lead there again.
//! Each of them that is won is compiled at once, so that a win of the root is a table.
#![tactic(auto)]

mod answer;
mod begin;
mod denials;
mod follow;
mod looks;
mod notes;
mod record;
mod search;
mod spans;
mod walk;

pub use answer::{ProofAnswer, proof_number};
pub use strategy_compiler::SearchError;

/// The most moves within which a win by threats is searched.
pub const MAX_DEPTH: u32 = 60;

/// The largest budget.
pub const MAX_BUDGET: u64 = 10_000_000;

/// So many settled positions are remembered at most.
const REMEMBERED: u32 = 65_536;
