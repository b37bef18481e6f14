//! The search for wins with quiet moves, and its zones.
//!
//! A quiet move threatens nothing at once, but after it a pass would lose. The search grows a tree of attacks and replies at its
//! most-proving leaf (Allis, van der Meulen and van den Herik, "Proof-Number Search"). After a quiet attack the win that follows a
//! pass is found first, and its zone tells which replies may harm it (the relevance zones of Wu and Lin, for Connect6, where the pass
//! is a null move). The others are answered by that win and get no node; those that may harm it are met by wins that are known
//! already, by fours and threats of their own, or get a node.
//!
//! The search is free: nothing is said of a node that it tells but that it is one of the compiler. Who calls it gives the table to
//! the checker. So what it remembers is tested where it is used, and no bound of it is taken on trust.
//!
//! Beside the compiler's nodes, with a flag for each, it keeps the tree and its notes (`quiet_tree`), `REMEMBERED` positions, and the
//! zones that were asked for (`quiet_zones`).
#![tactic(auto)]

mod answer;
mod attacks;
mod candidates;
mod closing;
mod defences;
mod finder;
mod known;
mod replies;
mod steps;
mod values;

pub use answer::quiet_search;
pub use strategy_compiler::SearchError;

/// The most moves within which a win with quiet moves is searched.
pub const MAX_DEPTH: u32 = 60;

/// The search ends once its searches for threats have listed so many positions for each node of the budget, in all rounds together.
const LOOKED_A_NODE: u64 = 8;

/// So many positions are remembered at most.
const REMEMBERED: u32 = 65_536;
