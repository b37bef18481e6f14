//! A win that a search wrote into a compiler: the node that wins, and within how many moves.
//!
//! Every search of wins tells what it found in this way, whatever it looked for, so that a caller finishes each of them as a
//! table by one call, and knows the same of it. `specs/Wins.antt` says when a node and a number are such a win.
#![tactic(auto)]

/// A win that a search wrote: the side to move wins with this node of the compiler, within so many moves of its own, which are
/// the depth of the node.
#[derive(Clone, Copy, Debug, PartialEq, Eq)]
pub struct WrittenWin {
    pub node: u32,
    pub moves: u32,
}
