//! The laws of fours, each as the contract of a function that computes nothing.
//!
//! They tie what a move makes to what it leaves after the reply: a four leaves the defender one point at most.
#![tactic(auto)]

ghost use Rattle.threat_moves.specs.OneBlock.{BlockDecides, OthersLeaveFive};

/// In the game of continuous fours, in which each attack wins or leaves the attacker a five point, only the block of a four
/// needs an answer of its own. A four move starts a win within n + 1 moves as its fate says: never where the defender has
/// a five point or the one block fills the board; where the four has won always, but for n = 0 only if each reply fouls;
/// and where the one block goes on exactly if the attacker wins within n moves after it.
pub fn block_decides()
    ensures block { BlockDecides }
{}

/// After a four that has won, each reply that goes on leaves the attacker a five point; after one whose one block goes on,
/// each other reply that goes on does.
pub fn others_leave_five()
    ensures five { OthersLeaveFive }
{}
