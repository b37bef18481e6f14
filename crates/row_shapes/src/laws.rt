//! The law of reach, as the contract of a function that computes nothing.
//!
//! It lets a table over codes stand in for the calls on boards.
#![tactic(auto)]

ghost use Rattle.row_shapes.specs.LineShapes.{LawOfReach};

/// The shape of the code of a line is the one that a stone makes there, on every board: it depends on so few neighbours.
pub fn shapes_have_reach()
    ensures reach { LawOfReach }
{}
