//! The shapes of the lines through a point of a board, by the bits of the lines.
//!
//! Black and White may have other shapes under one rule, and other reaches.
#![tactic(auto)]

ghost use Rattle.std.specs.Prelude.{◌≡◌, IsTrue};
ghost use Rattle.game_rules.specs.Grid.{is_empty};
ghost use Rattle.row_shapes.specs.Rule.{reach_of as reach_of_lem};
ghost use Rattle.row_shapes.specs.LineCodes.{line_code};
ghost use Rattle.row_shapes.specs.LineShapes.{shape_of, shape_at as shape_at_lem, IsShape};

use crate::places::{places_around, shape_of_places};
use crate::{Rule, Shape, Shapes};
use stone_board::{Axis, Board, Point, Side};

/// The shape that a stone of the side makes on an empty point. It is the shape of the line's code, and what the stone makes; an
/// overline is told only where five neighbours each way are seen. No memory is taken.
#[inline(always)]
pub fn shape_at<R: Rule>(board: &Board, p: Point, axis: Axis, side: Side) -> Shape
    requires empty { IsTrue (is_empty board.now p) }
    ensures shape { result ≡ shape_of (reach_of_lem R.KIND side) (line_code (reach_of_lem R.KIND side) board.now side axis p) }
    ensures made { IsShape (reach_of_lem R.KIND side) result (shape_at_lem R.KIND board.now side axis p) }
{
    let reach = reach_of::<R>(side);
    let places = places_around(board, p, axis, side, reach);
    shape_of_places(reach, places.own, places.taken)
}

/// How many neighbours each way the codes of the side have.
#[inline(always)]
pub fn reach_of<R: Rule>(side: Side) -> usize
    ensures reach { result ≡ reach_of_lem R.KIND side }
{
    match side {
        Side::Black => R::Black::REACH,
        Side::White => R::White::REACH,
    }
}
