//! The short cut of the foul judge.
//!
//! Most empty points can be no foul of Black, and the stones next to them tell so: a four needs three other stones in one
//! row with one gap at most, a five and an overline more, and two threes need two others on each of two axes. So most points are
//! decided before a shape is worked out. For the rest the numbers, counted once, tell which axes can have a four or a three: no
//! shape is worked out on another.
#![tactic(auto)]

ghost use Rattle.std.specs.Prelude.{◌≡◌, IsTrue, nat_le};
ghost use Rattle.std.specs.List.{list_any};
ghost use Rattle.game_rules.specs.Grid.{IsBoard, is_on};
ghost use Rattle.foul_judge.specs.ShortCut.{reaches_of, may_foul as may_foul_lem, may_have_two_threes as may_have_two_threes_lem};

use row_shapes::stones_in_reach;
use stone_board::{Axis, Board, Point, Side};

/// How many stones of Black are within reach of the point on each axis, in the order of the axes. A stone on the point
/// itself makes no difference.
#[tactic(auto, unfolding(crate::specs::ShortCut::reaches_of))]
pub(crate) fn reaches(board: &Board, p: Point) -> [u32; 4]
    requires on { IsTrue (is_on board.now p) }
    ensures reaches { result ≡ reaches_of board.now p }
    ensures board { IsBoard board.now }
{
    [
        stones_in_reach(board, Side::Black, Axis::Row, p),
        stones_in_reach(board, Side::Black, Axis::Column, p),
        stones_in_reach(board, Side::Black, Axis::Down, p),
        stones_in_reach(board, Side::Black, Axis::Up, p),
    ]
}

/// Whether Black's stone on a point with these reaches could be a foul. Where it could not, it is none, and no five.
#[inline(always)]
#[tactic(auto, unfolding(crate::specs::ShortCut::may_foul))]
pub(crate) fn may_foul(reaches: &[u32; 4]) -> bool
    ensures may { result ≡ may_foul_lem reaches.now }
{
    may_have_four(reaches) || may_have_two_threes(reaches)
}

/// Whether three stones or more are within reach on some axis, as a four, a five and an overline need.
#[inline(always)]
fn may_have_four(reaches: &[u32; 4]) -> bool
    ensures may { result ≡ list_any (λ reach. nat_le 3 reach) reaches.now }
{
    reaches.iter().any(|reach| *reach >= 3)
}

/// Whether two stones or more are within reach on each of two axes, as two threes need.
#[inline(always)]
#[tactic(auto, unfolding(crate::specs::ShortCut::may_have_two_threes))]
fn may_have_two_threes(reaches: &[u32; 4]) -> bool
    ensures may { result ≡ may_have_two_threes_lem reaches.now }
{
    reaches.iter().filter(|reach| **reach >= 2).count() >= 2
}
