//! Quiet points: empty points with too few stones of Black within reach for a foul or a five.
//!
//! Most points are quiet, so most moves of Black are told to go on by a look at their lines. A stone of White leaves the other quiet
//! points quiet.
#![tactic(auto)]

ghost use Rattle.std.specs.Prelude.{IsTrue};
ghost use Rattle.threat_game.specs.QuietPoints.{IsQuiet, HasTwoQuiet};

use row_shapes::stones_in_reach;
use stone_board::{Axis, Board, Point, Side};

/// Whether the point is quiet: it is empty, and fewer than two stones of Black are within reach of it on each axis.
pub(crate) fn is_quiet(board: &Board, p: Point) -> bool
    ensures quiet { IsTrue result → IsQuiet board.now p }
{
    board.is_empty(p)
        && stones_in_reach(board, Side::Black, Axis::Row, p) < 2
        && stones_in_reach(board, Side::Black, Axis::Column, p) < 2
        && stones_in_reach(board, Side::Black, Axis::Down, p) < 2
        && stones_in_reach(board, Side::Black, Axis::Up, p) < 2
}

/// Whether there are two quiet points.
pub(crate) fn has_two_quiet(board: &Board) -> bool
    ensures two { IsTrue result → HasTwoQuiet board.now }
{
    let mut first: Option<Point> = None;
    for q in board.points() {
        if is_quiet(board, q) {
            match first {
                None => first = Some(q),
                Some(p) => {
                    if !p.is(q) {
                        return true;
                    }
                }
            }
        }
    }
    false
}
