//! Points at which Black's stone is no foul, wherever White plays first.
//!
//! Where there are two of them no move of White leaves Black fouls alone, so that White's last move can win by a five only. Mostly two
//! corners of the board are such points, since few stones of Black stand near them.
#![tactic(auto)]

ghost use Rattle.std.specs.Prelude.{◌≡◌, ◌<◌, true, IsTrue};
ghost use Rattle.game_rules.specs.Grid.{IsBoard, is_on};
ghost use Rattle.game_rules.specs.declared.Side.{Side};
ghost use Rattle.row_shapes.specs.Reach.{stones_in_reach as stones_in_reach_lem};
ghost use Rattle.four_search.specs.CalmPoints.{IsCalm, HasCalmPoints};

use row_shapes::stones_in_reach;
use stone_board::{Axis, Board, Point, Side};

/// Whether two corners of the board are such points for sure.
pub(crate) fn has_calm_corners(board: &Board) -> bool
    ensures calm { result ≡ true → HasCalmPoints board.now }
{
    let last = Point {
        x: board.width() - 1,
        y: board.height() - 1,
    };
    is_calm(board, Point { x: 0, y: 0 }) && is_calm(board, last)
}

/// Whether the point is empty and has fewer than two stones of Black within reach on each axis.
fn is_calm(board: &Board, p: Point) -> bool
    ensures calm { result ≡ true → IsCalm board.now p }
    ensures board { IsBoard board.now }
{
    if !board.is_empty(p) {
        return false;
    }
    has_few(board, Axis::Row, p)
        && has_few(board, Axis::Column, p)
        && has_few(board, Axis::Down, p)
        && has_few(board, Axis::Up, p)
}

/// Whether fewer than two stones of Black are within reach of the point on the axis.
#[inline(always)]
fn has_few(board: &Board, axis: Axis, p: Point) -> bool
    requires on { IsTrue (is_on board.now p) }
    ensures few { result ≡ true → stones_in_reach_lem board.now Side.Black axis p < 2 }
{
    stones_in_reach(board, Side::Black, axis, p) < 2
}
