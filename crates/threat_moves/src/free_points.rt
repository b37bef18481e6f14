//! Points that stay no foul, wherever the other side puts a stone.
//!
//! Such a stone can make a point a foul: it can take the foul from a point that gives a straight four, and then the three
//! counts. A point with fewer than two threes, as far as each axis decides, stays free.
#![tactic(auto)]

ghost use Rattle.std.specs.Prelude.{◌≡◌, ◌≤◌, ◌<◌, false, IsTrue};
ghost use Rattle.std.specs.List.{count_by};
ghost use Rattle.game_rules.specs.Grid.{IsBoard, is_empty, holds, put, axes};
ghost use Rattle.game_rules.specs.Play.{has_fouls as has_fouls_lem};
ghost use Rattle.foul_judge.specs.ShortCut.{has_line_three};
ghost use Rattle.threat_moves.specs.FreePoints.{StaysFree};

use row_shapes::{Rule, three_points};
use stone_board::{Axis, Board, Point, Side};

/// Whether the side has no fouls, or fewer than two axes have three points of its stone on the empty point, as far as each axis
/// decides. Then the stone, if it is no foul, stays none wherever the other side puts a stone. The board is as before.
pub fn stays_free<R: Rule>(board: &mut Board, side: Side, p: Point) -> bool
    requires empty { IsTrue (is_empty board.old p) }
    ensures stays { IsTrue result → StaysFree R.KIND board.old side p }
    ensures fouls { result ≡ false → IsTrue (has_fouls_lem R.KIND side) }
    ensures threes { result ≡ false → 2 ≤ count_by (λ d. has_line_three R.KIND (put board.old Side.Black p) d p) axes }
    ensures same { board.new ≡ board.old }
{
    if !R::has_fouls(side) {
        return true;
    }
    has_few_threes::<R>(board, p)
}

/// Whether fewer than two axes have three points of Black's stone on the empty point, as far as each axis decides. The board is
/// as before.
pub(crate) fn has_few_threes<R: Rule>(board: &mut Board, p: Point) -> bool
    requires empty { IsTrue (is_empty board.old p) }
    ensures few { IsTrue result → count_by (λ d. has_line_three R.KIND (put board.old Side.Black p) d p) axes < 2 }
    ensures many { result ≡ false → 2 ≤ count_by (λ d. has_line_three R.KIND (put board.old Side.Black p) d p) axes }
    ensures same { board.new ≡ board.old }
    ensures board { IsBoard board.old }
{
    board.put(p, Side::Black);
    let few = line_threes::<R>(board, p) < 2;
    board.lift(p);
    few
}

/// On how many axes Black's stone on `p` has three points, as far as each axis decides.
fn line_threes<R: Rule>(board: &Board, p: Point) -> u32
    requires stone { IsTrue (holds board.now Side.Black p) }
    ensures threes { result ≡ count_by (λ d. has_line_three R.KIND board.now d p) axes }
{
    u32::from(some_three::<R>(board, Axis::Row, p))
        + u32::from(some_three::<R>(board, Axis::Column, p))
        + u32::from(some_three::<R>(board, Axis::Down, p))
        + u32::from(some_three::<R>(board, Axis::Up, p))
}

/// Whether Black's stone on `p` has three points on the axis, as far as the axis decides.
fn some_three<R: Rule>(board: &Board, axis: Axis, p: Point) -> bool
    requires stone { IsTrue (holds board.now Side.Black p) }
    ensures three { result ≡ has_line_three R.KIND board.now axis p }
{
    three_points::<R>(board, p, axis) != 0
}
