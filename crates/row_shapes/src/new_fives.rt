//! The five points that a stone makes, found on the lines through it.
//!
//! A side with no five point gets one by a stone only where the stone is in the winning run: so the five point is the end
//! of a run of the new stone, the first point in one of the eight directions that holds no stone of the side. No board is
//! scanned, and no stone is put.
#![tactic(auto)]

ghost use Rattle.std.specs.Prelude.{◌≡◌, ◌<◌, false, IsTrue, Some};
ghost use Rattle.game_rules.specs.Grid.{IsBoard, is_on, is_empty, put};
ghost use Rattle.game_rules.specs.Games.{five_points, has_five};
ghost use Rattle.game_rules.specs.Ways.{opposite, stones_towards as stones_towards_lem};
ghost use Rattle.row_shapes.specs.FivePoints.{in_short};
ghost use Rattle.row_shapes.specs.FiveEnds.{end_five as end_five_lem, with_more as with_more_lem, with_axis as with_axis_lem, joins_to_win as joins_to_win_lem};

use crate::row_at::RowAt;
use crate::windows::may_make_five;
use crate::{FivePoints, Rule};
use stone_board::{Axis, Board, Point, Side, Way};

/// The five points that the side has after its stone on an empty point, where it has none before it. Only the four lines
/// through the point are looked at. No memory is taken.
pub fn fives_made<R: Rule>(board: &Board, side: Side, p: Point) -> FivePoints
    requires empty { IsTrue (is_empty board.now p) }
    requires none { has_five R.KIND board.now side ≡ false }
    ensures made { result ≡ in_short (five_points R.KIND (put board.now side p) side) }
{
    let found = with_axis::<R>(board, side, p, FivePoints::None, Axis::Row);
    let found = with_axis::<R>(board, side, p, found, Axis::Column);
    let found = with_axis::<R>(board, side, p, found, Axis::Down);
    with_axis::<R>(board, side, p, found, Axis::Up)
}

/// The five points told so far, and those at the two ends on one axis of the run of a new stone on `p`.
#[inline(always)]
pub fn with_axis<R: Rule>(
    board: &Board,
    side: Side,
    p: Point,
    found: FivePoints,
    axis: Axis,
) -> FivePoints
    requires empty { IsTrue (is_empty board.now p) }
    ensures fives { result ≡ with_axis_lem R.KIND board.now side p found axis }
    ensures board { IsBoard board.now }
{
    if !may_make_five(board, side, axis, p) {
        return found;
    }
    let ahead = board.stones_towards(Way::Ahead, side, axis, p);
    let behind = board.stones_towards(Way::Behind, side, axis, p);
    let row = RowAt {
        side,
        axis,
        point: p,
    };
    let found = with_more(found, end_five::<R>(board, row, Way::Ahead, ahead, behind));
    with_more(found, end_five::<R>(board, row, Way::Behind, behind, ahead))
}

/// The end in that way of the run of a new stone on the row's point, if a further stone there wins on the axis. `near` stones
/// stand next to the point in that way, and `far` in the other.
#[tactic(auto, unfolding(crate::specs::FiveEnds::end_five))]
#[inline(always)]
fn end_five<R: Rule>(board: &Board, row: RowAt, way: Way, near: u32, far: u32) -> Option<Point>
    requires empty { IsTrue (is_empty board.now row.point) }
    requires near { near ≡ stones_towards_lem way board.now row.side row.axis row.point }
    requires far { far ≡ stones_towards_lem (opposite way) board.now row.side row.axis row.point }
    requires bound { near < 64 }
    requires far_bound { far < 64 }
    ensures five { result ≡ end_five_lem R.KIND board.now row.side row.axis row.point way }
{
    match board.step_towards(way, row.axis, row.point, 1 + near as u8) {
        None => None,
        Some(q) => {
            if joins_to_win::<R>(board, row.side, row.axis, way, q, 1 + near + far) {
                Some(q)
            } else {
                None
            }
        }
    }
}

/// Whether the end `q` is empty, and a stone on it wins on the axis, where it joins a run of `length` stones.
#[inline(always)]
fn joins_to_win<R: Rule>(
    board: &Board,
    side: Side,
    axis: Axis,
    way: Way,
    q: Point,
    length: u32,
) -> bool
    requires on { IsTrue (is_on board.now q) }
    requires bound { length < 128 }
    ensures wins { result ≡ joins_to_win_lem R.KIND board.now side axis way q length }
    ensures board { IsBoard board.now }
{
    board.is_empty(q) && R::wins(side, 1 + length + board.stones_towards(way, side, axis, q))
}

/// The five points told so far, and one more if there is one.
fn with_more(found: FivePoints, more: Option<Point>) -> FivePoints
    ensures more { result ≡ with_more_lem found more }
{
    match more {
        None => found,
        Some(q) => with_point(found, q),
    }
}

/// The five points told so far, and this one, which may be told already.
fn with_point(found: FivePoints, q: Point) -> FivePoints
    ensures more { result ≡ with_more_lem found (Some q) }
{
    match found {
        FivePoints::None => FivePoints::One(q),
        FivePoints::One(w) => {
            if w.x == q.x && w.y == q.y {
                FivePoints::One(w)
            } else {
                FivePoints::Several
            }
        }
        FivePoints::Several => FivePoints::Several,
    }
}
