//! Stones within reach of a point.
//!
//! A four, a straight four that one stone makes of a three, and an overline are rows through the point with one empty
//! point among them at most. So few walks from the point, and no stone put, tell of most points that no such row can
//! hold them.
#![tactic(auto)]

ghost use Rattle.std.specs.Prelude.{◌≡◌, ◌≤◌, ◌+◌, false, IsTrue};
ghost use Rattle.game_rules.specs.Grid.{IsBoard, is_on};
ghost use Rattle.game_rules.specs.Ways.{towards as towards_lem};
ghost use Rattle.stone_board.specs.Steps.{kept_on};
ghost use Rattle.row_shapes.specs.Reach.{stones_past as stones_past_lem, stones_in_reach as stones_in_reach_lem};

use stone_board::{Axis, Board, Point, Side, Way, place_on};

/// How many stones of the side are within reach of a point on the axis: those next to it in both ways, and those past one
/// empty point in one way, over the better one of the two. What stands on the point itself does not count.
#[inline(always)]
pub fn stones_in_reach(board: &Board, side: Side, axis: Axis, p: Point) -> u32
    requires on { IsTrue (is_on board.now p) }
    ensures reach { result ≡ stones_in_reach_lem board.now side axis p }
    ensures board { IsBoard board.now }
{
    if !has_near(board, side, axis, p) {
        return 0;
    }
    let ahead = board.stones_towards(Way::Ahead, side, axis, p);
    let behind = board.stones_towards(Way::Behind, side, axis, p);
    let past_ahead = stones_past(board, Way::Ahead, side, axis, p, ahead as u8);
    let past_behind = stones_past(board, Way::Behind, side, axis, p, behind as u8);
    (ahead + behind + past_ahead).max(behind + ahead + past_behind)
}

/// Whether a stone of the side stands on one of the two places next to the point, in one way or the other. Where none does, none
/// is within reach.
#[inline(always)]
fn has_near(board: &Board, side: Side, axis: Axis, p: Point) -> bool
    requires on { IsTrue (is_on board.now p) }
    ensures none { result ≡ false → stones_in_reach_lem board.now side axis p ≡ 0 }
    ensures board { IsBoard board.now }
{
    let bits = u64::from(board.line_through(side, axis, p));
    bits << 2 >> place_on(axis, p) & 0b11011 != 0
}

/// How many stones of the side stand in an unbroken row past the point next to the `near` stones in that way, if that
/// point is on the board and empty.
#[inline(always)]
fn stones_past(board: &Board, way: Way, side: Side, axis: Axis, p: Point, near: u8) -> u32
    requires on { IsTrue (is_on board.now p) }
    requires near { near ≤ 64 }
    ensures past { result ≡ stones_past_lem way board.now side axis (towards_lem way axis p (1 + near)) }
    ensures bound { result ≤ 64 }
{
    match next_point(board, way, axis, p, near) {
        None => 0,
        Some(q) => {
            if board.is_empty(q) {
                board.stones_towards(way, side, axis, q)
            } else {
                0
            }
        }
    }
}

/// The point next to the `near` points in that way, if it is on the board.
#[inline(always)]
fn next_point(board: &Board, way: Way, axis: Axis, p: Point, near: u8) -> Option<Point>
    requires on { IsTrue (is_on board.now p) }
    requires near { near ≤ 64 }
    ensures next { result ≡ kept_on board.now (towards_lem way axis p (1 + near)) }
{
    match way {
        Way::Ahead => board.along(p, axis, 1 + near, 0),
        Way::Behind => board.along(p, axis, 0, 1 + near),
    }
}
