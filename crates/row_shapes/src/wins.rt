//! Five points: where a stone makes a winning run.
//!
//! A run through a point is the stones on both sides of it and itself; whether its length wins is the rule's word.
#![tactic(auto)]

ghost use Rattle.std.specs.Prelude.{◌≡◌, ◌<◌, IsTrue};
ghost use Rattle.game_rules.specs.Grid.{is_on, is_empty, along as along_lem};
ghost use Rattle.game_rules.specs.Shapes.{five, wins_on as wins_on_lem, wins_at as wins_at_lem};

use crate::Rule;
use crate::windows::may_win;
use stone_board::{Axis, Board, Point, Side, Way};

/// Whether the empty point is a five point of the side: whether its stone there makes a winning run on some axis.
#[inline(always)]
pub fn five_at<R: Rule>(board: &Board, side: Side, p: Point) -> bool
    requires empty { IsTrue (is_empty board.now p) }
    ensures five { result ≡ five R.KIND board.now side p }
{
    wins_there::<R>(board, side, Axis::Row, p)
        || wins_there::<R>(board, side, Axis::Column, p)
        || wins_there::<R>(board, side, Axis::Down, p)
        || wins_there::<R>(board, side, Axis::Up, p)
}

/// Whether a stone of the side on the empty point makes a winning run on the axis.
#[inline(always)]
fn wins_there<R: Rule>(board: &Board, side: Side, axis: Axis, p: Point) -> bool
    requires empty { IsTrue (is_empty board.now p) }
    ensures wins { result ≡ wins_on_lem R.KIND board.now side axis p }
{
    if !may_win(board, side, axis, p) {
        return false;
    }
    run_wins::<R>(board, side, axis, p)
}

/// The same, told by the stones next to the point. Few points come as far, so it stands apart from its callers.
#[inline(never)]
fn run_wins<R: Rule>(board: &Board, side: Side, axis: Axis, p: Point) -> bool
    requires empty { IsTrue (is_empty board.now p) }
    ensures wins { result ≡ wins_on_lem R.KIND board.now side axis p }
{
    let ahead = board.stones_towards(Way::Ahead, side, axis, p);
    let behind = board.stones_towards(Way::Behind, side, axis, p);
    R::wins(side, 1 + ahead + behind)
}

/// Whether the point is on the board and empty, and a stone of the side there makes a winning run on the axis.
pub(crate) fn wins_on<R: Rule>(board: &Board, side: Side, axis: Axis, p: Point) -> bool
    ensures wins { result ≡ wins_on_lem R.KIND board.now side axis p }
{
    board.is_empty(p) && wins_there::<R>(board, side, axis, p)
}

/// The same of the place so many steps ahead of a point and so many back again.
pub(crate) fn wins_along<R: Rule>(
    board: &Board,
    side: Side,
    axis: Axis,
    p: Point,
    ahead: u8,
    back: u8,
) -> bool
    requires on { IsTrue (is_on board.now p) }
    requires ahead { ahead < 128 }
    requires back { back < 128 }
    ensures wins { result ≡ wins_at_lem R.KIND board.now side axis (along_lem axis p ahead back) }
{
    match board.along(p, axis, ahead, back) {
        None => false,
        Some(q) => wins_on::<R>(board, side, axis, q),
    }
}
