//! Fours and straight fours.
//!
//! A four is a set of four stones that one more point makes a winning run of five. The nine places around a stone hold
//! all of its fours, and each is found by where its five points begin and by which of them is empty.
#![tactic(auto)]

ghost use Rattle.std.specs.Prelude.{◌≡◌, ◌≤◌, ◌<◌, IsTrue, true, map};
ghost use Rattle.std.specs.List.{count_by, range_with_len};
ghost use Rattle.game_rules.specs.declared.Side.{Side};
ghost use Rattle.game_rules.specs.Grid.{is_on, holds, along};
ghost use Rattle.game_rules.specs.Shapes.{fours_of, stone_at, wins_at, is_straight};
ghost use Rattle.stone_board.specs.Steps.{holds_stone};
ghost use Rattle.row_shapes.specs.Gaps.{listed, is_four as is_four_lem, are_stones as are_stones_lem, fours_from as fours_from_lem};

use crate::Rule;
use crate::row_at::RowAt;
use crate::windows::line_through_may_win;
use crate::wins::wins_along;
use stone_board::{Axis, Board, Cell, Point, Side};

/// The number of fours of a stone on the axis: of different sets of four stones of its side that hold it and that, with
/// one empty point, are five consecutive points whose filling gives a winning run. One line can hold two.
pub fn fours_through<R: Rule>(board: &Board, p: Point, axis: Axis) -> u32
    requires stone { IsTrue (holds_stone board.now p) }
    ensures fours { (s : Side) → holds board.now s p ≡ true → result ≡ fours_of R.KIND board.now s axis p }
    ensures bound { result ≤ 20 }
{
    let side = side_at(board, p);
    if !line_through_may_win(board, side, axis, p) {
        return 0;
    }
    let stones = stones_around(board, side, axis, p);
    if count(&stones) < 4 {
        return 0;
    }
    let row = RowAt {
        side,
        axis,
        point: p,
    };
    fours_from::<R>(board, row, &stones, 0)
        + fours_from::<R>(board, row, &stones, 1)
        + fours_from::<R>(board, row, &stones, 2)
        + fours_from::<R>(board, row, &stones, 3)
        + fours_from::<R>(board, row, &stones, 4)
}

/// Whether the run through a stone on the axis is a straight four: of exactly four stones, with an empty point of the
/// board at both ends where a stone of its side makes a winning run on the axis.
#[tactic(auto, unfolding(game_rules::specs::Shapes::is_straight))]
pub fn straight_through<R: Rule>(board: &Board, p: Point, axis: Axis) -> bool
    requires stone { IsTrue (holds_stone board.now p) }
    ensures straight { (s : Side) → holds board.now s p ≡ true → result ≡ is_straight R.KIND board.now s axis p }
{
    let side = side_at(board, p);
    let ahead = board.stones_ahead(side, axis, p);
    let behind = board.stones_behind(side, axis, p);
    1 + ahead + behind == 4
        && wins_along::<R>(board, side, axis, p, 1 + ahead as u8, 0)
        && wins_along::<R>(board, side, axis, p, 0, 1 + behind as u8)
}

/// The side whose stone stands on the point.
pub(crate) fn side_at(board: &Board, p: Point) -> Side
    requires stone { IsTrue (holds_stone board.now p) }
    ensures side { (s : Side) → holds board.now s p ≡ true → result ≡ s }
    ensures stone { IsTrue (holds board.now result p) }
{
    match board.cell(p) {
        Cell::White => Side::White,
        _ => Side::Black,
    }
}

/// Whether a stone of the side stands so many steps ahead of the point and four back again.
fn stone_along(board: &Board, side: Side, axis: Axis, p: Point, ahead: u8) -> bool
    requires on { IsTrue (is_on board.now p) }
    requires near { ahead < 9 }
    ensures stone { result ≡ stone_at board.now side (along axis p ahead 4) }
{
    match board.along(p, axis, ahead, 4) {
        None => false,
        Some(q) => board.holds(side, q),
    }
}

/// Which of the nine places of the line around the point hold stones of the side. Place 4 is the point.
fn stones_around(board: &Board, side: Side, axis: Axis, p: Point) -> [bool; 9]
    requires on { IsTrue (is_on board.now p) }
    ensures stones { result ≡ map (λ i. stone_at board.now side (along axis p i 4)) (range_with_len 0 9) }
{
    let mut stones = [false; 9];
    for i in 0..9 {
        stones[i] = stone_along(board, side, axis, p, i as u8);
    }
    stones
}

/// How many of the nine places hold stones.
fn count(stones: &[bool; 9]) -> usize
    ensures count { result ≡ count_by (λ stone. stone) stones.now }
{
    stones.iter().filter(|stone| **stone).count()
}

/// Whether the five places that begin so many steps behind place 4, but for the one that is left out, hold stones.
#[tactic(auto, unfolding(crate::specs::Gaps::are_stones))]
pub(crate) fn are_stones(stones: &[bool; 9], first: u8, gap: u8) -> bool
    requires first { first < 5 }
    ensures stones { result ≡ are_stones_lem (listed stones.now) first gap }
{
    let start = 4 - first as usize;
    (gap == 0 || stones[start])
        && (gap == 1 || stones[start + 1])
        && (gap == 2 || stones[start + 2])
        && (gap == 3 || stones[start + 3])
        && (gap == 4 || stones[start + 4])
}

/// Whether these are four stones of a four of the row's stone.
#[tactic(auto, unfolding(crate::specs::Gaps::is_four))]
#[inline(always)]
fn is_four<R: Rule>(board: &Board, row: RowAt, stones: &[bool; 9], first: u8, gap: u8) -> bool
    requires on { IsTrue (is_on board.now row.point) }
    requires first { first < 5 }
    requires gap { gap < 5 }
    ensures four { result ≡ is_four_lem (listed stones.now)
        (λ i. wins_at R.KIND board.now row.side row.axis (along row.axis row.point i 4)) first gap }
{
    first != gap
        && are_stones(stones, first, gap)
        && (wins_along::<R>(board, row.side, row.axis, row.point, gap + 4 - first, 4)
            || gap == 4 && wins_along::<R>(board, row.side, row.axis, row.point, 3 - first, 4))
}

/// The number of fours among the five places that begin so many steps behind the row's stone, but for those without the first of
/// them.
#[inline(always)]
fn fours_from<R: Rule>(board: &Board, row: RowAt, stones: &[bool; 9], first: u8) -> u32
    requires on { IsTrue (is_on board.now row.point) }
    requires first { first < 5 }
    ensures fours { result ≡ fours_from_lem (listed stones.now)
        (λ i. wins_at R.KIND board.now row.side row.axis (along row.axis row.point i 4)) first }
    ensures bound { result ≤ 4 }
{
    u32::from(is_four::<R>(board, row, stones, first, 1))
        + u32::from(is_four::<R>(board, row, stones, first, 2))
        + u32::from(is_four::<R>(board, row, stones, first, 3))
        + u32::from(is_four::<R>(board, row, stones, first, 4))
}
