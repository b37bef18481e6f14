//! Three points.
//!
//! A three point of a stone is an empty point whose stone makes a straight four of the stone's run. It lies in that run
//! once it is filled, so it is the first point in one of the two ways that holds no stone of the side: a line has two
//! three points of a stone at most, and the board needs no stone put on it to find them.
#![tactic(auto)]

ghost use Rattle.std.specs.Prelude.{◌≡◌, ◌<◌, ◌≤◌, ◌+◌, ◌^◌, ℕ, true, if◌then◌else◌, IsTrue};
ghost use Rattle.std.specs.Option.{ForSome};
ghost use Rattle.std.specs.Int.{bit_at};
ghost use Rattle.game_rules.specs.declared.Side.{Side};
ghost use Rattle.game_rules.specs.Grid.{IsBoard, is_on, holds, along as along_lem};
ghost use Rattle.game_rules.specs.Shapes.{is_line_three_at};
ghost use Rattle.game_rules.specs.Ways.{opposite, towards as towards_lem, stones_towards as stones_towards_lem};
ghost use Rattle.stone_board.specs.Steps.{holds_stone};
ghost use Rattle.row_shapes.specs.Threes.{wins_past as wins_past_lem, is_open_four as is_open_four_lem, place_towards as place_towards_lem, three_place as three_place_lem, bit_of as bit_of_lem};

use crate::Rule;
use crate::fours::side_at;
use crate::row_at::RowAt;
use stone_board::{Axis, Board, Point, Side, Way};

/// The three points of a stone on the axis, as far as this one line decides: bit 5 + k is set exactly where the point k
/// steps along is empty, and a stone of the same side there gives a straight four on the axis that holds both. (A three
/// point proper is also no five point by another axis.)
pub fn three_points<R: Rule>(board: &Board, p: Point, axis: Axis) -> u16
    requires stone { IsTrue (holds_stone board.now p) }
    ensures points { (s : Side) → holds board.now s p ≡ true → (i : ℕ) → i < 11 →
        bit_at result i ≡ (if is_line_three_at R.KIND board.now s axis p (along_lem axis p i 5) then 1 else 0) }
    ensures bound { result < 2 ^ 11 }
{
    let side = side_at(board, p);
    let ahead = three_place::<R>(board, side, axis, p, Way::Ahead);
    let behind = three_place::<R>(board, side, axis, p, Way::Behind);
    bit(ahead) | bit(behind)
}

/// The place of the three point in that way from the stone on `p`, if there is one. The stone is on place 5.
fn three_place<R: Rule>(board: &Board, side: Side, axis: Axis, p: Point, way: Way) -> Option<u8>
    requires stone { IsTrue (holds board.now side p) }
    ensures place { result ≡ three_place_lem R.KIND board.now side axis p way }
    ensures bound { ForSome result (λ i. i < 11) }
    ensures board { IsBoard board.now }
{
    let near = board.stones_towards(way, side, axis, p) as u8;
    let far = board.stones_towards(way.opposite(), side, axis, p) as u8;
    if near + far > 2 {
        return None;
    }
    let row = RowAt {
        side,
        axis,
        point: p,
    };
    if fills_to_four::<R>(board, row, way, near, far) {
        Some(place_towards(way, 1 + near))
    } else {
        None
    }
}

/// Whether the point next to the `near` stones in that way from the row's stone is empty, and a stone there makes a
/// straight four, where `far` stones stand in the other way.
#[inline(always)]
fn fills_to_four<R: Rule>(board: &Board, row: RowAt, way: Way, near: u8, far: u8) -> bool
    requires stone { IsTrue (holds board.now row.side row.point) }
    requires near { near ≡ stones_towards_lem way board.now row.side row.axis row.point }
    requires far { far ≡ stones_towards_lem (opposite way) board.now row.side row.axis row.point }
    requires few { near + far ≤ 2 }
    ensures three { result ≡ is_line_three_at R.KIND board.now row.side row.axis row.point (towards_lem way row.axis row.point (1 + near)) }
{
    match board.step_towards(way, row.axis, row.point, 1 + near) {
        None => false,
        Some(q) => {
            let more = board.stones_towards(way, row.side, row.axis, q) as u8;
            board.is_empty(q) && is_open_four::<R>(board, row, way, 1 + near + more, far)
        }
    }
}

/// Whether a straight four of the row's stone has `fore` stones next to it in that way and `back` stones in the other, as the
/// ends decide: four stones, and a winning run where either end is filled.
#[inline(always)]
fn is_open_four<R: Rule>(board: &Board, row: RowAt, way: Way, fore: u8, back: u8) -> bool
    requires on { IsTrue (is_on board.now row.point) }
    requires fore { fore < 128 }
    requires back { back < 128 }
    ensures open { result ≡ is_open_four_lem R.KIND board.now row.side row.axis row.point way fore back }
{
    let (side, axis, p) = (row.side, row.axis, row.point);
    fore + back == 3
        && wins_past::<R>(board, side, axis, p, way, 1 + fore)
        && wins_past::<R>(board, side, axis, p, way.opposite(), 1 + back)
}

/// Whether the point so many steps from `p` in that way is on the board and empty, and wins on the axis where it has four
/// stones of the side next to it towards `p`.
fn wins_past<R: Rule>(board: &Board, side: Side, axis: Axis, p: Point, way: Way, k: u8) -> bool
    requires on { IsTrue (is_on board.now p) }
    requires near { k ≤ 64 }
    ensures wins { result ≡ wins_past_lem R.KIND board.now side axis way (towards_lem way axis p k) }
{
    match board.step_towards(way, axis, p, k) {
        None => false,
        Some(q) => {
            board.is_empty(q) && R::wins(side, 5 + board.stones_towards(way, side, axis, q))
        }
    }
}

/// The place so many steps from place 5 in that way.
pub(crate) fn place_towards(way: Way, k: u8) -> u8
    requires near { k ≤ 5 }
    ensures place { result ≡ place_towards_lem way k }
    ensures bound { result < 11 }
{
    match way {
        Way::Ahead => 5 + k,
        Way::Behind => 5 - k,
    }
}

/// The number with this bit alone.
pub(crate) fn bit(place: Option<u8>) -> u16
    requires small { ForSome place (λ i. i < 11) }
    ensures bit { result ≡ bit_of_lem place }
    ensures bound { result < 2 ^ 11 }
{
    match place {
        None => 0,
        Some(i) => 1 << i,
    }
}
