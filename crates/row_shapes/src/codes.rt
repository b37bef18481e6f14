//! The code of a line: what stands around a point on one axis, as one number.
//!
//! The code is a number in base three, a digit a neighbour. Two lines that look the same to a side have the same code, so that a
//! table can answer for both.
#![tactic(auto)]

ghost use Rattle.std.specs.Prelude.{◌≡◌, ◌≤◌, ◌<◌, ◌+◌, ◌*◌, ◌^◌, IsTrue, Some, if◌then◌else◌, nat_lt};
ghost use Rattle.game_rules.specs.Grid.{is_on, along as along_lem};
ghost use Rattle.row_shapes.specs.LineCodes.{digit_at, line_code as line_code_lem};

use stone_board::{Axis, Board, Point, Side};

/// The code of the neighbours of a point on the axis, `reach` of them on each side, as the side sees them. The neighbours
/// are the points at the offsets -reach to -1 and 1 to reach, in this order. A neighbour's digit is 0 where it is empty,
/// 1 where it holds a stone of the side, and 2 where it holds one of the other side or is off the board. The code is the
/// number with these digits to the base 3, the least first. No memory is taken.
pub fn line_code(board: &Board, p: Point, axis: Axis, side: Side, reach: usize) -> u32
    requires on { IsTrue (is_on board.now p) }
    requires near { 4 ≤ reach }
    requires far { reach ≤ 5 }
    ensures code { result ≡ line_code_lem reach board.now side axis p }
    ensures bound { result < 3 ^ (2 * reach) }
{
    let mut code = 0;
    for k in 0..2 * reach {
        let place = place_beside(reach, 2 * reach - 1 - k);
        code = 3 * code + digit(board, p, axis, side, place as u8, reach as u8);
    }
    code
}

/// The place of a neighbour on the line, where neighbours and places are counted from 0: the point itself is passed over.
fn place_beside(reach: usize, j: usize) -> usize
    requires reach { reach ≤ 5 }
    requires neighbour { j < 2 * reach }
    ensures place { result ≡ (if nat_lt j reach then j else j + 1) }
    ensures bound { result ≤ 2 * reach }
{
    if j < reach { j } else { j + 1 }
}

/// The digit of the place `ahead` steps ahead of the point and `back` steps back again.
#[tactic(auto, using(crate::proofs::CodeDigits::digit_none, crate::proofs::CodeDigits::digit_some))]
fn digit(board: &Board, p: Point, axis: Axis, side: Side, ahead: u8, back: u8) -> u32
    requires on { IsTrue (is_on board.now p) }
    requires ahead { ahead < 128 }
    requires back { back < 128 }
    ensures digit { result ≡ digit_at board.now side (along_lem axis p ahead back) }
    ensures bound { result < 3 }
{
    match board.along(p, axis, ahead, back) {
        None => 2,
        Some(q) => digit_of(board, side, q),
    }
}

/// The digit of a point.
#[tactic(auto, unfolding(crate::specs::LineCodes::digit_at))]
fn digit_of(board: &Board, side: Side, q: Point) -> u32
    ensures digit { result ≡ digit_at board.now side (Some q) }
    ensures bound { result < 3 }
{
    if board.is_empty(q) {
        0
    } else if board.holds(side, q) {
        1
    } else {
        2
    }
}
