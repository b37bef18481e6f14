//! The places of a line around a point, and the shape of a stone by their bits, with no table and no code.
//!
//! A board keeps the stones of each side on a line as the bits of a number. Moved to a point they are its two halves: the bits
//! ahead of the middle as they are, and those behind it reversed, so that the nearest place comes first in both.
#![tactic(auto)]

ghost use Rattle.std.specs.Prelude.{◌≡◌, ◌≤◌, ◌<◌, ◌+◌, ◌-◌, ◌*◌, ◌^◌, ◌⊎◌, ℕ, IsTrue, map};
ghost use Rattle.std.specs.Int.{bit_at};
ghost use Rattle.game_rules.specs.Grid.{IsBoard, is_on, along as along_lem};
ghost use Rattle.game_rules.specs.declared.Way.{Way};
ghost use Rattle.stone_board.specs.Walks.{steps_left as steps_left_lem};
ghost use Rattle.row_shapes.specs.LineCodes.{digit_at, from_digits, places_beside};
ghost use Rattle.row_shapes.specs.LineShapes.{shape_of};

use crate::Shape;
use crate::halves::Half;
use crate::line_shape::shape_of_line;
use stone_board::{Axis, Board, Point, Side, Way, place_on, steps_left};

/// The numbers of five bits, each with its bits in the other order.
const REVERSED: [u32; 32] = [
    0, 16, 8, 24, 4, 20, 12, 28, 2, 18, 10, 26, 6, 22, 14, 30, 1, 17, 9, 25, 5, 21, 13, 29, 3, 19,
    11, 27, 7, 23, 15, 31,
];

/// The places of a line around a point, the point itself on place `reach` of them.
#[derive(Clone, Copy)]
pub(crate) struct Places {
    /// The bit of a place is set where it holds a stone of the side.
    pub(crate) own: u64,
    /// The bit of a place is set where it holds a stone of the other side or is off the board.
    pub(crate) taken: u64,
}

/// What the side sees on the places around a point.
#[inline(always)]
pub(crate) fn places_around(board: &Board, p: Point, axis: Axis, side: Side, reach: usize) -> Places
    requires on { IsTrue (is_on board.now p) }
    requires reach { reach ≤ 5 }
    ensures digits { (i : ℕ) → i ≤ 2 * reach →
        bit_at result.own i + 2 * bit_at result.taken i ≡ digit_at board.now side (along_lem axis p i reach) }
    ensures board { IsBoard board.now }
{
    let on = on_board(board, p, axis, reach);
    let place = place_on(axis, p);
    let own = moved(board.line_through(side, axis, p), place, reach);
    let others = moved(board.line_through(side.other(), axis, p), place, reach);
    Places {
        own: own & on,
        taken: others | !on,
    }
}

/// The bits of a line, moved so that the bit of this place is bit `reach`.
#[inline(always)]
fn moved(bits: u32, place: u8, reach: usize) -> u64
    requires place { place < 32 }
    requires reach { reach ≤ 5 }
    ensures moved { (i : ℕ) → reach ≤ i + place → bit_at result i ≡ bit_at bits (i + place - reach) }
{
    u64::from(bits) << reach >> place
}

/// The bits of the places that are on the board.
#[inline(always)]
fn on_board(board: &Board, p: Point, axis: Axis, reach: usize) -> u64
    requires on { IsTrue (is_on board.now p) }
    requires reach { reach ≤ 5 }
    ensures on { result ≡ 2 ^ (reach + 1 + steps_left_lem Way.Ahead axis board.now.width board.now.height p)
        - 2 ^ (reach - steps_left_lem Way.Behind axis board.now.width board.now.height p) }
    ensures board { IsBoard board.now }
{
    let ahead = steps_left(Way::Ahead, axis, board.width(), board.height(), p);
    let behind = steps_left(Way::Behind, axis, board.width(), board.height(), p);
    (1 << (reach + 1 + ahead as usize)) - (1 << reach.saturating_sub(behind as usize))
}

/// The shape that a stone makes in the middle of a line, which is on place `reach` of it. The bit of a place is set in `own`
/// where a stone of the same side stands there, and in `taken` where one of the other side does or the place is off the board,
/// never in both. What stands on the middle is not asked. It is the shape of the line's code. No memory is taken.
#[inline(always)]
pub fn shape_of_places(reach: usize, own: u64, taken: u64) -> Shape
    requires reach { (reach ≡ 4) ⊎ (reach ≡ 5) }
    requires digits { (i : ℕ) → i ≤ 2 * reach → bit_at own i + 2 * bit_at taken i < 3 }
    ensures shape { result ≡ shape_of reach (from_digits (map (λ i. bit_at own i + 2 * bit_at taken i) (places_beside reach))) }
{
    let free = !(own | taken);
    let ahead = Half::new(bits_ahead(reach, own), bits_ahead(reach, free));
    let behind = Half::new(bits_behind(reach, own), bits_behind(reach, free));
    shape_of_line(reach == 4, &ahead, &behind)
}

/// The bits of the places ahead of the middle, the nearest first.
#[inline(always)]
fn bits_ahead(reach: usize, bits: u64) -> u32
    requires reach { reach ≤ 5 }
    ensures bits { (i : ℕ) → i < reach → bit_at result i ≡ bit_at bits (reach + 1 + i) }
    ensures bound { result < 2 ^ reach }
{
    (bits >> (reach + 1) & ((1 << reach) - 1)) as u32
}

/// The bits of the places behind the middle, the nearest first.
#[inline(always)]
fn bits_behind(reach: usize, bits: u64) -> u32
    requires reach { (reach ≡ 4) ⊎ (reach ≡ 5) }
    ensures bits { (i : ℕ) → i < reach → bit_at result i ≡ bit_at bits (reach - 1 - i) }
    ensures bound { result < 2 ^ reach }
{
    REVERSED[(bits & 31) as usize] >> (5 - reach)
}
