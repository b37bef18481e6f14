//! The lines of a board as bits.
//!
//! A line of an axis is a number for each side, whose bit i tells of place i whether the side has a stone there. The place is the x
//! of a point, and its y on a column, so that one step ahead on the axis is one bit more. A stone is on four lines, so it comes and
//! goes by four bits.
#![tactic(auto)]

ghost use Rattle.std.specs.Prelude.{◌≡◌, ◌+◌, ◌*◌, ◌≤◌, ◌<◌, ◌^◌, ℕ, length};
ghost use Rattle.std.specs.Int.{bit_at};
ghost use Rattle.stone_board.specs.Lines.{line_of as line_of_lem, place_on as place_on_lem, place_towards, places_left, index_of as index_of_lem, turned, all_turned};

use game_rules::{Axis, MAX_SIDE, Point, Side, Way};

/// How many lines are numbered on each axis. The diagonals of a board of `MAX_SIDE` are one fewer.
pub const LINES: u8 = 64;

/// How many numbers tell all lines of both sides.
pub(crate) const ALL_LINES: usize = 512;

/// The number of the line on the axis through a point of a board, below `LINES`.
#[inline(always)]
pub fn line_of(axis: Axis, p: Point) -> u8
    requires column { p.x < MAX_SIDE }
    requires row { p.y < MAX_SIDE }
    ensures line { result ≡ line_of_lem axis p }
    ensures bound { result < LINES }
{
    match axis {
        Axis::Row => p.y,
        Axis::Column => p.x,
        Axis::Down => p.x + (MAX_SIDE - 1 - p.y),
        Axis::Up => p.x + p.y,
    }
}

/// The place of a point of a board on its line of the axis, below `MAX_SIDE`: one step ahead is one place more.
#[inline(always)]
pub fn place_on(axis: Axis, p: Point) -> u8
    requires column { p.x < MAX_SIDE }
    requires row { p.y < MAX_SIDE }
    ensures place { result ≡ place_on_lem axis p }
    ensures bound { result < MAX_SIDE }
{
    match axis {
        Axis::Column => p.y,
        Axis::Row | Axis::Down | Axis::Up => p.x,
    }
}

/// Where line `n` of the axis stands for the side.
#[inline(always)]
pub(crate) fn index_of(side: Side, axis: Axis, n: u8) -> usize
    requires line { n < LINES }
    ensures index { result ≡ index_of_lem side axis n }
    ensures bound { result < ALL_LINES }
{
    let first = match axis {
        Axis::Row => 0,
        Axis::Column => 128,
        Axis::Down => 256,
        Axis::Up => 384,
    };
    let own = match side {
        Side::Black => 0,
        Side::White => 1,
    };
    first + 2 * n as usize + own
}

/// The number with the bit of this place alone.
#[inline(always)]
pub fn bit_of_place(place: u8) -> u32
    requires place { place < MAX_SIDE }
    ensures bit { result ≡ 2 ^ place }
{
    1 << place
}

/// How many places next to this one are set one after another, in one way along the line.
#[inline(always)]
pub(crate) fn ones_towards(way: Way, bits: u32, place: u8) -> u32
    requires place { place < MAX_SIDE }
    ensures set { (k : ℕ) → 1 ≤ k → k ≤ result → k ≤ places_left way place → bit_at bits (place_towards way place k) ≡ 1 }
    ensures clear { result < places_left way place → bit_at bits (place_towards way place (1 + result)) ≡ 0 }
{
    match way {
        Way::Ahead => (bits >> place >> 1).trailing_ones(),
        Way::Behind => (bits << (MAX_SIDE - 1 - place) << 1).leading_ones(),
    }
}

/// Turns the bit of a point on its line of the axis.
#[inline(always)]
fn turn(lines: &mut Vec<u32>, side: Side, axis: Axis, p: Point)
    requires all { length lines.old.items ≡ ALL_LINES }
    requires column { p.x < MAX_SIDE }
    requires row { p.y < MAX_SIDE }
    ensures turned { lines.new.items ≡ turned lines.old.items side axis p }
    ensures all { length lines.new.items ≡ ALL_LINES }
{
    let i = index_of(side, axis, line_of(axis, p));
    lines[i] = lines[i] ^ bit_of_place(place_on(axis, p));
}

/// Turns the bits of a point on its four lines.
pub(crate) fn turn_all(lines: &mut Vec<u32>, side: Side, p: Point)
    requires all { length lines.old.items ≡ ALL_LINES }
    requires column { p.x < MAX_SIDE }
    requires row { p.y < MAX_SIDE }
    ensures turned { lines.new.items ≡ all_turned lines.old.items side p }
{
    turn(lines, side, Axis::Row, p);
    turn(lines, side, Axis::Column, p);
    turn(lines, side, Axis::Down, p);
    turn(lines, side, Axis::Up, p);
}
