//! The rows of a board as numbers, and steps from row to row.
//!
//! Row y is number y + 4, and bit x of it tells of the point in column x; four numbers before the rows and four after them are 0, so
//! that a step of four rows needs no test.
#![tactic(auto)]

ghost use Rattle.std.specs.Prelude.{◌≡◌, ◌≤◌, ◌<◌, ◌-◌, ◌^◌, replicate};
ghost use Rattle.game_rules.specs.Grid.{IsBoard};
ghost use Rattle.game_rules.specs.Shapes.{stone_at};
ghost use Rattle.open_windows.specs.OpenWindows.{is_open_at};
ghost use Rattle.open_windows.specs.Rows.{TellsRows, stepped as stepped_lem, stepped_back as stepped_back_lem};

use stone_board::{Axis, Board, MAX_SIDE, Side};

/// How many numbers there are.
pub(crate) const ROWS: usize = 40;

/// The bits of the points of a row of this width.
#[inline(always)]
pub(crate) fn full_row(width: u8) -> u32
    requires some { 1 ≤ width }
    requires fits { width ≤ MAX_SIDE }
    ensures full { result ≡ 2 ^ width - 1 }
{
    u32::MAX >> (MAX_SIDE - width)
}

/// Tells the stones of the side.
pub(crate) fn own_rows(board: &Board, side: Side, rows: &mut [u32; ROWS])
    requires zero { rows.old ≡ replicate ROWS 0 }
    ensures rows { TellsRows (stone_at board.now side) rows.new }
    ensures board { IsBoard board.now }
{
    let full = full_row(board.width());
    for y in 0..board.height() {
        rows[y as usize + 4] = board.line(side, Axis::Row, y) & full;
    }
}

/// Tells the points on which the other side has no stone.
pub(crate) fn open_rows(board: &Board, side: Side, rows: &mut [u32; ROWS])
    requires zero { rows.old ≡ replicate ROWS 0 }
    ensures rows { TellsRows (is_open_at board.now side) rows.new }
{
    let full = full_row(board.width());
    for y in 0..board.height() {
        rows[y as usize + 4] = !board.line(side.other(), Axis::Row, y) & full;
    }
}

/// The number whose bit tells of the point so many steps ahead on the axis.
#[inline(always)]
pub(crate) fn stepped(rows: &[u32; ROWS], axis: Axis, i: usize, k: u8) -> u32
    requires low { 4 ≤ i }
    requires high { i < 36 }
    requires near { k < 5 }
    ensures stepped { result ≡ stepped_lem rows.now axis i k }
{
    match axis {
        Axis::Row => rows[i] >> k,
        Axis::Column => rows[i + k as usize],
        Axis::Down => rows[i + k as usize] >> k,
        Axis::Up => rows[i - k as usize] >> k,
    }
}

/// The number whose bit tells of the point so many steps back on the axis.
#[inline(always)]
pub(crate) fn stepped_back(rows: &[u32; ROWS], axis: Axis, i: usize, k: u8) -> u32
    requires low { 4 ≤ i }
    requires high { i < 36 }
    requires near { k < 5 }
    ensures stepped { result ≡ stepped_back_lem rows.now axis i k }
{
    match axis {
        Axis::Row => rows[i] << k,
        Axis::Column => rows[i - k as usize],
        Axis::Down => rows[i - k as usize] << k,
        Axis::Up => rows[i + k as usize] << k,
    }
}
