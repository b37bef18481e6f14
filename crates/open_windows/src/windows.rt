//! The points of open windows.
#![tactic(auto)]

ghost use Rattle.std.specs.Prelude.{◌≡◌, ◌≤◌, ◌<◌, ℕ, replicate};
ghost use Rattle.std.specs.Int.{bit_at};
ghost use Rattle.game_rules.specs.Grid.{Grid, IsBoard};
ghost use Rattle.game_rules.specs.Shapes.{stone_at};
ghost use Rattle.game_rules.specs.declared.Side.{Side};
ghost use Rattle.open_windows.specs.OpenWindows.{is_open_at, is_window};
ghost use Rattle.open_windows.specs.PointSets.{TellsWindows};
ghost use Rattle.open_windows.specs.Rows.{TellsRows, covered as covered_lem, start_bit};

use crate::added::set_in;
use crate::point_set::{PointSet, SIDE};
use crate::rows::{ROWS, open_rows, own_rows, stepped, stepped_back};
use stone_board::{Axis, Board, MAX_SIDE, Side};

/// The empty points that lie in an open window of the side with so many of its stones or more, two to four.
pub fn window_points(board: &Board, side: Side, least: u32) -> PointSet
    requires some { 2 ≤ least }
    requires few { least ≤ 4 }
    ensures points { TellsWindows board.now side least result }
{
    let height = board.height();
    let mut own = [0; ROWS];
    let mut clear = [0; ROWS];
    let mut row = [0; ROWS];
    let mut column = [0; ROWS];
    let mut down = [0; ROWS];
    let mut up = [0; ROWS];
    own_rows(board, side, &mut own);
    open_rows(board, side, &mut clear);
    starts(&own, &clear, Axis::Row, least, height, &mut row);
    starts(&own, &clear, Axis::Column, least, height, &mut column);
    starts(&own, &clear, Axis::Down, least, height, &mut down);
    starts(&own, &clear, Axis::Up, least, height, &mut up);
    let mut rows = [0; SIDE];
    for y in 0..height as usize {
        let i = y + 4;
        let inside = covered(&row, Axis::Row, i)
            | covered(&column, Axis::Column, i)
            | covered(&down, Axis::Down, i)
            | covered(&up, Axis::Up, i);
        // A stone of the side stands on a point that is open to it, so these are the empty ones.
        let empty = clear[i] ^ own[i];
        rows[y] = inside & empty;
    }
    PointSet { rows }
}

/// Tells the points from which such a window begins on the axis, on a board of this height. Nothing is told before.
#[inline(always)]
fn starts(
    own: &[u32; ROWS],
    clear: &[u32; ROWS],
    axis: Axis,
    least: u32,
    height: u8,
    found: &mut [u32; ROWS],
)
    requires some { 2 ≤ least }
    requires few { least ≤ 4 }
    requires fits { height ≤ MAX_SIDE }
    requires zero { found.old ≡ replicate ROWS 0 }
    ensures starts { (b : Grid) (s : Side) → IsBoard b → b.height ≡ height → TellsRows (stone_at b s) own.now
        → TellsRows (is_open_at b s) clear.now → TellsRows (is_window b s least axis) found.new }
{
    let end = 4 + height as usize;
    for i in 4..end {
        found[i] = start_at(own, clear, axis, i, least);
    }
}

/// The same of those in one row.
#[inline(always)]
fn start_at(own: &[u32; ROWS], clear: &[u32; ROWS], axis: Axis, i: usize, least: u32) -> u32
    requires some { 2 ≤ least }
    requires few { least ≤ 4 }
    requires low { 4 ≤ i }
    requires high { i < 36 }
    ensures bits { (x : ℕ) → bit_at result x ≡ start_bit own.now clear.now axis least i x }
{
    let held = set_in(
        least,
        stepped(own, axis, i, 0),
        stepped(own, axis, i, 1),
        stepped(own, axis, i, 2),
        stepped(own, axis, i, 3),
        stepped(own, axis, i, 4),
    );
    held & stepped(clear, axis, i, 0)
        & stepped(clear, axis, i, 1)
        & stepped(clear, axis, i, 2)
        & stepped(clear, axis, i, 3)
        & stepped(clear, axis, i, 4)
}

/// The points in one row that are among the five of a window which begins at one of these on the axis.
#[inline(always)]
fn covered(starts: &[u32; ROWS], axis: Axis, i: usize) -> u32
    requires low { 4 ≤ i }
    requires high { i < 36 }
    ensures covered { result ≡ covered_lem starts.now axis i }
{
    stepped_back(starts, axis, i, 0)
        | stepped_back(starts, axis, i, 1)
        | stepped_back(starts, axis, i, 2)
        | stepped_back(starts, axis, i, 3)
        | stepped_back(starts, axis, i, 4)
}
