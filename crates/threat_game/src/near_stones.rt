//! The stones around a stone that may make a double point.
//!
//! A winning run has five stones. Where a new stone, a double point and a five point after it are three of them, two others stand in
//! it, within four steps of the new stone; and the double point is itself within four steps, or else three others are. The bits of a
//! line tell how many stand there at most.
#![tactic(auto)]

ghost use Rattle.std.specs.Prelude.{◌≡◌, ◌≤◌, IsTrue};
ghost use Rattle.game_rules.specs.Grid.{IsBoard, is_on};
ghost use Rattle.threat_game.specs.NearDoubles.{AreNearStones, stones_around as stones_around_lem};

use stone_board::{Axis, Board, Point, Side, place_on};

/// How many stones of a side stand within four steps of a point on each axis, at most.
#[derive(Clone, Copy)]
pub(crate) struct NearStones {
    pub(crate) row: u32,
    pub(crate) column: u32,
    pub(crate) down: u32,
    pub(crate) up: u32,
}

/// How many stones of the side stand within four steps of the point on each axis, at most.
#[inline(always)]
pub(crate) fn near_stones(board: &Board, side: Side, p: Point) -> NearStones
    requires on { IsTrue (is_on board.now p) }
    ensures near { AreNearStones board.now side p result }
    ensures board { IsBoard board.now }
{
    NearStones {
        row: stones_around(board, side, Axis::Row, p),
        column: stones_around(board, side, Axis::Column, p),
        down: stones_around(board, side, Axis::Down, p),
        up: stones_around(board, side, Axis::Up, p),
    }
}

/// How many stones of the side stand within four steps of the point on the axis, at most: so many bits of the nine places around it
/// are set.
#[inline(always)]
fn stones_around(board: &Board, side: Side, axis: Axis, p: Point) -> u32
    requires on { IsTrue (is_on board.now p) }
    ensures most { stones_around_lem board.now side axis p ≤ result }
    ensures board { IsBoard board.now }
{
    let bits = board.line_through(side, axis, p);
    let around = u64::from(bits) << 4 >> place_on(axis, p);
    (around & 0x1ff).count_ones()
}
