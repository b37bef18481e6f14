//! The five points of a side on a board, lawful or not.
//!
//! The board is scanned in reading order, and each of its empty points is asked. A search of fours asks how many five
//! points there are only as far as two, so the scan in short ends at the second.
#![tactic(auto)]

ghost use Rattle.std.specs.Prelude.{◌≡◌, ◌++◌, IfOk};
ghost use Rattle.game_rules.specs.Grid.{IsBoard};
ghost use Rattle.game_rules.specs.Games.{five_points as five_points_lem, has_five as has_five_lem};
ghost use Rattle.game_rules.specs.Shapes.{five};
ghost use Rattle.row_shapes.specs.FivePoints.{in_short, is_several as is_several_lem, takes as takes_lem};
ghost use Rattle.row_shapes.specs.Windows.{AreWindowLines};

use crate::windows::{WindowLines, window_lines};
use crate::{Rule, five_at};
use std::alloc::{AllocError, Global};
use stone_board::{Board, Point, Points, Side};

/// How many five points a side has, as far as a search of fours asks.
#[derive(Clone, Copy, Debug, PartialEq, Eq)]
pub enum FivePoints {
    /// None.
    None,
    /// Just this one.
    One(Point),
    /// Two or more.
    Several,
}

impl FivePoints {
    /// Whether there are two five points or more.
    pub fn is_several(self) -> bool
        ensures several { result ≡ is_several_lem self }
    {
        matches!(self, FivePoints::Several)
    }
}

/// Whether a stone of the other side on the point takes all of these five points: there is none, or it is the only one.
pub fn takes(fives: FivePoints, point: Point) -> bool
    ensures takes { result ≡ takes_lem fives point }
{
    match fives {
        FivePoints::None => true,
        FivePoints::One(only) => only.is(point),
        FivePoints::Several => false,
    }
}

/// All five points of the side, in reading order. `Err` says that memory ran out.
pub fn five_points<R: Rule>(alloc: Global, board: &Board, side: Side) -> Result<Points, AllocError>
    ensures fives { IfOk result (λ points. points ≡ five_points_lem R.KIND board.now side) }
{
    let mut found = Points::new(alloc);
    let lines = window_lines(board, side);
    if !lines.some() {
        return Ok(found);
    }
    for p in board.points() {
        if is_five::<R>(board, side, lines, p) {
            found.push(p)?;
        }
    }
    Ok(found)
}

/// Whether the side has a five point. No memory is taken.
pub fn has_five<R: Rule>(board: &Board, side: Side) -> bool
    ensures five { result ≡ has_five_lem R.KIND board.now side }
{
    let lines = window_lines(board, side);
    if !lines.some() {
        return false;
    }
    for p in board.points() {
        if is_five::<R>(board, side, lines, p) {
            return true;
        }
    }
    false
}

/// The five points of a side in short. The board is scanned up to the second of them. No memory is taken.
pub fn fives_in_short<R: Rule>(board: &Board, side: Side) -> FivePoints
    ensures fives { result ≡ in_short (five_points_lem R.KIND board.now side) }
{
    let lines = window_lines(board, side);
    if !lines.some() {
        return FivePoints::None;
    }
    let mut first = None;
    for p in board.points() {
        if is_five::<R>(board, side, lines, p) {
            match first {
                None => first = Some(p),
                Some(_) => return FivePoints::Several,
            }
        }
    }
    match first {
        None => FivePoints::None,
        Some(p) => FivePoints::One(p),
    }
}

/// Whether the point is a five point of the side, which may win on these lines alone. Most points are on none of them.
#[inline(always)]
fn is_five<R: Rule>(board: &Board, side: Side, lines: WindowLines, p: Point) -> bool
    requires board { IsBoard board.now }
    requires lines { AreWindowLines board.now side lines }
    ensures five { result ≡ five R.KIND board.now side p }
{
    lines.hold(p) && is_five_point::<R>(board, side, p)
}

/// Whether the point is a five point of the side. A scan asks it of few points, so it stands apart from its callers.
#[inline(never)]
pub fn is_five_point<R: Rule>(board: &Board, side: Side, p: Point) -> bool
    ensures five { result ≡ five R.KIND board.now side p }
{
    board.is_empty(p) && five_at::<R>(board, side, p)
}
