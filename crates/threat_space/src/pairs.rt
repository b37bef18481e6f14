//! Pairs: points at which a stone leaves its side two five points or more.
//!
//! A final point that is on no line with the last gain was one where a stone made two five points before that gain: then the gain has
//! only freed it of a foul. Such points are few, and are told once for all threats that may come last.
#![tactic(auto)]

ghost use Rattle.std.specs.Prelude.{◌≡◌, IfOk, true};
ghost use Rattle.std.specs.List.{filter};
ghost use Rattle.game_rules.specs.Grid.{points_of};
ghost use Rattle.game_rules.specs.Games.{has_five as has_five_lem};
ghost use Rattle.open_windows.specs.PointSets.{TellsWindows};
ghost use Rattle.threat_space.specs.Lines.{HasPairsOf, MayMakePairs, has_point as has_point_lem, may_make_two as may_make_two_lem};

use open_windows::{PointSet, window_points};
use row_shapes::{FivePoints, Rule, fives_made, is_five_point};
use std::alloc::{AllocError, Global};
use stone_board::{Board, Point, Points, Side};

/// The points at which a stone of the side leaves it two five points or more, or all empty ones where it has one already, if the
/// side has fouls. Else none are asked for. `Err` says that memory ran out.
pub(crate) fn pairs<R: Rule>(alloc: Global, board: &Board, side: Side) -> Result<Points, AllocError>
    ensures pairs { IfOk result (λ found. HasPairsOf R.KIND board.now side found) }
{
    if R::has_fouls(side) {
        return all_pairs::<R>(alloc, board, side);
    }
    Ok(Points::new(alloc))
}

/// The same for any side.
fn all_pairs<R: Rule>(alloc: Global, board: &Board, side: Side) -> Result<Points, AllocError>
    ensures pairs { IfOk result (λ found. found ≡ filter (may_make_two_lem R.KIND board.now side) (points_of board.now)) }
{
    let may_make = pair_points::<R>(board, side);
    let mut found = Points::new(alloc);
    for p in may_make.points.points(board) {
        if may_make_two::<R>(board, side, p, may_make.some_five) {
            found.push(p)?;
        }
    }
    Ok(found)
}

/// What one look at the open windows of a side tells of its pairs.
#[derive(Drop)]
pub(crate) struct PairPoints {
    /// Whether the side has a five point: then each empty point is a pair.
    pub(crate) some_five: bool,
    /// A set that has all pairs.
    pub(crate) points: PointSet,
}

/// Where the side may have pairs: in open windows with three stones, or anywhere if it has a five point, which lies in one.
pub(crate) fn pair_points<R: Rule>(board: &Board, side: Side) -> PairPoints
    ensures five { result.some_five ≡ has_five_lem R.KIND board.now side }
    ensures pairs { MayMakePairs R.KIND board.now side result.points }
{
    let windows = window_points(board, side, 3);
    if has_five_among::<R>(board, side, &windows) {
        return PairPoints {
            some_five: true,
            points: PointSet::all(),
        };
    }
    PairPoints {
        some_five: false,
        points: windows,
    }
}

/// Whether the side has a five point, told of the points of its open windows with three stones.
fn has_five_among<R: Rule>(board: &Board, side: Side, windows: &PointSet) -> bool
    requires windows { TellsWindows board.now side 3 windows.now }
    ensures five { result ≡ has_five_lem R.KIND board.now side }
{
    for p in windows.points(board) {
        if is_five_point::<R>(board, side, p) {
            return true;
        }
    }
    false
}

/// Whether the point is empty and a stone of the side on it leaves the side two five points or more, or it has one already, as is
/// told.
fn may_make_two<R: Rule>(board: &Board, side: Side, p: Point, some_five: bool) -> bool
    requires five { some_five ≡ has_five_lem R.KIND board.now side }
    ensures two { result ≡ may_make_two_lem R.KIND board.now side p }
{
    if !board.is_empty(p) {
        return false;
    }
    if some_five {
        return true;
    }
    matches!(fives_made::<R>(board, side, p), FivePoints::Several)
}

/// Whether the point is one of the list.
pub(crate) fn has_point(points: &[Point], p: Point) -> bool
    ensures has { result ≡ has_point_lem points.now p }
{
    points.iter().any(|q| q.is(p))
}
