//! Five points, found among the points of open windows with four stones.
#![tactic(auto)]

ghost use Rattle.std.specs.Prelude.{◌≡◌, IfOk};
ghost use Rattle.game_rules.specs.Games.{five_points as five_points_lem, has_five as has_five_lem};
ghost use Rattle.row_shapes.specs.FivePoints.{in_short};

use crate::windows::window_points;
use row_shapes::{FivePoints, Rule, is_five_point};
use std::alloc::{AllocError, Global};
use stone_board::{Board, Points, Side};

/// All five points of the side, in reading order. `Err` says that memory ran out.
pub fn five_points<R: Rule>(alloc: Global, board: &Board, side: Side) -> Result<Points, AllocError>
    ensures fives { IfOk result (λ points. points ≡ five_points_lem R.KIND board.now side) }
{
    let windows = window_points(board, side, 4);
    let mut found = Points::new(alloc);
    for p in windows.points(board) {
        if is_five_point::<R>(board, side, p) {
            found.push(p)?;
        }
    }
    Ok(found)
}

/// Whether the side has a five point. No memory is taken.
pub fn has_five<R: Rule>(board: &Board, side: Side) -> bool
    ensures five { result ≡ has_five_lem R.KIND board.now side }
{
    let windows = window_points(board, side, 4);
    for p in windows.points(board) {
        if is_five_point::<R>(board, side, p) {
            return true;
        }
    }
    false
}

/// The five points of the side in short: the points of windows are asked up to the second of them. No memory is taken.
pub fn fives_in_short<R: Rule>(board: &Board, side: Side) -> FivePoints
    ensures fives { result ≡ in_short (five_points_lem R.KIND board.now side) }
{
    let windows = window_points(board, side, 4);
    let mut first = None;
    for p in windows.points(board) {
        if is_five_point::<R>(board, side, p) {
            match first {
                None => first = Some(p),
                Some(_) => return FivePoints::Several,
            }
        }
    }
    match first {
        None => FivePoints::None,
        Some(p) => FivePoints::One(p),
    }
}
