//! Double points, and the moves that make threes.
//!
//! A double point of a side is an empty point where its stone neither wins nor fouls, and after which it has two five points
//! or more. It is a threat to win by a straight four or by two fours.
#![tactic(auto)]

ghost use Rattle.std.specs.Prelude.{◌≡◌, false, IfOk, IsTrue};
ghost use Rattle.game_rules.specs.Grid.{is_empty, put};
ghost use Rattle.game_rules.specs.Games.{has_five as has_five_lem, is_double_point as is_double_point_lem};
ghost use Rattle.threat_moves.specs.ThreeMoves.{has_double_point as has_double_point_lem, is_three_move as is_three_move_lem, makes_double_point as makes_double_point_lem, has_double_point_alone as has_double_point_alone_lem, three_moves as three_moves_lem};

use crate::gains::is_gain;
use foul_judge::{Outcome, Seen};
use row_shapes::{Rule, fives_in_short, fives_made, has_five};
use std::alloc::{AllocError, Global};
use stone_board::{Board, Point, Points, Side};

/// Whether the point is a double point of the side. The board is as before, and need not be lawful. No memory is taken.
pub fn is_double_point<R: Rule>(board: &mut Board, side: Side, p: Point) -> bool
    ensures double { result ≡ is_double_point_lem R.KIND board.old side p }
    ensures same { board.new ≡ board.old }
{
    if !is_gain::<R>(board, side, p) {
        return false;
    }
    board.put(p, side);
    let two = fives_in_short::<R>(board, side).is_several();
    board.lift(p);
    two
}

/// The same where the side has no five point: then only those that the stone makes are counted.
pub fn is_new_double_point<R: Rule>(board: &mut Board, side: Side, p: Point) -> bool
    requires none { has_five_lem R.KIND board.old side ≡ false }
    ensures double { result ≡ is_double_point_lem R.KIND board.old side p }
    ensures same { board.new ≡ board.old }
{
    if !board.is_empty(p) {
        return false;
    }
    if !fives_made::<R>(board, side, p).is_several() {
        return false;
    }
    is_gain::<R>(board, side, p)
}

/// Whether the side, which has no five point, has a double point. The board is as before.
fn has_double_point<R: Rule>(board: &mut Board, side: Side) -> bool
    requires none { has_five_lem R.KIND board.old side ≡ false }
    ensures double { result ≡ has_double_point_lem R.KIND board.old side }
    ensures same { board.new ≡ board.old }
{
    for p in board.points() {
        if is_new_double_point::<R>(board, side, p) {
            return true;
        }
    }
    false
}

/// The moves of the side to move that go on and leave it no five point but a double point, in reading order. The view is as
/// before, also where memory ran out, which `Err` says.
pub fn three_moves<R: Rule, V: Seen<R>>(alloc: Global, view: &mut V) -> Result<Points, AllocError>
    ensures threes { IfOk result (λ points. points ≡ three_moves_lem R.KIND (V.position view.old)) }
    ensures same { V.position view.new ≡ V.position view.old }
{
    let mut board = view.board().copy()?;
    let mut found = Points::new(alloc);
    for p in view.board().points() {
        if is_three_move::<R, V>(view, &mut board, p) {
            found.push(p)?;
        }
    }
    Ok(found)
}

/// Whether the move goes on and leaves its side no five point but a double point. The view is as before, and so is the board,
/// which is a copy of that of the view.
#[tactic(auto, unfolding(crate::specs::ThreeMoves::is_three_move))]
pub fn is_three_move<R: Rule, V: Seen<R>>(view: &mut V, board: &mut Board, p: Point) -> bool
    requires copy { board.old ≡ V.position view.old }
    ensures three { result ≡ is_three_move_lem R.KIND (V.position view.old) p }
    ensures same { V.position view.new ≡ V.position view.old }
    ensures same_board { board.new ≡ board.old }
{
    match view.outcome(p) {
        Outcome::GoesOn => {
            let side = view.side();
            makes_double_point::<R>(board, side, p)
        }
        _ => false,
    }
}

/// Whether the side's stone on an empty point leaves it no five point but a double point. The board is as before.
fn makes_double_point<R: Rule>(board: &mut Board, side: Side, p: Point) -> bool
    requires empty { IsTrue (is_empty board.old p) }
    ensures double { result ≡ makes_double_point_lem R.KIND board.old side p }
    ensures same { board.new ≡ board.old }
{
    board.put(p, side);
    let double = has_double_point_alone::<R>(board, side);
    board.lift(p);
    double
}

/// Whether the side has no five point but a double point. The board is as before.
fn has_double_point_alone<R: Rule>(board: &mut Board, side: Side) -> bool
    ensures double { result ≡ has_double_point_alone_lem R.KIND board.old side }
    ensures same { board.new ≡ board.old }
{
    if has_five::<R>(board, side) {
        return false;
    }
    has_double_point::<R>(board, side)
}
