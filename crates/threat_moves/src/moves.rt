//! Five points, and the moves that make fours.
//!
//! A four is told by its five point after the move, not by the look of its line: so overlines and fouls are judged by the rule
//! itself. The view tells whether there is a five point, and how many in short; a list of them is made of its board.
#![tactic(auto)]

ghost use Rattle.std.specs.Prelude.{◌≡◌, IfOk};
ghost use Rattle.game_rules.specs.Games.{five_points as five_points_lem};
ghost use Rattle.threat_moves.specs.FourMoves.{is_four_move as is_four_move_lem, four_moves as four_moves_lem};

use foul_judge::{Outcome, Seen};
use row_shapes::{Rule, five_points};
use std::alloc::{AllocError, Global};
use stone_board::{Point, Points, Side};

/// All five points of the side, in reading order. `Err` says that memory ran out.
pub fn fives<R: Rule, V: Seen<R>>(alloc: Global, view: &V, side: Side) -> Result<Points, AllocError>
    ensures fives { IfOk result (λ points. points ≡ five_points_lem R.KIND (V.position view.now) side) }
{
    five_points::<R>(alloc, view.board(), side)
}

/// The moves of the side to move that go on and leave it a five point, in reading order. The view is as before, also
/// where memory ran out, which `Err` says.
pub fn four_moves<R: Rule, V: Seen<R>>(alloc: Global, view: &mut V) -> Result<Points, AllocError>
    ensures fours { IfOk result (λ points. points ≡ four_moves_lem R.KIND (V.position view.old)) }
    ensures same { V.position view.new ≡ V.position view.old }
{
    let mut found = Points::new(alloc);
    for p in view.board().points() {
        if is_four_move::<R, V>(view, p) {
            found.push(p)?;
        }
    }
    Ok(found)
}

/// Whether the move goes on and leaves its side a five point. The view is as before. No memory is taken.
#[tactic(auto, unfolding(crate::specs::FourMoves::is_four_move))]
pub fn is_four_move<R: Rule, V: Seen<R>>(view: &mut V, p: Point) -> bool
    ensures four { result ≡ is_four_move_lem R.KIND (V.position view.old) p }
    ensures same { V.position view.new ≡ V.position view.old }
{
    match view.outcome(p) {
        Outcome::GoesOn => {
            let side = view.side();
            view.play(p);
            let four = view.has_five(side);
            view.undo(p);
            four
        }
        _ => false,
    }
}
