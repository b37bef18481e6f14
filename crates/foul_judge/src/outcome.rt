//! What becomes of a move.
//!
//! Asked in this order, as the rules do: is the point free, does the stone win, is it a foul, is the board full, and else the game
//! goes on. So a five of Black is a win even where it would be a foul too (RIF Rules of Renju). Of a side that has fouls the foul
//! judge tells all but the first.
#![tactic(auto)]

ghost use Rattle.std.specs.Prelude.{◌≡◌};
ghost use Rattle.game_rules.specs.Grid.{empties_of};
ghost use Rattle.game_rules.specs.Play.{mover as mover_lem, outcome as outcome_lem};
ghost use Rattle.foul_judge.specs.BlackMoves.{quiet_outcome as quiet_outcome_lem};

use crate::foul::black_outcome;
use game_rules::Outcome;
use row_shapes::{Rule, five_at};
use stone_board::{Board, Point, Side};

/// The side to move, by the counts.
pub fn mover(board: &Board) -> Side
    ensures mover { result ≡ mover_lem board.now }
{
    if board.count(Side::Black) == board.count(Side::White) {
        Side::Black
    } else {
        Side::White
    }
}

/// The outcome of a move of the side to move. The board is as before.
#[tactic(auto, unfolding(game_rules::specs::Play::outcome))]
pub fn outcome_at<R: Rule>(board: &mut Board, p: Point) -> Outcome
    ensures outcome { result ≡ outcome_lem R.KIND board.old p }
    ensures same { board.new ≡ board.old }
{
    if !board.is_empty(p) {
        return Outcome::Refused;
    }
    let side = mover(board);
    if R::has_fouls(side) {
        return black_outcome::<R>(board, p);
    }
    if five_at::<R>(board, side, p) {
        Outcome::Wins
    } else {
        quiet_outcome(board)
    }
}

/// The outcome of a move on an empty point that neither wins nor is a foul.
#[inline(always)]
pub(crate) fn quiet_outcome(board: &Board) -> Outcome
    ensures outcome { result ≡ quiet_outcome_lem (empties_of board.now) }
{
    if board.empties() == 1 {
        Outcome::Draws
    } else {
        Outcome::GoesOn
    }
}
