//! Calls under a rule that is known only when the program runs.
//!
//! A game has its rule from a command, and a search has it in its type: each call here has a case for each rule.
#![tactic(auto)]

ghost use Rattle.std.specs.Prelude.{◌≡◌, IfOk};
ghost use Rattle.game_rules.specs.Play.{IsPosition, outcome as outcome_lem};
ghost use Rattle.brain_session.specs.ChosenMoves.{plain_move as plain_move_lem};
ghost use Rattle.brain_session.specs.Kept.{IsFound};

use crate::own_win::own_win as own_win_under;
use crate::plain_move::plain_move as plain_move_under;
use foul_judge::{Outcome, outcome_at};
use four_search::FourTable;
use game_rules::{Point, RuleKind};
use row_shapes::under_rule;
use std::alloc::{AllocError, Global};
use stone_board::Board;

/// The outcome of a move of the side to move at any point of the board, or off it. The board is as before.
pub(crate) fn outcome(kind: RuleKind, board: &mut Board, p: Point) -> Outcome
    ensures outcome { result ≡ outcome_lem kind board.old p }
    ensures same { board.new ≡ board.old }
{
    under_rule!(kind, outcome_at(board, p))
}

/// The table of a win by continuous fours from the position on the board, where a short search finds one. `Err` says that
/// memory ran out.
pub(crate) fn own_win(
    alloc: Global,
    kind: RuleKind,
    board: &Board,
) -> Result<Option<FourTable>, AllocError>
    requires lawful { IsPosition kind board.now }
    ensures found { IfOk result (IsFound kind board.now) }
{
    under_rule!(kind, own_win_under(alloc, board))
}

/// A plain move of the side to move. The board is as before.
pub(crate) fn plain_move(kind: RuleKind, board: &mut Board) -> Point
    ensures plain { result ≡ plain_move_lem kind board.old }
    ensures same { board.new ≡ board.old }
{
    under_rule!(kind, plain_move_under(board))
}
