//! Five stones of a side in a row on a line, which every winning run has, whatever the rule.
#![tactic(auto)]

ghost use Rattle.std.specs.Prelude.{◌≡◌, false, true};
ghost use Rattle.game_rules.specs.Grid.{holds};
ghost use Rattle.game_rules.specs.Play.{IsUnwon};
ghost use Rattle.game_rules.specs.Shapes.{row_wins, run_of};
ghost use Rattle.game_rules.specs.declared.Axis.{Axis};
ghost use Rattle.game_rules.specs.declared.Point.{Point};
ghost use Rattle.game_rules.specs.declared.RuleKind.{RuleKind};

use crate::windows::has_row;
use stone_board::{Axis, Board, Side};

/// Whether a run on the board may win: a side has five stones in a row. Where none has, the game is not won, whatever the rule.
pub fn may_be_won(board: &Board) -> bool
    ensures unwon { result ≡ false → (rule : RuleKind) → IsUnwon rule board.now }
{
    side_has_row(board, Side::Black) || side_has_row(board, Side::White)
}

/// Whether the side has five stones in a row.
fn side_has_row(board: &Board, side: Side) -> bool
    ensures none { result ≡ false → (rule : RuleKind) (d : Axis) (p : Point) → holds board.now side p ≡ true
        → row_wins rule side (run_of board.now side d p) ≡ false }
{
    axis_has_row(board, side, Axis::Row)
        || axis_has_row(board, side, Axis::Column)
        || axis_has_row(board, side, Axis::Down)
        || axis_has_row(board, side, Axis::Up)
}

/// The same on one axis.
fn axis_has_row(board: &Board, side: Side, axis: Axis) -> bool
    ensures none { result ≡ false → (rule : RuleKind) (p : Point) → holds board.now side p ≡ true
        → row_wins rule side (run_of board.now side axis p) ≡ false }
{
    let (first, past) = board.lines(axis);
    for n in first..past {
        if has_row(board.line(side, axis, n)) {
            return true;
        }
    }
    false
}
