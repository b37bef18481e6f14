//! Wins by the last move: each reply to it fouls.
//!
//! They are rare, and only where the other side has fouls, and there are not two quiet points, of which a move leaves it one.
#![tactic(auto)]

ghost use Rattle.std.specs.Prelude.{◌≡◌, true, false, IfSome, IfNone};
ghost use Rattle.game_rules.specs.Play.{mover, after, outcome as outcome_lem};
ghost use Rattle.game_rules.specs.Games.{WinsByThreats, has_five as has_five_lem};
ghost use Rattle.game_rules.specs.declared.Outcome.{Outcome};
ghost use Rattle.threat_moves.specs.OneBlock.{all_foul};
ghost use Rattle.threat_game.specs.Attacks.{is_last_move as is_last_move_lem, is_fouled as is_fouled_lem};

use crate::attacks::{BestReply, best_reply_to, goes_on, is_threat_move};
use crate::quiet_points::has_two_quiet;
use foul_judge::Seen;
use row_shapes::Rule;
use stone_board::{Board, Point};

/// A move of the game of threats after which each reply fouls, if there is one. The attacker has no five point. The view is as
/// before, and so is the board, a copy of its own.
pub fn last_move<R: Rule, V: Seen<R>>(view: &mut V, board: &mut Board) -> Option<Point>
    requires none { has_five_lem R.KIND (V.position view.old) (mover (V.position view.old)) ≡ false }
    requires copy { board.old ≡ V.position view.old }
    ensures last { IfSome result (λ p. is_last_move_lem R.KIND (V.position view.old) p ≡ true) }
    ensures no_win { IfNone result (¬ WinsByThreats R.KIND 1 (V.position view.old)) }
    ensures same { V.position view.new ≡ V.position view.old }
    ensures same_board { board.new ≡ board.old }
{
    let defender = view.side().other();
    if !R::has_fouls(defender) {
        return None;
    }
    if has_two_quiet(view.board()) {
        return None;
    }
    for p in view.board().points() {
        if is_last_move::<R, V>(view, board, p) {
            return Some(p);
        }
    }
    None
}

/// Whether the move is one of the game of threats, and each reply to it fouls.
fn is_last_move<R: Rule, V: Seen<R>>(view: &mut V, board: &mut Board, p: Point) -> bool
    requires copy { board.old ≡ V.position view.old }
    ensures last { result ≡ is_last_move_lem R.KIND (V.position view.old) p }
    ensures same { V.position view.new ≡ V.position view.old }
    ensures same_board { board.new ≡ board.old }
{
    if !goes_on::<R, V>(view, p) {
        return false;
    }
    if !fouls_after::<R, V>(view, p) {
        return false;
    }
    is_threat_move::<R, V>(view, board, p)
}

/// Whether each reply to a move that goes on fouls.
fn fouls_after<R: Rule, V: Seen<R>>(view: &mut V, p: Point) -> bool
    requires on { outcome_lem R.KIND (V.position view.old) p ≡ Outcome.GoesOn }
    ensures fouls { result ≡ all_foul R.KIND (after (V.position view.old) p) }
    ensures same { V.position view.new ≡ V.position view.old }
{
    is_fouled(best_reply_to::<R, V>(view, p))
}

/// Whether each of the replies that come to this fouls.
fn is_fouled(best: BestReply) -> bool
    ensures fouled { result ≡ is_fouled_lem best }
{
    matches!(best, BestReply::Fouls)
}
