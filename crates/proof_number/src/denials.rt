//! The defender's own fours.
//!
//! Where the attacker has no five point after its move, the defender may win by continuous fours before the threat is carried out.
//! A side that wins whatever the replies leaves the other side no win, so such a move is lost to the attacker. A small search of
//! fours is asked, whose positions are not counted: the game of threats has none of them.
#![tactic(auto)]

ghost use Rattle.std.specs.Prelude.{◌≡◌, ℕ, false, IfOk, IsTrue};
ghost use Rattle.game_rules.specs.Play.{mover};
ghost use Rattle.game_rules.specs.Games.{has_five as has_five_lem};
ghost use Rattle.threat_game.specs.ThreatGame.{LosesToThreats};
ghost use Rattle.proof_number.specs.Denials.{WinsByFewFours};

use foul_judge::Seen;
use four_search::finds_fours_without_fives;
use open_windows::has_five;
use row_shapes::Rule;
use std::alloc::{AllocError, Global};

/// So many positions are looked at for the defender's fours.
const FOUR_POSITIONS: u64 = 50;

/// Within so many moves the defender's fours are looked for.
const FOUR_MOVES: u32 = 20;

/// Whether the side to move is seen to win by continuous fours, where the other side has no five point. Then the other side has no
/// win whatever is played first. The view is as before, also where memory ran out.
pub(crate) fn is_denied<R: Rule, V: Seen<R>>(
    alloc: Global,
    view: &mut V,
) -> Result<bool, AllocError>
    requires none { has_five_lem R.KIND (V.position view.old) (mover (V.position view.old)) ≡ false }
    ensures denied { IfOk result (λ found. IsTrue found → (moves : ℕ) → ¬ LosesToThreats R.KIND moves (V.position view.old)) }
    ensures fours { IfOk result (λ found. IsTrue found → WinsByFewFours R.KIND (V.position view.old)) }
    ensures same { V.position view.new ≡ V.position view.old }
{
    let attacker = view.side().other();
    if has_five::<R>(view.board(), attacker) {
        return Ok(false);
    }
    finds_fours_without_fives::<R, V>(alloc, view, FOUR_MOVES, FOUR_POSITIONS)
}
