//! What becomes of a four: the block decides.
//!
//! After a four move the defender wins if it has a five point itself. Else it has to take the attacker's one five point,
//! and has lost where there are two or where it may not play there.
#![tactic(auto)]

ghost use Rattle.std.specs.Prelude.{◌≡◌, IsTrue};
ghost use Rattle.threat_moves.specs.FourMoves.{is_four_move};
ghost use Rattle.threat_moves.specs.Blocks.{by_block as by_block_lem, fate as fate_lem, block_answer};

use foul_judge::{Outcome, Seen};
use row_shapes::{FivePoints, Rule};
use stone_board::Point;

/// What becomes of a four move, the first that holds after it.
#[derive(Clone, Copy, Debug, PartialEq, Eq)]
pub enum BlockAnswer {
    /// The defender has a five point.
    Lost,
    /// The attacker has two five points or more, or the one block is a foul.
    Won,
    /// The one block fills the board.
    Draw(Point),
    /// The one block goes on.
    One(Point),
}

/// What becomes of the four move `p`. The view is as before. No memory is taken.
pub fn forced<R: Rule, V: Seen<R>>(view: &mut V, p: Point) -> BlockAnswer
    requires four { IsTrue (is_four_move R.KIND (V.position view.old) p) }
    ensures answer { result ≡ block_answer R.KIND (V.position view.old) p }
    ensures same { V.position view.new ≡ V.position view.old }
{
    view.play(p);
    let answer = fate::<R, V>(view);
    view.undo(p);
    answer
}

/// What becomes of a four where the defender is to move.
#[tactic(auto, unfolding(crate::specs::Blocks::fate))]
fn fate<R: Rule, V: Seen<R>>(view: &mut V) -> BlockAnswer
    ensures fate { result ≡ fate_lem R.KIND (V.position view.old) }
    ensures same { V.position view.new ≡ V.position view.old }
{
    let defender = view.side();
    if view.has_five(defender) {
        return BlockAnswer::Lost;
    }
    match view.fives_in_short(defender.other()) {
        FivePoints::None => BlockAnswer::Lost,
        FivePoints::One(block) => by_block(block, view.outcome(block)),
        FivePoints::Several => BlockAnswer::Won,
    }
}

/// What becomes of a four whose one block has this outcome, where the defender has no five point.
pub fn by_block(block: Point, outcome: Outcome) -> BlockAnswer
    ensures answer { result ≡ by_block_lem block outcome }
{
    match outcome {
        Outcome::Refused | Outcome::Wins => BlockAnswer::Lost,
        Outcome::Fouls(_) => BlockAnswer::Won,
        Outcome::Draws => BlockAnswer::Draw(block),
        Outcome::GoesOn => BlockAnswer::One(block),
    }
}
