//! The verdict on a game.
//!
//! The moves are played one after another on the position that is lent, as long as the game goes on, and are taken back, the last one
//! first. So no memory is taken, neither on the heap nor for each move, and no more moves are played than the board has points.
#![tactic(auto)]

ghost use Rattle.std.specs.Prelude.{◌≡◌, ◌+◌, ◌≤◌, ◌∷◌, List, length, IfSome, IfNone};
ghost use Rattle.game_rules.specs.Grid.{Grid};
ghost use Rattle.game_rules.specs.Play.{IsPosition, mover as mover_lem};
ghost use Rattle.game_rules.specs.declared.Outcome.{Outcome};
ghost use Rattle.game_referee.specs.Played.{WentOn};
ghost use Rattle.game_referee.specs.Verdicts.{if_last, outcomes, verdict, verdict_from};

use crate::GameVerdict;
use foul_judge::{Outcome, Position, Seen};
use row_shapes::Rule;
use stone_board::{Point, Side};

/// The verdict on the game of these moves from the position, which is the same afterwards. It takes no memory.
#[tactic(auto, unfolding(crate::specs::Verdicts::verdict))]
pub fn judge<R: Rule>(position: &mut Position<R>, moves: &[Point]) -> GameVerdict
    ensures verdict { result ≡ verdict R.KIND position.old moves.now }
    ensures same { position.new ≡ position.old }
{
    // Its contract says that the position is lawful.
    let _mover = position.side();
    let (played, verdict) = play_on(position, moves);
    take_back(position, moves, played);
    verdict
}

/// Takes so many of the moves back, which were played from a lawful position: the position is that one again.
pub(crate) fn take_back<R: Rule>(position: &mut Position<R>, moves: &[Point], played: usize)
    requires within { played ≤ length moves.now }
    requires played { (b : Grid) × IsPosition R.KIND b × WentOn R.KIND b moves.now played position.old }
    ensures back { (b : Grid) → IsPosition R.KIND b → WentOn R.KIND b moves.now played position.old → position.new ≡ b }
{
    for back in 0..played {
        position.undo(moves[played - 1 - back]);
    }
}

/// Plays the moves as long as the game goes on. The answer is how many were played, and the verdict.
fn play_on<R: Rule>(position: &mut Position<R>, moves: &[Point]) -> (usize, GameVerdict)
    requires lawful { IsPosition R.KIND position.old }
    ensures played { WentOn R.KIND position.old moves.now result.0 position.new }
    ensures within { result.0 ≤ length moves.now }
    ensures verdict { result.1 ≡ verdict_from 0 (mover_lem position.old) (outcomes R.KIND position.old moves.now) }
{
    for played in 0..moves.len() {
        let at = moves[played];
        let outcome = position.outcome(at);
        let mover = position.side();
        if let Some(verdict) = ended(outcome, mover, played as u32, &moves[played + 1..]) {
            return (played, verdict);
        }
        position.play(at);
    }
    (moves.len(), GameVerdict::Open(moves.len() as u32))
}

/// The verdict on a game where a move with this outcome comes after so many and before these, unless it goes on.
fn ended(outcome: Outcome, mover: Side, played: u32, rest: &[Point]) -> Option<GameVerdict>
    requires room { played + 2 ≤ u32.MAX }
    ensures verdict { IfSome result (λ verdict. (later : List Outcome) → length later ≡ length rest.now
        → verdict ≡ verdict_from played mover (outcome ∷ later)) }
    ensures goes_on { IfNone result (outcome ≡ Outcome.GoesOn) }
{
    let number = played + 1;
    match outcome {
        Outcome::Refused => Some(GameVerdict::Illegal(number)),
        Outcome::Wins => Some(last(GameVerdict::Won(mover, number), number, rest)),
        Outcome::Fouls(foul) => Some(last(GameVerdict::Fouled(foul, number), number, rest)),
        Outcome::Draws => Some(last(GameVerdict::Drawn(number), number, rest)),
        Outcome::GoesOn => None,
    }
}

/// The verdict on a game that ends with this move, unless there are more moves.
fn last(verdict: GameVerdict, number: u32, rest: &[Point]) -> GameVerdict
    requires room { number + 1 ≤ u32.MAX }
    ensures last { result ≡ if_last verdict number rest.now }
{
    if rest.is_empty() {
        verdict
    } else {
        GameVerdict::AfterEnd(number + 1)
    }
}
