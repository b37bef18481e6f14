//! The game on a board: who plays which colour under which rule, and what the brain follows.
//!
//! As long as the opponent's replies are listed in what is followed, the answers are read off it, without a search and without
//! memory. A reply after which nothing can be followed brings a new choice.
#![tactic(auto)]

ghost use Rattle.brain_session.specs.Running.{EndsGame, GoesOnAlong};
ghost use Rattle.std.specs.Prelude.{◌≡◌, true, false, Some, None, not, IsOk, IfOk, OnErr, IfNone, IfSome, IsSome, IsTrue, OnOk};
ghost use Rattle.std.specs.Option.{option_map};
ghost use Rattle.game_rules.specs.Grid.{is_empty};
ghost use Rattle.strategy_checker.specs.HeldRoots.{HeldTable};
ghost use Rattle.game_rules.specs.Play.{outcome, mover, other, goes_on};
ghost use Rattle.brain_session.specs.States.{InGame, board_of};
ghost use Rattle.brain_session.specs.ChosenMoves.{by_followed, chosen, first_node, followed_on};
ghost use Rattle.brain_session.specs.Steps.{Chooses, move_row, with_move};
ghost use Rattle.brain_session.specs.Memory.{is_settled};
ghost use Rattle.brain_session.specs.Kept.{IsReady, IsRow, followed_of, game_of, in_place, IsKeptUp, StandsAt};

use crate::Reaction;
use crate::choice::choose;
use crate::guide::Guide;
use crate::moves_on_board::MovesOnBoard;
use foul_judge::Outcome;
use game_rules::{Point, RuleKind, Side};
use gomocup_text::{Answer, ErrorText};
use std::alloc::{AllocError, Global};
use strategy_checker::Held;

/// The rule of a game, the brain's colour, whether the game is ended, and what the brain follows, if anything.
#[derive(Drop)]
pub(crate) struct SessionGame {
    pub(crate) kind: RuleKind,
    pub(crate) brain: Side,
    pub(crate) ended: bool,
    pub(crate) guide: Option<Guide>,
}

impl SessionGame {
    /// A game in which nothing is followed yet.
    pub(crate) fn new(kind: RuleKind, brain: Side) -> SessionGame
        ensures begun { result ≡ record { kind = kind; brain = brain; ended = false; guide = None } }
    {
        SessionGame {
            kind,
            brain,
            ended: false,
            guide: None,
        }
    }

    /// The opponent's move at this point, of the board or off it. A move that is none is refused and changes nothing; where the
    /// game goes on, the brain answers. After an `Err`, which says that memory ran out, the game is as before.
    pub(crate) fn take_reply(
        &mut self,
        alloc: Global,
        held: &Held,
        played: &mut MovesOnBoard,
        p: Point,
    ) -> Result<Reaction, AllocError>
        requires kept { IsKeptUp held.now played.old self.old }
        requires to_reply { other (mover (board_of (game_of played.old self.old))) ≡ self.old.brain }
        requires going { self.old.ended ≡ false }
        ensures taken { IfOk result (λ r. IsRow held.now (move_row (in_place held.now (InGame (game_of played.old self.old))) (game_of played.old self.old) p
            (outcome self.old.kind (board_of (game_of played.old self.old)) p)) r (InGame (game_of played.new self.new))) }
        ensures running { OnOk result (IsKeptUp held.now played.new self.new) }
        ensures followed { IsSome self.old.guide → IsOk result }
        ensures settled { is_settled held.now (move_row (in_place held.now (InGame (game_of played.old self.old))) (game_of played.old self.old) p
            (outcome self.old.kind (board_of (game_of played.old self.old)) p)) ≡ true → IsOk result }
        ensures same { OnErr result (played.new ≡ played.old) }
        ensures unchanged { OnErr result (self.new ≡ self.old) }
    {
        match played.outcome(self.kind, p) {
            Outcome::Refused => Ok(Reaction::Says(Answer::Error(ErrorText::BadMove))),
            Outcome::Wins => Ok(self.end(played, p, ErrorText::GameLost)),
            Outcome::Fouls(_) => Ok(self.end(played, p, ErrorText::OpponentFoul)),
            Outcome::Draws => Ok(self.end(played, p, ErrorText::GameDrawn)),
            Outcome::GoesOn => self.answer(alloc, held, played, p),
        }
    }

    /// The opponent's move, with which the game goes on, and the brain's answer to it. After an `Err`, which says that memory ran
    /// out, the game is as before.
    fn answer(
        &mut self,
        alloc: Global,
        held: &Held,
        played: &mut MovesOnBoard,
        p: Point,
    ) -> Result<Reaction, AllocError>
        requires kept { IsKeptUp held.now played.old self.old }
        requires to_reply { other (mover (board_of (game_of played.old self.old))) ≡ self.old.brain }
        requires going { self.old.ended ≡ false }
        requires goes_on { outcome self.old.kind (board_of (game_of played.old self.old)) p ≡ Outcome.GoesOn }
        ensures made { IfOk result (λ r. IsRow held.now (Chooses (with_move (game_of played.old self.old) p false)) r (InGame (game_of played.new self.new))) }
        ensures running { OnOk result (IsKeptUp held.now played.new self.new) }
        ensures followed { IsSome self.old.guide → IsOk result }
        ensures settled { IsSome (first_node (with_move (game_of played.old self.old) p false) held.now.roots) → IsOk result }
        ensures same { OnErr result (played.new ≡ played.old) }
        ensures unchanged { OnErr result (self.new ≡ self.old) }
    {
        played.play(p);
        let answer = self.make_move(alloc, held, played);
        if answer.is_err() {
            played.take_back();
        }
        answer
    }

    /// The opponent's move ends the game.
    fn end(&mut self, played: &mut MovesOnBoard, p: Point, text: ErrorText) -> Reaction
        requires along { GoesOnAlong self.old.kind played.old.start played.old.moves }
        requires ends { EndsGame (outcome self.old.kind (board_of (game_of played.old self.old)) p) }
        ensures ended { game_of played.new self.new ≡ with_move (game_of played.old self.old) p true }
        ensures says { result ≡ Reaction.Says (Answer.Error text) }
        ensures running { (h : HeldTable) → IsKeptUp h played.new self.new }
    {
        played.play(p);
        self.ended = true;
        Reaction::Says(Answer::Error(text))
    }

    /// The brain makes its chosen move. After an `Err`, which says that memory ran out, the game is as before.
    pub(crate) fn make_move(
        &mut self,
        alloc: Global,
        held: &Held,
        played: &mut MovesOnBoard,
    ) -> Result<Reaction, AllocError>
        requires along { GoesOnAlong self.old.kind played.old.start played.old.moves }
        requires to_move { mover (board_of (game_of played.old self.old)) ≡ self.old.brain }
        requires ready { IsReady held.now played.old self.old }
        ensures made { IfOk result (λ r. IsRow held.now (Chooses (game_of played.old self.old)) r (InGame (game_of played.new self.new))) }
        ensures running { OnOk result (IsKeptUp held.now played.new self.new) }
        ensures followed { IsSome (followed_on held.now (game_of played.old self.old)) → IsOk result }
        ensures settled { IsSome (first_node (game_of played.old self.old) held.now.roots) → IsOk result }
        ensures same { OnErr result (played.new ≡ played.old) }
        ensures unchanged { OnErr result (self.new ≡ self.old) }
    {
        let at = self.next_move(alloc, held, played)?;
        self.ended = is_last(&played.outcome(self.kind, at));
        played.play(at);
        Ok(Reaction::Says(Answer::Move(at)))
    }

    /// The chosen move of the brain, with which the game follows what the choice does. After an `Err`, which says that memory
    /// ran out, it follows what it did.
    fn next_move(
        &mut self,
        alloc: Global,
        held: &Held,
        played: &mut MovesOnBoard,
    ) -> Result<Point, AllocError>
        requires along { GoesOnAlong self.old.kind played.old.start played.old.moves }
        requires ready { IsReady held.now played.old self.old }
        ensures chosen { IfOk result (λ p. chosen held.now (game_of played.old self.old) ≡ record { at = p; followed = option_map followed_of self.new.guide }) }
        ensures stands { OnOk result (IfSome self.new.guide (StandsAt held.now self.old.kind (board_of (game_of played.old self.old)))) }
        ensures empty { IfOk result (λ p. IsTrue (is_empty (board_of (game_of played.old self.old)) p)) }
        ensures followed { IsSome (followed_on held.now (game_of played.old self.old)) → IsOk result }
        ensures settled { IsSome (first_node (game_of played.old self.old) held.now.roots) → IsOk result }
        ensures others { self.new ≡ record self.old { guide = self.new.guide } }
        ensures same { played.new ≡ played.old }
        ensures unchanged { OnErr result (self.new ≡ self.old) }
    {
        if let Some(at) = self.follow(held, played) {
            return Ok(at);
        }
        let found = choose(alloc, held, self, played)?;
        self.guide = found.guide;
        Ok(found.at)
    }

    /// The move by what was followed before the opponent's last move, if anything was and goes on after it.
    fn follow(&mut self, held: &Held, played: &MovesOnBoard) -> Option<Point>
        requires along { GoesOnAlong self.old.kind played.now.start played.now.moves }
        requires ready { IsReady held.now played.now self.old }
        ensures none { IfNone result ((followed_on held.now (game_of played.now self.old) ≡ None) × (self.new ≡ self.old)) }
        ensures followed { IfSome result (λ p. by_followed held.now (game_of played.now self.old)
            ≡ Some (record { at = p; followed = option_map followed_of self.new.guide })) }
        ensures stands { IfSome result (λ p. IfSome self.new.guide (StandsAt held.now self.old.kind (board_of (game_of played.now self.old)))) }
        ensures empty { IfSome result (λ p. IsTrue (is_empty (board_of (game_of played.now self.old)) p)) }
        ensures others { self.new ≡ record self.old { guide = self.new.guide } }
    {
        let reply = played.last()?;
        match &mut self.guide {
            None => None,
            Some(guide) => {
                if guide.answer(held, reply) {
                    Some(guide.attack(held))
                } else {
                    None
                }
            }
        }
    }

    /// After a move was taken back the game goes on, and nothing is followed.
    pub(crate) fn reopen(&mut self)
        ensures reopened { self.new ≡ record self.old { ended = false; guide = None } }
    {
        self.ended = false;
        self.guide = None;
    }
}

/// Whether a game is ended by a move with this outcome.
fn is_last(outcome: &Outcome) -> bool
    ensures last { result ≡ not (goes_on outcome.now) }
{
    !matches!(outcome, Outcome::GoesOn)
}
