//! A board that was begun, with the game on it, if there is one.
//!
//! A board may stand before a game has begun on it: BEGIN, the first TURN and DONE begin one, each with the side that the
//! protocol names.
#![tactic(auto)]

ghost use Rattle.strategy_checker.specs.HeldRoots.{HeldTable};
ghost use Rattle.game_rules.specs.Grid.{is_on};
ghost use Rattle.std.specs.Prelude.{◌≡◌, ◌≤◌, true, IsOk, IfOk, OnErr, IfSome, None, false, OnOk, IsNone, IsSome};
ghost use Rattle.game_rules.specs.declared.TheConstants.{MIN_SIDE, MAX_SIDE};
ghost use Rattle.game_rules.specs.declared.Point.{Point};
ghost use Rattle.brain_session.specs.States.{Fresh, State, empty_board, point_at};
ghost use Rattle.brain_session.specs.Batches.{game_from};
ghost use Rattle.brain_session.specs.Steps.{begin_row, board_in, placed, restart_row, takeback_row, turn_row};
ghost use Rattle.brain_session.specs.Running.{IsPlace, StonesFit};
ghost use Rattle.brain_session.specs.Memory.{begins_none, is_following, is_fresh, is_settled, is_game};
ghost use Rattle.brain_session.specs.Kept.{are_one as are_one_lem, IsBegun, IsPointOn, IsStateOf, Takes, turn_refusal};

use crate::Reaction;
use crate::batch::BatchReader;
use crate::game::SessionGame;
use crate::moves_on_board::MovesOnBoard;
use foul_judge::refusal;
use game_rules::{Point, RuleKind, Side};
use gomocup_text::{Answer, ErrorText};
use std::alloc::{AllocError, Global};
use std::marker::Model;
use strategy_checker::Held;

/// A board with the moves on it, and the game on it, if one has begun. Contracts see the place that this is.
#[derive(Drop)]
pub(crate) struct SessionBoard {
    played: MovesOnBoard,
    game: Option<SessionGame>,
}

impl Model for SessionBoard {
    ghost use Rattle.brain_session.specs.States.{Place};
    ghost use Rattle.brain_session.specs.Kept.{IsSessionBoard, place_of};

    ghost Value = { Place };

    ghost view = { λ r. place_of r.played r.game };

    ghost invariant = { λ r. IsSessionBoard r.played r.game };
}

impl SessionBoard {
    /// An empty board of this size, on which no game has begun. `Err` says that memory ran out.
    pub(crate) fn fresh(alloc: Global, width: u8, height: u8) -> Result<SessionBoard, AllocError>
        requires wide { MIN_SIDE ≤ width }
        requires width_fits { width ≤ MAX_SIDE }
        requires high { MIN_SIDE ≤ height }
        requires height_fits { height ≤ MAX_SIDE }
        ensures fresh { IfOk result (λ r. r ≡ Fresh width height) }
    {
        Ok(SessionBoard {
            played: MovesOnBoard::empty(alloc, width, height)?,
            game: None,
        })
    }

    /// RESTART: the stones are taken off the board, and no game has begun on it. No memory is taken.
    pub(crate) fn clear(&mut self) -> Reaction
        ensures row { (s : State) → Takes (restart_row s self.old) s result (placed s self.new) }
        ensures place { (h : HeldTable) → IsPlace h self.new }
    {
        self.played.clear();
        self.game = None;
        Reaction::Says(Answer::Ok)
    }

    /// How many points a row of the board has.
    pub(crate) fn width(&self) -> u8
        ensures width { result ≡ (board_in self.now).width }
        ensures wide { MIN_SIDE ≤ result }
        ensures width_fits { result ≤ MAX_SIDE }
    {
        self.played.board().width()
    }

    /// How many rows the board has.
    pub(crate) fn height(&self) -> u8
        ensures height { result ≡ (board_in self.now).height }
        ensures high { MIN_SIDE ≤ result }
        ensures height_fits { result ≤ MAX_SIDE }
    {
        self.played.board().height()
    }

    /// The point with these coordinates, if it is on the board.
    pub(crate) fn point(&self, x: u32, y: u32) -> Option<Point>
        ensures point { IsPointOn (board_in self.now) (point_at x y) result }
    {
        if x < u32::from(self.width()) && y < u32::from(self.height()) {
            Some(Point {
                x: x as u8,
                y: y as u8,
            })
        } else {
            None
        }
    }

    /// The game from the position of a batch, with the brain's first move and what it says, if no line of the batch was bad and
    /// the position is lawful. `Err` says that memory ran out, which a bad line or wrong numbers of stones take none of.
    pub(crate) fn from_batch(
        alloc: Global,
        held: &Held,
        kind: RuleKind,
        width: u8,
        height: u8,
        batch: &BatchReader,
    ) -> Result<Option<(SessionBoard, Reaction)>, AllocError>
        requires wide { MIN_SIDE ≤ width }
        requires width_fits { width ≤ MAX_SIDE }
        requires high { MIN_SIDE ≤ height }
        requires height_fits { height ≤ MAX_SIDE }
        requires read { IsSome batch.now }
        requires fit { IfSome batch.now (StonesFit (empty_board width height)) }
        ensures place { IfOk result (λ r. IfSome r (λ made. IsPlace held.now made.0)) }
        ensures begun { IfOk result (λ r. IfSome batch.now (λ b. IsBegun held.now (game_from kind (board_in (Fresh width height)) b) r)) }
        ensures begins_none { begins_none batch.now ≡ true → IsOk result }
    {
        if batch.is_bad() {
            return Ok(None);
        }
        let Some(brain) = batch.colour() else {
            return Ok(None);
        };
        let board = batch.board(alloc, width, height, brain)?;
        if refusal(kind, &board).is_some() {
            return Ok(None);
        }
        let mut played = MovesOnBoard::from(alloc, board)?;
        let mut game = SessionGame::new(kind, brain);
        let reaction = game.make_move(alloc, held, &mut played)?;
        let session_board = SessionBoard {
            played,
            game: Some(game),
        };
        Ok(Some((session_board, reaction)))
    }

    /// BEGIN: the brain is Black, unless a game has begun or there is no rule. After an `Err`, which says that memory ran out,
    /// the session's board is as before.
    pub(crate) fn begin(
        &mut self,
        alloc: Global,
        held: &Held,
        rule: Option<RuleKind>,
    ) -> Result<Reaction, AllocError>
        requires place { IsPlace held.now self.old }
        ensures row { IfOk result (λ r. (s : State) → IsStateOf held.now self.old rule s → Takes (begin_row s self.old) s r (placed s self.new)) }
        ensures started { is_fresh self.old ≡ false → IsOk result }
        ensures unsupported { IsNone rule → IsOk result }
        ensures place { OnOk result (IsPlace held.now self.new) }
        ensures unchanged { OnErr result (self.new ≡ self.old) }
    {
        if self.game.is_some() {
            return Ok(Reaction::Says(Answer::Error(ErrorText::GameStarted)));
        }
        let Some(kind) = rule else {
            return Ok(Reaction::Says(Answer::Error(ErrorText::UnsupportedRule)));
        };
        let mut game = SessionGame::new(kind, Side::Black);
        let reaction = game.make_move(alloc, held, &mut self.played)?;
        self.game = Some(game);
        Ok(reaction)
    }

    /// TURN: the opponent's move at a point of the board, or off it. On a board without a game it begins one. After an `Err`, which
    /// says that memory ran out, the session's board is as before.
    pub(crate) fn turn(
        &mut self,
        alloc: Global,
        held: &Held,
        rule: Option<RuleKind>,
        at: Option<Point>,
    ) -> Result<Reaction, AllocError>
        requires on { IfSome at (λ p. is_on (board_in self.old) p ≡ true) }
        requires place { IsPlace held.now self.old }
        ensures row { IfOk result (λ r. (s : State) (p : Point) → IsStateOf held.now self.old rule s → IsPointOn (board_in self.old) p at
            → Takes (turn_row s self.old p) s r (placed s self.new)) }
        ensures following { is_following self.old ≡ true → IsOk result }
        ensures settled { (s : State) (p : Point) → IsStateOf held.now self.old rule s → IsPointOn (board_in self.old) p at
            → is_settled held.now (turn_row s self.old p) ≡ true → IsOk result }
        ensures place { OnOk result (IsPlace held.now self.new) }
        ensures unchanged { OnErr result (self.new ≡ self.old) }
    {
        if let Some(text) = self.turn_error(rule) {
            return Ok(Reaction::Says(Answer::Error(text)));
        }
        let Some(p) = at else {
            return Ok(Reaction::Says(Answer::Error(ErrorText::BadMove)));
        };
        match &mut self.game {
            Some(game) => game.take_reply(alloc, held, &mut self.played, p),
            None => self.begin_by_turn(alloc, held, rule, p),
        }
    }

    /// Why no TURN may come now, if none may.
    fn turn_error(&self, rule: Option<RuleKind>) -> Option<ErrorText>
        ensures error { result ≡ turn_refusal self.now rule }
    {
        if let Some(game) = &self.game {
            if game.ended {
                return Some(ErrorText::GameOver);
            }
            if self.played.mover() == game.brain {
                return Some(ErrorText::WrongTurn);
            }
        }
        if rule.is_none() {
            return Some(ErrorText::UnsupportedRule);
        }
        None
    }

    /// The opponent's first move on an empty board, with which the brain is White.
    fn begin_by_turn(
        &mut self,
        alloc: Global,
        held: &Held,
        rule: Option<RuleKind>,
        p: Point,
    ) -> Result<Reaction, AllocError>
        requires fresh { is_game self.old ≡ false }
        requires on { is_on (board_in self.old) p ≡ true }
        requires place { IsPlace held.now self.old }
        ensures row { IfOk result (λ r. (s : State) → IsStateOf held.now self.old rule s → Takes (turn_row s self.old p) s r (placed s self.new)) }
        ensures settled { (s : State) → IsStateOf held.now self.old rule s → is_settled held.now (turn_row s self.old p) ≡ true → IsOk result }
        ensures place { OnOk result (IsPlace held.now self.new) }
        ensures unchanged { OnErr result (self.new ≡ self.old) }
    {
        let Some(kind) = rule else {
            return Ok(Reaction::Says(Answer::Error(ErrorText::UnsupportedRule)));
        };
        let mut game = SessionGame::new(kind, Side::White);
        let reaction = game.take_reply(alloc, held, &mut self.played, p)?;
        self.game = Some(game);
        Ok(reaction)
    }

    /// TAKEBACK: the move at a point of the board, or off it, is taken back, if it is the last one. Where nothing is left of a game
    /// from an empty board, no game has begun.
    #[tactic(auto, using(crate::proofs::SessionBoards::untouched_by))]
    pub(crate) fn take_back(&mut self, at: Option<Point>) -> Reaction
        ensures row { (s : State) (p : Point) → s.place ≡ self.old → s.batch ≡ None → IsPlace s.held self.old → IsPointOn (board_in self.old) p at
            → Takes (takeback_row s self.old p) s result (placed s self.new) }
        ensures place { (h : HeldTable) → IsPlace h self.old → IsPlace h self.new }
    {
        if !are_one(self.played.last(), at) {
            return Reaction::Says(Answer::Error(ErrorText::BadMove));
        }
        self.played.take_back();
        if self.played.is_untouched() {
            self.game = None;
        } else if let Some(game) = &mut self.game {
            game.reopen();
        }
        Reaction::Says(Answer::Ok)
    }
}

/// Whether there are both points, and they are one.
fn are_one(last: Option<Point>, at: Option<Point>) -> bool
    ensures one { result ≡ are_one_lem last at }
{
    match (last, at) {
        (Some(p), Some(q)) => p == q,
        _ => false,
    }
}
