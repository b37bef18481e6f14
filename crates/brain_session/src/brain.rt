//! The brain, one command after another.
//!
//! A step takes the state and a command, and answers with the state after it and what is said: it is equal to a function of
//! the two (Gomocup protocol). Where memory runs out nothing of the state has changed yet, so that the manager may go on.
#![tactic(auto)]

ghost use Rattle.std.specs.Prelude.{◌≡◌, true, false, IsNone, IsOk, IfOk, IfSome, IsSome, OnOk, OnErr};
ghost use Rattle.brain_session.specs.States.{new_brain, point_at};
ghost use Rattle.brain_session.specs.Batches.{game_from};
ghost use Rattle.brain_session.specs.Steps.{Reacts, begin_row, board_in, board_row, brain_step, done_row, is_side as is_side_lem, restart_row, row_of, rule_of as rule_of_lem, start_row, stone_row, takeback_row, turn_row};
ghost use Rattle.brain_session.specs.Running.{IsBrain, IsPlace};
ghost use Rattle.brain_session.specs.Memory.{begins_none, is_following, is_fresh, is_settled, takes_none};
ghost use Rattle.brain_session.specs.Kept.{IsBegun, IsPointOn, Takes, has_no_place_in_batch as has_no_place_in_batch_lem, held_or_none, is_spoiled, size_in};

use crate::Reaction;
use crate::batch::BatchReader;
use crate::session_board::SessionBoard;
use game_rules::{MAX_SIDE, MIN_SIDE, Point, RuleKind};
use gomocup_text::{Answer, Command, ErrorText};
use std::alloc::{AllocError, Global};
use std::marker::Model;
use strategy_checker::Held;
use strategy_graph::Table;

/// A brain: the rule that is wished for, the roots that it holds, the board and the game, and the batch that is read. Contracts
/// see its state. Each held root is accepted, and what is followed in a game goes on whatever the opponent does.
#[derive(Drop)]
pub struct Brain {
    alloc: Global,
    wish: u32,
    held: Held,
    session_board: Option<SessionBoard>,
    batch: BatchReader,
}

impl Model for Brain {
    ghost use Rattle.brain_session.specs.States.{State};
    ghost use Rattle.brain_session.specs.Running.{IsBrain};
    ghost use Rattle.brain_session.specs.Kept.{place_in};

    ghost Value = { State };

    ghost view = { λ b. record { wish = b.wish; held = b.held; place = place_in b.session_board; batch = b.batch } };

    ghost invariant = { λ b. IsBrain (record { wish = b.wish; held = b.held; place = place_in b.session_board; batch = b.batch }) };
}

impl Brain {
    /// A brain that holds these roots, or none, with room for the largest batch. `Err` says that memory ran out, and then what was
    /// to be held is gone.
    pub fn new(alloc: Global, held: Option<Held>) -> Result<Brain, AllocError>
        ensures new { IfOk result (λ b. b ≡ new_brain (held_or_none held)) }
    {
        let batch = BatchReader::new(alloc)?;
        let held = match held {
            Some(held) => held,
            None => Held::new(alloc, Table::new(alloc)),
        };
        Ok(Brain {
            alloc,
            wish: 0,
            held,
            session_board: None,
            batch,
        })
    }

    /// What the brain does at the command. `Err` says that memory ran out, and then the brain is as before. Memory is taken only
    /// where START begins a board, where a game begins, and at a TURN that the brain answers while it follows nothing and no held
    /// root settles it; not where such a command is refused, but for a position that is unlawful.
    pub fn step(&mut self, command: &Command) -> Result<Reaction, AllocError>
        ensures reaction { IfOk result (λ r. r ≡ (brain_step self.old command.now).reaction) }
        ensures next { OnOk result (self.new ≡ (brain_step self.old command.now).next) }
        ensures unchanged { OnErr result (self.new ≡ self.old) }
        ensures no_memory { takes_none self.old command.now ≡ true → IsOk result }
        ensures running { IsBrain self.new }
    {
        if self.is_spoiled_by(command) {
            self.batch.spoil();
            return Ok(Reaction::Silent);
        }
        self.take(command)
    }

    /// Whether a batch is read in which the command has no place.
    fn is_spoiled_by(&self, command: &Command) -> bool
        ensures spoiled { result ≡ is_spoiled self.now command.now }
        ensures running { IsBrain self.now }
    {
        self.batch.is_read() && has_no_place_in_batch(command)
    }

    /// What the brain does at a command that has its place.
    fn take(&mut self, command: &Command) -> Result<Reaction, AllocError>
        requires unspoiled { is_spoiled self.old command.now ≡ false }
        requires running { IsBrain self.old }
        ensures row { IfOk result (λ r. Takes (row_of self.old command.now) self.old r self.new) }
        ensures unchanged { OnErr result (self.new ≡ self.old) }
        ensures no_memory { takes_none self.old command.now ≡ true → IsOk result }
        ensures running { IsBrain self.new }
    {
        match *command {
            Command::Start(size) => self.start(size, size),
            Command::RectStart(width, height) => self.start(width, height),
            Command::Restart => Ok(self.restart()),
            Command::About => Ok(Reaction::Says(Answer::About)),
            Command::End => Ok(Reaction::Ends),
            Command::Rule(wish) => Ok(self.rule(wish)),
            Command::Info | Command::Blank => Ok(Reaction::Silent),
            Command::Board => Ok(self.board()),
            Command::Stone(x, y, field) => Ok(self.stone(x, y, field)),
            Command::Done => self.done(),
            Command::Begin => self.begin(),
            Command::Turn(x, y) => self.turn(x, y),
            Command::Takeback(x, y) => Ok(self.take_back(x, y)),
            Command::Malformed => Ok(error(ErrorText::BadArguments)),
            Command::Unknown => Ok(Reaction::Says(Answer::Unknown)),
        }
    }

    /// The size of the board, if there is one.
    fn size(&self) -> Option<(u8, u8)>
        ensures size { result ≡ size_in self.now.place }
    {
        match &self.session_board {
            Some(session_board) => Some((session_board.width(), session_board.height())),
            None => None,
        }
    }

    /// The point with these coordinates, if it is on the board.
    fn point(&self, x: u32, y: u32) -> Option<Point>
        ensures point { IsPointOn (board_in self.now.place) (point_at x y) result }
    {
        match &self.session_board {
            Some(session_board) => session_board.point(x, y),
            None => None,
        }
    }

    /// INFO rule: the rule that is wished for.
    fn rule(&mut self, wish: u32) -> Reaction
        ensures row { Takes (Reacts Reaction.Silent (record self.old { wish = wish })) self.old result self.new }
        ensures running { IsBrain self.new }
    {
        self.wish = wish;
        Reaction::Silent
    }

    /// START and RECTSTART: a board of this size is begun, unless the size is not supported.
    fn start(&mut self, width: u32, height: u32) -> Result<Reaction, AllocError>
        requires running { IsBrain self.old }
        ensures row { IfOk result (λ r. Takes (start_row self.old width height) self.old r self.new) }
        ensures narrow { is_side_lem width ≡ false → IsOk result }
        ensures low { is_side_lem height ≡ false → IsOk result }
        ensures unchanged { OnErr result (self.new ≡ self.old) }
        ensures running { IsBrain self.new }
    {
        if !is_side(width) || !is_side(height) {
            return Ok(error(ErrorText::UnsupportedSize));
        }
        self.session_board = Some(SessionBoard::fresh(self.alloc, width as u8, height as u8)?);
        self.batch.end();
        Ok(Reaction::Says(Answer::Ok))
    }

    /// RESTART: a board of the same size is begun, on the memory of the one before.
    fn restart(&mut self) -> Reaction
        ensures row { Takes (restart_row self.old self.old.place) self.old result self.new }
        ensures running { IsBrain self.new }
    {
        let Some(session_board) = &mut self.session_board else {
            return error(ErrorText::NoBoard);
        };
        self.batch.end();
        session_board.clear()
    }

    /// BOARD: a batch is begun.
    fn board(&mut self) -> Reaction
        ensures row { Takes (board_row self.old self.old.place) self.old result self.new }
        ensures running { IsBrain self.new }
    {
        if self.size().is_none() {
            return error(ErrorText::NoBoard);
        }
        self.batch.begin();
        Reaction::Silent
    }

    /// A line X,Y,FIELD: a stone of the batch.
    fn stone(&mut self, x: u32, y: u32, field: u32) -> Reaction
        ensures row { Takes (stone_row self.old self.old.batch (point_at x y) field) self.old result self.new }
        ensures running { IsBrain self.new }
    {
        if !self.batch.is_read() {
            return Reaction::Says(Answer::Unknown);
        }
        let at = self.point(x, y);
        self.batch.add(at, field);
        Reaction::Silent
    }

    /// DONE: a game is begun from the position of the batch.
    fn done(&mut self) -> Result<Reaction, AllocError>
        ensures row { IfOk result (λ r. Takes (done_row self.old self.old.batch) self.old r self.new) }
        ensures begins_none { begins_none self.old.batch ≡ true → IsOk result }
        ensures unsupported { IsNone (rule_of_lem self.old.wish) → IsOk result }
        ensures unchanged { OnErr result (self.new ≡ self.old) }
        ensures running { IsBrain self.new }
    {
        if !self.batch.is_read() {
            return Ok(error(ErrorText::NotReading));
        }
        let Some(kind) = rule_of(self.wish) else {
            self.batch.end();
            return Ok(error(ErrorText::UnsupportedRule));
        };
        match self.board_from_batch(kind)? {
            Some((session_board, reaction)) => {
                self.session_board = Some(session_board);
                self.batch.end();
                Ok(reaction)
            }
            None => {
                self.batch.end();
                Ok(error(ErrorText::BadBoard))
            }
        }
    }

    /// The board with the game that begins from the position of the batch, and what the brain says, if there is one.
    fn board_from_batch(
        &self,
        kind: RuleKind,
    ) -> Result<Option<(SessionBoard, Reaction)>, AllocError>
        requires read { IsSome self.now.batch }
        ensures place { IfOk result (λ r. IfSome r (λ made. IsPlace self.now.held made.0)) }
        ensures begun { IfOk result (λ r. IfSome self.now.batch (λ b. IsBegun self.now.held (game_from kind (board_in self.now.place) b) r)) }
        ensures begins_none { begins_none self.now.batch ≡ true → IsOk result }
    {
        let Some(session_board) = &self.session_board else {
            return Ok(None);
        };
        let (width, height) = (session_board.width(), session_board.height());
        SessionBoard::from_batch(self.alloc, &self.held, kind, width, height, &self.batch)
    }

    /// BEGIN: the brain makes the first move on an empty board.
    fn begin(&mut self) -> Result<Reaction, AllocError>
        requires unread { IsNone self.old.batch }
        ensures row { IfOk result (λ r. Takes (begin_row self.old self.old.place) self.old r self.new) }
        ensures started { is_fresh self.old.place ≡ false → IsOk result }
        ensures unsupported { IsNone (rule_of_lem self.old.wish) → IsOk result }
        ensures unchanged { OnErr result (self.new ≡ self.old) }
        ensures running { IsBrain self.new }
    {
        let Some(session_board) = &mut self.session_board else {
            return Ok(error(ErrorText::NoBoard));
        };
        session_board.begin(self.alloc, &self.held, rule_of(self.wish))
    }

    /// TURN: the opponent's move.
    fn turn(&mut self, x: u32, y: u32) -> Result<Reaction, AllocError>
        requires unread { IsNone self.old.batch }
        ensures row { IfOk result (λ r. Takes (turn_row self.old self.old.place (point_at x y)) self.old r self.new) }
        ensures following { is_following self.old.place ≡ true → IsOk result }
        ensures settled { is_settled self.old.held (turn_row self.old self.old.place (point_at x y)) ≡ true → IsOk result }
        ensures unchanged { OnErr result (self.new ≡ self.old) }
        ensures running { IsBrain self.new }
    {
        let at = self.point(x, y);
        let Some(session_board) = &mut self.session_board else {
            return Ok(error(ErrorText::NoBoard));
        };
        session_board.turn(self.alloc, &self.held, rule_of(self.wish), at)
    }

    /// TAKEBACK: the last move is taken back.
    fn take_back(&mut self, x: u32, y: u32) -> Reaction
        requires unread { IsNone self.old.batch }
        ensures row { Takes (takeback_row self.old self.old.place (point_at x y)) self.old result self.new }
        ensures running { IsBrain self.new }
    {
        let at = self.point(x, y);
        let Some(session_board) = &mut self.session_board else {
            return error(ErrorText::NoBoard);
        };
        session_board.take_back(at)
    }
}

/// An error is said.
fn error(text: ErrorText) -> Reaction
    ensures says { result ≡ Reaction.Says (Answer.Error text) }
{
    Reaction::Says(Answer::Error(text))
}

/// Whether the command has no place in a batch.
fn has_no_place_in_batch(command: &Command) -> bool
    ensures outside { result ≡ has_no_place_in_batch_lem command.now }
{
    matches!(
        command,
        Command::Begin
            | Command::Turn(..)
            | Command::Takeback(..)
            | Command::Malformed
            | Command::Unknown
    )
}

/// Whether a board may be so wide or high.
fn is_side(n: u32) -> bool
    ensures side { result ≡ is_side_lem n }
{
    u32::from(MIN_SIDE) <= n && n <= u32::from(MAX_SIDE)
}

/// The rule of a wish, where it is supported.
fn rule_of(wish: u32) -> Option<RuleKind>
    ensures rule { result ≡ rule_of_lem wish }
{
    match wish {
        0 => Some(RuleKind::Freestyle),
        1 => Some(RuleKind::Exact),
        4 | 5 => Some(RuleKind::Renju),
        _ => None,
    }
}
