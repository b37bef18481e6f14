//! A lawful position under a rule.
//!
//! Who has a position never asks again whether its board is lawful. A board is refused with the first fault in a fixed order:
//! counts that name no side to move, a winning run, no empty point.
#![tactic(auto)]

ghost use Rattle.std.specs.Prelude.{◌≡◌, ◌↔◌, IsTrue, Some, None, IfOk, IfErr, IsOk};
ghost use Rattle.std.specs.List.{find};
ghost use Rattle.game_rules.specs.Grid.{IsBoard, points_of};
ghost use Rattle.game_rules.specs.Play.{IsPosition};
ghost use Rattle.foul_judge.specs.Lawful.{refusal as refusal_lem, names_mover as names_mover_lem, is_on_winning_run as is_on_winning_run_lem, wins_through as wins_through_lem};

use crate::Seen;
use crate::outcome::{mover, outcome_at};
use game_rules::{Outcome, RuleKind};
use row_shapes::{FivePoints, Rule, five_at, may_be_won, under_rule};
use std::alloc::AllocError;
use std::marker::{Model, PhantomData};
use stone_board::{Axis, Board, Point, Side};
use thiserror::Error;

/// Why a board is no lawful position.
#[derive(Clone, Copy, Debug, PartialEq, Eq, Error)]
pub enum PositionError {
    /// The counts name no side to move.
    #[error("{black} black stones and {white} white ones leave no side to move")]
    Uneven { black: u32, white: u32 },
    /// A side has a winning run, and `at` is the least point on one.
    #[error("a side has won already, by a run through {at:?}")]
    AlreadyWon { at: Point },
    /// No point is empty.
    #[error("no point is empty")]
    BoardFull,
}

/// A lawful position: a board whose counts name a side to move, with no winning run and with an empty point.
#[derive(Drop)]
pub struct Position<R: Rule> {
    board: Board,
    rule: PhantomData<R>,
}

impl<R: Rule> Model for Position<R> {
    ghost use Rattle.game_rules.specs.Grid.{Grid};
    ghost use Rattle.game_rules.specs.Play.{IsPosition};

    ghost Value = { Grid };

    ghost view = { λ p. p.board };

    ghost invariant = { λ p. IsPosition R.KIND p.board };
}

impl<R: Rule> Position<R> {
    /// The position on a board, or the first reason that there is none: the counts, then a winning run, then a full
    /// board. A board that is refused is handed back as it was. No memory is taken.
    pub fn from_board(board: Board) -> Result<Position<R>, (PositionError, Board)>
        ensures ok { IfOk result (λ p. p ≡ board) }
        ensures lawful { IsOk result ↔ IsPosition R.KIND board }
        ensures unrefused { IsOk result → refusal_lem R.KIND board ≡ None }
        ensures refused { IfErr result (λ e. refusal_lem R.KIND board ≡ Some e.0) }
        ensures returned { IfErr result (λ e. e.1 ≡ board) }
    {
        match refusal_under::<R>(&board) {
            Some(error) => Err((error, board)),
            None => Ok(Position {
                board,
                rule: PhantomData,
            }),
        }
    }

    /// The position on a board that is known to be lawful.
    pub fn new(board: Board) -> Position<R>
        requires lawful { IsPosition R.KIND board }
        ensures position { result ≡ board }
    {
        Position {
            board,
            rule: PhantomData,
        }
    }

    /// The board of the position.
    pub fn into_board(self) -> Board
        ensures board { result ≡ self }
        ensures lawful { IsPosition R.KIND self }
    {
        let Position { board, rule: _ } = self;
        board
    }

    /// A copy of the position. `Err` says that memory ran out.
    pub fn copy(&self) -> Result<Position<R>, AllocError>
        ensures copy { IfOk result (λ p. p ≡ self.now) }
    {
        let board = self.board.copy()?;
        Ok(Position {
            board,
            rule: PhantomData,
        })
    }

    /// Whether the other position is on the same board.
    pub fn same(&self, other: &Position<R>) -> bool
        ensures same { IsTrue result ↔ (self.now ≡ other.now) }
    {
        self.board.same(&other.board)
    }
}

impl<R: Rule> Seen<R> for Position<R> {
    ghost position = { λ p. p };

    fn side(&self) -> Side {
        mover(&self.board)
    }

    fn board(&self) -> &Board {
        &self.board
    }

    fn outcome(&mut self, p: Point) -> Outcome {
        outcome_at::<R>(&mut self.board, p)
    }

    fn play(&mut self, p: Point) {
        let side = mover(&self.board);
        self.board.put(p, side);
    }

    fn undo(&mut self, p: Point) {
        self.board.lift(p);
    }

    fn five(&self, side: Side, p: Point) -> bool {
        five_at::<R>(&self.board, side, p)
    }

    fn has_five(&self, side: Side) -> bool {
        row_shapes::has_five::<R>(&self.board, side)
    }

    fn fives_in_short(&self, side: Side) -> FivePoints {
        row_shapes::fives_in_short::<R>(&self.board, side)
    }

    fn fives_made(&self, p: Point) -> FivePoints {
        row_shapes::fives_made::<R>(&self.board, mover(&self.board), p)
    }
}

/// The first reason that the board is no lawful position under the rule of this kind, if there is one: the counts, then a winning
/// run, then a full board. No memory is taken.
pub fn refusal(kind: RuleKind, board: &Board) -> Option<PositionError>
    ensures refusal { result ≡ refusal_lem kind board.now }
    ensures lawful { result ≡ None ↔ IsPosition kind board.now }
{
    under_rule!(kind, refusal_under(board))
}

/// The same under a rule that is a type.
fn refusal_under<R: Rule>(board: &Board) -> Option<PositionError>
    ensures refusal { result ≡ refusal_lem R.KIND board.now }
    ensures lawful { result ≡ None ↔ IsPosition R.KIND board.now }
{
    first_refusal::<R>(board)
}

/// The first of the three reasons that holds.
#[tactic(auto, unfolding(crate::specs::Lawful::refusal))]
fn first_refusal<R: Rule>(board: &Board) -> Option<PositionError>
    ensures refusal { result ≡ refusal_lem R.KIND board.now }
    ensures board { IsBoard board.now }
{
    let black = board.count(Side::Black);
    let white = board.count(Side::White);
    if !names_mover(black, white) {
        return Some(PositionError::Uneven { black, white });
    }
    match first_won::<R>(board) {
        Some(at) => Some(PositionError::AlreadyWon { at }),
        None => {
            if board.empties() == 0 {
                Some(PositionError::BoardFull)
            } else {
                None
            }
        }
    }
}

/// Whether the counts name a side to move.
fn names_mover(black: u32, white: u32) -> bool
    ensures mover { result ≡ names_mover_lem black white }
{
    black == white || white < black && black - white == 1
}

/// The least point on a winning run. Most boards have no five stones in a row, and are not looked at point by point.
#[tactic(auto, using(crate::proofs::Lawfulness::none_from_unwon))]
fn first_won<R: Rule>(board: &Board) -> Option<Point>
    ensures first { result ≡ find (is_on_winning_run_lem R.KIND board.now) (points_of board.now) }
{
    if !may_be_won(board) {
        return None;
    }
    for p in board.points() {
        if is_on_winning_run::<R>(board, p) {
            return Some(p);
        }
    }
    None
}

/// Whether a stone stands on the point whose run on some axis wins.
fn is_on_winning_run<R: Rule>(board: &Board, p: Point) -> bool
    ensures won { result ≡ is_on_winning_run_lem R.KIND board.now p }
{
    if board.is_empty(p) {
        return false;
    }
    wins_through::<R>(board, Side::Black, p) || wins_through::<R>(board, Side::White, p)
}

/// Whether a stone of the side stands on the point and its run on some axis wins.
fn wins_through<R: Rule>(board: &Board, side: Side, p: Point) -> bool
    ensures wins { result ≡ wins_through_lem R.KIND board.now side p }
{
    board.holds(side, p)
        && (R::wins(side, board.run(p, Axis::Row))
            || R::wins(side, board.run(p, Axis::Column))
            || R::wins(side, board.run(p, Axis::Down))
            || R::wins(side, board.run(p, Axis::Up)))
}
