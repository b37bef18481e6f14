//! A board and the moves that were made on it.
//!
//! A move is taken back by lifting the last stone. Room for a stone on each point is taken with the board, so that no move takes
//! memory, nor does another game on it from no stones.
#![tactic(auto)]

ghost use Rattle.std.specs.Prelude.{◌≡◌, ◌≤◌, ◌∷◌, [], ◌&&◌, true, IsTrue, IfOk, IsSome, is_none};
ghost use Rattle.game_rules.specs.declared.TheConstants.{MIN_SIDE, MAX_SIDE};
ghost use Rattle.game_rules.specs.Grid.{IsBoard, is_empty};
ghost use Rattle.game_rules.specs.Play.{mover as mover_lem, outcome as outcome_lem};
ghost use Rattle.brain_session.specs.States.{board_after, empty_board};
ghost use Rattle.brain_session.specs.ChosenMoves.{last_move, plain_move as plain_move_lem, same_board};
ghost use Rattle.brain_session.specs.Steps.{is_bare};
ghost use Rattle.brain_session.specs.Kept.{without_last};

use crate::under_rule::{outcome, plain_move};
use foul_judge::{Outcome, mover};
use game_rules::{Point, RuleKind, Side};
use std::alloc::{AllocError, Global};
use std::marker::Model;
use stone_board::Board;

/// The board from which a game began, the moves since, with room for as many as the board has points, and the board now. Contracts
/// see the board from which it began, and the moves, the last one first.
#[derive(Drop)]
pub(crate) struct MovesOnBoard {
    start: Board,
    moves: Vec<Point>,
    board: Board,
}

impl Model for MovesOnBoard {
    ghost use Rattle.std.specs.Prelude.{reverse, vec_len, vec_capacity};
    ghost use Rattle.brain_session.specs.Kept.{Moves, IsKept};

    ghost Value = { Moves };

    ghost view = { λ p. record { start = p.start; moves = reverse p.moves.items } };

    ghost invariant = { λ p. IsKept (record { start = p.start; moves = reverse p.moves.items }) p.board (vec_len p.moves) (vec_capacity p.moves) };
}

impl MovesOnBoard {
    /// The board of this size with no stone on it, and no moves. `Err` says that memory ran out.
    pub(crate) fn empty(alloc: Global, width: u8, height: u8) -> Result<MovesOnBoard, AllocError>
        requires wide { MIN_SIDE ≤ width }
        requires width_fits { width ≤ MAX_SIDE }
        requires high { MIN_SIDE ≤ height }
        requires height_fits { height ≤ MAX_SIDE }
        ensures empty { IfOk result (λ m. m ≡ record { start = empty_board width height; moves = [] }) }
    {
        MovesOnBoard::from(alloc, Board::empty(alloc, width, height)?)
    }

    /// This board, and no moves. `Err` says that memory ran out.
    pub(crate) fn from(alloc: Global, start: Board) -> Result<MovesOnBoard, AllocError>
        ensures begun { IfOk result (λ m. m ≡ record { start = start; moves = [] }) }
    {
        let points = usize::from(start.width()) * usize::from(start.height());
        let board = start.copy()?;
        let moves = Vec::with_capacity(alloc, points)?;
        Ok(MovesOnBoard {
            start,
            moves,
            board,
        })
    }

    /// The board of the same size with no stone on it, and no moves. No memory is taken.
    pub(crate) fn clear(&mut self)
        ensures cleared { self.new ≡ record { start = empty_board self.old.start.width self.old.start.height; moves = [] } }
        ensures board { IsBoard self.old.start }
    {
        self.start.clear();
        self.board.clear();
        self.moves.clear();
    }

    /// The board now.
    pub(crate) fn board(&self) -> &Board
        ensures board { result.now ≡ board_after self.now.start self.now.moves }
    {
        &self.board
    }

    /// The side to move.
    pub(crate) fn mover(&self) -> Side
        ensures mover { result ≡ mover_lem (board_after self.now.start self.now.moves) }
    {
        mover(&self.board)
    }

    /// The last move, if there is one.
    pub(crate) fn last(&self) -> Option<Point>
        ensures last { result ≡ last_move self.now.moves }
    {
        self.moves.last().copied()
    }

    /// Whether there are no moves, and no stone stood on the board from the start.
    pub(crate) fn is_untouched(&self) -> bool
        ensures untouched { result ≡ (is_none (last_move self.now.moves) && is_bare self.now.start) }
    {
        self.moves.is_empty()
            && self.start.count(Side::Black) == 0
            && self.start.count(Side::White) == 0
    }

    /// The outcome of a move of the side to move at any point of the board, or off it.
    pub(crate) fn outcome(&mut self, kind: RuleKind, p: Point) -> Outcome
        ensures outcome { result ≡ outcome_lem kind (board_after self.old.start self.old.moves) p }
        ensures same { self.new ≡ self.old }
    {
        outcome(kind, &mut self.board, p)
    }

    /// A plain move of the side to move.
    pub(crate) fn plain_move(&mut self, kind: RuleKind) -> Point
        ensures plain { result ≡ plain_move_lem kind (board_after self.old.start self.old.moves) }
        ensures same { self.new ≡ self.old }
    {
        plain_move(kind, &mut self.board)
    }

    /// The side to move puts its stone on an empty point. No memory is taken.
    pub(crate) fn play(&mut self, p: Point)
        requires empty { IsTrue (is_empty (board_after self.old.start self.old.moves) p) }
        ensures played { self.new ≡ record self.old { moves = p ∷ self.old.moves } }
    {
        let side = mover(&self.board);
        self.board.put(p, side);
        self.moves.push_reserved(p);
    }

    /// Takes the last move back, if there is one.
    pub(crate) fn take_back(&mut self)
        ensures taken_back { self.new ≡ record self.old { moves = without_last self.old.moves } }
    {
        if let Some(p) = self.moves.pop() {
            self.board.lift(p);
        }
    }

    /// Whether the board now is this one.
    pub(crate) fn is_at(&self, board: &Board) -> bool
        ensures same { result ≡ same_board board.now (board_after self.now.start self.now.moves) }
    {
        board.same(&self.board)
    }

    /// Whether the board before the last move was this one.
    pub(crate) fn was_at(&mut self, board: &Board) -> bool
        requires moved { IsSome (last_move self.old.moves) }
        ensures same { result ≡ same_board board.now (board_after self.old.start (without_last self.old.moves)) }
        ensures unchanged { self.new ≡ self.old }
    {
        let Some(last) = self.last() else {
            return false;
        };
        self.board.lift(last);
        let same = board.same(&self.board);
        let side = mover(&self.board);
        self.board.put(last, side);
        same
    }
}
