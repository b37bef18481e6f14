//! A lawful position that tells the shapes of its lines.
//!
//! As a position that a search sees it is the plain one, whose outcomes are told by shapes wherever Black has fouls.
#![tactic(auto)]

ghost use Rattle.std.specs.Prelude.{◌≡◌, ◌≤◌, IfOk, IsOk, IsTrue, length};
ghost use Rattle.game_rules.specs.Grid.{is_empty};
ghost use Rattle.game_rules.specs.Games.{five_points as five_points_lem};
ghost use Rattle.row_shapes.specs.Rule.{reach_of as reach_of_lem};
ghost use Rattle.row_shapes.specs.LineCodes.{line_code as line_code_lem};
ghost use Rattle.row_shapes.specs.LineShapes.{shape_of, shape_at as shape_at_lem, IsShape};

use foul_judge::{Outcome, Position, Seen};
use row_shapes::{FivePoints, Rule, Shape, is_five_point, line_code, reach_of, shape_at};
use smallvec::SmallVec;
use std::alloc::{AllocError, Global};
use std::marker::Model;
use stone_board::{Axis, Board, Point, Side};

/// A lawful position under a rule, which tells the shapes of the lines of both sides.
#[derive(Drop)]
pub struct LineTables<R: Rule> {
    alloc: Global,
    position: Position<R>,
}

impl<R: Rule> Model for LineTables<R> {
    ghost use Rattle.game_rules.specs.Grid.{Grid};

    ghost Value = { Grid };

    ghost view = { λ t. t.position };
}

impl<R: Rule> LineTables<R> {
    /// The tables of a position. No memory is taken.
    pub fn over(alloc: Global, position: Position<R>) -> LineTables<R>
        ensures position { result ≡ position }
    {
        LineTables { alloc, position }
    }

    /// The tables of a copy of a position. `Err` says that memory ran out.
    pub fn new(alloc: Global, position: &Position<R>) -> Result<LineTables<R>, AllocError>
        ensures position { IfOk result (λ t. t ≡ position.now) }
    {
        Ok(LineTables::over(alloc, position.copy()?))
    }

    /// The position.
    pub fn into_position(self) -> Position<R>
        ensures position { result ≡ self }
    {
        let LineTables { alloc: _, position } = self;
        position
    }

    /// The shape that a stone of the side makes on an empty point. No memory is taken.
    #[inline(always)]
    pub fn shape(&self, p: Point, axis: Axis, side: Side) -> Shape
        requires empty { IsTrue (is_empty self.now p) }
        ensures shape { result ≡ shape_of (reach_of_lem R.KIND side) (line_code_lem (reach_of_lem R.KIND side) self.now side axis p) }
        ensures made { IsShape (reach_of_lem R.KIND side) result (shape_at_lem R.KIND self.now side axis p) }
    {
        shape_at::<R>(self.position.board(), p, axis, side)
    }

    /// The code of the neighbours of an empty point, as the side sees them. No memory is taken.
    pub fn code(&self, p: Point, axis: Axis, side: Side) -> u32
        requires empty { IsTrue (is_empty self.now p) }
        ensures code { result ≡ line_code_lem (reach_of_lem R.KIND side) self.now side axis p }
    {
        line_code(self.position.board(), p, axis, side, reach_of::<R>(side))
    }

    /// All five points of the side, in reading order. With at most eight of them no memory is taken and it is `Ok`; else
    /// `Err` says that memory ran out.
    pub fn five_points(&self, side: Side) -> Result<SmallVec<Point, 8>, AllocError>
        ensures fives { IfOk result (λ points. points.items ≡ five_points_lem R.KIND self.now side) }
        ensures few { length (five_points_lem R.KIND self.now side) ≤ 8 → IsOk result }
    {
        listed_fives::<R>(self.alloc, self.position.board(), side)
    }
}

/// The five points of a side, listed point by point.
fn listed_fives<R: Rule>(
    alloc: Global,
    board: &Board,
    side: Side,
) -> Result<SmallVec<Point, 8>, AllocError>
    ensures fives { IfOk result (λ points. points.items ≡ five_points_lem R.KIND board.now side) }
    ensures few { length (five_points_lem R.KIND board.now side) ≤ 8 → IsOk result }
{
    let mut found = SmallVec::new(alloc);
    for p in board.points() {
        if is_five_point::<R>(board, side, p) {
            found.push(p)?;
        }
    }
    Ok(found)
}

impl<R: Rule> Seen<R> for LineTables<R> {
    ghost position = { λ t. t };

    fn side(&self) -> Side {
        self.position.side()
    }

    fn board(&self) -> &Board {
        self.position.board()
    }

    fn outcome(&mut self, p: Point) -> Outcome {
        self.position.outcome(p)
    }

    fn play(&mut self, p: Point) {
        self.position.play(p);
    }

    fn undo(&mut self, p: Point) {
        self.position.undo(p);
    }

    fn five(&self, side: Side, p: Point) -> bool {
        self.position.five(side, p)
    }

    fn has_five(&self, side: Side) -> bool {
        self.position.has_five(side)
    }

    fn fives_in_short(&self, side: Side) -> FivePoints {
        self.position.fives_in_short(side)
    }

    fn fives_made(&self, p: Point) -> FivePoints {
        self.position.fives_made(p)
    }
}
