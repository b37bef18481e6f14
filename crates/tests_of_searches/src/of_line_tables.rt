//! Line tables against what is made from scratch, over long random lists of plays and undos.
ghost use Rattle.std.specs.Prelude.{◌<◌};

use crate::compared::same;
use crate::remade::{compare, undo};
use foul_judge::{Foul, Outcome, Position, Seen};
use line_tables::LineTables;
use row_shapes::{
    ExactFive, FivePoints, Freestyle, Renju, Rule, five_points, fives_in_short, has_five,
};
use std::alloc::Global;
use std::process::Abort;
use stone_board::{Point, Side};
use test_boards::{at, empty_board, lawful, position_of};

/// A source of numbers that look random.
#[derive(Drop)]
struct Chance {
    state: u64,
}

impl Chance {
    fn next(&mut self, below: u64) -> u64
        requires some { 0 < below }
        ensures below { result < below }
    {
        self.state = self
            .state
            .wrapping_mul(6364136223846793005)
            .wrapping_add(1442695040888963407);
        (self.state >> 33) % below
    }

    /// A point of a corner of nine by nine points, which may be off the board.
    fn point(&mut self) -> Point {
        Point {
            x: self.next(9) as u8,
            y: self.next(9) as u8,
        }
    }
}

/// The five points of the side that the board has, and whether the tables tell the same, also of having one and in short.
fn same_fives<R: Rule>(alloc: Global, tables: &LineTables<R>, side: Side) -> Option<bool> {
    let board = tables.board();
    let plain = five_points::<R>(alloc, board, side).ok()?;
    let told = tables.five_points(side).ok()?;
    Some(
        told.as_slice() == plain.as_slice()
            && tables.has_five(side) == has_five::<R>(board, side)
            && tables.fives_in_short(side) == fives_in_short::<R>(board, side),
    )
}

/// The five points that a move makes by the tables and by the position, where it can be asked.
fn made_by_both<R: Rule>(
    tables: &LineTables<R>,
    position: &Position<R>,
    p: Point,
) -> Option<(FivePoints, FivePoints)> {
    if !tables.board().is_empty(p) || tables.has_five(tables.side()) {
        return None;
    }
    if !position.board().is_empty(p) || position.has_five(position.side()) {
        return Some((FivePoints::None, FivePoints::Several));
    }
    Some((tables.fives_made(p), position.fives_made(p)))
}

/// Compares the five points that a move makes.
fn same_made<R: Rule>(rt: &impl Abort, tables: &LineTables<R>, position: &Position<R>, p: Point) {
    if let Some((told, plain)) = made_by_both(tables, position, p) {
        same(rt, told, plain);
    }
}

/// The outcome of a move, which is played if it goes on.
fn play<R: Rule, V: Seen<R>>(view: &mut V, p: Point) -> Outcome {
    match view.outcome(p) {
        Outcome::GoesOn => {
            view.play(p);
            Outcome::GoesOn
        }
        outcome => outcome,
    }
}

/// Plays or takes back in the tables and in the position, and compares what is answered.
fn step<R: Rule>(
    rt: &impl Abort,
    chance: &mut Chance,
    tables: &mut LineTables<R>,
    position: &mut Position<R>,
) {
    let p = chance.point();
    if chance.next(3) == 0 {
        let undone = undo::<R, LineTables<R>>(tables, p).expect(rt, "memory");
        same(rt, undo::<R, Position<R>>(position, p), Some(undone));
    } else {
        same_made::<R>(rt, tables, position, p);
        let outcome = play::<R, LineTables<R>>(tables, p);
        same(rt, play::<R, Position<R>>(position, p), outcome);
    }
}

/// Compares all that the tables tell with the position and with what is made from its board.
fn compare_all<R: Rule>(
    rt: &(impl Abort + AllocGlobal),
    tables: &LineTables<R>,
    position: &Position<R>,
) {
    same(rt, tables.board().same(position.board()), true);
    compare::<R>(rt, tables);
    same(rt, same_fives(rt.alloc(), tables, Side::Black), Some(true));
    same(rt, same_fives(rt.alloc(), tables, Side::White), Some(true));
}

/// Plays and takes back so many times in the tables and in the position of an empty board, and compares them each time.
fn replay<R: Rule>(rt: &(impl Abort + AllocGlobal), width: u8, height: u8, steps: u32) {
    let board = empty_board(rt.alloc(), width, height).expect(rt, "a board");
    let mut position = lawful::<R>(board).expect(rt, "a position");
    let mut tables = LineTables::<R>::new(rt.alloc(), &position).expect(rt, "tables");
    let mut chance = Chance { state: 7 };
    for _ in 0..steps {
        step::<R>(rt, &mut chance, &mut tables, &mut position);
        compare_all::<R>(rt, &tables, &position);
    }
}

/// The same under each rule.
fn replay_by_each_rule(rt: &(impl Abort + AllocGlobal), width: u8, height: u8, steps: u32) {
    replay::<Freestyle>(rt, width, height, steps);
    replay::<ExactFive>(rt, width, height, steps);
    replay::<Renju>(rt, width, height, steps);
}

#[test]
fn replays_on_long_boards(rt: HostRuntime) {
    replay_by_each_rule(&rt, 5, 32, 300);
}

#[test]
fn replays_on_usual_boards(rt: HostRuntime) {
    replay_by_each_rule(&rt, 15, 15, 200);
}

#[test]
fn replays_on_large_boards(rt: HostRuntime) {
    replay_by_each_rule(&rt, 32, 32, 40);
}

/// How many five points each side has, and the outcome of a move.
fn told(tables: &mut LineTables<Renju>, p: Point) -> Option<(usize, usize, Outcome)> {
    let black = tables.five_points(Side::Black).ok()?.len();
    let white = tables.five_points(Side::White).ok()?.len();
    Some((black, white, tables.outcome(p)))
}

#[test]
fn two_threes_leave_no_five_point(rt: HostRuntime) {
    let position = position_of::<Renju>(rt.alloc(), "7,6 6,7 8,7 7,8", "0,0 14,0 0,14 14,14");
    let tables = LineTables::<Renju>::new(rt.alloc(), &position.expect(&rt, "a position"));
    let told = told(&mut tables.expect(&rt, "tables"), at(7, 7));
    let fouls = Outcome::Fouls(Foul::DoubleThree);
    same(&rt, told, Some((0, 0, fouls)));
}
