//! Line tables along the positions of a drill.
//!
//! Each position of `drill 0` is played from the empty board, and taken back move by move. After each step the code and the shape
//! of each empty point are compared with those that are made from scratch, by walks over the board.
use crate::compared::same;
use crate::remade::{compare, undo};
use foul_judge::{Outcome, Seen};
use four_search::{FourAnswer, four_search};
use line_tables::LineTables;
use row_shapes::{ExactFive, Freestyle, Renju, Rule};
use std::alloc::Global;
use std::process::Abort;
use stone_board::{Point, Points, Side};
use strategy_compiler::Compiler;
use test_boards::position_of;

/// How many moves the opponent makes in the game of each position of `drill 0`: so many draws pass before the next is made.
const REPLIES: &str = "101011001101100011010101001011001000000001011000000001011011";

/// How many of them have a win by fours, as the drill prints.
const WINS: u32 = 43;

/// The draws of a drill.
#[derive(Drop)]
struct Draws {
    number: u64,
}

impl Draws {
    fn draw(&mut self) -> u32 {
        self.number = self
            .number
            .wrapping_mul(6_364_136_223_846_793_005)
            .wrapping_add(1_442_695_040_888_963_407);
        (self.number >> 33) as u32
    }

    /// The point that a draw names.
    fn point(&mut self) -> Point {
        let k = self.draw() % 81;
        Point {
            x: (3 + k % 9) as u8,
            y: (3 + k / 9) as u8,
        }
    }
}

/// Whether there is a win by fours, as a drill searches it.
fn is_won<R: Rule>(alloc: Global, tables: &mut LineTables<R>) -> Option<bool> {
    let mut compiler = Compiler::new(alloc);
    let found = four_search::<R, LineTables<R>>(alloc, tables, 6, 2_000, &mut compiler).ok();
    told_of(found)
}

/// Whether the answer is a win.
fn told_of(answer: Option<FourAnswer>) -> Option<bool> {
    Some(matches!(answer?, FourAnswer::Win(_)))
}

/// Plays a move where it goes on and fewer than 30 stones stand, and says whether it is played.
fn play<R: Rule, V: Seen<R>>(view: &mut V, p: Point) -> bool {
    let stones = view.board().count(Side::Black) + view.board().count(Side::White);
    match view.outcome(p) {
        Outcome::GoesOn if stones < 30 => {
            view.play(p);
            true
        }
        _ => false,
    }
}

/// Plays each of the points of a position that can be played, and notes it.
fn play_each<R: Rule>(
    rt: &impl Abort,
    tables: &mut LineTables<R>,
    draws: &mut Draws,
    played: &mut Points,
) {
    for _ in 0..120 {
        let p = draws.point();
        if play::<R, LineTables<R>>(tables, p) {
            played.push(p).expect(rt, "memory");
            compare::<R>(rt, tables);
        }
    }
}

/// Takes the points back, the last one first.
fn take_back<R: Rule>(rt: &impl Abort, tables: &mut LineTables<R>, played: &[Point]) {
    for p in played.iter().rev() {
        same(rt, undo::<R, LineTables<R>>(tables, *p), Some(true));
        compare::<R>(rt, tables);
    }
}

/// Plays the points of a position over these tables and takes them back, so that the tables are as before. Tells whether the position
/// is won.
fn play_and_take_back<R: Rule>(
    rt: &(impl Abort + AllocGlobal),
    tables: &mut LineTables<R>,
    draws: &mut Draws,
) -> bool {
    let mut played = Points::new(rt.alloc());
    play_each::<R>(rt, tables, draws, &mut played);
    let is_won = is_won::<R>(rt.alloc(), tables).expect(rt, "an answer");
    take_back::<R>(rt, tables, played.as_slice());
    is_won
}

/// The same from the empty board on.
fn replay<R: Rule>(rt: &(impl Abort + AllocGlobal), draws: &mut Draws) -> bool {
    let position = position_of::<R>(rt.alloc(), "", "").expect(rt, "a position");
    let tables = LineTables::<R>::new(rt.alloc(), &position);
    let mut tables = tables.expect(rt, "tables");
    let is_won = play_and_take_back::<R>(rt, &mut tables, draws);
    same(rt, tables.board().same(position.board()), true);
    is_won
}

/// Replays the next position under the rule whose turn it is.
fn replay_in_turn(rt: &(impl Abort + AllocGlobal), turn: usize, draws: &mut Draws) -> bool {
    match turn % 3 {
        0 => replay::<Freestyle>(rt, draws),
        1 => replay::<ExactFive>(rt, draws),
        _ => replay::<Renju>(rt, draws),
    }
}

#[test]
fn line_tables_follow_the_positions_of_a_drill(rt: HostRuntime) {
    let mut draws = Draws { number: 0 };
    let mut wins: u32 = 0;
    for (i, replies) in REPLIES.as_bytes().iter().enumerate() {
        if replay_in_turn(&rt, i, &mut draws) {
            wins = wins.saturating_add(1);
        }
        if *replies == b'1' {
            draws.draw();
        }
    }
    same(&rt, wins, WINS);
}
