//! How many moves a search plays, counted by a view of its own.
//!
//! What a search remembers shows in no clause: neither its answer nor what it counts tells whether it looked at a position again. So a
//! view counts the moves that are played on it, since under freestyle outcomes are seldom asked, and positions to which very many
//! orders of moves lead are searched.

use crate::compared::same;
use foul_judge::{Outcome, Position, Seen};
use four_search::{FourAnswer, FourMemory, four_search_with};
use proof_number::{ProofAnswer, proof_number};
use proof_tree::ProofTree;
use row_shapes::{FivePoints, Freestyle, Rule};
use std::alloc::Global;
use std::process::Abort;
use stone_board::{Board, Point, Side};
use strategy_compiler::Compiler;
use test_boards::position_of;

/// A position that counts the moves that are played on it.
#[derive(Drop)]
struct Counting<R: Rule> {
    position: Position<R>,
    plays: u64,
}

impl<R: Rule> Seen<R> for Counting<R> {
    ghost position = { λ v. v.position };

    fn side(&self) -> Side {
        self.position.side()
    }

    fn board(&self) -> &Board {
        self.position.board()
    }

    fn outcome(&mut self, p: Point) -> Outcome {
        self.position.outcome(p)
    }

    fn play(&mut self, p: Point) {
        self.plays = self.plays.saturating_add(1);
        self.position.play(p);
    }

    fn undo(&mut self, p: Point) {
        self.position.undo(p);
    }

    fn five(&self, side: Side, p: Point) -> bool {
        self.position.five(side, p)
    }

    fn has_five(&self, side: Side) -> bool {
        self.position.has_five(side)
    }

    fn fives_in_short(&self, side: Side) -> FivePoints {
        self.position.fives_in_short(side)
    }

    fn fives_made(&self, p: Point) -> FivePoints {
        self.position.fives_made(p)
    }
}

/// Five threes that are closed at one end, far from each other. The fours of each, in one of two ways, can be played among those of the
/// others, so 1, 10, 80, 480, 1,920 and 3,840 orders lead to positions behind 0 to 5 fours. A search within 1 to 60 moves looks at 1,
/// 11, 91, 571, 2,491 and then, 55 times, at 6,331 of them: 351,370 positions.
const CLOSED_THREES: (&str, &str) = (
    "1,0 2,0 3,0 1,3 2,3 3,3 1,6 2,6 3,6 1,9 2,9 3,9 1,12 2,12 3,12",
    "0,0 9,1 14,1 0,3 12,3 14,5 0,6 12,7 0,9 14,9 12,11 0,12 10,13 14,13 8,14",
);

const COUNTED: u64 = 351_370;

/// A view of the position with these stones.
fn counting_view(rt: &(impl Abort + AllocGlobal), stones: (&str, &str)) -> Counting<Freestyle> {
    let position = position_of::<Freestyle>(rt.alloc(), stones.0, stones.1);
    Counting {
        position: position.expect(rt, "a position"),
        plays: 0,
    }
}

/// How many moves a search of fours plays that finds no win and counts that many positions.
fn played_by_fours(rt: &(impl Abort + AllocGlobal), memory: &mut FourMemory<Freestyle>) -> u64 {
    let mut view = counting_view(rt, CLOSED_THREES);
    let found = fours_of(
        rt.alloc(),
        &mut view,
        memory,
        &mut Compiler::new(rt.alloc()),
    );
    same(rt, found, Some(FourAnswer::None));
    view.plays
}

/// What the search of fours answers.
fn fours_of(
    alloc: Global,
    view: &mut Counting<Freestyle>,
    memory: &mut FourMemory<Freestyle>,
    compiler: &mut Compiler,
) -> Option<FourAnswer> {
    four_search_with::<Freestyle, Counting<Freestyle>>(
        alloc, view, 60, COUNTED, memory, compiler,
    ).ok()
}

/// A search that remembers nothing plays a four to come to each position but the first of a depth, and one that finds all that it needs
/// in its memory plays fewer moves than the one that filled it.
#[test]
fn a_search_of_fours_remembers_positions(rt: HostRuntime) {
    let mut memory = FourMemory::new(rt.alloc());
    let first = played_by_fours(&rt, &mut memory);
    same(&rt, first < COUNTED / 4, true);
    let second = played_by_fours(&rt, &mut memory);
    same(&rt, second < first, true);
}

/// Five threes of that kind. Each is as it was, or has its four and the block in one of two ways: that makes 243 positions, to which
/// 6,331 orders of fours lead.
const FIVE_THREES: (&str, &str) = (
    "0,1 1,1 2,1 12,1 13,1 14,1 0,5 1,5 2,5 12,5 13,5 14,5 0,9 1,9 2,9",
    "5,0 7,0 9,0 5,3 9,3 7,4 5,7 9,7 7,8 5,11 9,11 7,12 5,14 7,14 9,14",
);

/// How many moves a search by threats plays that finds no win.
fn played_by_threats(rt: &(impl Abort + AllocGlobal)) -> u64 {
    let mut view = counting_view(rt, FIVE_THREES);
    same(rt, threats_of(rt, &mut view), Some(ProofAnswer::None));
    view.plays
}

/// What the search by threats answers.
fn threats_of(
    rt: &(impl Abort + AllocGlobal),
    view: &mut Counting<Freestyle>,
) -> Option<ProofAnswer> {
    let mut tree = ProofTree::new(rt.alloc()).expect(rt, "a tree");
    let mut compiler = Compiler::new(rt.alloc());
    proof_number::<Freestyle, Counting<Freestyle>>(
        rt.alloc(),
        view,
        6,
        10_000_000,
        &mut tree,
        &mut compiler,
    ).ok()
}

/// Behind k fours, each with its block, come 10, 80, 480, 1,920 and 3,840 orders. A search that remembers nothing goes to each of these
/// positions from the first one, by 2 k moves: 56,980 in all.
#[test]
fn a_search_by_threats_remembers_positions(rt: HostRuntime) {
    let played = played_by_threats(&rt);
    same(&rt, played < 56_980 / 2, true);
}
