//! Searches of fours that share a memory. What a search of fours with a memory of its own answers the program shows.

use crate::compared::same;
use foul_judge::Position;
use four_search::{FourAnswer, FourMemory, MAX_DEPTH, four_search_with};
use row_shapes::Freestyle;
use std::process::Abort;
use stone_board::Point;
use strategy_compiler::{Compiler, WrittenWin};
use strategy_graph::{Reply, Rest, Table};
use test_boards::position_of;

/// A search on a board of 15.
#[derive(Clone, Copy)]
struct Case {
    black: &'static str,
    white: &'static str,
    depth: u32,
    budget: u64,
}

/// A straight four wins in two moves.
const THREE_IN_A_ROW: Case = Case {
    black: "5,7 6,7 7,7",
    white: "0,0 2,0 4,0",
    depth: 5,
    budget: 3,
};

/// The nodes of its table, each with its attack, what answers the rest, and the replies that are listed: the fives at both ends, and
/// the straight four.
const STRAIGHT_FOUR: [(Point, Rest, &[Reply]); 3] = [
    (Point { x: 3, y: 7 }, Rest::Wins, &[]),
    (Point { x: 8, y: 7 }, Rest::Wins, &[]),
    (
        Point { x: 4, y: 7 },
        Rest::To(0),
        &[Reply {
            at: Point { x: 3, y: 7 },
            next: 1,
        }],
    ),
];

/// Five threes that are closed at one end, far from each other. The fours of each can be played among those of the others.
const CLOSED_THREES: Case = Case {
    black: "1,0 2,0 3,0 1,3 2,3 3,3 1,6 2,6 3,6 1,9 2,9 3,9 1,12 2,12 3,12",
    white: "0,0 9,1 14,1 0,3 12,3 14,5 0,6 12,7 0,9 14,9 12,11 0,12 10,13 14,13 8,14",
    depth: 60,
    budget: 351_370,
};

/// The closed threes with one position fewer to look at than the search needs.
const ONE_FEWER: Case = Case {
    budget: 351_369,
    ..CLOSED_THREES
};

/// What a search with this memory answers: the nodes of its win are in the compiler.
fn answer_with(
    rt: &(impl Abort + AllocGlobal),
    case: &Case,
    memory: &mut FourMemory<Freestyle>,
    compiler: &mut Compiler,
) -> FourAnswer {
    assert!(rt; 1 <= case.depth && case.depth <= MAX_DEPTH && 1 <= case.budget);
    let view = position_of::<Freestyle>(rt.alloc(), case.black, case.white);
    let answer = four_search_with::<Freestyle, Position<Freestyle>>(
        rt.alloc(),
        &mut view.expect(rt, "a position"),
        case.depth,
        case.budget,
        memory,
        compiler,
    );
    answer.expect(rt, "an answer")
}

/// Compares what a search answers that finds no win.
fn compare(
    rt: &(impl Abort + AllocGlobal),
    case: &Case,
    memory: &mut FourMemory<Freestyle>,
    wanted: FourAnswer,
) {
    let mut compiler = Compiler::new(rt.alloc());
    same(rt, answer_with(rt, case, memory, &mut compiler), wanted);
}

/// The win that was found.
fn win_of(answer: FourAnswer) -> Option<WrittenWin> {
    match answer {
        FourAnswer::Win(win) => Some(win),
        FourAnswer::None | FourAnswer::Spent => None,
    }
}

/// The table of a win.
fn table_of(rt: &impl Abort, win: WrittenWin, compiler: Compiler) -> Table {
    assert!(rt; win.node < compiler.len());
    compiler.finish_win(win).expect(rt, "a table")
}

/// Compares the nodes of a table.
fn compare_nodes(rt: &impl Abort, table: &Table, wanted: &[(Point, Rest, &[Reply])]) {
    same(rt, table.len() as usize, wanted.len());
    for i in 0..table.len() {
        let node = table.node(i);
        let told = (node.attack, node.rest, node.replies);
        same(rt, Some(told), wanted.get(i as usize).copied());
    }
}

/// Compares the win by a straight four, and its table.
fn compare_win(rt: &(impl Abort + AllocGlobal), memory: &mut FourMemory<Freestyle>) {
    let mut compiler = Compiler::new(rt.alloc());
    let answer = answer_with(rt, &THREE_IN_A_ROW, memory, &mut compiler);
    let win = win_of(answer).expect(rt, "a win");
    same(rt, win.moves, 2);
    compare_nodes(rt, &table_of(rt, win, compiler), &STRAIGHT_FOUR);
}

#[test]
fn one_memory_serves_more_searches(rt: HostRuntime) {
    let mut memory: FourMemory<Freestyle> = FourMemory::new(rt.alloc());
    compare(&rt, &CLOSED_THREES, &mut memory, FourAnswer::None);
    compare(&rt, &ONE_FEWER, &mut memory, FourAnswer::Spent);
    compare(&rt, &CLOSED_THREES, &mut memory, FourAnswer::None);
    compare_win(&rt, &mut memory);
}
