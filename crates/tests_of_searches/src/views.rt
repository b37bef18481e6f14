//! What the searches tell of a position, over its tables of lines and over the plain one.
//!
//! A search asks its view through `Seen` alone, so both have to tell the same: five points, four and three moves; what a search of
//! fours finds, a line that is proved, a search of the game of threats and the moves that hold, and the nodes of their wins. The
//! positions are worked ones and some that look random, under each rule.
use crate::compared::same;
use defence_finder::defences;
use foul_judge::{Position, Seen};
use four_search::four_search;
use line_proof::prove_line;
use line_tables::LineTables;
use proof_number::proof_number;
use proof_tree::ProofTree;
use row_shapes::{ExactFive, Freestyle, Renju, Rule};
use std::alloc::Global;
use std::fmt::Debug;
use std::process::Abort;
use stone_board::{Board, Point, Side};
use strategy_compiler::Compiler;
use test_boards::{board_of, empty_board, lawful};
use threat_moves::{Threats, fives, four_moves, three_moves};
use threat_space::{SpaceAnswer, threat_space};

/// The stones of a position.
#[derive(Clone, Copy)]
struct Stones {
    black: &'static str,
    white: &'static str,
}

const WORKED: [Stones; 5] = [
    Stones {
        black: "",
        white: "",
    },
    Stones {
        black: "5,7 6,7 7,7",
        white: "0,0 2,0 4,0",
    },
    Stones {
        black: "2,7 3,7 5,7 6,7 7,7",
        white: "0,0 7,0 14,0 0,14 14,14",
    },
    Stones {
        black: "7,0 7,1 7,2 2,3 7,4 7,5",
        white: "3,3 4,3 5,3 12,14 14,14",
    },
    Stones {
        black: "1,0 2,0 3,0 1,3 2,3 3,3 1,6 2,6 3,6",
        white: "0,0 9,1 14,1 0,3 12,3 14,5 0,6 12,7 14,9",
    },
];

/// Puts stones of both sides in turn on points of a corner that look random.
fn scatter(board: &mut Board, seed: u32) {
    let mut chance = seed;
    let mut side = Side::Black;
    for _ in 0..30 {
        chance = chance.wrapping_mul(1_103_515_245).wrapping_add(12_345);
        let p = Point {
            x: (chance >> 16 & 7) as u8,
            y: (chance >> 20 & 7) as u8,
        };
        if board.is_empty(p) {
            board.put(p, side);
            side = side.other();
        }
    }
}

/// Adds what was answered, which has to be an answer, as its type shows it.
fn add<T: Debug + Drop, E: Debug + Drop>(rt: &impl Abort, text: &mut String, answer: Result<T, E>) {
    let answer = answer.expect(rt, "an answer");
    write!(text, "{answer:?}\n").expect(rt, "memory");
}

/// Adds the five points of both sides, and the moves that make fours and those that make threes.
fn add_lists<R: Rule, V: Seen<R>>(
    rt: &(impl Abort + AllocGlobal),
    view: &mut V,
    text: &mut String,
) {
    add(rt, text, fives::<R, V>(rt.alloc(), view, Side::Black));
    add(rt, text, fives::<R, V>(rt.alloc(), view, Side::White));
    add(rt, text, four_moves::<R, V>(rt.alloc(), view));
    add(rt, text, three_moves::<R, V>(rt.alloc(), view));
}

/// The threats of the first sequence, and none where there is no sequence.
fn threats_of(alloc: Global, answer: SpaceAnswer) -> Threats {
    match answer {
        SpaceAnswer::Sequence(line, _) => line,
        SpaceAnswer::None | SpaceAnswer::Spent => Threats::new(alloc),
    }
}

/// Adds the first sequence of threats of the side to move, and answers its threats.
fn add_sequence<R: Rule, V: Seen<R>>(
    rt: &(impl Abort + AllocGlobal),
    view: &V,
    text: &mut String,
) -> Threats {
    let mut board = view.board().copy().expect(rt, "a copy");
    let found = threat_space::<R>(rt.alloc(), &mut board, view.side(), 3, 100);
    let found = found.expect(rt, "an answer");
    write!(text, "{found:?}\n").expect(rt, "memory");
    threats_of(rt.alloc(), found)
}

/// Adds the first sequence of threats, and what its proof answers.
fn add_line<R: Rule, V: Seen<R>>(
    rt: &(impl Abort + AllocGlobal),
    view: &mut V,
    compiler: &mut Compiler,
    text: &mut String,
) {
    let line = add_sequence::<R, V>(rt, view, text);
    add(
        rt,
        text,
        prove_line::<R, V>(rt.alloc(), view, &line, 6, compiler),
    );
}

/// Adds what the search of the game of threats answers.
fn add_threats<R: Rule, V: Seen<R>>(
    rt: &(impl Abort + AllocGlobal),
    view: &mut V,
    compiler: &mut Compiler,
    text: &mut String,
) {
    let mut tree = ProofTree::new(rt.alloc()).expect(rt, "a tree");
    add(
        rt,
        text,
        proof_number::<R, V>(rt.alloc(), view, 4, 30, &mut tree, compiler),
    );
}

/// Adds what the searches answer: their wins name nodes of the compiler.
fn add_searches<R: Rule, V: Seen<R>>(
    rt: &(impl Abort + AllocGlobal),
    view: &mut V,
    compiler: &mut Compiler,
    text: &mut String,
) {
    add(
        rt,
        text,
        four_search::<R, V>(rt.alloc(), view, 20, 300, compiler),
    );
    add_line::<R, V>(rt, view, compiler, text);
    add_threats::<R, V>(rt, view, compiler, text);
    add(
        rt,
        text,
        defences::<R, V>(rt.alloc(), view, 6, 300, compiler),
    );
}

/// What the view tells by each of these, and the nodes of the wins.
fn told<R: Rule, V: Seen<R>>(rt: &(impl Abort + AllocGlobal), view: &mut V) -> String {
    let mut text = String::new(rt.alloc());
    let mut compiler = Compiler::new(rt.alloc());
    add_lists::<R, V>(rt, view, &mut text);
    add_searches::<R, V>(rt, view, &mut compiler, &mut text);
    let nodes = compiler.nodes();
    write!(text, "{nodes:?}").expect(rt, "memory");
    text
}

/// Compares what line tables of a board tell with what its position tells.
fn told_alike<R: Rule>(rt: &(impl Abort + AllocGlobal), board: Board) {
    let position = lawful::<R>(board).expect(rt, "a position");
    let mut tables = LineTables::<R>::over(rt.alloc(), position);
    let by_tables = told::<R, LineTables<R>>(rt, &mut tables);
    let mut position = tables.into_position();
    let by_position = told::<R, Position<R>>(rt, &mut position);
    same(rt, by_tables.as_str(), by_position.as_str());
}

fn all_alike<R: Rule>(rt: &(impl Abort + AllocGlobal)) {
    for stones in &WORKED {
        let board = board_of(rt.alloc(), stones.black, stones.white);
        told_alike::<R>(rt, board.expect(rt, "a board"));
    }
    for seed in 0..10 {
        let mut board = empty_board(rt.alloc(), 9, 9).expect(rt, "a board");
        scatter(&mut board, seed);
        told_alike::<R>(rt, board);
    }
}

#[test]
fn tables_tell_what_positions_tell(rt: HostRuntime) {
    all_alike::<Freestyle>(&rt);
    all_alike::<ExactFive>(&rt);
    all_alike::<Renju>(&rt);
}
