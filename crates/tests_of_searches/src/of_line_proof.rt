//! Line proofs on worked positions. Expected values are from the rules by hand.

ghost use Rattle.std.specs.Prelude.{◌≤◌};
ghost use Rattle.line_proof.specs.declared.TheConstants.{MAX_DEPTH};

use crate::compared::same;
use crate::of_threat_moves::threats_of_black;
use foul_judge::Position;
use line_proof::{LineAnswer, prove_line};
use row_shapes::Freestyle;
use std::process::Abort;
use strategy_compiler::Compiler;
use test_boards::{at, board_of, position_of};
use threat_moves::Threats;

/// What is proved of the line within so many moves: the number of moves, if it wins.
fn proved_within(
    rt: &(impl Abort + AllocGlobal),
    view: &mut Position<Freestyle>,
    threats: &Threats,
    depth: u32,
    compiler: &mut Compiler,
) -> Option<u32>
    requires some_depth { 1 ≤ depth }
    requires depth_fits { depth ≤ MAX_DEPTH }
{
    let answer = prove_line::<Freestyle, Position<Freestyle>>(
        rt.alloc(),
        view,
        threats,
        depth,
        compiler,
    );
    match answer.expect(rt, "an answer") {
        LineAnswer::Proved(win) => Some(win.moves),
        LineAnswer::Fails => None,
    }
}

/// Compares what is proved of the line from these stones within 3 moves. Within 2 there is no win.
fn compare(
    rt: &(impl Abort + AllocGlobal),
    black: &str,
    white: &str,
    threats: &Threats,
    moves: Option<u32>,
) {
    let mut view = position_of(rt.alloc(), black, white).expect(rt, "a position");
    let mut compiler = Compiler::new(rt.alloc());
    let two = proved_within(rt, &mut view, threats, 2, &mut compiler);
    let three = proved_within(rt, &mut view, threats, 3, &mut compiler);
    same(rt, (two, three), (None, moves));
}

const DIAMOND: &str = "7,6 6,7 8,7 7,8";

const CORNERS: &str = "0,0 14,0 0,14 14,14";

/// The first of the two threes that a stone in the middle of the diamond makes.
fn first_three(rt: &(impl Abort + AllocGlobal)) -> Threats {
    let mut board = board_of(rt.alloc(), DIAMOND, CORNERS).expect(rt, "a board");
    let threats = threats_of_black::<Freestyle>(rt.alloc(), &mut board, at(7, 7));
    let mut threats = threats.expect(rt, "threats");
    assert!(rt; threats.len() == 2);
    threats.drop_last();
    threats
}

#[test]
fn a_double_three_wins_in_three_moves(rt: HostRuntime) {
    compare(&rt, DIAMOND, CORNERS, &first_three(&rt), Some(3));
}

/// Two pairs that cross at 7,7, and a white row of four that has its one open end there.
#[test]
fn the_five_point_of_the_defender_is_taken_first(rt: HostRuntime) {
    let none = Threats::new(rt.alloc());
    let white = "3,7 4,7 5,7 6,7 0,1";
    compare(&rt, "6,6 8,8 6,8 8,6 2,7", white, &none, Some(3));
}

#[test]
fn without_a_threat_there_is_no_line(rt: HostRuntime) {
    compare(&rt, DIAMOND, CORNERS, &Threats::new(rt.alloc()), None);
}
