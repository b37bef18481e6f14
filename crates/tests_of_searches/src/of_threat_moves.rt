//! Five points, four moves and their fates on worked positions. Expected values are from the rules by hand.

use crate::compared::same;
use foul_judge::{Outcome, Position, Seen};
use row_shapes::{ExactFive, Freestyle, Renju, Rule};
use std::alloc::Global;
use std::process::Abort;
use stone_board::{Axis, Board, Point, Side};
use test_boards::{at, position_of, sized_board};
use threat_moves::{
    BlockAnswer, FivePoints, Threat, ThreatKind, Threats, fives, forced, four_moves,
    is_double_point, is_four_move, threats_at, three_moves,
};

/// Three stones of Black in a row, with Black to move.
fn three_in_a_row(alloc: Global) -> Option<Position<Freestyle>> {
    position_of(alloc, "5,7 6,7 7,7", "0,0 2,0 4,0")
}

/// Whether these are the five points of Black.
fn are_fives(alloc: Global, view: &Position<Freestyle>, wanted: &[Point]) -> Option<bool> {
    let points = fives::<Freestyle, Position<Freestyle>>(alloc, view, Side::Black).ok()?;
    Some(points.as_slice() == wanted)
}

/// Whether these are the moves of the side to move that make a four.
fn are_fours(alloc: Global, view: &mut Position<Freestyle>, wanted: &[Point]) -> Option<bool> {
    let moves = four_moves::<Freestyle, Position<Freestyle>>(alloc, view).ok()?;
    Some(moves.as_slice() == wanted)
}

fn makes_a_four(view: &mut Position<Freestyle>, p: Point) -> bool {
    is_four_move::<Freestyle, Position<Freestyle>>(view, p)
}

/// A three leaves no five point, and its four moves are within two points of it, in reading order.
fn compare_three(rt: &(impl Abort + AllocGlobal), view: &mut Position<Freestyle>) {
    same(rt, view.has_five(Side::Black), false);
    same(rt, are_fives(rt.alloc(), view, &[]), Some(true));
    let wanted = [at(3, 7), at(4, 7), at(8, 7), at(9, 7)];
    same(rt, are_fours(rt.alloc(), view, &wanted), Some(true));
    same(rt, makes_a_four(view, at(3, 7)), true);
    same(rt, makes_a_four(view, at(2, 7)), false);
}

#[test]
fn four_moves_leave_a_five_point_and_a_three_leaves_none(rt: HostRuntime) {
    let view = three_in_a_row(rt.alloc());
    compare_three(&rt, &mut view.expect(&rt, "a position"));
}

#[test]
fn five_points_come_in_reading_order(rt: HostRuntime) {
    let view = position_of(rt.alloc(), "4,7 5,7 6,7 7,7", "0,0 2,0 4,0 6,0");
    let ends = [at(3, 7), at(8, 7)];
    let told = are_fives(rt.alloc(), &view.expect(&rt, "a position"), &ends);
    same(&rt, told, Some(true));
}

/// What becomes of a four of the side to move.
fn fate<R: Rule>(view: &mut Position<R>, four: Point) -> Option<BlockAnswer> {
    if !is_four_move::<R, Position<R>>(view, four) {
        return None;
    }
    Some(forced::<R, Position<R>>(view, four))
}

/// What becomes of White's four at 6,3, where Black has two threes in the column 7 round the block 7,3.
fn blocked<R: Rule>(alloc: Global) -> Option<BlockAnswer> {
    let black = "7,0 7,1 7,2 2,3 7,4 7,5";
    let mut view = position_of::<R>(alloc, black, "3,3 4,3 5,3 12,14 14,14")?;
    fate::<R>(&mut view, at(6, 3))
}

#[test]
fn the_rule_decides_the_block(rt: HostRuntime) {
    same(&rt, blocked::<Renju>(rt.alloc()), Some(BlockAnswer::Won));
    let lost = blocked::<Freestyle>(rt.alloc());
    same(&rt, lost, Some(BlockAnswer::Lost));
    let one = Some(BlockAnswer::One(at(7, 3)));
    same(&rt, blocked::<ExactFive>(rt.alloc()), one);
}

/// Of the four moves of a three the inner two make two five points, which win.
fn compare_fates(rt: &impl Abort, view: &mut Position<Freestyle>) {
    let fates = [
        (at(3, 7), BlockAnswer::One(at(4, 7))),
        (at(4, 7), BlockAnswer::Won),
        (at(8, 7), BlockAnswer::Won),
        (at(9, 7), BlockAnswer::One(at(8, 7))),
    ];
    for (four, answer) in &fates {
        same(rt, fate(view, *four), Some(*answer));
    }
}

/// What a move of the side to move makes, told before it is played, and told again once it is.
fn told<R: Rule>(view: &mut Position<R>, p: Point) -> Option<(FivePoints, FivePoints)> {
    let side = view.side();
    if view.has_five(side) || !view.board().is_empty(p) {
        return None;
    }
    let made = view.fives_made(p);
    match view.outcome(p) {
        Outcome::GoesOn => {
            view.play(p);
            Some((made, view.fives_in_short(side)))
        }
        _ => None,
    }
}

#[test]
fn two_five_points_win_and_are_told_before_the_move(rt: HostRuntime) {
    let mut view = three_in_a_row(rt.alloc()).expect(&rt, "a position");
    compare_fates(&rt, &mut view);
    let end = FivePoints::One(at(8, 7));
    same(&rt, told(&mut view, at(9, 7)), Some((end, end)));
}

/// Two pairs of Black that cross.
const DIAMOND: &str = "7,6 6,7 8,7 7,8";

const CORNERS: &str = "0,0 14,0 0,14 14,14";

/// Whether the move of the side to move makes a three.
fn makes_a_three(alloc: Global, view: &mut Position<Freestyle>, p: Point) -> Option<bool> {
    let moves = three_moves::<Freestyle, Position<Freestyle>>(alloc, view).ok()?;
    Some(moves.as_slice().contains(&p))
}

#[test]
fn a_double_three_is_a_three_move_and_no_double_point(rt: HostRuntime) {
    let view = position_of(rt.alloc(), DIAMOND, CORNERS);
    let mut view = view.expect(&rt, "a position");
    let told = makes_a_three(rt.alloc(), &mut view, at(7, 7));
    same(&rt, told, Some(true));
    let mut board = view.into_board();
    let is_double = is_double_point::<Freestyle>(&mut board, Side::Black, at(7, 7));
    same(&rt, is_double, false);
}

/// What a stone of Black on an empty point threatens.
pub(crate) fn threats_of_black<R: Rule>(
    alloc: Global,
    board: &mut Board,
    gain: Point,
) -> Option<Threats> {
    if !board.is_empty(gain) {
        return None;
    }
    threats_at::<R>(alloc, board, Side::Black, gain).ok()
}

/// Whether the threat is a three on the axis that has these costs.
fn is_three(threat: &Threat, axis: Axis, costs: &[Point]) -> bool {
    threat.kind == ThreatKind::Three && threat.axis == axis && threat.costs.as_slice() == costs
}

/// Whether a stone of Black makes one threat, a three on the column 5 that has these costs.
fn is_one_three(alloc: Global, board: &mut Board, gain: Point, costs: &[Point]) -> Option<bool> {
    let threats = threats_of_black::<Renju>(alloc, board, gain)?;
    Some(threats.len() == 1 && is_three(threats.at(0), Axis::Column, costs))
}

/// Black has a three in the column 5 once the point 5,2 is taken.
const ROUND_A_COLUMN: &str = "8,2 5,3 2,4 3,4 4,5 5,5 6,5 7,5 3,6 4,6 4,8 5,8 6,8 8,8";

#[test]
fn a_stone_off_the_axis_answers_a_three(rt: HostRuntime) {
    let board = sized_board(rt.alloc(), 11, 11, ROUND_A_COLUMN, "10,3 1,5");
    let mut board = board.expect(&rt, "a board");
    let costs = [at(5, 1), at(5, 4), at(5, 6), at(4, 7)];
    let told = is_one_three(rt.alloc(), &mut board, at(5, 2), &costs);
    same(&rt, told, Some(true));
}
