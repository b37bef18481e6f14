//! The shapes of rows on small examples.

use crate::compared::same;
use row_shapes::{
    ExactFive, FivePoints, Freestyle, Renju, Rule, RuleKind, five_at, five_points, fives_in_short,
    fives_made, fours_through, has_five, is_five_point, stones_in_reach, straight_through,
    three_points, under_rule,
};
use std::process::Abort;
use stone_board::{Axis, Board, Point, Side};
use test_boards::{at, board_of, put};

/// Whether Black makes five on the point under each rule, where it is empty.
fn five_by_rule(board: &Board, p: Point) -> Option<[bool; 3]> {
    if !board.is_empty(p) {
        return None;
    }
    Some([
        five_at::<Freestyle>(board, Side::Black, p),
        five_at::<ExactFive>(board, Side::Black, p),
        five_at::<Renju>(board, Side::Black, p),
    ])
}

#[test]
fn six_in_a_row_win_by_the_rule(rt: HostRuntime) {
    let board = board_of(rt.alloc(), "2,7 3,7 5,7 6,7 7,7", "").expect(&rt, "a board");
    same(
        &rt,
        five_by_rule(&board, at(4, 7)),
        Some([true, false, false]),
    );
    let six = (Renju::wins(Side::White, 6), Renju::wins(Side::Black, 6));
    same(&rt, six, (true, false));
    same(&rt, Renju::KIND, RuleKind::Renju);
    let fouls = (Renju::has_fouls(Side::Black), Renju::has_fouls(Side::White));
    same(&rt, fouls, (true, false));
}

/// The fours through a stone of Black in its row and in its column, whether its row has a straight four, and the row's three points.
fn fours<R: Rule>(board: &Board, p: Point) -> Option<(u32, u32, bool, u16)> {
    if !board.holds(Side::Black, p) {
        return None;
    }
    Some((
        fours_through::<R>(board, p, Axis::Row),
        fours_through::<R>(board, p, Axis::Column),
        straight_through::<R>(board, p, Axis::Row),
        three_points::<R>(board, p, Axis::Row),
    ))
}

#[test]
fn one_line_holds_two_fours(rt: HostRuntime) {
    let board = board_of(rt.alloc(), "2,7 4,7 5,7 6,7 8,7", "").expect(&rt, "a board");
    let told = fours::<Renju>(&board, at(5, 7));
    same(&rt, told, Some((2, 0, false, 0)));
}

#[test]
fn a_straight_four_has_two_open_ends(rt: HostRuntime) {
    let mut board = board_of(rt.alloc(), "6,7 7,7 8,7 9,7", "").expect(&rt, "a board");
    let told = fours::<Renju>(&board, at(7, 7));
    same(&rt, told, Some((1, 0, true, 0)));
    same(&rt, put(&mut board, Side::White, "10,7"), Some(()));
    let told = fours::<Renju>(&board, at(7, 7));
    same(&rt, told, Some((1, 0, false, 0)));
}

/// The three points of a stone of White in its row and in its column.
fn threes(board: &Board, p: Point) -> Option<(u16, u16)> {
    if !board.holds(Side::White, p) {
        return None;
    }
    Some((
        three_points::<Freestyle>(board, p, Axis::Row),
        three_points::<Freestyle>(board, p, Axis::Column),
    ))
}

#[test]
fn three_points_are_bits(rt: HostRuntime) {
    let mut board = board_of(rt.alloc(), "", "6,7 7,7 8,7").expect(&rt, "a board");
    same(&rt, threes(&board, at(7, 7)), Some((0b1000_1000, 0)));
    same(&rt, put(&mut board, Side::Black, "10,7"), Some(()));
    same(&rt, threes(&board, at(7, 7)), Some((0b0000_1000, 0)));
}

/// The stones of Black and of White in the reach of a point in its row.
fn in_reach(board: &Board, p: Point) -> Option<(u32, u32)> {
    if !board.on(p) {
        return None;
    }
    Some((
        stones_in_reach(board, Side::Black, Axis::Row, p),
        stones_in_reach(board, Side::White, Axis::Row, p),
    ))
}

#[test]
fn stones_past_one_gap_are_in_reach(rt: HostRuntime) {
    let mut board = board_of(rt.alloc(), "4,7 6,7 9,7 10,7 13,7", "").expect(&rt, "a board");
    same(&rt, in_reach(&board, at(7, 7)), Some((3, 0)));
    same(&rt, put(&mut board, Side::White, "8,7"), Some(()));
    same(&rt, in_reach(&board, at(7, 7)), Some((2, 1)));
}

/// Whether White has a five point, Black several, and Black one on the point.
fn fives_told(board: &Board, p: Point) -> [bool; 3] {
    [
        has_five::<Freestyle>(board, Side::White),
        fives_in_short::<Freestyle>(board, Side::Black).is_several(),
        is_five_point::<Freestyle>(board, Side::Black, p),
    ]
}

/// Compares the five points of Black.
fn compare_fives(rt: &(impl Abort + AllocGlobal), board: &Board) {
    let points = five_points::<Freestyle>(rt.alloc(), board, Side::Black).expect(rt, "points");
    same(rt, points.as_slice(), [at(3, 7), at(8, 7)].as_slice());
}

#[test]
fn five_points_come_in_reading_order(rt: HostRuntime) {
    let board = board_of(rt.alloc(), "4,7 5,7 6,7 7,7", "0,0").expect(&rt, "a board");
    compare_fives(&rt, &board);
    same(&rt, fives_told(&board, at(3, 7)), [false, true, true]);
}

/// Whether Black has a five point under freestyle and under renju, and White's five points in short under freestyle.
fn five_points_in_short(board: &Board) -> (bool, bool, FivePoints) {
    (
        has_five::<Freestyle>(board, Side::Black),
        has_five::<Renju>(board, Side::Black),
        fives_in_short::<Freestyle>(board, Side::White),
    )
}

/// The stones of Black and of White, and what is told of their five points.
const WINDOWS: [(&str, &str, (bool, bool, FivePoints)); 3] = [
    (
        "11,14 12,14 13,14 14,14",
        "10,14",
        (false, false, FivePoints::None),
    ),
    (
        "2,7 3,7 5,7 6,7 7,7",
        "1,7 8,7",
        (true, false, FivePoints::None),
    ),
    (
        "0,3 1,2 2,1 3,0",
        "10,10 11,11 12,12 14,14",
        (false, false, FivePoints::One(Point { x: 13, y: 13 })),
    ),
];

#[test]
fn a_line_with_a_window_may_have_no_five_point(rt: HostRuntime) {
    for (black, white, told) in &WINDOWS {
        let board = board_of(rt.alloc(), black, white).expect(&rt, black);
        same(&rt, five_points_in_short(&board), *told);
    }
}

/// What the side's stone at the point makes, told before it is put and by a scan of the board with it, where both agree.
fn told_and_seen<R: Rule>(board: &mut Board, side: Side, p: Point) -> Option<FivePoints> {
    if !board.is_empty(p) || has_five::<R>(board, side) {
        return None;
    }
    let made = fives_made::<R>(board, side, p);
    board.put(p, side);
    if made == fives_in_short::<R>(board, side) {
        Some(made)
    } else {
        None
    }
}

const NONE: Option<FivePoints> = Some(FivePoints::None);

const SEVERAL: Option<FivePoints> = Some(FivePoints::Several);

/// A stone and the one five point that it makes, or several, or none.
struct NewStone {
    rule: RuleKind,
    side: Side,
    black: &'static str,
    white: &'static str,
    stone: Point,
    told: Option<FivePoints>,
}

/// A row of the table below. It is a macro, since a constant calls no function.
macro_rules! stone {
    ($rule:ident, $side:ident, $black:literal, $white:literal, $x:literal, $y:literal, $told:expr) => {
        NewStone {
            rule: RuleKind::$rule,
            side: Side::$side,
            black: $black,
            white: $white,
            stone: Point { x: $x, y: $y },
            told: $told,
        }
    };
}

/// That one five point is made.
macro_rules! one {
    ($x:literal, $y:literal) => {
        Some(FivePoints::One(Point { x: $x, y: $y }))
    };
}

/// Three in a row with open ends; a row with a gap of two, which one stone makes a four of six; and rows whose end is off the board
/// or taken.
const MADE: [NewStone; 13] = [
    stone!(Freestyle, Black, "5,7 6,7 7,7", "", 8, 7, SEVERAL),
    stone!(Freestyle, Black, "5,7 6,7 7,7", "", 4, 7, SEVERAL),
    stone!(Freestyle, Black, "5,7 6,7 7,7", "", 9, 7, one!(8, 7)),
    stone!(Freestyle, Black, "5,7 6,7 7,7", "", 3, 7, one!(4, 7)),
    stone!(Freestyle, Black, "5,7 6,7 7,7", "", 6, 8, NONE),
    stone!(Freestyle, Black, "5,7 6,7 7,7", "", 14, 14, NONE),
    stone!(Freestyle, Black, "2,7 3,7 4,7 7,7", "", 6, 7, one!(5, 7)),
    stone!(Exact, Black, "2,7 3,7 4,7 7,7", "", 6, 7, NONE),
    stone!(Renju, Black, "2,7 3,7 4,7 7,7", "", 6, 7, NONE),
    stone!(Renju, White, "", "2,7 3,7 4,7 7,7", 6, 7, one!(5, 7)),
    stone!(Renju, Black, "0,0 1,1 2,2", "", 3, 3, one!(4, 4)),
    stone!(Renju, Black, "0,14 1,13 2,12", "", 3, 11, one!(4, 10)),
    stone!(Renju, Black, "5,7 6,7 7,7", "4,7", 8, 7, one!(9, 7)),
];

/// Puts the stone of a row, and compares the five points that it makes.
fn compare_made(rt: &impl Abort, board: &mut Board, row: &NewStone) {
    let told = under_rule!(row.rule, told_and_seen(board, row.side, row.stone));
    same(rt, told, row.told);
}

#[test]
fn five_points_of_a_stone_are_told_before_it(rt: HostRuntime) {
    for row in &MADE {
        let mut board = board_of(rt.alloc(), row.black, row.white).expect(&rt, "a board");
        compare_made(&rt, &mut board, row);
    }
}
