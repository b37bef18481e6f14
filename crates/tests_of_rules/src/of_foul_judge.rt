//! Fouls, outcomes and lawful positions on small examples.

use crate::compared::same;
use foul_judge::{Foul, Outcome, Position, PositionError, Seen, foul_at, refusal};
use row_shapes::{ExactFive, FivePoints, Freestyle, Renju, Rule, RuleKind, under_rule};
use std::alloc::Global;
use std::process::Abort;
use stone_board::{Board, Point, Side};
use test_boards::{at, board_of, drawn_board, lawful, position_of};

/// The foul at an empty point under renju, and under freestyle.
fn fouls(board: &mut Board, p: Point) -> Option<(Option<Foul>, Option<Foul>)> {
    if !board.is_empty(p) {
        return None;
    }
    let renju = foul_at::<Renju>(board, p);
    if !board.is_empty(p) {
        return None;
    }
    Some((renju, foul_at::<Freestyle>(board, p)))
}

const CORNERS: &str = "0,0 14,0 0,14 14,14";

/// Stones of Black and of White, a point, and its foul. In the last two rows the only three point of the row is a double three and
/// an overline, which no stone can fill; in the one before them it is a four and one three.
const FOULS: [(&str, &str, Point, Option<Foul>); 7] = [
    // six in a row
    (
        "2,7 3,7 5,7 6,7 7,7",
        CORNERS,
        Point { x: 4, y: 7 },
        Some(Foul::Overline),
    ),
    // two fours of one line
    (
        "2,7 4,7 6,7 8,7",
        CORNERS,
        Point { x: 5, y: 7 },
        Some(Foul::DoubleFour),
    ),
    // five in the row and six in the column
    (
        "7,4 7,5 7,6 3,7 4,7 5,7 6,7 7,8 7,9",
        CORNERS,
        Point { x: 7, y: 7 },
        None,
    ),
    // two threes that cross
    (
        "7,6 6,7 8,7 7,8",
        CORNERS,
        Point { x: 7, y: 7 },
        Some(Foul::DoubleThree),
    ),
    (
        "5,6 7,6 6,7 8,7 5,8 6,8 7,8",
        "10,7",
        Point { x: 7, y: 7 },
        Some(Foul::DoubleThree),
    ),
    (
        "4,6 5,6 7,6 6,7 8,7 5,8 6,8 7,8",
        "10,7",
        Point { x: 7, y: 7 },
        None,
    ),
    (
        "5,4 5,5 5,6 7,6 6,7 8,7 5,8 7,8 5,9",
        "10,7",
        Point { x: 7, y: 7 },
        None,
    ),
];

#[test]
fn fouls_are_judged_under_renju_alone(rt: HostRuntime) {
    for (black, white, p, foul) in &FOULS {
        let mut board = board_of(rt.alloc(), black, white).expect(&rt, black);
        same(&rt, fouls(&mut board, *p), Some((*foul, None)));
    }
}

/// Why the board is no position, whether that is told beforehand, and whether it comes back as it was. There is none where it is a
/// position.
fn refused(alloc: Global, marks: &str) -> Option<(PositionError, bool, bool)> {
    let board = drawn_board(alloc, marks)?;
    refused_board(board, &drawn_board(alloc, marks)?)
}

/// The same of a board and its copy.
fn refused_board(board: Board, copy: &Board) -> Option<(PositionError, bool, bool)> {
    let told = refusal(RuleKind::Freestyle, &board);
    match Position::<Freestyle>::from_board(board) {
        Ok(_) => None,
        Err((error, returned)) => Some((error, told == Some(error), returned.same(copy))),
    }
}

#[test]
fn refused_boards_come_back(rt: HostRuntime) {
    let uneven = PositionError::Uneven { black: 0, white: 1 };
    same(&rt, refused(rt.alloc(), "..o"), Some((uneven, true, true)));
    let won = PositionError::AlreadyWon { at: at(0, 1) };
    let told = refused(rt.alloc(), "xo.o.xxxxxo.o.o");
    same(&rt, told, Some((won, true, true)));
    let told = refused(rt.alloc(), "xoxoxoxoxoxxooxoxoxoxoxox");
    same(&rt, told, Some((PositionError::BoardFull, true, true)));
    let board = drawn_board(rt.alloc(), "xo").expect(&rt, "a board");
    same(&rt, refusal(RuleKind::Freestyle, &board), None);
    same(&rt, lawful::<Freestyle>(board).is_some(), true);
}

/// The outcome of a move on a board that is a position.
fn outcome_on<R: Rule>(board: Board, p: Point) -> Option<Outcome> {
    let mut position = lawful::<R>(board)?;
    Some(position.outcome(p))
}

/// The outcome of a move on the board of 5 with these marks.
fn outcome_on_drawn<R: Rule>(alloc: Global, marks: &str, p: Point) -> Option<Outcome> {
    outcome_on::<R>(drawn_board(alloc, marks)?, p)
}

/// A rule, a board of 5, and the outcome of a move.
const OUTCOMES: [(RuleKind, &str, Point, Outcome); 4] = [
    (
        RuleKind::Renju,
        "xxxx.oooo.",
        Point { x: 0, y: 0 },
        Outcome::Refused,
    ),
    (
        RuleKind::Renju,
        "xxxx.oooo.",
        Point { x: 4, y: 0 },
        Outcome::Wins,
    ),
    (
        RuleKind::Exact,
        "xxxx.oooo.",
        Point { x: 4, y: 2 },
        Outcome::GoesOn,
    ),
    (
        RuleKind::Renju,
        "xoxoxoxoxoxxooxoxoxoxoxo.",
        Point { x: 4, y: 4 },
        Outcome::Draws,
    ),
];

#[test]
fn outcomes_of_each_kind(rt: HostRuntime) {
    for (rule, marks, p, outcome) in &OUTCOMES {
        let told = under_rule!(*rule, outcome_on_drawn(rt.alloc(), marks, *p));
        same(&rt, told, Some(*outcome));
    }
    let board = board_of(rt.alloc(), "7,6 6,7 8,7 7,8", CORNERS).expect(&rt, "a board");
    let fouls = Outcome::Fouls(Foul::DoubleThree);
    same(&rt, outcome_on::<Renju>(board, at(7, 7)), Some(fouls));
}

/// The sides to move before and after a move that goes on, and whether its stone stands then and the position has changed.
fn played(
    position: &mut Position<Renju>,
    before: &Position<Renju>,
    p: Point,
) -> Option<(Side, Side, bool, bool)> {
    let side = position.side();
    match position.outcome(p) {
        Outcome::GoesOn => {
            position.play(p);
            let stands = position.board().holds(Side::Black, p);
            Some((side, position.side(), stands, position.same(before)))
        }
        _ => None,
    }
}

/// The side of a move that goes on, which is played and taken back.
fn taken_back(position: &mut Position<Renju>, p: Point) -> Option<Side> {
    match position.outcome(p) {
        Outcome::GoesOn => {
            let side = position.side();
            position.play(p);
            position.undo(p);
            Some(side)
        }
        _ => None,
    }
}

/// The position of the board of 5 with a stone of each side.
fn two_stones(alloc: Global) -> Option<Position<Renju>> {
    lawful(drawn_board(alloc, "xo")?)
}

#[test]
fn a_move_is_played(rt: HostRuntime) {
    let before = two_stones(rt.alloc()).expect(&rt, "a position");
    let mut position = before.copy().expect(&rt, "a copy");
    let told = played(&mut position, &before, at(2, 2));
    same(&rt, told, Some((Side::Black, Side::White, true, false)));
}

#[test]
fn a_move_is_taken_back(rt: HostRuntime) {
    let before = two_stones(rt.alloc()).expect(&rt, "a position");
    let mut position = before.copy().expect(&rt, "a copy");
    same(&rt, taken_back(&mut position, at(2, 2)), Some(Side::Black));
    same(&rt, position.same(&before), true);
}

#[test]
fn a_position_gives_its_board_back(rt: HostRuntime) {
    let board = drawn_board(rt.alloc(), "xo").expect(&rt, "a board");
    let position = two_stones(rt.alloc()).expect(&rt, "a position");
    same(&rt, position.into_board().same(&board), true);
}

/// Whether each side has a five point, and those of Black in short.
fn five_points_in_short(position: &Position<Renju>) -> (bool, bool, FivePoints) {
    (
        position.has_five(Side::Black),
        position.has_five(Side::White),
        position.fives_in_short(Side::Black),
    )
}

#[test]
fn a_position_tells_its_five_points(rt: HostRuntime) {
    let position = position_of::<Renju>(rt.alloc(), "5,7 6,7 7,7 8,7", CORNERS);
    let position = position.expect(&rt, "a position");
    let told = five_points_in_short(&position);
    same(&rt, told, (true, false, FivePoints::Several));
}

/// The five points that a move makes, where the side to move has none.
fn made_by(position: &Position<Renju>, p: Point) -> Option<FivePoints> {
    if position.has_five(position.side()) || !position.board().is_empty(p) {
        return None;
    }
    Some(position.fives_made(p))
}

#[test]
fn a_move_makes_its_five_point(rt: HostRuntime) {
    let position = position_of::<Renju>(rt.alloc(), "5,7 6,7 7,7", "0,0 14,0 0,14");
    let told = made_by(&position.expect(&rt, "a position"), at(9, 7));
    same(&rt, told, Some(FivePoints::One(at(8, 7))));
}

/// Each reason that a board gives no position, and its words.
const WORDS: [(PositionError, &str); 3] = [
    (
        PositionError::Uneven { black: 3, white: 1 },
        "3 black stones and 1 white ones leave no side to move",
    ),
    (
        PositionError::AlreadyWon {
            at: Point { x: 4, y: 2 },
        },
        "a side has won already, by a run through Point { x: 4, y: 2 }",
    ),
    (PositionError::BoardFull, "no point is empty"),
];

/// Whether the reason is told by these words.
fn is_told(alloc: Global, error: PositionError, words: &str) -> Option<bool> {
    let text = format!(in alloc; "{error}").ok()?;
    Some(text.as_str() == words)
}

#[test]
fn a_refused_board_has_its_words(rt: HostRuntime) {
    for (error, words) in &WORDS {
        same(&rt, is_told(rt.alloc(), *error, words), Some(true));
    }
}
