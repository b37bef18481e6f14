//! The foul judge as the definition reads, to compare with: each stone is put, each point of the board is asked whether it
//! is a three point, and no point and no axis is passed over.
use crate::compared::same;
use foul_judge::{Foul, foul_at};
use row_shapes::{Renju, Rule, five_at, fours_through, straight_through};
use std::process::Abort;
use stone_board::{Axis, Board, MAX_SIDE, Point, Side, Way};
use test_boards::{AXES, empty_board};

// Black's foul at an empty point, where at most so many stones are put one after another.
#[cycle(plain)]
fn plain_foul<R: Rule>(rt: &impl Abort, board: &mut Board, p: Point, stones: u32) -> Option<Foul> {
    if stones == 0 {
        return None;
    }
    assert!(rt; board.is_empty(p));
    board.put(p, Side::Black);
    let result = stone_foul::<R>(rt, board, p, stones - 1);
    assert!(rt; board.holds(Side::Black, p));
    board.lift(p);
    result
}

#[cycle(plain)]
fn stone_foul<R: Rule>(rt: &impl Abort, board: &mut Board, p: Point, stones: u32) -> Option<Foul> {
    if has_run(rt, board, p, 5, 5) {
        None
    } else if has_run(rt, board, p, 6, u32::from(MAX_SIDE)) {
        Some(Foul::Overline)
    } else if fours::<R>(rt, board, p) >= 2 {
        Some(Foul::DoubleFour)
    } else if threes::<R>(rt, board, p, stones) >= 2 {
        Some(Foul::DoubleThree)
    } else {
        None
    }
}

#[cycle(plain)]
fn threes<R: Rule>(rt: &impl Abort, board: &mut Board, p: Point, stones: u32) -> u32 {
    u32::from(is_three::<R>(rt, board, Axis::Row, p, stones))
        + u32::from(is_three::<R>(rt, board, Axis::Column, p, stones))
        + u32::from(is_three::<R>(rt, board, Axis::Down, p, stones))
        + u32::from(is_three::<R>(rt, board, Axis::Up, p, stones))
}

#[cycle(plain)]
fn is_three<R: Rule>(
    rt: &impl Abort,
    board: &mut Board,
    axis: Axis,
    p: Point,
    stones: u32,
) -> bool {
    for q in board.points() {
        if is_three_point::<R>(rt, board, axis, p, q)
            && plain_foul::<R>(rt, board, q, stones).is_none()
        {
            return true;
        }
    }
    false
}

fn is_three_point<R: Rule>(
    rt: &impl Abort,
    board: &mut Board,
    axis: Axis,
    p: Point,
    q: Point,
) -> bool {
    if !board.is_empty(q) || five_at::<R>(board, Side::Black, q) {
        return false;
    }
    board.put(q, Side::Black);
    assert!(rt; board.holds(Side::Black, p));
    let three = straight_through::<R>(board, p, axis) && is_in_run(rt, board, axis, p, q);
    assert!(rt; board.holds(Side::Black, q));
    board.lift(q);
    three
}

// Whether q is one of the four stones of the straight four through p.
fn is_in_run(rt: &impl Abort, board: &Board, axis: Axis, p: Point, q: Point) -> bool {
    assert!(rt; board.on(p));
    let ahead = board.stones_ahead(Side::Black, axis, p);
    let behind = board.stones_behind(Side::Black, axis, p);
    for k in 0..4 {
        if k <= ahead && board.step_towards(Way::Ahead, axis, p, k as u8) == Some(q)
            || k <= behind && board.step_towards(Way::Behind, axis, p, k as u8) == Some(q)
        {
            return true;
        }
    }
    false
}

fn has_run(rt: &impl Abort, board: &Board, p: Point, least: u32, most: u32) -> bool {
    assert!(rt; board.holds(Side::Black, p));
    for axis in AXES {
        let run = board.run(p, axis);
        if least <= run && run <= most {
            return true;
        }
    }
    false
}

fn fours<R: Rule>(rt: &impl Abort, board: &Board, p: Point) -> u32 {
    assert!(rt; board.holds(Side::Black, p));
    fours_through::<R>(board, p, Axis::Row)
        + fours_through::<R>(board, p, Axis::Column)
        + fours_through::<R>(board, p, Axis::Down)
        + fours_through::<R>(board, p, Axis::Up)
}

// How many overlines, double-fours and double-threes the board has, on which both judges agree at each empty point.
fn agreed_fouls(rt: &impl Abort, board: &mut Board) -> (u32, u32, u32) {
    let mut found = (0, 0, 0);
    for p in board.points() {
        if board.is_empty(p) {
            let foul = foul_at::<Renju>(board, p);
            let stones = board.empties();
            same(
                rt,
                (p, plain_foul::<Renju>(rt, board, p, stones)),
                (p, foul),
            );
            found = counted(found, foul);
        }
    }
    found
}

fn counted(found: (u32, u32, u32), foul: Option<Foul>) -> (u32, u32, u32) {
    let (overlines, double_fours, double_threes) = found;
    match foul {
        None => found,
        Some(Foul::Overline) => (overlines.saturating_add(1), double_fours, double_threes),
        Some(Foul::DoubleFour) => (overlines, double_fours.saturating_add(1), double_threes),
        Some(Foul::DoubleThree) => (overlines, double_fours, double_threes.saturating_add(1)),
    }
}

// Puts so many stones of the side on empty points, and answers the number from which to go on.
fn scatter(board: &mut Board, side: Side, stones: u32, seed: u32) -> u32 {
    let mut chance = seed;
    for _ in 0..stones {
        chance = chance.wrapping_mul(1_103_515_245).wrapping_add(12_345);
        let p = Point {
            x: (chance >> 16 & 15) as u8,
            y: (chance >> 20 & 15) as u8,
        };
        if board.is_empty(p) {
            board.put(p, side);
        }
    }
    chance
}

/// The fouls of a board of 12 by 11 on which stones are scattered, and the number from which to go on.
fn scattered_fouls(rt: &impl Abort, board: &mut Board, seed: u32) -> ((u32, u32, u32), u32) {
    let chance = scatter(board, Side::Black, 70, seed);
    let chance = scatter(board, Side::White, 30, chance);
    (agreed_fouls(rt, board), chance)
}

#[test]
fn agrees_with_the_plain_judge(rt: HostRuntime) {
    let mut seed = 2026;
    let mut found: (u32, u32, u32) = (0, 0, 0);
    for _ in 0..8 {
        let mut board = empty_board(rt.alloc(), 12, 11).expect(&rt, "a board");
        let (more, next) = scattered_fouls(&rt, &mut board, seed);
        seed = next;
        found = (
            found.0.saturating_add(more.0),
            found.1.saturating_add(more.1),
            found.2.saturating_add(more.2),
        );
    }
    same(&rt, found.0 > 0 && found.1 > 0 && found.2 > 0, true);
}
