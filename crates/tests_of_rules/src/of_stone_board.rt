//! What boards answer on small examples.

use crate::compared::same;
use std::process::Abort;
use stone_board::{Axis, Board, Cell, Look, Point, Points, Side, Way, line_of, place_on};
use test_boards::{AXES, at, empty_board, points_of, put, sized_board};

/// The stones of Black and of White, and the empty points.
fn counts(board: &Board) -> [u32; 3] {
    [
        board.count(Side::Black),
        board.count(Side::White),
        board.empties(),
    ]
}

/// What stands on an empty point once Black has a stone there.
fn put_black(board: &mut Board, p: Point) -> Option<Cell> {
    if !board.is_empty(p) {
        return None;
    }
    board.put(p, Side::Black);
    if board.on(p) {
        Some(board.cell(p))
    } else {
        None
    }
}

/// Whether the point is empty once Black's stone there is lifted.
fn lift_black(board: &mut Board, p: Point) -> bool {
    if !board.holds(Side::Black, p) {
        return false;
    }
    board.lift(p);
    board.is_empty(p)
}

fn come_and_go(rt: &impl Abort, board: &mut Board) {
    same(rt, put_black(board, at(5, 4)), Some(Cell::Black));
    same(rt, put(board, Side::White, "0,0 3,2"), Some(()));
    same(rt, counts(board), [1, 2, 27]);
    same(rt, lift_black(board, at(5, 4)), true);
    same(rt, counts(board), [0, 2, 28]);
}

#[test]
fn stones_come_and_go(rt: HostRuntime) {
    let mut board = empty_board(rt.alloc(), 6, 5).expect(&rt, "a board");
    come_and_go(&rt, &mut board);
}

/// The width, the height and the empty points of a board, and whether it has these points.
fn extent(board: &Board, p: Point, q: Point) -> (u8, u8, u32, bool, bool) {
    (
        board.width(),
        board.height(),
        board.empties(),
        board.on(p),
        board.on(q),
    )
}

#[test]
fn a_board_has_the_points_of_its_size(rt: HostRuntime) {
    let board = empty_board(rt.alloc(), 6, 5).expect(&rt, "a board");
    let told = extent(&board, at(6, 0), at(0, 5));
    same(&rt, told, (6, 5, 30, false, false));
}

/// Whether no line through the point has a stone of Black.
fn is_clear_of_black(board: &Board, p: Point) -> bool {
    if !board.on(p) {
        return false;
    }
    AXES.iter()
        .all(|axis| board.line_through(Side::Black, *axis, p) == 0)
}

/// The bits of White in the row 3, if the board has it, and the empty points.
fn fourth_row(board: &Board) -> Option<(u32, u32)> {
    let (first, past) = board.lines(Axis::Row);
    if first <= 3 && 3 < past {
        Some((board.line(Side::White, Axis::Row, 3), board.empties()))
    } else {
        None
    }
}

fn take_all_off(rt: &impl Abort, board: &mut Board, empty: &Board) {
    same(rt, board.same(empty), false);
    board.clear();
    same(rt, board.same(empty), true);
    same(rt, counts(board), [0, 0, 30]);
    same(rt, is_clear_of_black(board, at(2, 2)), true);
    same(rt, put(board, Side::White, "1,3"), Some(()));
    same(rt, fourth_row(board), Some((0b10, 29)));
}

#[test]
fn all_stones_are_taken_off(rt: HostRuntime) {
    let empty = empty_board(rt.alloc(), 6, 5).expect(&rt, "a board");
    let mut board = sized_board(rt.alloc(), 6, 5, "1,3 2,2 5,4", "0,0").expect(&rt, "a board");
    take_all_off(&rt, &mut board, &empty);
}

#[test]
fn points_stand_to_each_other(rt: HostRuntime) {
    let (p, beside, below) = (at(2, 3), at(3, 3), at(0, 4));
    same(&rt, (p.is(p), p.is(beside)), (true, false));
    same(&rt, p.precedes(beside) && beside.precedes(below), true);
    same(&rt, below.precedes(p), false);
    same(&rt, p.is_aligned(beside) && p.is_aligned(at(5, 0)), true);
    same(&rt, p.is_aligned(below), false);
    same(&rt, Way::Ahead.opposite(), Way::Behind);
}

/// Points along lines through a point, if it is on the board.
fn points_along(board: &Board, p: Point) -> Option<[Option<Point>; 4]> {
    if !board.on(p) {
        return None;
    }
    Some([
        board.step(p, Axis::Up, 2),
        board.step(p, Axis::Up, 3),
        board.along(p, Axis::Column, 0, 2),
        board.step_towards(Way::Behind, Axis::Down, p, 2),
    ])
}

/// What stands along lines through a point, if it is on the board.
fn looks_along(board: &Board, p: Point) -> Option<[Look; 3]> {
    if !board.on(p) {
        return None;
    }
    Some([
        board.at(p, Axis::Up, 2),
        board.at(p, Axis::Row, -1),
        board.at(p, Axis::Row, 4),
    ])
}

/// Runs through a stone, and stones ahead of it and behind it, if there is one.
fn counts_along(board: &Board, p: Point) -> Option<[u32; 5]> {
    if !board.holds(Side::Black, p) {
        return None;
    }
    Some([
        board.run(p, Axis::Up),
        board.run(p, Axis::Down),
        board.stones_ahead(Side::Black, Axis::Up, p),
        board.stones_behind(Side::White, Axis::Up, p),
        board.stones_towards(Way::Ahead.opposite(), Side::Black, Axis::Up, p),
    ])
}

#[test]
fn looks_along_a_line(rt: HostRuntime) {
    let board = sized_board(rt.alloc(), 6, 5, "1,3 2,2 3,1", "4,0").expect(&rt, "a board");
    let points = [Some(at(4, 0)), None, Some(at(2, 0)), Some(at(0, 0))];
    same(&rt, points_along(&board, at(2, 2)), Some(points));
    let looks = [
        Look::Holds(Cell::White),
        Look::Holds(Cell::Empty),
        Look::Off,
    ];
    same(&rt, looks_along(&board, at(2, 2)), Some(looks));
    same(&rt, counts_along(&board, at(2, 2)), Some([3, 1, 1, 0, 1]));
}

/// The bits of lines through a point, and of two rows, if it is on the board.
fn bits_along(board: &Board, p: Point) -> Option<[u32; 5]> {
    if !board.on(p) {
        return None;
    }
    Some([
        board.line_through(Side::Black, Axis::Up, p),
        board.line_through(Side::White, Axis::Up, p),
        board.line_through(Side::Black, Axis::Column, p),
        board.line(Side::Black, Axis::Row, 4),
        board.line(Side::Black, Axis::Row, 2),
    ])
}

/// Whether the axis has a line through a point of the board, on which the point is empty of Black.
fn is_off_its_line(board: &Board, axis: Axis, p: Point) -> bool {
    if !board.on(p) {
        return false;
    }
    let (first, past) = board.lines(axis);
    let n = line_of(axis, p);
    first <= n
        && n < past
        && board.line_through(Side::Black, axis, p) & (1 << place_on(axis, p)) == 0
}

/// Whether Black's stone on the point is gone from each line once it is lifted.
fn leaves_its_lines(board: &mut Board, p: Point) -> bool {
    lift_black(board, p) && AXES.iter().all(|axis| is_off_its_line(board, *axis, p))
}

/// The bits on a copy of the board.
fn bits_of_copy(board: &Board, p: Point) -> Option<[u32; 5]> {
    let copy = board.copy().ok()?;
    bits_along(&copy, p)
}

#[test]
fn lines_are_told_as_bits(rt: HostRuntime) {
    let mut board = sized_board(rt.alloc(), 32, 5, "1,3 2,2 4,0 31,4", "3,1").expect(
        &rt, "a board",
    );
    let bits = Some([0b1_0110, 0b1000, 0b100, 1 << 31, 0b100]);
    same(&rt, bits_along(&board, at(2, 2)), bits);
    same(&rt, bits_of_copy(&board, at(2, 2)), bits);
    same(&rt, leaves_its_lines(&mut board, at(2, 2)), true);
}

/// How many points a board has that is six wide, if they come in reading order.
fn points_in_order(board: &Board) -> Option<u32> {
    let mut count: u32 = 0;
    for p in board.points() {
        if u32::from(p.x) != count % 6 || u32::from(p.y) != count / 6 {
            return None;
        }
        count = count.saturating_add(1);
    }
    Some(count)
}

/// The first empty point from this one on, if it is on the board.
fn empty_from(board: &Board, p: Point) -> Option<Point> {
    if board.on(p) {
        board.first_empty_from(p)
    } else {
        None
    }
}

#[test]
fn goes_through_the_points_in_reading_order(rt: HostRuntime) {
    let board = sized_board(rt.alloc(), 6, 5, "", "0,0 4,4 5,4").expect(&rt, "a board");
    same(&rt, points_in_order(&board), Some(30));
    same(&rt, empty_from(&board, at(4, 4)), Some(at(1, 0)));
}

fn compare_with_copy(rt: &impl Abort, board: &Board, copy: &mut Board) {
    same(rt, copy.same(board) && board.same(copy), true);
    same(rt, put(copy, Side::White, "2,2"), Some(()));
    same(rt, copy.same(board), false);
}

#[test]
fn compares_boards_by_their_cells(rt: HostRuntime) {
    let board = sized_board(rt.alloc(), 6, 5, "", "3,2").expect(&rt, "a board");
    let mut copy = board.copy().expect(&rt, "a copy");
    compare_with_copy(&rt, &board, &mut copy);
}

#[test]
fn compares_boards_by_their_size(rt: HostRuntime) {
    let wide = empty_board(rt.alloc(), 6, 5).expect(&rt, "a board");
    let high = empty_board(rt.alloc(), 5, 6).expect(&rt, "a board");
    same(&rt, wide.same(&high), false);
}

/// The number of the points, and the second.
fn second(points: &Points) -> Option<(usize, Point)> {
    if points.len() < 2 {
        return None;
    }
    Some((points.len(), *points.at(1)))
}

#[test]
fn lists_points(rt: HostRuntime) {
    let points = points_of(rt.alloc(), "3,1 0,2").expect(&rt, "points");
    same(&rt, second(&points), Some((2, at(0, 2))));
    same(&rt, points.as_slice(), [at(3, 1), at(0, 2)].as_slice());
}
