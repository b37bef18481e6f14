//! What line tables tell of the empty points of a board, compared with what is made from scratch, by walks over the board.

ghost use Rattle.std.specs.Prelude.{IsTrue, ◌<◌, ◌≤◌};
ghost use Rattle.game_rules.specs.Grid.{is_on};
ghost use Rattle.stone_board.specs.Steps.{holds_stone};

use crate::compared::same;
use foul_judge::{Position, Seen};
use line_tables::LineTables;
use row_shapes::{Rule, Shape, Shapes, fours_through, reach_of, straight_through, three_points};
use std::process::Abort;
use stone_board::{Axis, Board, Point, Side};
use test_boards::AXES;

/// The shape of a stone of the side, by walks over the board.
fn shape_of_stone<R: Rule>(board: &Board, p: Point, axis: Axis, side: Side) -> Shape
    requires stone { IsTrue (holds_stone board.now p) }
{
    let run = board.run(p, axis);
    Shape {
        five: R::wins(side, run),
        over: run >= 6,
        fours: fours_through::<R>(board, p, axis) as u8,
        straight: straight_through::<R>(board, p, axis),
        three: three_points::<R>(board, p, axis),
    }
}

/// The shape that a stone of the side makes on an empty point, by walks over the board.
fn walked_shape<R: Rule>(board: &mut Board, p: Point, axis: Axis, side: Side) -> Option<Shape> {
    if !board.is_empty(p) {
        return None;
    }
    board.put(p, side);
    if !board.holds(side, p) {
        return None;
    }
    let shape = shape_of_stone::<R>(board, p, axis, side);
    board.lift(p);
    Some(shape)
}

/// The digit of the point so many steps ahead of another and so many back again, by its cell.
fn digit(board: &Board, p: Point, axis: Axis, side: Side, ahead: u8, back: u8) -> u32
    requires on { IsTrue (is_on board.now p) }
    requires ahead { ahead < 128 }
    requires back { back < 128 }
{
    match board.along(p, axis, ahead, back) {
        Some(q) if board.is_empty(q) => 0,
        Some(q) if board.holds(side, q) => 1,
        _ => 2,
    }
}

/// The code of a point, by a walk over its line from the last neighbour to the first.
fn walked_code(board: &Board, p: Point, axis: Axis, side: Side, reach: u8) -> u32
    requires on { IsTrue (is_on board.now p) }
    requires near { reach ≤ 5 }
{
    let mut code: u32 = 0;
    for place in (0..2 * reach + 1).rev() {
        if place != reach {
            let digit = digit(board, p, axis, side, place, reach);
            code = code.wrapping_mul(3).wrapping_add(digit);
        }
    }
    code
}

/// The code of an empty point that the tables tell, and the one made from scratch.
fn codes<R: Rule>(
    tables: &LineTables<R>,
    board: &Board,
    p: Point,
    axis: Axis,
    side: Side,
) -> Option<(u32, u32)> {
    let reach = reach_of::<R>(side);
    if reach < 4 || 5 < reach || !board.on(p) || !tables.board().is_empty(p) {
        return None;
    }
    let made = walked_code(board, p, axis, side, reach as u8);
    Some((tables.code(p, axis, side), made))
}

/// The shape of an empty point that the tables tell.
fn told_shape<R: Rule>(tables: &LineTables<R>, p: Point, axis: Axis, side: Side) -> Option<Shape> {
    if !tables.board().is_empty(p) {
        return None;
    }
    Some(tables.shape(p, axis, side))
}

/// The shape as far as codes with so many neighbours each way tell it: with four a line does not tell each overline.
fn within_reach(shape: Shape, reach: usize) -> Shape {
    if reach == 5 {
        shape
    } else {
        Shape {
            over: false,
            ..shape
        }
    }
}

/// Compares the code and the shape of an empty point with those made from scratch.
fn compare_at<R: Rule>(
    rt: &impl Abort,
    tables: &LineTables<R>,
    board: &mut Board,
    p: Point,
    axis: Axis,
    side: Side,
) {
    let reach = reach_of::<R>(side);
    let (told, made) = codes::<R>(tables, board, p, axis, side).expect(rt, "codes");
    same(rt, told, made);
    let told = told_shape::<R>(tables, p, axis, side).expect(rt, "a shape");
    let made = walked_shape::<R>(board, p, axis, side).expect(rt, "a shape");
    same(rt, within_reach(told, reach), within_reach(made, reach));
}

/// Compares the codes and the shapes of an empty point with those made from scratch.
fn compare_point<R: Rule>(rt: &impl Abort, tables: &LineTables<R>, board: &mut Board, p: Point) {
    for axis in AXES {
        compare_at::<R>(rt, tables, board, p, axis, Side::Black);
        compare_at::<R>(rt, tables, board, p, axis, Side::White);
    }
}

/// Compares the codes and the shapes of all empty points with those made from scratch.
pub(crate) fn compare<R: Rule>(rt: &impl Abort, tables: &LineTables<R>) {
    let mut board = tables.board().copy().expect(rt, "a copy");
    for p in tables.board().points() {
        if tables.board().is_empty(p) {
            compare_point::<R>(rt, tables, &mut board, p);
        }
    }
}

/// Takes back a stone of the side that is not to move, and says whether there is one that can be taken back.
pub(crate) fn undo<R: Rule, V: Seen<R>>(view: &mut V, p: Point) -> Option<bool> {
    let side = view.side().other();
    let mut board = view.board().copy().ok()?;
    if board.holds(side, p) {
        board.lift(p);
        match Position::<R>::from_board(board) {
            Ok(_) => {
                view.undo(p);
                Some(true)
            }
            Err(_) => Some(false),
        }
    } else {
        Some(false)
    }
}
