//! The tables of shapes of `row_shapes` on codes that are known, and on many others against walks over a board.

use crate::compared::same;
use row_shapes::{
    ExactFive, Freestyle, Rule, Shape, ShapeTable, Shapes, fours_through, line_code,
    straight_through, three_points,
};
use std::alloc::Global;
use stone_board::{Axis, Board, Point, Side};
use test_boards::{at, empty_board};

fn shape(fours: u8, straight: bool, three: u16) -> Shape {
    Shape {
        five: false,
        over: false,
        fours,
        straight,
        three,
    }
}

fn known_shapes(near: &ShapeTable<4>, far: &ShapeTable<5>) -> [Shape; 4] {
    [
        far.shape(0),
        far.shape(324),
        near.shape(108),
        far.shape(1053),
    ]
}

#[test]
fn shapes_of_codes_that_are_known(rt: HostRuntime) {
    let near = ShapeTable::<4>::build(rt.alloc()).expect(&rt, "a table");
    let far = ShapeTable::<5>::build(rt.alloc()).expect(&rt, "a table");
    let wanted = [
        shape(0, false, 0),
        shape(0, false, 136),
        shape(0, false, 136),
        shape(1, true, 0),
    ];
    same(&rt, known_shapes(&near, &far), wanted);
}

fn put_digit(board: &mut Board, p: Point, digit: u32) {
    if board.is_empty(p) {
        match digit {
            0 => {}
            1 => board.put(p, Side::Black),
            _ => board.put(p, Side::White),
        }
    }
}

/// Puts the digits of the code on the first row, but for its middle.
fn put_code(board: &mut Board, middle: u8, code: u32) {
    let mut rest = code;
    for x in 0..board.width() {
        if x != middle {
            put_digit(board, at(x, 0), rest % 3);
            rest /= 3;
        }
    }
}

/// The shape of a stone of Black in its row, told by the calls that walk a board.
fn walked_shape<R: Rule>(board: &Board, p: Point) -> Option<Shape> {
    if !board.holds(Side::Black, p) {
        return None;
    }
    let run = board.run(p, Axis::Row);
    Some(Shape {
        five: R::wins(Side::Black, run),
        over: run >= 6,
        fours: fours_through::<R>(board, p, Axis::Row) as u8,
        straight: straight_through::<R>(board, p, Axis::Row),
        three: three_points::<R>(board, p, Axis::Row),
    })
}

/// The code of an empty point in its row, and the shape of a stone of Black there.
fn code_and_shape<R: Rule>(board: &mut Board, p: Point, reach: usize) -> Option<(u32, Shape)> {
    if !board.on(p) || reach < 4 || 5 < reach {
        return None;
    }
    let code = line_code(board, p, Axis::Row, Side::Black, reach);
    if !board.is_empty(p) {
        return None;
    }
    board.put(p, Side::Black);
    Some((code, walked_shape::<R>(board, p)?))
}

/// The code and the shape in the middle of a row that has so many points, and the digits of this code around it.
fn walked<R: Rule>(alloc: Global, width: u8, code: u32) -> Option<(u32, Shape)> {
    let mut board = empty_board(alloc, width, 5)?;
    let middle = width / 2;
    put_code(&mut board, middle, code);
    code_and_shape::<R>(&mut board, at(middle, 0), middle as usize)
}

#[test]
fn near_codes_as_walked(rt: HostRuntime) {
    let table = ShapeTable::<4>::build(rt.alloc()).expect(&rt, "a table");
    for i in 0..385 {
        let code = 17 * i + 4;
        let walked = walked::<Freestyle>(rt.alloc(), 9, code);
        same(&rt, walked, Some((code, table.shape(code))));
    }
}

#[test]
fn far_codes_as_walked(rt: HostRuntime) {
    let table = ShapeTable::<5>::build(rt.alloc()).expect(&rt, "a table");
    for i in 0..3473 {
        let code = 17 * i + 5;
        let walked = walked::<ExactFive>(rt.alloc(), 11, code);
        same(&rt, walked, Some((code, table.shape(code))));
    }
}
