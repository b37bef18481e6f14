//! What tests begin with: boards, positions and points from texts.
//!
//! The texts are those of a position's stones, as in `5,7 6,7 7,7`. A text that spells no points, a point that is off the board or
//! taken, and a position that is not lawful are refused: there is `None`, as where memory runs out. Nothing is promised of what is
//! made: a test compares what it was given as it runs, and its proof stays short.
#![tactic(auto)]

use foul_judge::Position;
use game_rules::{MAX_SIDE, MIN_SIDE};
use row_shapes::Rule;
use std::alloc::Global;
use stone_board::{Axis, Board, Point, Points, Side};
use text_lines::point;

pub const AXES: [Axis; 4] = [Axis::Row, Axis::Column, Axis::Down, Axis::Up];

/// The point in this column and this row.
pub fn at(x: u8, y: u8) -> Point {
    Point { x, y }
}

/// The points of the text, in its order.
pub fn points_of(alloc: Global, text: &str) -> Option<Points> {
    let mut points = Points::new(alloc);
    for word in text.split_whitespace() {
        let p = point(word.as_bytes(), MAX_SIDE, MAX_SIDE)?;
        points.push(p).ok()?;
    }
    Some(points)
}

/// Puts a stone of the side on each of the points of the text, which have to be empty.
pub fn put(board: &mut Board, side: Side, text: &str) -> Option<()> {
    for word in text.split_whitespace() {
        let p = point(word.as_bytes(), MAX_SIDE, MAX_SIDE)?;
        if !board.is_empty(p) {
            return None;
        }
        board.put(p, side);
    }
    Some(())
}

/// A board of this width and height with no stone on it.
pub fn empty_board(alloc: Global, width: u8, height: u8) -> Option<Board> {
    if width < MIN_SIDE || MAX_SIDE < width || height < MIN_SIDE || MAX_SIDE < height {
        return None;
    }
    Board::empty(alloc, width, height).ok()
}

/// A board of this width and height with these stones.
pub fn sized_board(
    alloc: Global,
    width: u8,
    height: u8,
    black: &str,
    white: &str,
) -> Option<Board> {
    let mut board = empty_board(alloc, width, height)?;
    put(&mut board, Side::Black, black)?;
    put(&mut board, Side::White, white)?;
    Some(board)
}

/// A board of 15 by 15 with these stones.
pub fn board_of(alloc: Global, black: &str, white: &str) -> Option<Board> {
    sized_board(alloc, 15, 15, black, white)
}

/// A board of 5 by 5 from its points in reading order: `x` is Black, `o` is White, and anything else is empty.
pub fn drawn_board(alloc: Global, marks: &str) -> Option<Board> {
    let mut board = empty_board(alloc, 5, 5)?;
    for (p, mark) in board.points().zip(marks.as_bytes()) {
        draw(&mut board, p, *mark);
    }
    Some(board)
}

/// Puts the stone of the mark on an empty point.
fn draw(board: &mut Board, p: Point, mark: u8) {
    if board.is_empty(p) {
        match mark {
            b'x' => board.put(p, Side::Black),
            b'o' => board.put(p, Side::White),
            _ => {}
        }
    }
}

/// The position of the board, which has to be lawful.
pub fn lawful<R: Rule>(board: Board) -> Option<Position<R>> {
    Position::from_board(board).ok()
}

/// The position on a board of 15 by 15 with these stones, which has to be lawful.
pub fn position_of<R: Rule>(alloc: Global, black: &str, white: &str) -> Option<Position<R>> {
    lawful(board_of(alloc, black, white)?)
}
