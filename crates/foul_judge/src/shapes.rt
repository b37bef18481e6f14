//! The shapes that a stone of Black makes on the four lines through a point, and what they tell together.
//!
//! They are told by the bits of the lines before the stone is put, where Black has fouls.
#![tactic(auto)]

ghost use Rattle.std.specs.Prelude.{◌≡◌, ◌<◌, true, not, ◌==◌, IsTrue};
ghost use Rattle.std.specs.List.{list_any, count_by, sum_by};
ghost use Rattle.game_rules.specs.Grid.{IsBoard, is_empty, put};
ghost use Rattle.row_shapes.specs.LineShapes.{stone_shape};
ghost use Rattle.row_shapes.specs.Reach.{stones_in_reach};
ghost use Rattle.foul_judge.specs.ShortCut.{reaches_of};
ghost use Rattle.foul_judge.specs.Threes.{stone_shapes};

use row_shapes::{Rule, Shape, shape_at};
use stone_board::{Axis, Board, Point, Side};

/// The shapes that a stone of Black makes on an empty point with these reaches, in the order of the axes.
#[inline(never)]
pub(crate) fn black_shapes<R: Rule>(board: &Board, p: Point, reaches: &[u32; 4]) -> [Shape; 4]
    requires empty { IsTrue (is_empty board.now p) }
    requires fouls { R.BLACK_FOULS ≡ true }
    requires reaches { reaches.now ≡ reaches_of board.now p }
    ensures shapes { result ≡ stone_shapes R.KIND (put board.now Side.Black p) p }
{
    [
        black_shape::<R>(board, Axis::Row, p, reaches[0]),
        black_shape::<R>(board, Axis::Column, p, reaches[1]),
        black_shape::<R>(board, Axis::Down, p, reaches[2]),
        black_shape::<R>(board, Axis::Up, p, reaches[3]),
    ]
}

/// The shape on one axis. With fewer than two stones within reach it has nothing of a shape, and the line is not looked at.
#[inline(always)]
fn black_shape<R: Rule>(board: &Board, axis: Axis, p: Point, reach: u32) -> Shape
    requires empty { IsTrue (is_empty board.now p) }
    requires fouls { R.BLACK_FOULS ≡ true }
    requires reach { reach ≡ stones_in_reach board.now Side.Black axis p }
    ensures shape { result ≡ stone_shape R.KIND (put board.now Side.Black p) Side.Black axis p }
{
    // This tells that the board is one.
    let _ = board.width();
    if reach < 2 {
        Shape {
            five: false,
            over: false,
            fours: 0,
            straight: false,
            three: 0,
        }
    } else {
        shape_at::<R>(board, p, axis, Side::Black)
    }
}

/// Whether one of the shapes has a run that wins.
#[inline(always)]
pub(crate) fn has_five(shapes: &[Shape; 4]) -> bool
    ensures five { result ≡ list_any (λ shape. shape.five) shapes.now }
{
    shapes.iter().any(|shape| shape.five)
}

/// Whether one of the shapes has a run of six or more.
#[inline(always)]
pub(crate) fn has_overline(shapes: &[Shape; 4]) -> bool
    ensures over { result ≡ list_any (λ shape. shape.over) shapes.now }
{
    shapes.iter().any(|shape| shape.over)
}

/// The number of fours, added over the axes.
pub(crate) fn fours(shapes: &[Shape; 4]) -> u32
    ensures fours { result ≡ sum_by (λ shape. shape.fours) shapes.now }
{
    widened(shapes[0].fours)
        + widened(shapes[1].fours)
        + widened(shapes[2].fours)
        + widened(shapes[3].fours)
}

/// The same number.
#[inline(always)]
fn widened(n: u8) -> u32
    ensures same { result ≡ n }
    ensures bound { result < 256 }
{
    u32::from(n)
}

/// How many axes have a three point, as far as the axis decides.
pub(crate) fn line_threes(shapes: &[Shape; 4]) -> u32
    ensures threes { result ≡ count_by (λ shape. not (shape.three == 0)) shapes.now }
{
    u32::from(shapes[0].three != 0)
        + u32::from(shapes[1].three != 0)
        + u32::from(shapes[2].three != 0)
        + u32::from(shapes[3].three != 0)
}
