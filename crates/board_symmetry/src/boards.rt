//! Images of boards, point by point.
//!
//! The image is filled in reading order: each of its points gets the cell of the point that is taken there.
#![tactic(auto)]

ghost use Rattle.std.specs.Prelude.{◌≡◌, true, IsTrue, IfOk};
ghost use Rattle.game_rules.specs.Grid.{is_empty};
ghost use Rattle.board_symmetry.specs.Points.{fits, board_image, with_cell};

use crate::Symmetry;
use game_rules::{Cell, Point, Side};
use std::alloc::{AllocError, Global};
use stone_board::Board;

/// Puts the stone of the cell, if it holds one, on an empty point.
fn put_cell(board: &mut Board, cell: Cell, at: Point)
    requires empty { IsTrue (is_empty board.old at) }
    ensures put { board.new ≡ with_cell board.old at cell }
{
    match cell {
        Cell::Empty => {}
        Cell::Black => board.put(at, Side::Black),
        Cell::White => board.put(at, Side::White),
    }
}

/// The image of the board under a symmetry that fits it. `Err` says that memory ran out.
pub fn image_board(alloc: Global, s: Symmetry, board: &Board) -> Result<Board, AllocError>
    requires fits { fits s board.now.width board.now.height ≡ true }
    ensures image { IfOk result (λ image. image ≡ board_image s board.now) }
{
    let width = board.width();
    let height = board.height();
    let back = s.inverse();
    let mut image = Board::empty(alloc, width, height)?;
    for at in board.points() {
        let source = back.point(width, height, at);
        put_cell(&mut image, board.cell(source), at);
    }
    Ok(image)
}
