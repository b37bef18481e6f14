//! The points of a set, one after another in reading order.
//!
//! A row without a point left is passed over at once, and the lowest bit of a row is its first point.
#![tactic(auto)]

ghost use Rattle.std.specs.Prelude.{◌≡◌, ◌≤◌, ◌^◌, ◌-◌, [], IfSome, IfNone};
ghost use Rattle.std.specs.List.{filter};
ghost use Rattle.std.specs.Iterator.{YieldsFirst, item_count};
ghost use Rattle.game_rules.specs.Grid.{IsBoard, points_of};
ghost use Rattle.open_windows.specs.PointSets.{has_point, set_points, IsFirstRow, IsRowLeft};

use crate::point_set::{PointSet, SIDE, shared};
use crate::rows::full_row;
use std::marker::Model;
use stone_board::{Board, Point, bit_of_place};

/// A row, and those of its points that are left as bits.
#[derive(Clone, Copy)]
struct Row {
    y: u8,
    bits: u32,
}

/// An iterator over the points of a set that are on a board, in reading order. Contracts see the list of the points left.
#[derive(Drop)]
pub struct SetPoints {
    rows: [u32; SIDE],
    width: u8,
    height: u8,
    row: Row,
}

impl Model for SetPoints {
    ghost use Rattle.std.specs.Prelude.{List};
    ghost use Rattle.game_rules.specs.declared.Point.{Point};

    ghost Value = { List Point };

    ghost use Rattle.open_windows.specs.PointSets.{set_points, IsRowLeft};

    ghost view = { λ s. set_points s.rows s.width s.height s.row.y s.row.bits };

    ghost invariant = { λ s. IsRowLeft s.width s.height s.row.y s.row.bits };
}

impl PointSet {
    /// The points of the set that are on the board, in reading order.
    pub fn points(&self, board: &Board) -> SetPoints
        ensures points { result ≡ filter (has_point self.now) (points_of board.now) }
        ensures board { IsBoard board.now }
    {
        let width = board.width();
        SetPoints {
            rows: self.rows,
            width,
            height: board.height(),
            row: Row {
                y: 0,
                bits: self.rows[0] & full_row(width),
            },
        }
    }
}

impl SetPoints {
    /// Leaves, of the points left, those that are points of this set too.
    pub fn keep(&mut self, set: &PointSet)
        ensures kept { self.new ≡ filter (has_point set.now) self.old }
    {
        self.rows = shared(&self.rows, &set.rows);
        self.row.bits &= set.rows[self.row.y as usize];
    }
}

/// The row, if it has a point left, or the first after it that has one.
#[inline(always)]
fn first_row(rows: &[u32; SIDE], width: u8, height: u8, row: Row) -> Option<Row>
    requires left { IsRowLeft width height row.y row.bits }
    ensures some { IfSome result (λ found. IsFirstRow rows.now width height row.y row.bits found.y found.bits) }
    ensures none { IfNone result (set_points rows.now width height row.y row.bits ≡ []) }
{
    if row.bits != 0 {
        return Some(row);
    }
    let full = full_row(width);
    for y in row.y + 1..height {
        let bits = rows[y as usize] & full;
        if bits != 0 {
            return Some(Row { y, bits });
        }
    }
    None
}

impl Iterator for SetPoints {
    type Item = Point;

    ghost next_gives = { YieldsFirst (λ s. s) };

    ghost remaining = { item_count (λ s. s) };

    #[inline(always)]
    fn next(&mut self) -> Option<Point> {
        match first_row(&self.rows, self.width, self.height, self.row) {
            None => None,
            Some(row) => {
                let x = row.bits.trailing_zeros() as u8;
                self.row = Row {
                    y: row.y,
                    bits: row.bits ^ bit_of_place(x),
                };
                Some(Point { x, y: row.y })
            }
        }
    }
}
