//! Lists of points.
//!
//! They grow by one point at a time, and tell by their type that memory may run out.
#![tactic(auto)]

ghost use Rattle.std.specs.Prelude.{◌≡◌, ◌<◌, [], ◌∷◌, ◌++◌, length, slice_get, Some, IfOk, OnOk, OnErr};
ghost use Rattle.game_rules.specs.Grid.{IsBoard, points_of};

use crate::Board;
use game_rules::Point;
use std::alloc::{AllocError, Global};
use std::marker::Model;

/// A list of points, seen by contracts as a list.
#[derive(Debug, Drop)]
pub struct Points {
    items: Vec<Point>,
}

impl Model for Points {
    ghost use Rattle.std.specs.Prelude.{List};
    ghost use Rattle.game_rules.specs.declared.Point.{Point};

    ghost Value = { List Point };

    ghost view = { λ p. p.items.items };
}

impl Points {
    /// The empty list. It takes no memory.
    pub fn new(alloc: Global) -> Self
        ensures empty { result ≡ [] }
    {
        Points {
            items: Vec::new(alloc),
        }
    }

    /// All points of a board, in reading order. `Err` says that memory ran out.
    pub fn all_of(alloc: Global, board: &Board) -> Result<Self, AllocError>
        ensures all { IfOk result (λ points. points ≡ points_of board.now) }
        ensures board { IsBoard board.now }
    {
        let mut points = Points::new(alloc);
        for p in board.points() {
            points.push(p)?;
        }
        Ok(points)
    }

    /// How many points are in the list.
    pub fn len(&self) -> usize
        ensures length { result ≡ length self.now }
    {
        self.items.len()
    }

    /// Point `i` of the list, counted from 0.
    pub fn at(&self, i: usize) -> &Point
        requires within { i < length self.now }
        ensures item { slice_get self.now i ≡ Some result.now }
    {
        &self.items[i]
    }

    /// The points in their order.
    pub fn as_slice(&self) -> &[Point]
        ensures items { result.now ≡ self.now }
    {
        self.items.as_slice()
    }

    /// Adds a point at the end. Without memory the list stays as it was.
    pub fn push(&mut self, item: Point) -> Result<(), AllocError>
        ensures ok { OnOk result (self.new ≡ self.old ++ item ∷ []) }
        ensures err { OnErr result (self.new ≡ self.old) }
    {
        self.items.push(item)?;
        Ok(())
    }
}
