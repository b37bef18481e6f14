//! The points of a board one after another in reading order.
//!
//! Row after row from the top, each from the left. It is the order in which moves are tried and lists are written, so that
//! every answer is determined.
#![tactic(auto)]

ghost use Rattle.std.specs.Prelude.{◌≡◌, ◌<◌, ◌≤◌};
ghost use Rattle.std.specs.Iterator.{YieldsFirst, item_count};
ghost use Rattle.game_rules.specs.Grid.{points_within};
ghost use Rattle.stone_board.specs.Order.{following as following_lem, points_left};

use game_rules::Point;
use std::marker::Model;

/// An iterator over points in reading order, by y and then by x. Contracts see the list of the points left.
#[derive(Drop)]
pub struct ReadingOrder {
    width: u8,
    height: u8,
    next: Point,
}

impl Model for ReadingOrder {
    ghost use Rattle.std.specs.Prelude.{List, ◌<◌};
    ghost use Rattle.game_rules.specs.declared.Point.{Point};

    ghost Value = { List Point };

    ghost use Rattle.stone_board.specs.Order.{points_left};

    ghost view = { λ s. points_left s.width s.height s.next };

    ghost invariant = { λ s. s.next.x < s.width };
}

impl ReadingOrder {
    /// The points from `p`, which is in a row of a board of this width, on.
    pub fn from(width: u8, height: u8, p: Point) -> Self
        requires column { p.x < width }
        ensures left { result ≡ points_left width height p }
    {
        ReadingOrder {
            width,
            height,
            next: p,
        }
    }

    /// The points of a board of this width, which is above 0, and this height.
    pub fn new(width: u8, height: u8) -> Self
        requires wide { 0 < width }
        ensures all { result ≡ points_within width height }
    {
        ReadingOrder {
            width,
            height,
            next: Point { x: 0, y: 0 },
        }
    }
}

/// The point after `p` in reading order on a board of this width, which may be below the board.
fn following(width: u8, p: Point) -> Point
    requires column { p.x < width }
    requires row { p.y < 255 }
    ensures following { result ≡ following_lem width p }
{
    if p.x + 1 < width {
        Point { x: p.x + 1, y: p.y }
    } else {
        Point { x: 0, y: p.y + 1 }
    }
}

impl Iterator for ReadingOrder {
    type Item = Point;

    ghost next_gives = { YieldsFirst (λ s. s) };

    ghost remaining = { item_count (λ s. s) };

    fn next(&mut self) -> Option<Point> {
        if self.next.y >= self.height {
            return None;
        }
        let found = self.next;
        self.next = following(self.width, found);
        Some(found)
    }
}
