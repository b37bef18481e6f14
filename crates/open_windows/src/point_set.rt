//! A set of points of a board.
#![tactic(auto)]

ghost use Rattle.std.specs.Prelude.{◌≡◌, ◌<◌, ◌||◌, ℕ, true, false, slice_index, bit_and};
ghost use Rattle.game_rules.specs.Shapes.{is_same_point};
ghost use Rattle.game_rules.specs.declared.Point.{Point};
ghost use Rattle.open_windows.specs.PointSets.{has_point};

use std::marker::Model;
use stone_board::{MAX_SIDE, Point, bit_of_place};

/// How many rows the greatest board has.
pub(crate) const SIDE: usize = 32;

/// A set of points. Contracts see it as a number for each row, whose bit x tells of the point in column x.
#[derive(Clone, Copy)]
pub struct PointSet {
    pub(crate) rows: [u32; SIDE],
}

impl Model for PointSet {
    ghost use Rattle.std.specs.Prelude.{List, ℕ};

    ghost Value = { List ℕ };

    ghost view = { λ s. s.rows };

    ghost inverse = { λ rows. record { rows = rows } };
}

impl PointSet {
    /// The set without points.
    pub fn empty() -> PointSet
        ensures none { (p : Point) → has_point result p ≡ false }
    {
        PointSet { rows: [0; SIDE] }
    }

    /// The set of all points of the greatest board.
    pub fn all() -> PointSet
        ensures all { (p : Point) → p.x < MAX_SIDE → p.y < MAX_SIDE → has_point result p ≡ true }
    {
        PointSet {
            rows: [u32::MAX; SIDE],
        }
    }

    /// Adds a point of the greatest board.
    pub fn add(&mut self, p: Point)
        requires column { p.x < MAX_SIDE }
        requires row { p.y < MAX_SIDE }
        ensures more { (q : Point) → has_point self.new q ≡ (is_same_point q p || has_point self.old q) }
    {
        self.rows[p.y as usize] |= bit_of_place(p.x);
    }

    /// Whether the set has the point, if it is on a board.
    #[inline(always)]
    pub fn has(&self, p: Point) -> bool
        ensures has { p.x < MAX_SIDE → p.y < MAX_SIDE → result ≡ has_point self.now p }
    {
        // These are the point's own, where it is on a board, so that its place needs no test.
        let x = p.x & (MAX_SIDE - 1);
        let y = p.y & (MAX_SIDE - 1);
        (self.rows[y as usize] >> x) & 1 == 1
    }
}

/// The rows with the bits that both have.
pub(crate) fn shared(one: &[u32; SIDE], other: &[u32; SIDE]) -> [u32; SIDE]
    ensures shared { (y : ℕ) → y < SIDE → slice_index result y ≡ bit_and (slice_index one.now y) (slice_index other.now y) }
{
    let mut rows = [0; SIDE];
    for y in 0..SIDE {
        rows[y] = one[y] & other[y];
    }
    rows
}
