//! Shapes told by the line alone.
//!
//! What a stone makes on an axis is decided by a few neighbours: four each way where every run of five or more wins, five
//! each way where only a run of five does. So the shapes of all lines stand in one table, which the code of a line looks
//! up, and no line is walked.
#![tactic(auto)]

ghost use Rattle.std.specs.Prelude.{◌≡◌, ◌≤◌, ◌<◌, ◌*◌, ◌^◌, ℕ, IfOk};
ghost use Rattle.row_shapes.specs.LineShapes.{shape_of};

use crate::ShapeTable;
use std::alloc::{AllocError, Global};

/// What a stone of one side makes on one axis.
#[derive(Clone, Copy, Debug, PartialEq, Eq)]
pub struct Shape {
    /// Whether its run wins.
    pub five: bool,
    /// Whether its run is of six or more, as far as the neighbours show.
    pub over: bool,
    /// How many fours it is in.
    pub fours: u8,
    /// Whether it is in a straight four.
    pub straight: bool,
    /// Its three points, as far as this line decides: bit 5 + k for the point k steps along.
    pub three: u16,
}

/// The shapes of all codes of lines of some reach.
pub trait Shapes: Drop {
    ghost REACH: { ℕ };

    /// How many neighbours on each side a shape is decided by: 4 where every run of five or more wins, and 5 where only a
    /// run of five does.
    const REACH: usize;

    /// Works out the shapes of all codes. `Err` says that memory ran out.
    fn build(alloc: Global) -> Result<Self, AllocError>;

    /// The shape of a code. No memory is taken.
    fn shape(&self, code: u32) -> Shape
        requires code { code < 3 ^ (2 * REACH) }
        ensures shape { result ≡ shape_of REACH code };
}

impl Shapes for ShapeTable<4> {
    ghost REACH = { 4 };

    const REACH: usize = 4;

    fn build(alloc: Global) -> Result<Self, AllocError> {
        ShapeTable::<4>::of_all_codes(alloc)
    }

    #[inline(always)]
    fn shape(&self, code: u32) -> Shape {
        self.at(code)
    }
}

impl Shapes for ShapeTable<5> {
    ghost REACH = { 5 };

    const REACH: usize = 5;

    fn build(alloc: Global) -> Result<Self, AllocError> {
        ShapeTable::<5>::of_all_codes(alloc)
    }

    #[inline(always)]
    fn shape(&self, code: u32) -> Shape {
        self.at(code)
    }
}
