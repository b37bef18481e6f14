//! The table of the shapes of all codes of one reach.
//!
//! A line is its two halves, and there are few halves: 81 of reach 4, and 243 of reach 5. What each of them says alone is told
//! once. Then the shapes of all pairs of halves are told, in the order of their codes.
#![tactic(auto)]

ghost use Rattle.std.specs.Prelude.{◌≡◌, ◌<◌, ◌≤◌, ◌*◌, ◌^◌, ℕ, IfOk, ◌⊎◌};
ghost use Rattle.row_shapes.specs.LineShapes.{TellsShapes};
ghost use Rattle.row_shapes.specs.HalfTables.{TellsHalves};

use crate::Shape;
use crate::halves::Half;
use crate::line_shape::shape_of_line;
use std::alloc::{AllocError, Global};
use stone_board::Way;

/// The shapes of all codes of lines of this reach, which is 4 or 5.
#[derive(Drop)]
pub struct ShapeTable<const REACH: usize> {
    shapes: Vec<Shape>,
    ghost told: { TellsShapes REACH shapes.items },
}

impl<const REACH: usize> ShapeTable<REACH> {
    ghost use Rattle.row_shapes.specs.LineShapes.{shape_of};

    /// The table, worked out code by code. `Err` says that memory ran out.
    pub(crate) fn of_all_codes(alloc: Global) -> Result<Self, AllocError>
        requires reach { (REACH ≡ 4) ⊎ (REACH ≡ 5) }
    {
        Ok(ShapeTable {
            shapes: shapes_of_all_codes(alloc, REACH)?,
        })
    }

    /// The shape of a code.
    #[inline(always)]
    pub(crate) fn at(&self, code: u32) -> Shape
        requires code { code < 3 ^ (2 * REACH) }
        ensures shape { result ≡ shape_of REACH code }
    {
        self.shapes[code as usize]
    }
}

/// The shapes of all codes of a reach, in the order of the codes. The first digits of a code are those of the half behind.
fn shapes_of_all_codes(alloc: Global, reach: usize) -> Result<Vec<Shape>, AllocError>
    requires reach { (reach ≡ 4) ⊎ (reach ≡ 5) }
    ensures told { IfOk result (λ shapes. TellsShapes reach shapes.items) }
{
    let halves = if reach == 4 { 81 } else { 243 };
    let ahead = halves_of(alloc, Way::Ahead, reach, halves)?;
    let behind = halves_of(alloc, Way::Behind, reach, halves)?;
    let mut shapes = Vec::with_capacity(alloc, halves * halves)?;
    for code in 0..halves * halves {
        shapes.push(shape_of_line(reach == 4, &ahead[code / halves], &behind[code % halves]))?;
    }
    Ok(shapes)
}

/// The first halves in that way of lines of a reach, in the order of their digits.
fn halves_of(alloc: Global, way: Way, reach: usize, count: usize) -> Result<Vec<Half>, AllocError>
    requires reach { (reach ≡ 4) ⊎ (reach ≡ 5) }
    requires count { count ≤ 243 }
    ensures halves { IfOk result (λ halves. TellsHalves way reach count halves.items) }
{
    let mut halves = Vec::with_capacity(alloc, count)?;
    for digits in 0..count {
        halves.push(Half::of_digits(way, reach, digits as u32))?;
    }
    Ok(halves)
}
