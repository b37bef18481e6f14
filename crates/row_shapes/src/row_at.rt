//! A row, named by a point that it goes through.
#![tactic(auto)]

use stone_board::{Axis, Point, Side};

/// The row of a side through a point, along an axis.
#[derive(Clone, Copy)]
pub(crate) struct RowAt {
    /// The side whose stones count.
    pub(crate) side: Side,
    /// The axis of the line.
    pub(crate) axis: Axis,
    /// The point.
    pub(crate) point: Point,
}
