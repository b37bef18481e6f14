//! A position whose lines tell by their bits what a stone would make on them.
//!
//! Nothing is kept of the lines, so a play costs what it costs on a plain position, and no table is made. The bits of a line are moved
//! to a point when its shape is asked for.
#![tactic(auto)]

mod tables;

pub use row_shapes::{Shape, line_code, reach_of};
pub use tables::LineTables;
