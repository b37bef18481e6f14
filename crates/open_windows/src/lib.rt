//! Open windows: five points in a row on which the other side has no stone, and the points of a board that lie in one.
//!
//! A stone that wins fills a window in which four stones of its side stand, and one that makes a five point lies in a window with
//! three. So a search asks only the points of such windows. They are told for all points of a board at once: the rows of the board are
//! numbers, and the windows that begin in a row are told by a few steps with the numbers of five rows, or of one.
#![tactic(auto)]

mod added;
mod fives;
mod point_set;
mod rows;
mod set_points;
mod windows;

pub use fives::{five_points, fives_in_short, has_five};
pub use point_set::PointSet;
pub use set_points::SetPoints;
pub use windows::window_points;
