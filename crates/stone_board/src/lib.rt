//! Boards of five in a row, `MIN_SIDE` to `MAX_SIDE` points wide and high.
//!
//! A board is seen by contracts as its width, its height and the list of its cells in reading order. It keeps its cells
//! in one vector and counts its stones as they come and go, so that who moves is known at once. Beside them it keeps each line
//! as bits, so that a search passes over lines that hold nothing of interest.
#![tactic(auto)]

mod board;
mod lines;
mod order;
mod points;
mod walks;

pub use board::Board;
pub use game_rules::{Axis, Cell, Look, MAX_SIDE, MIN_SIDE, Point, Side, Way};
pub use lines::{LINES, bit_of_place, line_of, place_on};
pub use order::ReadingOrder;
pub use points::Points;
pub use walks::steps_left;
