//! The rules as types, and the shapes of rows: five points, fours, straight fours and three points.
//!
//! Each rule of play is a type with no value that implements `Rule`; code that works under a rule is generic in it. The
//! shapes are those of the RIF Rules of Renju; each call here answers for one point, and for one axis where it takes one.
#![tactic(auto)]

mod codes;
mod fives;
mod fours;
mod halves;
mod laws;
mod line_shape;
mod new_fives;
mod places;
mod point_shapes;
mod reach;
mod row_at;
mod rows;
mod rule;
mod shape_table;
mod shapes;
mod threes;
mod windows;
mod wins;

pub use codes::line_code;
pub use fives::{FivePoints, five_points, fives_in_short, has_five, is_five_point, takes};
pub use fours::{fours_through, straight_through};
pub use game_rules::RuleKind;
pub use laws::shapes_have_reach;
pub use new_fives::{fives_made, with_axis};
pub use places::shape_of_places;
pub use point_shapes::{reach_of, shape_at};
pub use reach::stones_in_reach;
pub use rows::may_be_won;
pub use rule::{ExactFive, Freestyle, Renju, Rule};
pub use shape_table::ShapeTable;
pub use shapes::{Shape, Shapes};
pub use threes::three_points;
pub use wins::five_at;
