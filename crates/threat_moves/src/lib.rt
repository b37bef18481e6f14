//! Threats of a side, found on the board: five points, moves that make fours and threes, what becomes of a four, double
//! points, and all threats with one gain.
//!
//! A four move goes on and leaves its side a five point, which the other side has to block at once. Its fate is settled
//! by the block alone (Allis, van den Herik and Huntjens, "Go-Moku and Threat-Space Search"). Each call plays on the view
//! or board that it was lent and takes everything back, so that it is as before, also where memory ran out.
#![tactic(auto)]

mod block;
mod costs;
mod doubles;
mod free_points;
mod gains;
mod laws;
mod moves;
mod threat_list;

pub use block::{BlockAnswer, by_block, forced};
pub use doubles::{is_double_point, is_new_double_point, is_three_move, three_moves};
pub use free_points::stays_free;
pub use gains::{is_gain, is_threat, threats_at};
pub use laws::{block_decides, others_leave_five};
pub use moves::{fives, four_moves, is_four_move};
pub use row_shapes::FivePoints;
pub use threat_list::{Threat, ThreatKind, Threats};
