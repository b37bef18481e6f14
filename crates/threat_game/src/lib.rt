//! The game of threats: its attacks, its double points, and what the replies to them leave.
//!
//! Each attack wins or leaves the attacker a five point or a double point (Allis, van den Herik and Huntjens, "Go-Moku and
//! Threat-Space Search"), and the defender may reply anywhere. Wins that need no search are told and compiled: a five point, a
//! double point, a move to which each reply fouls. What is left are the attacks that have to be tried, and the replies that stay
//! open after them.
#![tactic(auto)]

mod attacks;
mod doubles;
mod escapes;
mod last_moves;
mod near_doubles;
mod near_stones;
mod quiet_points;
mod replies;
mod written;

pub use attacks::{Attacks, find_attacks};
pub use doubles::{DoublePoint, answers_of, compile_double};
pub use last_moves::last_move;
pub use replies::{Child, Children, judge_replies, settle_child};
pub use written::{compile_five, compile_last};
