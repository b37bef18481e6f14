//! The checker by zones: whether a root is accepted at a position by a zone.
//!
//! It walks through a table as `strategy_checker` does, but of the replies to an attack it plays only those that are listed and those
//! that harm the zone of the rest, which it finds first, as after a pass. Of each node at each board it makes the zone that has the
//! fewest points and bears the most, a mark for each point of the board, so that it accepts exactly where some zone does. The laws of
//! `relevance_zone` prove that what is accepted by a zone is accepted, and wins.
#![tactic(auto)]

mod checks;
mod laws;
mod marks;
mod walk;

pub use checks::{MAX_ZONE_MOVES, ZoneVerdict, check_by_zones};
pub use laws::root_has_one_number_of_pairs;
