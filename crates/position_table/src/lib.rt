//! Positions remembered: the key of a board, a table of bounded size from a key and a tag to a value, and one that is made late.
//!
//! A key holds the whole board, so what is found under a key was kept for that very board, and no proof rests on a hash.
#![tactic(auto)]

mod late_table;
mod packed_position;
mod whole_table;

pub use late_table::LateTable;
pub use packed_position::{PACKED_BYTES, PackedPosition, keys_tell_boards};
pub use whole_table::WholeTable;
