//! Callers of crates that one may want alone, as `docs/CALLING.md` names them.
//!
//! They are no code of tests: the check of the crate proves them, and refuses wrong ones. Tests of another crate run each, so that a
//! caller is proved once.
#![tactic(auto)]

mod callers;

pub use callers::{
    TWO_ENTRIES, accepted_book, fewest_by_fours, has_sequence, image_that_wins, may_play,
    moves_by_threats, moves_that_hold, moves_to_win, number_again, won_at, written_again,
};
