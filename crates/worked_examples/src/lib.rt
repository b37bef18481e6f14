//! Worked examples as theorems: sessions of a brain that follows what it holds, or a win that it found itself, and a win that is
//! accepted by a zone.
#![tactic(auto)]

mod held_sessions;
mod zones;

pub use held_sessions::{
    a_block_that_fouls_loses, a_held_start_is_followed_after_an_own_win, a_reply_elsewhere_loses,
    a_start_is_followed_after_moves_are_taken_back,
};
pub use zones::a_win_is_accepted_by_a_zone;
