//! The command `cover`: whether a position is won by many tables.
//!
//! `parts` keeps of the table of each file what a cover needs, `covering` says what they are to the position of the input, and `words`
//! tells the attack and the names among the words.
#![tactic(auto)]

mod covering;
mod parts;
mod words;

pub use covering::{Covering, cover_with};
pub use words::{are_part_names, attack_of_word};
