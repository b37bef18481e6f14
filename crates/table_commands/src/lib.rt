//! The commands that read tables and games: `check`, `book`, `image`, `bind` and `referee`.
//!
//! Each has a file here and one in `specs/`: its words, what it says of its input, and when it is sure to answer.
#![tactic(auto)]

mod bind;
mod book;
mod check;
mod image;
mod referee;

pub use bind::{are_names, bind_book};
pub use book::CheckBook;
pub use check::Check;
pub use image::{Image, symmetry_of_word};
pub use referee::{Referee, referee_with};

/// The most files that `bind` binds into one book.
pub const MAX_FILES: usize = 64;
