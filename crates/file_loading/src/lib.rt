//! The FILE of a command: it is loaded and read, and its table is held or handed on once it is accepted, or it is told why not.
//!
//! `brain FILE` and `referee FILE` hold what a file gives (`loading`), and `bind`, `cover` and `join` keep the tables of many files, one
//! after another (`fitting`, `keeping`). What is told of a table or a book that is refused is what `check` and `book` tell of it
//! (`refusals`).
#![tactic(auto)]

mod fitting;
mod keeping;
mod loading;
mod refusals;

pub use fitting::are_file_names;
pub use keeping::{Keeps, load_files};
pub use loading::{Holdable, Loaded, load_file};
pub use refusals::{refused_book, refused_entry, refused_root};

/// The most arrivals that the table of a FILE may be allowed by a word.
pub const MAX_WORK: u64 = 1_000_000_000_000;
