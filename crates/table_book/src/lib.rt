//! Books: many tables in one text, with shared nodes.
//!
//! A book is one table and a list of entries. Each entry is a position and a root, where the table is entered, so that two
//! entries may share nodes. `specs/Books.antt` gives the text of a book, which is its one spelling, and says which books are
//! well formed. A book that is read is well formed; each entry of one can be checked, or held with its table. An entry that
//! is refused is told by its number, counted from 1.
#![tactic(auto)]

mod binder;
mod entries;
mod entry_lines;
mod error;
mod holding;
mod laws;
mod reading;
mod writing;

pub use binder::{BindError, Binder};
pub use entries::Entries;
pub use error::{BookError, HoldError};
use game_rules::RuleKind;
pub use holding::{check_book, hold_book};
pub use laws::books_read_back;
pub use reading::{is_book, read_book};
use stone_board::Board;
use strategy_checker::MAX_ROOTS;
use strategy_graph::{Root, Table};
pub use writing::write_book;

/// The most entries of a book, 1,000: as many as there are roots that can be held with one table.
pub const MAX_ENTRIES: u32 = MAX_ROOTS;

/// The most work that `check_book` is given, so that the sum over all entries is a number of 64 bits.
pub const MAX_BOOK_WORK: u64 = 1_000_000_000_000;

/// An entry of a book: the rule, the board at which the table is entered, the root, and the number of moves that is said of
/// it, which is the depth of the root in a book that is well formed.
#[derive(Drop)]
pub struct Entry {
    pub kind: RuleKind,
    pub board: Board,
    pub root: Root,
    pub moves: u32,
}

/// A table with at most `MAX_NODES` nodes, and the entries whose roots name nodes of it.
#[derive(Drop)]
pub struct Book {
    pub table: Table,
    pub entries: Entries,
}
