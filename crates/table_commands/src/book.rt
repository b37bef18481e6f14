//! The command `book`: whether each entry of a book wins as it claims.
//!
//! The text is read, and the root of each entry is checked at its position. What is said of an entry is what would be said of a
//! table with its root, after the number of the entry.
#![tactic(auto)]

ghost use Rattle.std.specs.Prelude.{◌≡◌, ◌≤◌, IfOk, string_bytes};
ghost use Rattle.table_book.specs.Books.{IsWellFormed};
ghost use Rattle.table_commands.specs.Books.{EntriesSay, accepted_book_line};

use command_base::{Answer, Status, Told};
use file_loading::{MAX_WORK, refused_book, refused_entry};
use std::alloc::{AllocError, Global};
use table_book::{Book, MAX_BOOK_WORK, check_book, read_book};

/// `book WORK`.
#[derive(Clone, Copy)]
pub struct CheckBook {
    /// The most arrivals for each entry, from 1 to `MAX_WORK`.
    pub work: u64,
}

impl Told for CheckBook {
    ghost use Rattle.std.specs.Prelude.{◌≤◌};
    ghost use Rattle.file_loading.specs.declared.TheConstants.{MAX_WORK};
    ghost use Rattle.table_commands.specs.Books.{BookSays};

    ghost in_range = { λ c. (1 ≤ c.work) × (c.work ≤ MAX_WORK) };

    ghost says = { λ c. BookSays c.work };

    fn say(&self, alloc: Global, bytes: &[u8]) -> Result<Answer, AllocError> {
        match read_book(alloc, bytes) {
            Ok(book) => checked(alloc, &book, self.work),
            Err(error) => refused_book(alloc, error),
        }
    }
}

/// What is said of a book that was read.
fn checked(alloc: Global, book: &Book, work: u64) -> Result<Answer, AllocError>
    requires well_formed { IsWellFormed book.now }
    requires few { work ≤ MAX_BOOK_WORK }
    ensures says { IfOk result (λ answer. EntriesSay work book.now answer.status answer.text) }
{
    match check_book(alloc, book, work) {
        Ok(arrivals) => {
            let text = accepted(alloc, book.entries.len(), arrivals)?;
            Ok(Answer::told(Status::Done, text))
        }
        Err(error) => refused_entry(alloc, error),
    }
}

/// The line of a book of which each entry is accepted.
fn accepted(alloc: Global, entries: usize, arrivals: u64) -> Result<String, AllocError>
    ensures line { IfOk result (λ text. string_bytes text ≡ accepted_book_line entries arrivals) }
{
    format!(in alloc; "accepted {entries} entries, {arrivals} arrivals\n")
}
