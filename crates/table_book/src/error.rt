//! Why a book is refused.
//!
//! A text is refused for its first bad line. A book that has a text is refused for its earliest entry at which something is
//! wrong, which is named by its number, counted from 1.
#![tactic(auto)]

ghost use Rattle.std.specs.Prelude.{◌≡◌};
ghost use Rattle.table_book.specs.Faults.{in_book};
ghost use Rattle.table_book.specs.Holding.{at_entry};

use foul_judge::PositionError;
use position_files::HeadError;
use std::alloc::AllocError;
use stone_board::Points;
use strategy_checker::{HeldError, Why};
use thiserror::Error;

/// Why the text of a book is refused. The first that holds is answered: a bad line comes before what is wrong with an entry,
/// the earliest entry decides, and for one entry the position comes first. `Memory` may come at any line.
#[derive(Debug, Drop, PartialEq, Eq, Error)]
pub enum BookError {
    /// The line of this number, counted from 1, is the first that no book has after the lines before it. A line that is
    /// missing counts, and so does one too many.
    #[error("line {0} is bad")]
    BadLine(u32),
    /// The board of this entry is no lawful position under its rule.
    #[error("the position of entry {entry} is not lawful: {cause}")]
    Unlawful {
        entry: u32,
        cause: PositionError,
    },
    /// The number of moves that is written for this entry is not the depth of its root, which is counted.
    #[error("for entry {entry} {written} moves are written, and {counted} are counted")]
    WrongMoves {
        entry: u32,
        written: u32,
        counted: u32,
    },
    /// There is no memory for the value.
    #[error("out of memory")]
    Memory,
}

/// Why the entries of a book are not held, or not accepted. The earliest entry decides.
#[derive(Debug, Drop, Error)]
pub enum HoldError {
    /// The root of this entry is not accepted. The moves of `line` lead to a fault, and `why` says which it is.
    #[error("entry {entry} is refused")]
    Refused { entry: u32, line: Points, why: Why },
    /// There are more arrivals from the root of this entry than the work allows.
    #[error("the work is spent for entry {entry}")]
    Spent { entry: u32 },
    /// There is no memory to check an entry or to keep it.
    #[error("out of memory")]
    Memory,
}

impl From<HeadError> for BookError {
    ghost from_gives = { λ head error. error ≡ in_book head };

    /// The same, said of a book whose front the lines are.
    fn from(error: HeadError) -> BookError {
        match error {
            HeadError::BadLine(line) => BookError::BadLine(line),
            HeadError::Memory => BookError::Memory,
        }
    }
}

impl From<AllocError> for BookError {
    ghost use Rattle.table_book.specs.declared.error.BookError.TheVariants.{Memory};

    ghost from_gives = { λ _ error. error ≡ Memory };

    fn from(_error: AllocError) -> BookError {
        BookError::Memory
    }
}

impl HoldError {
    /// Why the root of this entry is not held, said of the book.
    pub(crate) fn at(entry: u32, error: HeldError) -> HoldError
        ensures error { result ≡ at_entry entry error }
    {
        match error {
            HeldError::Refused { line, why } => HoldError::Refused { entry, line, why },
            HeldError::Spent => HoldError::Spent { entry },
            HeldError::Memory => HoldError::Memory,
        }
    }
}
