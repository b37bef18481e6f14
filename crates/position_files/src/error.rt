//! Why a text, or a section at the front of one, is refused.
//!
//! A section counts its lines from its own front. A reader of a whole text adds the lines that stand before the section.
#![tactic(auto)]

ghost use Rattle.std.specs.Prelude.{◌≡◌, ◌-◌};
ghost use Rattle.position_files.specs.Faults.{IsUpTo, after_lines, at_line, in_file, in_game};

use foul_judge::PositionError;
use std::alloc::AllocError;
use text_lines::Fault;
use thiserror::Error;

/// Why a text is refused. The first that holds is answered, but `Memory` may come at any line.
#[derive(Debug, Drop, PartialEq, Eq, Error)]
pub enum FileError {
    /// The line of this number, counted from 1, is the first that no text has after the lines before it. A line that is
    /// missing counts, and so does one too many.
    #[error("line {0} is bad")]
    BadLine(u32),
    /// The board is no lawful position under the rule.
    #[error("the position is not lawful: {0}")]
    Unlawful(PositionError),
    /// The number of moves that is written is not the depth of the root, which is counted.
    #[error("{written} moves are written, and {counted} are counted")]
    WrongMoves { written: u32, counted: u32 },
    /// There is no memory for the value.
    #[error("out of memory")]
    Memory,
}

/// Why the text of a game is refused. The first that holds is answered, but `Memory` may come at any line.
#[derive(Debug, Drop, PartialEq, Eq, Error)]
pub enum GameError {
    /// The line of this number, counted from 1, is the first that no game has after the lines before it. A line that is
    /// missing counts, and so does one too many.
    #[error("line {0} is bad")]
    BadLine(u32),
    /// The board is no lawful position under the rule.
    #[error("the position is not lawful: {0}")]
    Unlawful(PositionError),
    /// There is no memory for the value.
    #[error("out of memory")]
    Memory,
}

/// Why bytes begin with no section of a kind. `Memory` may come at any line.
#[derive(Debug, Drop, PartialEq, Eq, Error)]
pub enum HeadError {
    /// The line of this number, counted from 1 at the front of the bytes, is the first that no section has after the
    /// lines before it. A line that is missing counts.
    #[error("line {0} is bad")]
    BadLine(u32),
    /// There is no memory for the value.
    #[error("out of memory")]
    Memory,
}

impl From<AllocError> for FileError {
    ghost use Rattle.position_files.specs.declared.error.FileError.TheVariants.{Memory};

    ghost from_gives = { λ _ error. error ≡ Memory };

    fn from(_error: AllocError) -> FileError {
        FileError::Memory
    }
}

impl From<AllocError> for HeadError {
    ghost use Rattle.position_files.specs.declared.error.HeadError.TheVariants.{Memory};

    ghost from_gives = { λ _ error. error ≡ Memory };

    fn from(_error: AllocError) -> HeadError {
        HeadError::Memory
    }
}

impl From<HeadError> for FileError {
    ghost from_gives = { λ head error. error ≡ in_file head };

    /// The same, said of a whole text whose front the section is.
    fn from(error: HeadError) -> FileError {
        match error {
            HeadError::BadLine(line) => FileError::BadLine(line),
            HeadError::Memory => FileError::Memory,
        }
    }
}

impl From<HeadError> for GameError {
    ghost from_gives = { λ head error. error ≡ in_game head };

    /// The same, said of the text of a game whose front the section is.
    fn from(error: HeadError) -> GameError {
        match error {
            HeadError::BadLine(line) => GameError::BadLine(line),
            HeadError::Memory => GameError::Memory,
        }
    }
}

impl HeadError {
    /// What is said of a section whose line of this number has the fault.
    pub(crate) fn at(line: u32, fault: Fault) -> HeadError
        ensures error { result ≡ at_line fault line }
    {
        match fault {
            Fault::Bad => HeadError::BadLine(line),
            Fault::Memory => HeadError::Memory,
        }
    }

    /// The same, said of bytes in which so many lines come before the section.
    pub fn after(self, lines: u32) -> HeadError
        requires few { IsUpTo (u32.MAX - lines) self }
        ensures error { result ≡ after_lines lines self }
    {
        match self {
            HeadError::BadLine(line) => HeadError::BadLine(lines + line),
            HeadError::Memory => HeadError::Memory,
        }
    }
}
