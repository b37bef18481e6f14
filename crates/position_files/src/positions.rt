//! Texts of positions, read line by line.
//!
//! Each line is read by a function that answers a value exactly where the bytes begin with the line of one. The number of the
//! line at which the first of them answers none is that of the bad line.
#![tactic(auto)]

ghost use Rattle.std.specs.Prelude.{◌≡◌, IfOk, IfErr};
ghost use Rattle.game_rules.specs.Play.{IsPosition};
ghost use Rattle.position_files.specs.declared.PositionFile.{PositionFile};
ghost use Rattle.position_files.specs.Positions.{IsTextOfPosition};
ghost use Rattle.position_files.specs.Faults.{IsPositionFault};

use crate::boards::read_board;
use crate::{FIRST_LINES, FileError, HEAD_LINES, PositionFile};
use foul_judge::refusal;
use std::alloc::Global;
use text_lines::after;

/// The position that the bytes are the text of. A bad line is named first, and then why the board is no lawful position.
pub fn read_position(alloc: Global, bytes: &[u8]) -> Result<PositionFile, FileError>
    ensures found { IfOk result (λ file. IsTextOfPosition file bytes.now) }
    ensures only { IfOk result (λ file. (other : PositionFile)
        → IsTextOfPosition other bytes.now → other ≡ file) }
    ensures lawful { IfOk result (λ file. IsPosition file.kind file.board) }
    ensures refused { IfErr result (IsPositionFault bytes.now) }
{
    let Some(rest) = after(bytes, b"renju-position 1\n") else {
        return Err(FileError::BadLine(1));
    };
    let (kind, board, rest) = match read_board(alloc, rest) {
        Ok(found) => found,
        Err(error) => return Err(FileError::from(error.after(FIRST_LINES))),
    };
    if !rest.is_empty() {
        return Err(FileError::BadLine(FIRST_LINES + HEAD_LINES + 1));
    }
    match refusal(kind, &board) {
        Some(why) => Err(FileError::Unlawful(why)),
        None => Ok(PositionFile { kind, board }),
    }
}
