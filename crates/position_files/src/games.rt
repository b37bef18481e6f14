//! Texts of games, read line by line.
//!
//! A game is a position and the moves that are played from it. The lines of the position are the head that other texts
//! have too; one line more has the moves, in order of play.
#![tactic(auto)]

ghost use Rattle.std.specs.Prelude.{◌≡◌, IfOk, IfErr};
ghost use Rattle.std.specs.List.{AllByRecursion};
ghost use Rattle.std.specs.Result.{result_map_both};
ghost use Rattle.game_rules.specs.Play.{IsPosition};
ghost use Rattle.text_lines.specs.Reading.{GivesLine, IsWithin};
ghost use Rattle.position_files.specs.declared.GameFile.{GameFile};
ghost use Rattle.position_files.specs.Boards.{IsSide};
ghost use Rattle.position_files.specs.Games.{IsTextOfGame, moves_line as moves_line_lem};
ghost use Rattle.position_files.specs.Faults.{IsGameFault};

use crate::boards::read_board;
use crate::lines::stones;
use crate::{FIRST_LINES, GameError, GameFile, HEAD_LINES, HeadError};
use foul_judge::refusal;
use std::alloc::Global;
use stone_board::Points;
use text_lines::{Fault, after, line};

/// The moves of the first line, and the bytes after it.
fn moves_line(alloc: Global, bytes: &[u8], width: u8, height: u8) -> Result<(Points, &[u8]), Fault>
    requires wide { IsSide width }
    requires high { IsSide height }
    ensures moves { GivesLine (AllByRecursion (IsWithin width height)) moves_line_lem
        (result_map_both (λ found. (found.0, found.1.now)) (λ fault. fault) result) bytes.now }
{
    let Some((text, rest)) = line(bytes) else {
        return Err(Fault::Bad);
    };
    let moves = stones(alloc, text, b"moves", width, height)?;
    Ok((moves, rest))
}

/// The game that the bytes are the text of. A bad line is named first, and then why the board is no lawful position. Whether
/// the moves are legal is not asked.
pub fn read_game(alloc: Global, bytes: &[u8]) -> Result<GameFile, GameError>
    ensures found { IfOk result (λ file. IsTextOfGame file bytes.now) }
    ensures only { IfOk result (λ file. (other : GameFile)
        → IsTextOfGame other bytes.now → other ≡ file) }
    ensures lawful { IfOk result (λ file. IsPosition file.kind file.board) }
    ensures refused { IfErr result (IsGameFault bytes.now) }
{
    let Some(rest) = after(bytes, b"renju-game 1\n") else {
        return Err(GameError::BadLine(1));
    };
    let (kind, board, rest) = match read_board(alloc, rest) {
        Ok(found) => found,
        Err(error) => return Err(GameError::from(error.after(FIRST_LINES))),
    };
    let (moves, rest) = match moves_line(alloc, rest, board.width(), board.height()) {
        Ok(found) => found,
        Err(fault) => return Err(GameError::from(HeadError::at(MOVES_LINE, fault))),
    };
    if !rest.is_empty() {
        return Err(GameError::BadLine(MOVES_LINE + 1));
    }
    match refusal(kind, &board) {
        Some(why) => Err(GameError::Unlawful(why)),
        None => Ok(GameFile { kind, board, moves }),
    }
}

/// The number of the line of the moves.
const MOVES_LINE: u32 = FIRST_LINES + HEAD_LINES + 1;
