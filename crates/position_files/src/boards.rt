//! The lines of a rule and a board.
//!
//! The stones of a line are put on the board one after another. They rise in reading order where each stands later than
//! the one before it, and White's stand on no stone of Black's where the points are empty.
#![tactic(auto)]

ghost use Rattle.std.specs.Prelude.{◌≡◌, ℕ, List, [], ◌∷◌, ◌++◌, true, false, IsTrue, IfOk, IfErr, Err};
ghost use Rattle.std.specs.List.{AllByRecursion};
ghost use Rattle.game_rules.specs.Grid.{Grid, IsBoard};
ghost use Rattle.text_lines.specs.Lines.{line_feed, text_of};
ghost use Rattle.text_lines.specs.Spellings.{space, points_text};
ghost use Rattle.position_files.specs.Positions.{board_lines, stones as stones_lem};
ghost use Rattle.text_lines.specs.Reading.{IsWithin, is_free};
ghost use Rattle.position_files.specs.Boards.{SameBut};
ghost use Rattle.position_files.specs.Faults.{IsUpTo};
ghost use Rattle.position_files.specs.Sections.{IsBoardLines, IsSectionFault};

use crate::lines::{rule_line, size_line, stones};
use crate::{HEAD_LINES, HeadError};
use game_rules::{Point, RuleKind, Side};
use std::alloc::Global;
use stone_board::Board;
use text_lines::{Fault, line};

/// Puts stones of the side on these points, where none of them stands yet. `false` says that the points don't rise in reading
/// order, or that one of them is taken.
fn put_stones(board: &mut Board, side: Side, points: &[Point]) -> bool
    requires within { AllByRecursion (IsWithin board.old.width board.old.height) points.now }
    requires none { stones_lem board.old side ≡ [] }
    ensures put { IsTrue result → SameBut side board.old board.new
        × (stones_lem board.new side ≡ points.now) }
    ensures refused { result ≡ false → (b : Grid) → IsBoard b → SameBut side board.old b
        → stones_lem b side ≡ points.now → ⊥ }
    ensures board { IsBoard board.new }
{
    let width = u32::from(board.width());
    let mut least = 0;
    for p in points {
        let place = u32::from(p.y) * width + u32::from(p.x);
        if place < least || !board.is_empty(*p) {
            return false;
        }
        board.put(*p, side);
        least = place + 1;
    }
    true
}

/// Puts the stones of the side that the first line lists after this word, where none of the side stands yet, and answers the
/// bytes after the line.
fn stones_line<'a>(
    alloc: Global,
    board: &mut Board,
    side: Side,
    word: &[u8],
    bytes: &'a [u8],
) -> Result<&'a [u8], Fault>
    requires word { is_free space word.now ≡ true }
    requires one_line { is_free line_feed word.now ≡ true }
    requires none { stones_lem board.old side ≡ [] }
    ensures put { IfOk result (λ rest. SameBut side board.old board.new
        × (bytes.now ≡ (word.now ++ points_text (stones_lem board.new side)) ++ line_feed ∷ rest.now)) }
    ensures bad { result ≡ Err Fault.Bad
        → (b : Grid) (rest : List ℕ) → IsBoard b → SameBut side board.old b
        → bytes.now ≡ (word.now ++ points_text (stones_lem b side)) ++ line_feed ∷ rest → ⊥ }
    ensures board { IsBoard board.new }
{
    let width = board.width();
    let height = board.height();
    let Some((line, rest)) = line(bytes) else {
        return Err(Fault::Bad);
    };
    let points = stones(alloc, line, word, width, height)?;
    if !put_stones(board, side, points.as_slice()) {
        return Err(Fault::Bad);
    }
    Ok(rest)
}

/// The rule and the board that the first four lines tell, and the bytes after them.
pub(crate) fn read_board(alloc: Global, bytes: &[u8]) -> Result<(RuleKind, Board, &[u8]), HeadError>
    ensures board { IfOk result (λ found. IsBoard found.1) }
    ensures text { IfOk result (λ found. bytes.now
        ≡ text_of (board_lines found.0 found.1) ++ found.2.now) }
    ensures refused { IfErr result (IsSectionFault IsBoardLines bytes.now) }
    ensures within { IfErr result (IsUpTo HEAD_LINES) }
{
    let Some((kind, rest)) = rule_line(bytes) else {
        return Err(HeadError::BadLine(1));
    };
    let Some(((width, height), rest)) = size_line(rest) else {
        return Err(HeadError::BadLine(2));
    };
    let mut board = Board::empty(alloc, width, height)?;
    let rest = match stones_line(alloc, &mut board, Side::Black, b"black", rest) {
        Ok(rest) => rest,
        Err(fault) => return Err(HeadError::at(3, fault)),
    };
    let rest = match stones_line(alloc, &mut board, Side::White, b"white", rest) {
        Ok(rest) => rest,
        Err(fault) => return Err(HeadError::at(4, fault)),
    };
    Ok((kind, board, rest))
}
