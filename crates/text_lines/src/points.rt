//! Points: a column and a row, with a comma between them.
//!
//! A point is read within bounds, those of a board or wider ones, so that a point off the board is never met later.
#![tactic(auto)]

ghost use Rattle.std.specs.Prelude.{◌<◌};
ghost use Rattle.std.specs.Fmt.{decimal};
ghost use Rattle.text_lines.specs.Spellings.{point_text};
ghost use Rattle.text_lines.specs.Reading.{Reads, IsWithin};

use crate::numbers::number;
use crate::words::cut;
use game_rules::Point;

/// The point that the bytes spell, if its column is below the width and its row below the height.
pub fn point(word: &[u8], width: u8, height: u8) -> Option<Point>
    ensures point { Reads (IsWithin width height) point_text result word.now }
{
    let (column, row) = cut(word, b',');
    let x = coordinate(column, width)?;
    let y = coordinate(row?, height)?;
    Some(Point { x, y })
}

/// The number below `side` that the bytes spell, if they spell one.
fn coordinate(bytes: &[u8], side: u8) -> Option<u8>
    ensures number { Reads (λ n. n < side) decimal result bytes.now }
{
    let last = u32::from(side).checked_sub(1)?;
    Some(number(bytes, last)? as u8)
}
