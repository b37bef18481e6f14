//! The lines of a rule, of a size and of stones.
//!
//! Each reader answers what the line tells, and those of first lines the bytes after the line.
#![tactic(auto)]

ghost use Rattle.std.specs.Prelude.{◌≡◌, ◌++◌, true, codes, option_copied};
ghost use Rattle.std.specs.List.{AllByRecursion};
ghost use Rattle.std.specs.Option.{option_map};
ghost use Rattle.text_lines.specs.Spellings.{space, points_text};
ghost use Rattle.position_files.specs.Positions.{rule_word, size_text};
ghost use Rattle.text_lines.specs.Reading.{Gives, ReadsLine, IsWithin, is_free, tail_text};
ghost use Rattle.position_files.specs.Boards.{AreSides, IsSide};

use crate::words::{rule, size};
use game_rules::RuleKind;
use std::alloc::Global;
use stone_board::Points;
use text_lines::{Fault, cut, is_text, point, prefixed};

/// The points of a line from its first space on.
fn points(alloc: Global, tail: Option<&[u8]>, width: u8, height: u8) -> Result<Points, Fault>
    requires wide { IsSide width }
    requires high { IsSide height }
    ensures points { Gives (AllByRecursion (IsWithin width height)) points_text result
        (tail_text space (option_copied tail.entry)) }
{
    let mut points = Points::new(alloc);
    let mut rest = tail;
    while let Some(text) = rest {
        let (word, after) = cut(text, b' ');
        let Some(found) = point(word, width, height) else {
            return Err(Fault::Bad);
        };
        points.push(found)?;
        rest = after;
    }
    Ok(points)
}

/// The points of a line that begins with this word.
pub(crate) fn stones(
    alloc: Global,
    line: &[u8],
    word: &[u8],
    width: u8,
    height: u8,
) -> Result<Points, Fault>
    requires wide { IsSide width }
    requires high { IsSide height }
    requires word { is_free space word.now ≡ true }
    ensures stones { Gives (AllByRecursion (IsWithin width height)) (λ ps. word.now ++ points_text ps)
        result line.now }
{
    let (first, rest) = cut(line, b' ');
    if !is_text(first, word) {
        return Err(Fault::Bad);
    }
    points(alloc, rest, width, height)
}

/// The rule of the first line, and the bytes after it.
pub(crate) fn rule_line(bytes: &[u8]) -> Option<(RuleKind, &[u8])>
    ensures rule { ReadsLine (λ _. Unit {0}) (λ kind. codes "rule " ++ rule_word kind)
        (option_map (λ found. (found.0, found.1.now)) result) bytes.now }
{
    let (word, rest) = prefixed(bytes, b"rule ")?;
    Some((rule(word)?, rest))
}

/// The width and the height of the first line, and the bytes after it.
pub(crate) fn size_line(bytes: &[u8]) -> Option<((u8, u8), &[u8])>
    ensures size { ReadsLine AreSides (λ sides. codes "size " ++ size_text sides.0 sides.1)
        (option_map (λ found. (found.0, found.1.now)) result) bytes.now }
{
    let (text, rest) = prefixed(bytes, b"size ")?;
    Some((size(text)?, rest))
}
