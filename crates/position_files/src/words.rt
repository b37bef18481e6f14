//! Words of the lines of a rule and of a size.
//!
//! A size is one number where the width and the height are the same, so that each size has one spelling.
#![tactic(auto)]

ghost use Rattle.std.specs.Fmt.{decimal};
ghost use Rattle.position_files.specs.Positions.{size_text, rule_word};
ghost use Rattle.text_lines.specs.Reading.{Reads};
ghost use Rattle.position_files.specs.Boards.{IsSide, AreSides};

use game_rules::{MAX_SIDE, MIN_SIDE, RuleKind};
use text_lines::{cut, is_text, number};

/// The width or height of a board that the bytes spell, if they spell one.
fn side(word: &[u8]) -> Option<u8>
    ensures side { Reads IsSide decimal result word.now }
{
    let side = number(word, u32::from(MAX_SIDE))? as u8;
    if side < MIN_SIDE {
        return None;
    }
    Some(side)
}

/// The width and the height that the bytes spell, if they spell them: one number where they are the same.
pub(crate) fn size(bytes: &[u8]) -> Option<(u8, u8)>
    ensures size { Reads AreSides (λ sides. size_text sides.0 sides.1) result bytes.now }
{
    let (width, height) = cut(bytes, b',');
    let width = side(width)?;
    let Some(height) = height else {
        return Some((width, width));
    };
    let height = side(height)?;
    if width == height {
        return None;
    }
    Some((width, height))
}

/// The rule whose word the bytes are, if they are one.
pub(crate) fn rule(word: &[u8]) -> Option<RuleKind>
    ensures rule { Reads (λ _. Unit {0}) rule_word result word.now }
{
    if is_text(word, b"freestyle") {
        return Some(RuleKind::Freestyle);
    }
    if is_text(word, b"exact") {
        return Some(RuleKind::Exact);
    }
    if is_text(word, b"renju") {
        return Some(RuleKind::Renju);
    }
    None
}
