//! First lines of bytes: a line is what stands before the first line feed.
//!
//! Each reader answers what the line tells, and the bytes after the line.
#![tactic(auto)]

ghost use Rattle.std.specs.Prelude.{◌≡◌, ◌++◌, ◌∷◌, true, IfNone, IfSome};
ghost use Rattle.std.specs.Option.{option_map};
ghost use Rattle.std.specs.Fmt.{decimal};
ghost use Rattle.text_lines.specs.Lines.{line_feed};
ghost use Rattle.text_lines.specs.Reading.{ReadsLine, IsBetween, is_free};

use crate::numbers::number;
use crate::words::{after, cut};

/// The first line, without its line feed, and the bytes after it. `None` says that no line feed comes.
pub fn line(bytes: &[u8]) -> Option<(&[u8], &[u8])>
    ensures line { IfSome result (λ found. bytes.now ≡ found.0.now ++ line_feed ∷ found.1.now) }
    ensures ended { IfSome result (λ found. is_free line_feed found.0.now ≡ true) }
    ensures none { IfNone result (is_free line_feed bytes.now ≡ true) }
{
    let (line, rest) = cut(bytes, b'\n');
    Some((line, rest?))
}

/// What follows this word on the first line, and the bytes after the line.
pub fn prefixed<'a>(bytes: &'a [u8], word: &[u8]) -> Option<(&'a [u8], &'a [u8])>
    requires word { is_free line_feed word.now ≡ true }
    ensures text { ReadsLine (λ text. is_free line_feed text ≡ true) (λ text. word.now ++ text)
        (option_map (λ found. (found.0.now, found.1.now)) result) bytes.now }
{
    let (line, rest) = line(bytes)?;
    Some((after(line, word)?, rest))
}

/// The number from `least` to `most` that follows this word on the first line, and the bytes after the line.
pub fn number_line<'a>(
    bytes: &'a [u8],
    word: &[u8],
    least: u32,
    most: u32,
) -> Option<(u32, &'a [u8])>
    requires word { is_free line_feed word.now ≡ true }
    ensures number { ReadsLine (IsBetween least most) (λ n. word.now ++ decimal n)
        (option_map (λ found. (found.0, found.1.now)) result) bytes.now }
{
    let (text, rest) = prefixed(bytes, word)?;
    let number = number(text, most)?;
    if number < least {
        return None;
    }
    Some((number, rest))
}
