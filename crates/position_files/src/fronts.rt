//! Nodes, read at the front of bytes.
//!
//! A value is taken where the bytes begin with its spelling, and each byte is looked at once. Nothing is said where none is
//! taken, so that these readers may pass over what is seldom spelled: the readers of whole lines tell all the rest.
#![tactic(auto)]

ghost use Rattle.std.specs.Prelude.{◌≡◌, ◌<◌, ◌+◌, ◌∷◌, ◌++◌, IfSome};
ghost use Rattle.std.specs.List.{AllByRecursion};
ghost use Rattle.std.specs.Fmt.{decimal};
ghost use Rattle.text_lines.specs.Lines.{line_feed};
ghost use Rattle.text_lines.specs.Reading.{IsWithin};
ghost use Rattle.text_lines.specs.Spellings.{point_text};
ghost use Rattle.position_files.specs.Answers.{AnswersFit, NodeFits, ReplyFits, answers_with, node_with};
ghost use Rattle.position_files.specs.Tables.{answers_text, node_line, replies_text, reply_text, rest_text};

use game_rules::Point;
use strategy_graph::{Replies, Reply, Rest};
use text_lines::after;

/// The bytes after this one, if they begin with it.
#[inline(always)]
fn past(bytes: &[u8], first: u8) -> Option<&[u8]>
    ensures text { IfSome result (λ rest. bytes.now ≡ first ∷ rest.now) }
{
    match bytes {
        [byte, rest @ ..] if *byte == first => Some(rest),
        _ => None,
    }
}

/// The digit that the bytes begin with, and the bytes after it.
#[inline(always)]
fn digit(bytes: &[u8]) -> Option<(u8, &[u8])>
    ensures digit { IfSome result (λ found. found.0 < 10) }
    ensures text { IfSome result (λ found. bytes.now ≡ (48 + found.0) ∷ found.1.now) }
{
    match bytes {
        [byte @ b'0'..=b'9', rest @ ..] => Some((*byte - b'0', rest)),
        _ => None,
    }
}

/// The number that the bytes begin with, of nine digits at most, and the bytes after its digits. What follows a zero is not looked
/// at.
#[tactic(auto, using(crate::proofs::FrontLaws::front_digit))]
fn number(bytes: &[u8]) -> Option<(u32, &[u8])>
    ensures text { IfSome result (λ found. bytes.now ≡ decimal found.0 ++ found.1.now) }
{
    let (first, mut rest) = digit(bytes)?;
    let mut number = u32::from(first);
    if first == 0 {
        return Some((number, rest));
    }
    while let Some((last, more)) = digit(rest) {
        if number >= 100_000_000 {
            return None;
        }
        number = number * 10 + u32::from(last);
        rest = more;
    }
    Some((number, rest))
}

/// The number that the bytes begin with, of two digits at most, and the bytes after its digits. What follows a zero is not looked at.
#[inline(always)]
#[tactic(auto, using(crate::proofs::FrontLaws::front_digit))]
fn short_number(bytes: &[u8]) -> Option<(u8, &[u8])>
    ensures text { IfSome result (λ found. bytes.now ≡ decimal found.0 ++ found.1.now) }
{
    let (first, rest) = digit(bytes)?;
    if first == 0 {
        return Some((first, rest));
    }
    match digit(rest) {
        Some((last, more)) => Some((first * 10 + last, more)),
        None => Some((first, rest)),
    }
}

/// The number below `side` that the bytes begin with, of two digits at most, and the bytes after its digits.
#[inline(always)]
fn coordinate(bytes: &[u8], side: u8) -> Option<(u8, &[u8])>
    ensures within { IfSome result (λ found. found.0 < side) }
    ensures text { IfSome result (λ found. bytes.now ≡ decimal found.0 ++ found.1.now) }
{
    let (number, rest) = short_number(bytes)?;
    if number >= side {
        return None;
    }
    Some((number, rest))
}

/// The point within the width and the height that the bytes begin with, and the bytes after it.
fn point(bytes: &[u8], width: u8, height: u8) -> Option<(Point, &[u8])>
    ensures within { IfSome result (λ found. IsWithin width height found.0) }
    ensures text { IfSome result (λ found. bytes.now ≡ point_text found.0 ++ found.1.now) }
{
    let (x, rest) = coordinate(bytes, width)?;
    let (y, rest) = coordinate(past(rest, b',')?, height)?;
    Some((Point { x, y }, rest))
}

/// The reply that the bytes begin with, and the bytes after it.
fn reply(bytes: &[u8], width: u8, height: u8) -> Option<(Reply, &[u8])>
    ensures fits { IfSome result (λ found. ReplyFits width height found.0) }
    ensures text { IfSome result (λ found. bytes.now ≡ reply_text found.0 ++ found.1.now) }
{
    let (at, rest) = point(bytes, width, height)?;
    let (next, rest) = number(past(rest, b'>')?)?;
    Some((Reply { at, next }, rest))
}

/// The bytes after the replies that they begin with, each after a space. These come into the list in place of what was there.
#[tactic(auto, using(crate::proofs::FrontLaws::front_reply, game_rules::proofs::Tests::all_push))]
fn replies<'a>(listed: &mut Replies, bytes: &'a [u8], width: u8, height: u8) -> Option<&'a [u8]>
    ensures fit { IfSome result (λ _. AllByRecursion (ReplyFits width height) listed.new) }
    ensures text { IfSome result (λ rest. bytes.now ≡ replies_text listed.new ++ rest.now) }
{
    listed.clear();
    let mut rest = bytes;
    while let Some(text) = past(rest, b' ') {
        let (found, more) = reply(text, width, height)?;
        if listed.push(found).is_err() {
            return None;
        }
        rest = more;
    }
    Some(rest)
}

/// What answers the replies that are not listed, where the bytes begin with it, and the bytes after it.
fn rest(bytes: &[u8]) -> Option<(Rest, &[u8])>
    ensures text { IfSome result (λ found. bytes.now ≡ rest_text found.0 ++ found.1.now) }
{
    if let Some(tail) = after(bytes, b"wins") {
        return Some((Rest::Wins, tail));
    }
    if let Some(tail) = after(bytes, b"only") {
        return Some((Rest::Nothing, tail));
    }
    let (next, tail) = number(after(bytes, b"rest ")?)?;
    Some((Rest::To(next), tail))
}

/// The rest that the bytes begin with, and the bytes after the replies behind it, which come into the list in place of what was
/// there. A rest that wins comes with no replies.
fn answers<'a>(
    listed: &mut Replies,
    bytes: &'a [u8],
    width: u8,
    height: u8,
) -> Option<(Rest, &'a [u8])>
    ensures fit { IfSome result (λ found. AnswersFit width height (answers_with (listed.new, found.0))) }
    ensures text { IfSome result (λ found. bytes.now ≡ answers_text (answers_with (listed.new, found.0)) ++ found.1.now) }
{
    let (rest, tail) = rest(bytes)?;
    if rest.is_winning() {
        listed.clear();
        return Some((rest, tail));
    }
    let tail = replies(listed, tail, width, height)?;
    Some((rest, tail))
}

/// The attack and the rest of the node whose line the bytes begin with, and the bytes after the line. Its replies come into the
/// list in place of what was there.
pub(crate) fn node<'a>(
    listed: &mut Replies,
    bytes: &'a [u8],
    width: u8,
    height: u8,
) -> Option<((Point, Rest), &'a [u8])>
    ensures fits { IfSome result (λ found. NodeFits width height (node_with found.0 listed.new)) }
    ensures text { IfSome result (λ found. bytes.now ≡ node_line (node_with found.0 listed.new) ++ line_feed ∷ found.1.now) }
{
    let (attack, text) = point(bytes, width, height)?;
    let (rest, tail) = answers(listed, past(text, b' ')?, width, height)?;
    Some(((attack, rest), past(tail, b'\n')?))
}
