//! Lines of nodes and of starts: what answers the replies of the opponent.
//!
//! A line is cut at its spaces. Its replies come one after another, each after a space, and the line of a node or of a
//! start that is read is the spelling of that value.
#![tactic(auto)]

ghost use Rattle.std.specs.Prelude.{◌≡◌, ℕ, List, ◌++◌, Option, option_copied};
ghost use Rattle.strategy_graph.specs.declared.Rest.{Rest};
ghost use Rattle.std.specs.List.{AllByRecursion};
ghost use Rattle.std.specs.Option.{option_map};
ghost use Rattle.std.specs.Result.{result_map_both};
ghost use Rattle.text_lines.specs.Spellings.{space};
ghost use Rattle.position_files.specs.Tables.{answers_text, node_line as node_line_lem, replies_text, reply_text, rest_text, start_line as start_line_lem};
ghost use Rattle.text_lines.specs.Reading.{Gives, GivesLine, Reads, tail_text};
ghost use Rattle.position_files.specs.Boards.{IsSide};
ghost use Rattle.position_files.specs.Answers.{AnswersFit, NodeFits, OpenRestFits, ReplyFits, StartFits, answers_with};

use std::alloc::Global;
use strategy_graph::{Node, Replies, Reply, Rest, Start};
use text_lines::{Fault, cut, is_text, number, point, prefixed};

/// The reply, and the number of the node that answers it, that the bytes spell.
fn reply(word: &[u8], width: u8, height: u8) -> Option<Reply>
    requires wide { IsSide width }
    requires high { IsSide height }
    ensures reply { Reads (ReplyFits width height) reply_text result word.now }
{
    let (at, next) = cut(word, b'>');
    let at = point(at, width, height)?;
    let next = number(next?, u32::MAX)?;
    Some(Reply { at, next })
}

/// The replies of a line from its first space on.
fn replies(alloc: Global, tail: Option<&[u8]>, width: u8, height: u8) -> Result<Replies, Fault>
    requires wide { IsSide width }
    requires high { IsSide height }
    ensures replies { Gives (AllByRecursion (ReplyFits width height)) replies_text result
        (tail_text space (option_copied tail.entry)) }
{
    let mut replies = Replies::new(alloc);
    let mut rest = tail;
    while let Some(text) = rest {
        let (word, after) = cut(text, b' ');
        let Some(found) = reply(word, width, height) else {
            return Err(Fault::Bad);
        };
        replies.push(found)?;
        rest = after;
    }
    Ok(replies)
}

/// What answers the replies that are not listed, but for a rest that wins, and what follows it from the next space on.
fn rest(bytes: &[u8]) -> Option<(Rest, Option<&[u8]>)>
    ensures rest { Reads {X = Rest × Option (List ℕ)} (λ found. OpenRestFits found.0)
        (λ found. rest_text found.0 ++ tail_text space found.1)
        (option_map (λ found. (found.0, option_copied found.1)) result) bytes.now }
{
    let (word, tail) = cut(bytes, b' ');
    if is_text(word, b"only") {
        return Some((Rest::Nothing, tail));
    }
    if !is_text(word, b"rest") {
        return None;
    }
    let (next, tail) = cut(tail?, b' ');
    Some((Rest::To(number(next, u32::MAX)?), tail))
}

/// What answers all replies: those that are listed, and the others. A rest that wins comes with no replies, and so it is read as
/// the one word.
pub(crate) fn answers(
    alloc: Global,
    bytes: &[u8],
    width: u8,
    height: u8,
) -> Result<(Replies, Rest), Fault>
    requires wide { IsSide width }
    requires high { IsSide height }
    ensures answers { Gives (λ found. AnswersFit width height (answers_with found))
        (λ found. answers_text (answers_with found)) result bytes.now }
{
    if is_text(bytes, b"wins") {
        return Ok((Replies::new(alloc), Rest::Wins));
    }
    let Some((rest, tail)) = rest(bytes) else {
        return Err(Fault::Bad);
    };
    let replies = replies(alloc, tail, width, height)?;
    Ok((replies, rest))
}

/// The node that the line spells.
pub(crate) fn node(alloc: Global, line: &[u8], width: u8, height: u8) -> Result<Node, Fault>
    requires wide { IsSide width }
    requires high { IsSide height }
    ensures node { Gives (NodeFits width height) node_line_lem result line.now }
{
    let (attack, text) = cut(line, b' ');
    let Some(attack) = point(attack, width, height) else {
        return Err(Fault::Bad);
    };
    let Some(text) = text else {
        return Err(Fault::Bad);
    };
    let (replies, rest) = answers(alloc, text, width, height)?;
    Ok(Node {
        attack,
        replies,
        rest,
    })
}

/// The start of the first line, which names only nodes below `len`, and the bytes after the line.
pub(crate) fn start_line(
    alloc: Global,
    bytes: &[u8],
    len: u32,
    width: u8,
    height: u8,
) -> Result<(Start, &[u8]), Fault>
    requires wide { IsSide width }
    requires high { IsSide height }
    ensures start { GivesLine (StartFits width height len) start_line_lem
        (result_map_both (λ found. (found.0, found.1.now)) (λ fault. fault) result) bytes.now }
{
    let Some((text, after)) = prefixed(bytes, b"start ") else {
        return Err(Fault::Bad);
    };
    let (replies, rest) = answers(alloc, text, width, height)?;
    if rest.is_winning() {
        return Err(Fault::Bad);
    }
    if !replies.is_rising() {
        return Err(Fault::Bad);
    }
    let start = Start::new(replies, rest);
    if !start.names_below(len) {
        return Err(Fault::Bad);
    }
    Ok((start, after))
}
