//! The rest of a node: which of the given answers it stands for, and which are listed beside it.
//!
//! The commonest answer becomes the rest, so that the fewest replies are listed, and on a tie the earliest, so that the
//! same answers give the same node.
#![tactic(auto)]

ghost use Rattle.std.specs.Prelude.{◌≡◌, ◌==◌, count_by, IfOk};
ghost use Rattle.strategy_compiler.specs.Nodes.{answering_node, answers_beside, commonest_next, rest_of as rest_of_lem};

use game_rules::Point;
use std::alloc::{AllocError, Global};
use strategy_graph::{Node, Replies, Reply, Rest};

/// How many of the answers are this node.
fn times(answers: &[Reply], node: u32) -> usize
    ensures count { result ≡ count_by (λ r. r.next == node) answers.now }
{
    answers.iter().filter(|answer| answer.next == node).count()
}

/// The node that answers the most of the replies, and on a tie the earliest, or `None` without answers.
pub(crate) fn commonest_next(answers: &[Reply]) -> Option<u32>
    ensures commonest { result ≡ commonest_next answers.now }
{
    let mut best = None;
    let mut most = 0;
    for answer in answers {
        // Most replies have one answer in common, which is not counted again.
        if best == Some(answer.next) {
            continue;
        }
        let count = times(answers, answer.next);
        if count > most {
            best = Some(answer.next);
            most = count;
        }
    }
    best
}

/// The rest that is this node, or `Nothing` without one.
pub(crate) fn rest_of(node: Option<u32>) -> Rest
    ensures rest { result ≡ rest_of_lem node }
{
    match node {
        None => Rest::Nothing,
        Some(number) => Rest::To(number),
    }
}

/// The answers that are another node than this, in their order.
pub(crate) fn answers_beside(
    alloc: Global,
    answers: &[Reply],
    rest: Option<u32>,
) -> Result<Replies, AllocError>
    ensures others { IfOk result (λ replies. replies ≡ answers_beside rest answers.now) }
{
    let mut replies = Replies::new(alloc);
    for answer in answers {
        if Some(answer.next) != rest {
            replies.push(*answer)?;
        }
    }
    Ok(replies)
}

/// The node that plays this attack and answers these replies.
pub(crate) fn answering(alloc: Global, attack: Point, answers: &[Reply]) -> Result<Node, AllocError>
    ensures node { IfOk result (λ node. node ≡ answering_node attack answers.now) }
{
    let rest = commonest_next(answers);
    let replies = answers_beside(alloc, answers, rest)?;
    Ok(Node {
        attack,
        replies,
        rest: rest_of(rest),
    })
}
