//! A start made of answers to the first move of the opponent: the walks begin at each node that answers, so that the table has
//! what they reach, and the start names these nodes by their places in it.
#![tactic(auto)]

ghost use Rattle.std.specs.Prelude.{◌≡◌, ◌<◌, ◌≤◌, true, false, length, slice_index, All, IfOk};
ghost use Rattle.strategy_graph.specs.Tables.{is_rising, is_winning, names_below};
ghost use Rattle.strategy_graph.specs.Renumbered.{renumbered_answers};
ghost use Rattle.strategy_compiler.specs.Trees.{Branches, AnswersBranches};
ghost use Rattle.strategy_compiler.specs.Walks.{visits};
ghost use Rattle.strategy_compiler.specs.Nodes.{IsCompiled};
ghost use Rattle.strategy_compiler.specs.Starts.{IsMadeOfAnswers, IsStartOfBranches};

use crate::renumbering::{Made, made_from, renumbered_replies, renumbered_rest};
use crate::rests::{answers_beside, commonest_next, rest_of};
use std::alloc::{AllocError, Global};
use strategy_graph::{Node, Replies, Reply, Rest, Start, Table};

/// The nodes that the replies and the rest name, in the order of a walk.
fn visited(alloc: Global, replies: &Replies, rest: Rest) -> Result<Vec<u32>, AllocError>
    ensures visits { IfOk result
        (λ roots. roots.items ≡ visits (record { replies = replies.now; rest = rest })) }
{
    let mut roots = Vec::new(alloc);
    if let Some(number) = rest.node() {
        roots.push(number)?;
    }
    for reply in replies.as_slice() {
        roots.push(reply.next)?;
    }
    Ok(roots)
}

/// The start with these replies and this rest, with the place of each number that they name: the number that stands in the list
/// at that number. The replies rise strictly in reading order, and the rest is not that of a winning node.
pub fn renumbered_start(
    alloc: Global,
    replies: &Replies,
    rest: Rest,
    places: &[u32],
) -> Result<Start, AllocError>
    requires below { names_below (record { replies = replies.now; rest = rest }) (length places.now)
        ≡ true }
    requires rising { is_rising replies.now ≡ true }
    requires not_winning { is_winning rest ≡ false }
    ensures start { IfOk result (λ start. start
        ≡ renumbered_answers (λ j. slice_index places.now j) (record { replies = replies.now; rest = rest })) }
{
    let replies = renumbered_replies(alloc, replies.as_slice(), places)?;
    Ok(Start::new(replies, renumbered_rest(rest, places)))
}

/// The table of what the answers reach, and the start that has these answers.
pub(crate) fn start_from(
    alloc: Global,
    nodes: &[Node],
    answers: &[Reply],
) -> Result<(Table, Start), AllocError>
    requires compiled { IsCompiled nodes.now }
    requires rising { is_rising answers.now ≡ true }
    requires below { All (λ r. r.next < length nodes.now) answers.now }
    ensures made { IfOk result (λ made. IsMadeOfAnswers nodes.now answers.now made.0 made.1) }
    ensures branches { IfOk result (λ made. (branches : Branches) → AnswersBranches nodes.now answers.now branches
        → IsStartOfBranches branches made.0 made.1) }
    ensures few { IfOk result (λ made. length made.0 ≤ length nodes.now) }
{
    let commonest = commonest_next(answers);
    let listed = answers_beside(alloc, answers, commonest)?;
    let rest = rest_of(commonest);
    let roots = visited(alloc, &listed, rest)?;
    let Made { table, places } = made_from(alloc, nodes, roots.as_slice())?;
    let start = renumbered_start(alloc, &listed, rest, places.as_slice())?;
    Ok((table, start))
}
