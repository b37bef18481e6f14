//! Nodes of a win, as searches write them: the move that wins at once, the move after which each reply has its answer, and the
//! double threat, after which one of two points wins whatever the reply.
//!
//! Searches differ in how they find the answers. That the node wins where its answers do is said here once, on any board; and what a
//! call adds is told as one fact, `Writes`, which calls hand on to their callers.
#![tactic(auto)]

ghost use Rattle.std.specs.Prelude.{◌≡◌, ◌<◌, ◌+◌, true, not, if◌then◌else◌, ℕ, List, map, length, slice_get, All, Some, IfOk};
ghost use Rattle.std.specs.List.{list_any};
ghost use Rattle.game_rules.specs.Grid.{Grid};
ghost use Rattle.game_rules.specs.Shapes.{is_same_point};
ghost use Rattle.game_rules.specs.declared.RuleKind.{RuleKind};
ghost use Rattle.strategy_graph.specs.declared.Reply.{Reply};
ghost use Rattle.strategy_graph.specs.Tables.{is_rising};
ghost use Rattle.strategy_compiler.specs.Trees.{Branches, Leaf, Fork, StandsFor, AnswersBranches};
ghost use Rattle.strategy_compiler.specs.Wins.{IsWrittenWin};
ghost use Rattle.strategy_compiler.specs.Nodes.{winning_node};
ghost use Rattle.strategy_compiler.specs.Growth.{Writes};
ghost use Rattle.strategy_compiler.specs.Forks.{WinsAtOnce, WinsByAnswers, IsDoubleThreat, answer_node as answer_node_lem, two_answers as two_answers_lem, double_moves as double_moves_lem, double_nodes};

use crate::{Compiler, SearchError, WrittenWin};
use game_rules::Point;
use std::alloc::{AllocError, Global};
use strategy_graph::Reply;

impl Compiler {
    /// The winning node with this attack. It wins wherever the attack wins at once.
    pub fn leaf(&mut self, attack: Point) -> Result<u32, SearchError>
        ensures node { IfOk result (λ i. slice_get self.new i ≡ Some (winning_node attack)) }
        ensures stands { IfOk result (λ i. StandsFor self.new i (Leaf attack)) }
        ensures in_compiler { IfOk result (λ i. i < length self.new) }
        ensures wins { IfOk result (λ i. WinsAtOnce attack self.new i) }
        ensures writes { Writes self.old self.new 1 result }
    {
        Ok(self.winning(attack)?)
    }

    /// The node that plays this attack and answers each of these replies with its node. It wins wherever the attack goes on and
    /// the answers win after it. The answers rise strictly in reading order, and each names a node of the compiler.
    pub fn fork(&mut self, attack: Point, answers: &[Reply]) -> Result<u32, SearchError>
        requires rising { is_rising answers.now ≡ true }
        requires below { All (λ r. r.next < length self.old) answers.now }
        ensures stands { IfOk result (λ i. (branches : Branches)
            → AnswersBranches self.old answers.now branches → StandsFor self.new i (Fork attack branches)) }
        ensures in_compiler { IfOk result (λ i. i < length self.new) }
        ensures wins { IfOk result (λ i. WinsByAnswers self.old attack answers.now self.new i) }
        ensures writes { Writes self.old self.new 1 result }
    {
        Ok(self.node(attack, answers)?)
    }

    /// The win by a double threat: the start is played, the reply on the first point is answered by the second, and each other of
    /// these replies by the first. It wins wherever that is a double threat with these replies, which rise in reading order.
    pub fn double(
        &mut self,
        alloc: Global,
        start: Point,
        first: Point,
        second: Point,
        replies: &[Point],
    ) -> Result<WrittenWin, SearchError>
        requires rising { (answers : List Reply) → map (λ r. r.at) answers ≡ replies.now → is_rising answers ≡ true }
        ensures win { IfOk result (λ win. (rule : RuleKind) (b : Grid)
            → IsDoubleThreat rule b start first second replies.now → IsWrittenWin rule 2 b self.new win) }
        ensures moves { IfOk result (λ win. win.moves ≡ double_moves_lem replies.now) }
        ensures writes { Writes self.old self.new (double_nodes first replies.now) result }
    {
        let at_first = self.leaf_if(has_point(first, replies), second)?;
        let beside = self.leaf_if(has_other(first, replies), first)?;
        let answers = two_answers(alloc, first, at_first, beside, replies)?;
        let node = self.fork(start, answers.as_slice())?;
        Ok(WrittenWin {
            node,
            moves: double_moves(replies),
        })
    }

    /// The winning node with this attack, where it is needed, and else any number.
    fn leaf_if(&mut self, needed: bool, attack: Point) -> Result<u32, SearchError>
        ensures node { IfOk result (λ i. needed ≡ true → slice_get self.new i ≡ Some (winning_node attack)) }
        ensures writes { Writes self.old self.new (if needed then 1 else 0) result }
    {
        if needed {
            return self.leaf(attack);
        }
        // For what is known of its nodes.
        self.len();
        Ok(0)
    }
}

/// The moves of a win by a double threat with these replies.
fn double_moves(replies: &[Point]) -> u32
    ensures moves { result ≡ double_moves_lem replies.now }
{
    match replies {
        [] => 1,
        [_, ..] => 2,
    }
}

/// Whether the point is one of these.
fn has_point(p: Point, points: &[Point]) -> bool
    ensures has { result ≡ list_any (λ q. is_same_point q p) points.now }
{
    points.iter().any(|q| q.x == p.x && q.y == p.y)
}

/// Whether another point is one of these.
fn has_other(p: Point, points: &[Point]) -> bool
    ensures has { result ≡ list_any (λ q. not (is_same_point q p)) points.now }
{
    points.iter().any(|q| !(q.x == p.x && q.y == p.y))
}

/// The first node for the reply on the point, and the second for another.
pub fn answer_node(q: Point, point: Point, at_point: u32, beside: u32) -> u32
    ensures node { result ≡ answer_node_lem point at_point beside q }
{
    if q.x == point.x && q.y == point.y {
        at_point
    } else {
        beside
    }
}

/// Such an answer to each of the replies.
fn two_answers(
    alloc: Global,
    point: Point,
    at_point: u32,
    beside: u32,
    replies: &[Point],
) -> Result<Vec<Reply>, AllocError>
    ensures answers { IfOk result (λ answers. answers.items ≡ two_answers_lem point at_point beside replies.now) }
{
    let mut answers = Vec::new(alloc);
    for q in replies {
        answers.push(Reply {
            at: *q,
            next: answer_node(*q, point, at_point, beside),
        })?;
    }
    Ok(answers)
}
