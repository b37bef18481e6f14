//! What is settled is compiled and remembered, from a leaf up to the first node that is open.
#![tactic(auto)]

ghost use Rattle.std.specs.Prelude.{◌≡◌, nat_lt};
ghost use Rattle.std.specs.List.{list_all};
ghost use Rattle.quiet_tree.specs.Trees.{IsSmall};

use crate::finder::Finder;
use crate::steps::{Place, Step};
use foul_judge::Seen;
use proof_tree::{Kind, Link, ProofTree};
use quiet_tree::{link_of, numbers_of, settle_leaf};
use row_shapes::Rule;
use std::alloc::{AllocError, Global};
use stone_board::{Board, Point};
use strategy_compiler::{Compiler, SearchError};
use strategy_graph::{Node, Replies, Reply, Rest};

/// The node that is listed for the reply, if one is.
fn listed(answers: &[Reply], p: Point) -> Option<u32> {
    let found = answers.iter().find(|reply| reply.at == p)?;
    Some(found.next)
}

/// The answers that differ from the rest, in reading order.
fn listed_replies(
    alloc: Global,
    board: &Board,
    rest: u32,
    answers: &[Reply],
) -> Result<Replies, AllocError> {
    let mut replies = Replies::new(alloc);
    for at in board.points() {
        if let Some(next) = listed(answers, at) {
            if next != rest {
                replies.push(Reply { at, next })?;
            }
        }
    }
    Ok(replies)
}

/// Puts the node of an attack in, if it is one of a table.
fn adopt_attack(
    compiler: &mut Compiler,
    attack: Point,
    rest: u32,
    replies: Replies,
) -> Result<Option<u32>, SearchError> {
    let len = compiler.len();
    if rest >= len || !replies.is_rising() || !are_below(replies.as_slice(), len) {
        return Ok(None);
    }
    let number = compiler.adopt(Node {
        attack,
        replies,
        rest: Rest::To(rest),
    })?;
    Ok(Some(number))
}

/// Whether each answer names a node below `len`.
fn are_below(answers: &[Reply], len: u32) -> bool
    ensures below { result ≡ list_all (λ r. nat_lt r.next len) answers.now }
{
    answers.iter().all(|reply| reply.next < len)
}

impl<R: Rule> Finder<R> {
    /// Puts the node of an attack in, with the answers that differ from the rest. Nothing is told where it is no node of a table.
    pub(crate) fn compile(
        &self,
        compiler: &mut Compiler,
        attack: Point,
        rest: u32,
        answers: &[Reply],
    ) -> Result<Option<u32>, SearchError> {
        let replies = listed_replies(self.alloc, self.root.board(), rest, answers)?;
        adopt_attack(compiler, attack, rest, replies)
    }

    /// Settles the leaf as won by a node, or as disproved where none was compiled.
    pub(crate) fn settle_by(
        &mut self,
        tree: &mut ProofTree,
        place: Place,
        node: Option<u32>,
    ) -> Step
        requires small { IsSmall tree.old place.most }
        ensures small { IsSmall tree.new place.most }
    {
        match node {
            Some(number) => self.win(tree, place, number),
            None => settle_leaf(tree, false, place.most),
        }
        Step::Done
    }

    /// Compiles and remembers what is settled on the way up.
    pub(crate) fn go_up(
        &mut self,
        tree: &ProofTree,
        compiler: &mut Compiler,
        way: &[u32],
    ) -> Result<(), SearchError> {
        for k in 0..way.len() {
            let node = way[k];
            let numbers = numbers_of(tree, node);
            if !numbers.is_settled() {
                return Ok(());
            }
            let link = link_of(tree, node);
            let won = numbers.proof == 0;
            if won && self.notes.note(node).win.is_none() {
                self.close(tree, compiler, node, link)?;
            }
            if let Kind::Attack = link.kind {
                self.remember(&way[k..], won)?;
            }
        }
        Ok(())
    }

    /// Remembers a settled position of the attacker, the first of the way.
    fn remember(&mut self, way: &[u32], won: bool) -> Result<(), AllocError> {
        let Some(view) = self.reach(way)? else {
            return Ok(());
        };
        let round = self.width.round;
        let win = match way {
            [] => None,
            [first, ..] => self.notes.note(*first).win,
        };
        match win {
            Some(node) => self.memory.keep_won(view.board(), node),
            None if won => Ok(()),
            None => self.memory.keep_lost(view.board(), round),
        }
    }

    /// Finds the win of a proved node with children: that of its proved child, or the attack with all its answers.
    fn close(
        &mut self,
        tree: &ProofTree,
        compiler: &mut Compiler,
        i: u32,
        link: Link,
    ) -> Result<(), SearchError> {
        let win = match link.kind {
            Kind::Attack => self.notes.win_of_child(tree, link),
            Kind::Defend => self.close_defence(compiler, i, link)?,
        };
        if let Some(node) = win {
            self.notes.write_win(i, node);
        }
        Ok(())
    }

    /// The attack that leads to a proved node of the defender, with the answers that were found at once and those of its children.
    fn close_defence(
        &mut self,
        compiler: &mut Compiler,
        i: u32,
        link: Link,
    ) -> Result<Option<u32>, SearchError> {
        let note = self.notes.note(i);
        let Some(rest) = note.rest else {
            return Ok(None);
        };
        let answers = self.notes.all_answers(note, link)?;
        let node = self.compile(compiler, note.at, rest, answers.as_slice())?;
        if let Some(number) = node {
            self.notes.mark_quiet(number)?;
        }
        Ok(node)
    }
}
