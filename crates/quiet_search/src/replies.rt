//! The replies that may harm the win after a pass: each is met by a node that is known, or stays open.
#![tactic(auto)]

ghost use Rattle.std.specs.Prelude.{OnOk};
ghost use Rattle.quiet_tree.specs.Trees.{IsSmall};

use crate::finder::{Finder, after_move, answer_of};
use crate::steps::{Children, Place, Step};
use foul_judge::{Outcome, Position, Seen};
use proof_tree::{Numbers, ProofTree};
use quiet_tree::Note;
use row_shapes::Rule;
use std::alloc::{AllocError, Global};
use stone_board::Point;
use strategy_compiler::{Compiler, SearchError};
use strategy_graph::Reply;

/// The budget of threats after one reply.
const REPLY_BUDGET: u64 = 3;

/// The numbers of a reply that stays open.
const OPEN: Numbers = Numbers {
    proof: 2,
    disproof: 10,
};

/// The node of the rest, the answers that were found, the nodes that gave them, and the replies that stay open.
#[derive(Drop)]
pub(crate) struct Met {
    rest: u32,
    answers: Vec<Reply>,
    serving: Vec<u32>,
    children: Children,
}

impl Met {
    /// None is met yet.
    fn new(alloc: Global, rest: u32) -> Met {
        Met {
            rest,
            answers: Vec::new(alloc),
            serving: Vec::new(alloc),
            children: Children::new(alloc),
        }
    }

    /// Takes what a reply comes to, after an attack with this hint, and tells whether the attack stands.
    fn take(&mut self, judged: Judged, q: Point, hint: Option<u32>) -> Result<bool, AllocError> {
        match judged {
            Judged::No => {}
            Judged::Denies => return Ok(false),
            Judged::By(next) => self.add_answer(Reply { at: q, next })?,
            Judged::Open(like) => {
                let hinted = if hint.is_some() {
                    like
                } else {
                    Some(self.rest)
                };
                self.children.push(OPEN, Note::open(q, hinted))?;
            }
        }
        Ok(true)
    }

    /// Adds the answer to one reply.
    fn add_answer(&mut self, answer: Reply) -> Result<(), AllocError> {
        self.answers.push(answer)?;
        Ok(())
    }
}

/// Adds a node at the end.
fn add_node(nodes: &mut Vec<u32>, node: u32) -> Result<(), AllocError> {
    nodes.push(node)?;
    Ok(())
}

/// What a reply comes to.
#[derive(Clone, Copy)]
enum Judged {
    /// It is met by this node.
    By(u32),
    /// It stays open, with this hint.
    Open(Option<u32>),
    /// It is no reply: it fouls.
    No,
    /// It denies the attack.
    Denies,
}

impl<R: Rule> Finder<R> {
    /// Meets one reply after another. `None` says that one of them denies the attack.
    pub(crate) fn meet_all(
        &mut self,
        view: &mut Position<R>,
        compiler: &mut Compiler,
        place: Place,
        rest: u32,
        replies: &[Point],
    ) -> Result<Option<Met>, SearchError> {
        let mut met = Met::new(self.alloc, rest);
        if self.meet_each(view, compiler, place, &mut met, replies)? {
            Ok(Some(met))
        } else {
            Ok(None)
        }
    }

    /// Meets one reply after another, and tells whether none of them denies the attack.
    fn meet_each(
        &mut self,
        view: &mut Position<R>,
        compiler: &mut Compiler,
        place: Place,
        met: &mut Met,
        replies: &[Point],
    ) -> Result<bool, SearchError> {
        add_node(&mut met.serving, met.rest)?;
        for q in replies {
            let judged = self.judge(view, compiler, place, &mut met.serving, *q)?;
            if !met.take(judged, *q, place.hint)? {
                return Ok(false);
            }
        }
        Ok(true)
    }

    /// What a reply comes to.
    fn judge(
        &mut self,
        view: &mut Position<R>,
        compiler: &mut Compiler,
        place: Place,
        serving: &mut Vec<u32>,
        q: Point,
    ) -> Result<Judged, SearchError> {
        match view.outcome(q) {
            Outcome::GoesOn => self.judge_after(view, compiler, place, serving, q),
            Outcome::Fouls(_) => Ok(Judged::No),
            _ => Ok(Judged::Denies),
        }
    }

    /// What a reply comes to that goes on.
    fn judge_after(
        &mut self,
        view: &Position<R>,
        compiler: &mut Compiler,
        place: Place,
        serving: &mut Vec<u32>,
        q: Point,
    ) -> Result<Judged, SearchError> {
        match after_move::<R>(view, q)? {
            None => Ok(Judged::Denies),
            Some(mut next) => self.judge_at(&mut next, compiler, place, serving, q),
        }
    }

    /// What a reply comes to at the position after it.
    fn judge_at(
        &mut self,
        next: &mut Position<R>,
        compiler: &mut Compiler,
        place: Place,
        serving: &mut Vec<u32>,
        q: Point,
    ) -> Result<Judged, SearchError> {
        let known = self.memory.find(next.board());
        if let Some(node) = known.won {
            return Ok(Judged::By(node));
        }
        if known.lost == self.width.round {
            return Ok(Judged::Denies);
        }
        let hint = answer_of(compiler, place.hint, q);
        match self.answer_to(next, compiler, hint, place.left, serving)? {
            None => Ok(Judged::Open(hint)),
            Some(node) => {
                self.memory.keep_won(next.board(), node)?;
                Ok(Judged::By(node))
            }
        }
    }

    /// A node that wins after the reply: one that has met another reply, the hint's answer, or one of fours or threats.
    fn answer_to(
        &mut self,
        next: &mut Position<R>,
        compiler: &mut Compiler,
        hint: Option<u32>,
        left: u32,
        serving: &mut Vec<u32>,
    ) -> Result<Option<u32>, SearchError> {
        if let Some(node) = self.first_serving(next, compiler, serving.as_slice())? {
            return Ok(Some(node));
        }
        let found = if self.serves(compiler, hint, next.board())? {
            hint
        } else {
            self.force(next, REPLY_BUDGET, left, compiler)?
        };
        if let Some(node) = found {
            add_node(serving, node)?;
        }
        Ok(found)
    }

    /// The first of these nodes that has a zone at the position.
    fn first_serving(
        &mut self,
        next: &Position<R>,
        compiler: &Compiler,
        serving: &[u32],
    ) -> Result<Option<u32>, AllocError> {
        for node in serving {
            if self.serves(compiler, Some(*node), next.board())? {
                return Ok(Some(*node));
            }
        }
        Ok(None)
    }

    /// Compiles the attack where each reply is met; else the replies that stay open get children.
    pub(crate) fn take_met(
        &mut self,
        tree: &mut ProofTree,
        compiler: &mut Compiler,
        place: Place,
        met: &Met,
    ) -> Result<Step, SearchError>
        requires small { IsSmall tree.old place.most }
        ensures small { OnOk result (IsSmall tree.new place.most) }
    {
        if met.children.is_empty() {
            let node = self.compile(compiler, place.at, met.rest, met.answers.as_slice())?;
            if let Some(number) = node {
                self.notes.mark_quiet(number)?;
            }
            return Ok(self.settle_by(tree, place, node));
        }
        if !self.notes.has_room(met.answers.len()) {
            return Ok(Step::Spent);
        }
        self.notes
            .write_rest(place.leaf, met.rest, met.answers.as_slice())?;
        self.expand(tree, &met.children, place.most)
    }
}
