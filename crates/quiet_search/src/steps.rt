//! The steps of the search: the most-proving leaf is reached, settled or given children, until the root is settled.
#![tactic(auto)]

ghost use Rattle.std.specs.Prelude.{◌≡◌, OnOk};
ghost use Rattle.quiet_tree.specs.Trees.{IsSmall};

use crate::finder::{Finder, plays};
use foul_judge::Position;
use proof_tree::{Kind, Numbers, ProofTree};
use quiet_tree::{Note, grow_leaf, is_decided, link_of, numbers_of, settle_leaf};
use row_shapes::Rule;
use std::alloc::{AllocError, Global};
use stone_board::Point;
use strategy_compiler::{Compiler, SearchError};

/// What a step did.
#[derive(Clone, Copy)]
pub(crate) enum Step {
    /// The leaf was settled or has children.
    Done,
    /// There is no room for the children, or for the answers to them.
    Spent,
}

/// What a round came to.
#[derive(Clone, Copy)]
pub(crate) enum Ended {
    /// The root is proved: this node wins, if its win was compiled.
    Proved(Option<u32>),
    /// All moves that were tried are disproved.
    Disproved,
    /// There is no room for more.
    Spent,
}

/// The leaf that a step is at, the moves that the attacker has left there, the move that leads to it, its hint, and the most nodes of the
/// tree.
#[derive(Clone, Copy)]
pub(crate) struct Place {
    pub(crate) leaf: u32,
    pub(crate) left: u32,
    pub(crate) at: Point,
    pub(crate) hint: Option<u32>,
    pub(crate) most: u32,
}

/// The children that a leaf is to get.
#[derive(Drop)]
pub(crate) struct Children {
    numbers: Vec<Numbers>,
    notes: Vec<Note>,
}

impl Children {
    /// None yet.
    pub(crate) fn new(alloc: Global) -> Children {
        Children {
            numbers: Vec::new(alloc),
            notes: Vec::new(alloc),
        }
    }

    /// One child.
    pub(crate) fn one(alloc: Global, numbers: Numbers, note: Note) -> Result<Children, AllocError> {
        let mut children = Children::new(alloc);
        children.push(numbers, note)?;
        Ok(children)
    }

    /// Whether there are none.
    pub(crate) fn is_empty(&self) -> bool {
        self.numbers.is_empty()
    }

    /// Adds one.
    pub(crate) fn push(&mut self, numbers: Numbers, note: Note) -> Result<(), AllocError> {
        self.numbers.push(numbers)?;
        self.notes.push(note)?;
        Ok(())
    }
}

/// The nodes from one up to the root.
fn way_up(alloc: Global, tree: &ProofTree, from: u32) -> Result<Vec<u32>, AllocError> {
    let mut way = Vec::new(alloc);
    let mut i = from;
    for _ in 0..tree.len() {
        way.push(i)?;
        if i == 0 {
            return Ok(way);
        }
        i = link_of(tree, i).parent;
    }
    Ok(way)
}

impl<R: Rule> Finder<R> {
    /// Takes step after step until the root is settled or there is no room. Each step settles a node of the tree or gives it its
    /// children, so there are no more steps than nodes.
    pub(crate) fn run(
        &mut self,
        tree: &mut ProofTree,
        compiler: &mut Compiler,
        most: u32,
    ) -> Result<Ended, SearchError>
        requires small { IsSmall tree.old most }
        ensures small { OnOk result (IsSmall tree.new most) }
    {
        for _ in 0..most {
            let step = self.step(tree, compiler, most)?;
            if is_decided(tree) {
                return Ok(self.decided(tree));
            }
            if self.is_spent(step, most) {
                return Ok(Ended::Spent);
            }
        }
        Ok(Ended::Spent)
    }

    /// Whether the step, or what was looked at for so many nodes, leaves no room for more.
    fn is_spent(&self, step: Step, most: u32) -> bool {
        match step {
            Step::Done => self.has_looked_enough(most),
            Step::Spent => true,
        }
    }

    /// What a settled root says.
    fn decided(&self, tree: &ProofTree) -> Ended {
        if numbers_of(tree, 0).proof == 0 {
            Ended::Proved(self.notes.note(0).win)
        } else {
            Ended::Disproved
        }
    }

    /// Goes to the most-proving leaf, settles it or gives it children, and compiles and remembers what is settled above it.
    fn step(
        &mut self,
        tree: &mut ProofTree,
        compiler: &mut Compiler,
        most: u32,
    ) -> Result<Step, SearchError>
        requires small { IsSmall tree.old most }
        ensures small { OnOk result (IsSmall tree.new most) }
    {
        if is_decided(tree) {
            return Ok(Step::Done);
        }
        let leaf = tree.most_proving();
        let way = way_up(self.alloc, tree, leaf)?;
        let place = self.place_of(leaf, way.len(), most);
        self.step_up(tree, compiler, way.as_slice(), place)
    }

    /// What a step has to know of a leaf with so many nodes from it up to the root.
    fn place_of(&self, leaf: u32, nodes: usize, most: u32) -> Place
        ensures most { result.most ≡ most }
    {
        let note = self.notes.note(leaf);
        let moved = u32::try_from(nodes / 2).unwrap_or(u32::MAX);
        Place {
            leaf,
            left: self.depth.saturating_sub(moved),
            at: note.at,
            hint: note.hint,
            most,
        }
    }

    /// Does what there is to do at the leaf, and then above it.
    fn step_up(
        &mut self,
        tree: &mut ProofTree,
        compiler: &mut Compiler,
        way: &[u32],
        place: Place,
    ) -> Result<Step, SearchError>
        requires small { IsSmall tree.old place.most }
        ensures small { OnOk result (IsSmall tree.new place.most) }
    {
        let done = self.step_at(tree, compiler, way, place)?;
        self.go_up(tree, compiler, way)?;
        Ok(done)
    }

    /// Settles the leaf or gives it children. One that is not reached is disproved.
    fn step_at(
        &mut self,
        tree: &mut ProofTree,
        compiler: &mut Compiler,
        way: &[u32],
        place: Place,
    ) -> Result<Step, SearchError>
        requires small { IsSmall tree.old place.most }
        ensures small { OnOk result (IsSmall tree.new place.most) }
    {
        let Some(mut view) = self.reach(way)? else {
            settle_leaf(tree, false, place.most);
            return Ok(Step::Done);
        };
        match link_of(tree, place.leaf).kind {
            Kind::Attack => self.attack(&mut view, tree, compiler, place),
            Kind::Defend => self.defend(&mut view, tree, compiler, place),
        }
    }

    /// The position at the first node of a way up to the root, if all its moves go on.
    pub(crate) fn reach(&self, way: &[u32]) -> Result<Option<Position<R>>, AllocError> {
        let mut view = self.root.copy()?;
        if self.plays_down(&mut view, way) {
            Ok(Some(view))
        } else {
            Ok(None)
        }
    }

    /// Plays the moves of a way up to the root, the last of the way first, and tells whether all go on.
    fn plays_down(&self, view: &mut Position<R>, way: &[u32]) -> bool {
        for k in 0..way.len() {
            let i = way[way.len() - 1 - k];
            if i != 0 && !plays::<R>(view, self.notes.note(i).at) {
                return false;
            }
        }
        true
    }

    /// Settles a leaf as won by a node.
    pub(crate) fn win(&mut self, tree: &mut ProofTree, place: Place, node: u32)
        requires small { IsSmall tree.old place.most }
        ensures small { IsSmall tree.new place.most }
    {
        self.notes.write_win(place.leaf, node);
        settle_leaf(tree, true, place.most);
    }

    /// Gives the leaf these children, or settles it as disproved if there are none.
    pub(crate) fn expand(
        &mut self,
        tree: &mut ProofTree,
        children: &Children,
        most: u32,
    ) -> Result<Step, SearchError>
        requires small { IsSmall tree.old most }
        ensures small { OnOk result (IsSmall tree.new most) }
    {
        if children.is_empty() {
            settle_leaf(tree, false, most);
            return Ok(Step::Done);
        }
        if !grow_leaf(tree, children.numbers.as_slice(), most)? {
            return Ok(Step::Spent);
        }
        self.notes.add(children.notes.as_slice())?;
        Ok(Step::Done)
    }
}
