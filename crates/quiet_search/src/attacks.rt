//! The attacker's leaves: a win that is known, that of a hint, fours and threats, or else a child for each of the best moves.
#![tactic(auto)]

ghost use Rattle.std.specs.Prelude.{OnOk};
ghost use Rattle.quiet_tree.specs.Trees.{IsSmall};

use crate::candidates::best_moves;
use crate::finder::{Finder, after_move, attack_of};
use crate::steps::{Children, Place, Step};
use foul_judge::{Position, Seen};
use proof_tree::{Numbers, ProofTree};
use quiet_tree::{Note, settle_leaf};
use row_shapes::{FivePoints, Rule};
use std::alloc::AllocError;
use stone_board::{Point, Points, Side};
use strategy_compiler::{Compiler, SearchError};

/// The proof number of the best move, and what each move after it has more, up to a most.
const FIRST_PROOF: u32 = 4;

const MORE_PROOF: u32 = 10;

const MOST_MORE: u32 = 200;

/// What a move that makes a four has more.
const FOUR_PROOF: u32 = 2;

impl<R: Rule> Finder<R> {
    /// Settles a leaf of the attacker, or gives it children.
    pub(crate) fn attack(
        &mut self,
        view: &mut Position<R>,
        tree: &mut ProofTree,
        compiler: &mut Compiler,
        place: Place,
    ) -> Result<Step, SearchError>
        requires small { IsSmall tree.old place.most }
        ensures small { OnOk result (IsSmall tree.new place.most) }
    {
        let known = self.memory.find(view.board());
        if let Some(node) = known.won {
            self.win(tree, place, node);
            return Ok(Step::Done);
        }
        if known.lost == self.width.round {
            settle_leaf(tree, false, place.most);
            return Ok(Step::Done);
        }
        match self.win_at(view, compiler, place)? {
            Some(node) => {
                self.win(tree, place, node);
                Ok(Step::Done)
            }
            None => {
                let children = self.moves_from(view, compiler, place)?;
                self.expand(tree, &children, place.most)
            }
        }
    }

    /// The node that wins at the leaf: the hint, if it has a zone here, or one of fours or threats.
    fn win_at(
        &mut self,
        view: &mut Position<R>,
        compiler: &mut Compiler,
        place: Place,
    ) -> Result<Option<u32>, SearchError> {
        if self.serves(compiler, place.hint, view.board())? {
            return Ok(place.hint);
        }
        self.force(view, self.width.budget, place.left, compiler)
    }

    /// A child for the hint's move and for each of the best moves.
    fn moves_from(
        &mut self,
        view: &Position<R>,
        compiler: &Compiler,
        place: Place,
    ) -> Result<Children, AllocError> {
        let mut children = Children::new(self.alloc);
        if place.left < 2 {
            return Ok(children);
        }
        let hinted = self.hinted_move(view, compiler, place.hint);
        if let Some(p) = hinted {
            self.add_move(view, p, 1, place.hint, &mut children)?;
        }
        let moves = self.moves_at(view)?;
        let mut proof = FIRST_PROOF;
        for p in moves.as_slice() {
            if !is_point(hinted, *p) {
                self.add_move(view, *p, proof, None, &mut children)?;
                proof = proof
                    .saturating_add(MORE_PROOF)
                    .min(FIRST_PROOF + MOST_MORE);
            }
        }
        Ok(children)
    }

    /// The move of a hint that plays a quiet move, where the defender has no five point.
    fn hinted_move(
        &self,
        view: &Position<R>,
        compiler: &Compiler,
        hint: Option<u32>,
    ) -> Option<Point> {
        let node = hint?;
        if !self.notes.is_quiet(node) || view.has_five(self.attacker.other()) {
            return None;
        }
        let p = attack_of(compiler, node)?;
        if view.board().is_empty(p) {
            Some(p)
        } else {
            None
        }
    }

    /// The moves that are tried: the block of a five point of the defender alone, else the best, and none where it has several.
    fn moves_at(&self, view: &Position<R>) -> Result<Points, AllocError> {
        match view.fives_in_short(self.attacker.other()) {
            FivePoints::None => {
                best_moves(self.alloc, view.board(), self.attacker, self.width.moves)
            }
            FivePoints::One(p) => {
                let mut block = Points::new(self.alloc);
                block.push(p)?;
                Ok(block)
            }
            FivePoints::Several => Ok(Points::new(self.alloc)),
        }
    }

    /// Adds a child for a move that goes on and leaves the defender no five point.
    fn add_move(
        &self,
        view: &Position<R>,
        p: Point,
        proof: u32,
        hint: Option<u32>,
        children: &mut Children,
    ) -> Result<(), AllocError> {
        match after_move::<R>(view, p)? {
            None => Ok(()),
            Some(next) => add_child(children, &next, self.attacker, proof, Note::open(p, hint)),
        }
    }
}

/// Adds a child for the move that led to a position, if the defender has no five point there.
fn add_child<R: Rule>(
    children: &mut Children,
    next: &Position<R>,
    attacker: Side,
    proof: u32,
    note: Note,
) -> Result<(), AllocError> {
    if next.has_five(attacker.other()) {
        return Ok(());
    }
    let more = if next.has_five(attacker) {
        FOUR_PROOF
    } else {
        0
    };
    let numbers = Numbers {
        proof: proof.saturating_add(more),
        disproof: 1,
    };
    children.push(numbers, note)
}

/// Whether there is a point and it is this one.
fn is_point(found: Option<Point>, p: Point) -> bool {
    match found {
        Some(q) => q.is(p),
        None => false,
    }
}
