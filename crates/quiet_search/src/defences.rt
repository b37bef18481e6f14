//! The defender's leaves: the block of a four, or the replies that may harm the win which follows a pass.
#![tactic(auto)]

ghost use Rattle.std.specs.Prelude.{OnOk};
ghost use Rattle.quiet_tree.specs.Trees.{IsSmall};

use crate::candidates::{in_order, least_point};
use crate::finder::{Finder, after_move, answer_of, is_on, rest_of};
use crate::replies::Met;
use crate::steps::{Children, Place, Step};
use foul_judge::{Position, Seen};
use proof_tree::{Numbers, ProofTree};
use quiet_tree::{Note, settle_leaf};
use row_shapes::{FivePoints, Rule};
use std::alloc::AllocError;
use stone_board::{Board, Point, Points};
use strategy_compiler::{Compiler, SearchError};

/// The numbers of the one block of a four.
const BLOCK: Numbers = Numbers {
    proof: 1,
    disproof: 1,
};

impl<R: Rule> Finder<R> {
    /// Settles a leaf of the defender, or gives it children.
    pub(crate) fn defend(
        &mut self,
        view: &mut Position<R>,
        tree: &mut ProofTree,
        compiler: &mut Compiler,
        place: Place,
    ) -> Result<Step, SearchError>
        requires small { IsSmall tree.old place.most }
        ensures small { OnOk result (IsSmall tree.new place.most) }
    {
        match view.fives_in_short(self.attacker) {
            FivePoints::One(block) => self.defend_four(view, tree, compiler, place, block),
            FivePoints::None => self.defend_quiet(view, tree, compiler, place),
            FivePoints::Several => {
                settle_leaf(tree, false, place.most);
                Ok(Step::Done)
            }
        }
    }

    /// After a four: the block has a child, and the five answers all other replies.
    fn defend_four(
        &mut self,
        view: &mut Position<R>,
        tree: &mut ProofTree,
        compiler: &mut Compiler,
        place: Place,
        block: Point,
    ) -> Result<Step, SearchError>
        requires small { IsSmall tree.old place.most }
        ensures small { OnOk result (IsSmall tree.new place.most) }
    {
        let rest = compiler.winning(block)?;
        if is_on::<R>(view, block) {
            let hint = answer_of(compiler, place.hint, block);
            return self.add_block(tree, place, rest, Note::open(block, hint));
        }
        let node = self.compile(compiler, place.at, rest, &[])?;
        Ok(self.settle_by(tree, place, node))
    }

    /// Gives the leaf the block of a four as its one child.
    fn add_block(
        &mut self,
        tree: &mut ProofTree,
        place: Place,
        rest: u32,
        block: Note,
    ) -> Result<Step, SearchError>
        requires small { IsSmall tree.old place.most }
        ensures small { OnOk result (IsSmall tree.new place.most) }
    {
        let children = Children::one(self.alloc, BLOCK, block)?;
        self.notes.write_rest(place.leaf, rest, &[])?;
        self.expand(tree, &children, place.most)
    }

    /// After another attack: the defender's fours deny it, no win after a pass does, and else the replies that may harm are met.
    fn defend_quiet(
        &mut self,
        view: &mut Position<R>,
        tree: &mut ProofTree,
        compiler: &mut Compiler,
        place: Place,
    ) -> Result<Step, SearchError>
        requires small { IsSmall tree.old place.most }
        ensures small { OnOk result (IsSmall tree.new place.most) }
    {
        if self.is_denied(view)? {
            settle_leaf(tree, false, place.most);
            return Ok(Step::Done);
        }
        match self.met_replies(view, compiler, place)? {
            None => {
                settle_leaf(tree, false, place.most);
                Ok(Step::Done)
            }
            Some(met) => self.take_met(tree, compiler, place, &met),
        }
    }

    /// What the replies that may harm the win after a pass come to. `None` says that there is no such win with a zone, or that one
    /// of the replies denies the attack.
    fn met_replies(
        &mut self,
        view: &mut Position<R>,
        compiler: &mut Compiler,
        place: Place,
    ) -> Result<Option<Met>, SearchError> {
        let Some(rest) = self.win_after_pass(view, compiler, place)? else {
            return Ok(None);
        };
        let Some(replies) = self.harmful_replies(view, compiler, rest)? else {
            return Ok(None);
        };
        self.meet_all(view, compiler, place, rest, replies.as_slice())
    }

    /// The node that wins after a pass: that of the hint, if it has a zone here, or one of fours or threats.
    fn win_after_pass(
        &mut self,
        view: &Position<R>,
        compiler: &mut Compiler,
        place: Place,
    ) -> Result<Option<u32>, SearchError> {
        let hinted = rest_of(compiler, place.hint);
        if self.serves(compiler, hinted, view.board())? {
            return Ok(hinted);
        }
        match least_point(view.board(), self.attacker) {
            None => Ok(None),
            Some(q) => self.win_after(view, q, compiler, place.left),
        }
    }

    /// The node of a win by fours or threats after a reply, if one is found with the budget of the round.
    fn win_after(
        &mut self,
        view: &Position<R>,
        q: Point,
        compiler: &mut Compiler,
        left: u32,
    ) -> Result<Option<u32>, SearchError> {
        match after_move::<R>(view, q)? {
            None => Ok(None),
            Some(mut passed) => self.force(&mut passed, self.width.budget, left, compiler),
        }
    }

    /// The replies that may harm the zone of the rest, those first that are tried first; nothing where it has no zone.
    fn harmful_replies(
        &mut self,
        view: &Position<R>,
        compiler: &Compiler,
        rest: u32,
    ) -> Result<Option<Points>, AllocError> {
        match self.zone_at(compiler, rest, view.board())? {
            None => Ok(None),
            Some(zone) => Ok(Some(self.replies_to(view.board(), zone)?)),
        }
    }

    /// The replies that may harm the zone, those first that are tried first.
    fn replies_to(&self, board: &Board, zone: u32) -> Result<Points, AllocError> {
        let harmful = self.zones.harmful(board, zone)?;
        in_order(self.alloc, board, self.attacker, harmful.as_slice())
    }
}
