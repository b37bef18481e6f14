//! The way to a leaf and back.
//!
//! The moves are played on the view and on a copy of its board, and taken back one by one. On the way back each position of
//! the attacker that is now settled is compiled, if it is won, and remembered.
#![tactic(auto)]

ghost use Rattle.std.specs.Prelude.{◌≡◌, ◌<◌, length};
ghost use Rattle.proof_tree.specs.Trees.{IsTree, IsOnWayUp, link_at};
ghost use Rattle.proof_number.specs.GameTrees.{IsGameTree, board_at};
ghost use Rattle.proof_number.specs.Searches.{Searches, IsBack, game_of};

use crate::search::Search;
use foul_judge::Seen;
use proof_tree::ProofTree;
use row_shapes::Rule;
use strategy_compiler::{Compiler, SearchError};

impl Search {
    /// Plays the moves from the root to a node.
    pub(crate) fn go_to<R: Rule, V: Seen<R>>(&mut self, view: &mut V, tree: &ProofTree, node: u32)
        requires in_tree { node < length tree.now.links }
        requires tree { IsTree tree.now }
        requires game { IsGameTree (game_of R.KIND self.old tree.now) }
        requires view { V.position view.old ≡ self.old.root }
        requires board { self.old.board ≡ self.old.root }
        ensures view { V.position view.new ≡ board_at (game_of R.KIND self.old tree.now) node }
        ensures board { self.new.board ≡ board_at (game_of R.KIND self.old tree.now) node }
        ensures rest { self.new ≡ record self.old { board = self.new.board } }
    {
        if node == 0 {
            return;
        }
        let parent = tree.link(node).parent;
        self.go_to::<R, V>(view, tree, parent);
        let at = self.notes[node as usize].at;
        let side = view.side();
        view.play(at);
        self.board.put(at, side);
    }

    /// Takes the move back that leads to a node.
    fn step_back<R: Rule, V: Seen<R>>(&mut self, view: &mut V, tree: &ProofTree, node: u32)
        requires some { 0 < node }
        requires in_tree { node < length tree.now.links }
        requires tree { IsTree tree.now }
        requires game { IsGameTree (game_of R.KIND self.old tree.now) }
        requires view { V.position view.old ≡ board_at (game_of R.KIND self.old tree.now) node }
        requires board { self.old.board ≡ board_at (game_of R.KIND self.old tree.now) node }
        ensures view { V.position view.new ≡ board_at (game_of R.KIND self.old tree.now) (link_at tree.now.links node).parent }
        ensures board { self.new.board ≡ board_at (game_of R.KIND self.old tree.now) (link_at tree.now.links node).parent }
        ensures rest { self.new ≡ record self.old { board = self.new.board } }
    {
        let at = self.notes[node as usize].at;
        view.undo(at);
        self.board.lift(at);
    }

    /// Takes the moves back that lead from the root to a node.
    pub(crate) fn take_back<R: Rule, V: Seen<R>>(
        &mut self,
        view: &mut V,
        tree: &ProofTree,
        node: u32,
    )
        requires in_tree { node < length tree.now.links }
        requires tree { IsTree tree.now }
        requires game { IsGameTree (game_of R.KIND self.old tree.now) }
        requires view { V.position view.old ≡ board_at (game_of R.KIND self.old tree.now) node }
        requires board { self.old.board ≡ board_at (game_of R.KIND self.old tree.now) node }
        ensures view { V.position view.new ≡ self.old.root }
        ensures board { self.new.board ≡ self.old.root }
        ensures rest { self.new ≡ record self.old { board = self.new.board } }
    {
        if node == 0 {
            return;
        }
        self.step_back::<R, V>(view, tree, node);
        let parent = tree.link(node).parent;
        self.take_back::<R, V>(view, tree, parent);
    }

    /// Records the settled positions of the attacker from a node up to the root, and takes the moves back.
    pub(crate) fn go_back<R: Rule, V: Seen<R>>(
        &mut self,
        view: &mut V,
        tree: &ProofTree,
        compiler: &mut Compiler,
        node: u32,
    ) -> Result<(), SearchError>
        requires in_tree { node < length tree.now.links }
        requires searching { Searches R.KIND self.old tree.now compiler.old (IsOnWayUp tree.now.links node) }
        requires view { V.position view.old ≡ board_at (game_of R.KIND self.old tree.now) node }
        requires board { self.old.board ≡ board_at (game_of R.KIND self.old tree.now) node }
        ensures back { IsBack R.KIND self.old self.new tree.now compiler.old compiler.new result }
        ensures view { V.position view.new ≡ self.old.root }
    {
        let found = self.record::<R, V>(view, tree, compiler, node);
        if node == 0 {
            return found;
        }
        self.step_back::<R, V>(view, tree, node);
        let parent = tree.link(node).parent;
        match found {
            Ok(()) => self.go_back::<R, V>(view, tree, compiler, parent),
            Err(error) => {
                self.take_back::<R, V>(view, tree, parent);
                Err(error)
            }
        }
    }
}
