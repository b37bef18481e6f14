//! Positions that come twice.
//!
//! Moves in other orders lead to the same position, so a leaf may stand for a node with children elsewhere in the tree. Then the leaf is
//! not expanded: it takes the numbers of that node, and the search goes on below the node until the position is settled. What is known of
//! the position settles the leaf then; that the two have one position is a hint alone, and nothing rests on it.
#![tactic(auto)]

ghost use Rattle.std.specs.Prelude.{◌≡◌, ◌<◌, ◌≤◌, false, length, IfSome};
ghost use Rattle.proof_tree.specs.Combining.{is_settled};
ghost use Rattle.proof_tree.specs.Trees.{numbers_at};
ghost use Rattle.proof_number.specs.Searches.{HasFollowed, IsOpenLeaf, IsOther, IsThere, Searches, StandsAt};

use crate::notes::Settled;
use crate::search::Search;
use foul_judge::Seen;
use proof_tree::{Kind, Numbers, ProofTree};
use row_shapes::Rule;
use strategy_compiler::Compiler;

impl Search {
    /// Goes to a leaf. Where it stands for another node it takes that node's numbers, and the way goes on to the most-proving leaf
    /// below the node, at most so many times.
    pub(crate) fn go_on<R: Rule, V: Seen<R>>(
        &mut self,
        view: &mut V,
        tree: &mut ProofTree,
        compiler: &Compiler,
        leaf: u32,
        times: u32,
    ) -> u32
        requires searching { Searches R.KIND self.old tree.old compiler.now (λ i. ⊥) }
        requires leaf { IsOpenLeaf tree.old leaf }
        requires open { is_settled (numbers_at tree.old.numbers 0) ≡ false }
        requires view { V.position view.old ≡ self.old.root }
        requires board { self.old.board ≡ self.old.root }
        ensures there { IsThere R.KIND self.old self.new tree.old tree.new compiler.now result (V.position view.new) }
    {
        self.go_to::<R, V>(view, tree, leaf);
        if times == 0 {
            return leaf;
        }
        match self.other_node::<R, V>(view, tree, compiler, leaf) {
            None => leaf,
            Some(node) => {
                self.take_back::<R, V>(view, tree, leaf);
                self.follow::<R>(tree, compiler, leaf, node);
                let below = tree.most_proving_below(node);
                self.go_on::<R, V>(view, tree, compiler, below, times - 1)
            }
        }
    }

    /// The node for which a leaf of the attacker stands, if it is alive.
    fn other_node<R: Rule, V: Seen<R>>(
        &mut self,
        view: &V,
        tree: &ProofTree,
        compiler: &Compiler,
        leaf: u32,
    ) -> Option<u32>
        requires at_leaf { StandsAt R.KIND self.old tree.now compiler.now leaf (V.position view.now) }
        ensures other { IfSome result (IsOther tree.now leaf) }
        ensures still { StandsAt R.KIND self.new tree.now compiler.now leaf (V.position view.now) }
        ensures rest { self.new ≡ record self.old { settled = self.new.settled } }
    {
        if leaf == 0 || tree.link(leaf).kind == Kind::Defend {
            return None;
        }
        match self.recall::<R, V>(view, leaf) {
            Some(Settled::Open(node)) => {
                if node < tree.len() && tree.is_alive(node) {
                    return Some(node);
                }
                None
            }
            _ => None,
        }
    }

    /// Gives a leaf the numbers of another node, as far as numbers may still rise.
    fn follow<R: Rule>(&mut self, tree: &mut ProofTree, compiler: &Compiler, leaf: u32, node: u32)
        requires searching { Searches R.KIND self.old tree.old compiler.now (λ i. ⊥) }
        requires leaf { IsOpenLeaf tree.old leaf }
        requires other { IsOther tree.old leaf node }
        ensures followed { HasFollowed R.KIND self.old self.new tree.old tree.new compiler.now }
    {
        // This tells what holds of every tree.
        tree.len();
        let old = tree.numbers(leaf);
        let other = tree.numbers(node);
        let room = Numbers {
            proof: old.proof + self.spare.proof,
            disproof: old.disproof + self.spare.disproof,
        };
        let found = Numbers {
            proof: other.proof.min(room.proof),
            disproof: other.disproof.min(room.disproof),
        };
        self.spare = Numbers {
            proof: room.proof - found.proof,
            disproof: room.disproof - found.disproof,
        };
        tree.renumber(leaf, found);
    }
}
