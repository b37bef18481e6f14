//! The first look at the root: a five point, or one move alone.
//!
//! With a five point the root is won at once, and with one move left no other win is possible but a move to which each reply
//! fouls. So a tree is grown only where the attacker has no five point and two moves or more.
#![tactic(auto)]

ghost use Rattle.std.specs.Prelude.{◌≡◌, ◌<◌, false};
ghost use Rattle.game_rules.specs.Play.{IsPosition, mover};
ghost use Rattle.game_rules.specs.Games.{has_five};
ghost use Rattle.strategy_compiler.specs.Nodes.{IsCompiled};
ghost use Rattle.proof_tree.specs.Trees.{IsTree};
ghost use Rattle.proof_number.specs.Searches.{CanBegin, HasBegun};

use crate::search::Search;
use foul_judge::Seen;
use proof_tree::ProofTree;
use row_shapes::Rule;
use strategy_compiler::{Compiler, SearchError};
use threat_game::{compile_five, compile_last, last_move};
use threat_moves::fives;

impl Search {
    /// Settles the root where its attacker has a five point, or one move alone.
    pub(crate) fn begin<R: Rule, V: Seen<R>>(
        &mut self,
        view: &mut V,
        tree: &mut ProofTree,
        compiler: &mut Compiler,
    ) -> Result<(), SearchError>
        requires begins { CanBegin self.old tree.old compiler.old (V.position view.old) }
        ensures begun { HasBegun R.KIND self.old self.new tree.new compiler.old compiler.new result }
        ensures same { V.position view.new ≡ V.position view.old }
    {
        // These tell what holds of every tree and of every compiler.
        tree.len();
        compiler.len();
        let attacker = view.side();
        let fives = fives::<R, V>(self.alloc, view, attacker)?;
        match fives.as_slice() {
            [five, ..] => {
                let win = compile_five(compiler, *five)?;
                self.settle_won(tree, 0, win);
                Ok(())
            }
            [] => {
                if self.depth > 1 {
                    return Ok(());
                }
                self.one_move::<R, V>(view, tree, compiler)
            }
        }
    }

    /// Settles the root, whose attacker has one move and no five point.
    fn one_move<R: Rule, V: Seen<R>>(
        &mut self,
        view: &mut V,
        tree: &mut ProofTree,
        compiler: &mut Compiler,
    ) -> Result<(), SearchError>
        requires begins { CanBegin self.old tree.old compiler.old (V.position view.old) }
        requires one_move { self.old.depth ≡ 1 }
        requires no_five { has_five R.KIND (V.position view.old) (mover (V.position view.old)) ≡ false }
        requires lawful { IsPosition R.KIND (V.position view.old) }
        requires tree { IsTree tree.old }
        requires compiled { IsCompiled compiler.old }
        ensures begun { HasBegun R.KIND self.old self.new tree.new compiler.old compiler.new result }
        ensures same { V.position view.new ≡ V.position view.old }
    {
        match last_move::<R, V>(view, &mut self.board) {
            Some(p) => {
                let win = compile_last(compiler, p)?;
                self.settle_won(tree, 0, win);
                Ok(())
            }
            None => {
                tree.settle_at(0, false);
                Ok(())
            }
        }
    }
}
