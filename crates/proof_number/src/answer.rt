//! The answer of the search.
//!
//! The root is looked at first. Then one step follows another, each of which settles the most-proving leaf or gives it its
//! children, until the numbers of the root are settled or the budget is spent. What the root says then is the answer, and its
//! win is compiled already.
#![tactic(auto)]

ghost use Rattle.std.specs.Prelude.{◌≡◌, ◌≤◌, ◌<◌, false, length, min, IfOk, OnOk};
ghost use Rattle.proof_tree.specs.Combining.{is_settled};
ghost use Rattle.proof_tree.specs.Trees.{numbers_at};
ghost use Rattle.proof_number.specs.declared.TheConstants.{MAX_DEPTH, MAX_BUDGET};
ghost use Rattle.threat_game.specs.ThreatGame.{threat_tree};
ghost use Rattle.proof_number.specs.Answers.{OnWin, HasNoThreatWin, RootSays, Leaves};
ghost use Rattle.proof_number.specs.Denials.{HasDenial};
ghost use Rattle.proof_number.specs.SearchTrees.{HasDisproved, HasRunOut, IsSearchTree};
ghost use Rattle.proof_number.specs.Searches.{CanBegin};
ghost use Rattle.proof_number.specs.ThreatWins.{threat_wins};
ghost use Rattle.proof_number.specs.Told.{IsTold};
ghost use Rattle.threat_game.specs.Wins.{IsThreatWin};

use crate::looks::Looks;
use crate::search::{Search, Step};
use foul_judge::Seen;
use proof_tree::ProofTree;
use row_shapes::Rule;
use std::alloc::Global;
use strategy_compiler::{Compiler, SearchError, WrittenWin};

/// What the search for a win by threats finds.
#[derive(Clone, Copy, Debug, PartialEq, Eq)]
pub enum ProofAnswer {
    /// A win by threats within the depth.
    Win(WrittenWin),
    /// There is none.
    None,
    /// The game of threats has more positions than the budget.
    Spent,
}

/// Searches a win by threats for the side to move within `depth` moves, 1 to `MAX_DEPTH`, with a budget of positions to look
/// at, 1 to `MAX_BUDGET`. A position counts each time that the attacker is to move in it. The tree has one node, which is not
/// settled, and grows.
///
/// - `Win` comes only where there is such a win. The node is accepted and wins within its moves, at most `depth`, whatever
///   the replies. The root of the tree is proved.
/// - `None` comes only where there is none within `depth` moves, and so none by continuous fours. The root is disproved, and has a
///   child for each move that is to be tried, unless `depth` is 1. A denial shows it, of no more positions of the attacker than may be
///   counted, the lesser of the budget and those of the game of threats. One with two moves left at most need not be among them.
/// - `Spent` comes only where the game of threats has more positions within `depth` moves than the budget, and the search has run out:
///   the root is not settled, and to go on at the most-proving leaf would count more positions of one side than the budget.
///
/// With each answer the tree is one of the game, and of each side no more positions are counted than the budget: each node counts, and a
/// proved one of the attacker as two more at most.
///
/// No more nodes are added to the compiler than the budget and than positions of the game of threats are won, those before a refusal
/// too; with an answer the tree has at most twice as many nodes as positions may be counted. `Full` comes only where the compiler has
/// no room for as many; `Memory` where there is no memory. After each answer and refusal the view is as before, and the compiler's
/// earlier nodes stay; the tree keeps the nodes that were made.
pub fn proof_number<R: Rule, V: Seen<R>>(
    alloc: Global,
    view: &mut V,
    depth: u32,
    budget: u64,
    tree: &mut ProofTree,
    compiler: &mut Compiler,
) -> Result<ProofAnswer, SearchError>
    requires some_depth { 1 ≤ depth }
    requires depth_fits { depth ≤ MAX_DEPTH }
    requires some_budget { 1 ≤ budget }
    requires budget_fits { budget ≤ MAX_BUDGET }
    requires one_node { length tree.old.links ≡ 1 }
    requires open { is_settled (numbers_at tree.old.numbers 0) ≡ false }
    ensures win { IfOk result (λ a. OnWin a (IsThreatWin R.KIND depth (V.position view.old) compiler.new)) }
    ensures none { IfOk result (λ a. a ≡ ProofAnswer.None → HasNoThreatWin R.KIND depth (V.position view.old)) }
    ensures denial { IfOk result (λ a. a ≡ ProofAnswer.None
        → HasDenial R.KIND depth (V.position view.old) (min budget (threat_tree R.KIND depth (V.position view.old)))) }
    ensures spent { IfOk result (λ a. a ≡ ProofAnswer.Spent → budget < threat_tree R.KIND depth (V.position view.old)) }
    ensures root { IfOk result (λ a. RootSays a (numbers_at tree.new.numbers 0)) }

    // What the tree lists with each answer, after a denial, and where the search has run out.
    ensures searched { OnOk result (IsSearchTree R.KIND depth budget (V.position view.old) tree.new) }
    ensures looked { IfOk result (λ a. a ≡ ProofAnswer.None → HasDisproved R.KIND depth budget (V.position view.old) tree.new) }
    ensures ran_out { IfOk result (λ a. a ≡ ProofAnswer.Spent → HasRunOut R.KIND depth budget (V.position view.old) tree.new) }

    // What every answer and refusal leaves, and when the compiler is full.
    ensures leaves { Leaves (min budget (threat_tree R.KIND depth (V.position view.old)))
        (min budget (threat_wins R.KIND depth (V.position view.old))) tree.old tree.new compiler.old compiler.new result }
    ensures same { V.position view.new ≡ V.position view.old }
{
    // This tells what holds of every tree.
    tree.len();
    let before = compiler.len();
    let mut search = Search::new(alloc, view.board(), depth as u8, budget, before)?;
    let mut looks = Looks::<R>::new(alloc);
    search.run::<R, V>(&mut looks, view, tree, compiler)
}

impl Search {
    /// Looks at the root and takes step after step until it is settled or the budget is spent, and tells what it says then.
    fn run<R: Rule, V: Seen<R>>(
        &mut self,
        looks: &mut Looks<R>,
        view: &mut V,
        tree: &mut ProofTree,
        compiler: &mut Compiler,
    ) -> Result<ProofAnswer, SearchError>
        requires begins { CanBegin self.old tree.old compiler.old (V.position view.old) }
        ensures told { IsTold R.KIND self.old tree.old tree.new compiler.old compiler.new result }
        ensures same { V.position view.new ≡ V.position view.old }
    {
        self.begin::<R, V>(view, tree, compiler)?;
        while !tree.numbers(0).is_settled() {
            match self.step::<R, V>(looks, view, tree, compiler)? {
                Step::Done => {}
                Step::Spent => return Ok(ProofAnswer::Spent),
            }
        }
        match self.notes[0].win() {
            Some(win) => Ok(ProofAnswer::Win(win)),
            None => Ok(ProofAnswer::None),
        }
    }
}
