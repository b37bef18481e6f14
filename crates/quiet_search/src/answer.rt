//! The answer of the search, and its rounds.
//!
//! A root whose moves are all disproved is searched again, with more moves tried and threats searched harder, a few times.
#![tactic(auto)]

ghost use Rattle.std.specs.Prelude.{◌≤◌, ◌<◌, length, IfOk, IfSome, OnOk};
ghost use Rattle.quiet_search.specs.declared.TheConstants.{MAX_DEPTH};
ghost use Rattle.quiet_tree.specs.declared.TheConstants.{MAX_LISTED};
ghost use Rattle.quiet_tree.specs.Trees.{IsSmall};

use crate::finder::{Finder, Width};
use crate::known::Memory;
use crate::steps::Ended;
use foul_judge::{Position, Seen};
use proof_tree::ProofTree;
use quiet_tree::{Notes, lone_leaf};
use quiet_zones::Zones;
use row_shapes::Rule;
use std::alloc::{AllocError, Global};
use strategy_compiler::{Compiler, SearchError};

/// So many rounds are searched at most.
const ROUNDS: u32 = 4;

/// The first round's width, and how much more each round has than the one before. Most positions are won in the first, or all moves
/// are disproved in a few steps, since no win after a pass is found. Then a search at a leaf with less than some thousand positions
/// seldom finds a win.
const FIRST_BUDGET: u64 = 200;

const FIRST_MOVES: u32 = 20;

const MORE_BUDGET: u64 = 20;

const MORE_MOVES: u32 = 2;

/// Searches a win with quiet moves for the side to move, within about `depth` moves, 1 to `MAX_DEPTH`. Each round grows a tree of at most
/// `nodes` nodes, 1 to `MAX_LISTED` of `quiet_tree`, one for each position that it lists, and that of the last round is left. That its
/// nodes stand for positions, no clause says. It ends soon after the searches for threats at these have listed eight times as many.
///
/// A node that is told is one of the compiler, and nothing more is said of it: a table that is finished from it has to be checked.
/// `None` says nothing of the position. `Full` says that the compiler has no room for a node, `Memory` that there is no memory.
pub fn quiet_search<R: Rule>(
    alloc: Global,
    position: &Position<R>,
    depth: u32,
    nodes: u32,
    tree: &mut ProofTree,
    compiler: &mut Compiler,
) -> Result<Option<u32>, SearchError>
    requires some_depth { 1 ≤ depth }
    requires depth_fits { depth ≤ MAX_DEPTH }
    requires some_nodes { 1 ≤ nodes }
    requires nodes_fit { nodes ≤ MAX_LISTED }
    ensures node { IfOk result (λ found. IfSome found (λ i. i < length compiler.new)) }
    ensures listed { OnOk result (length tree.new.links ≤ nodes) }
{
    let mut finder = Finder::<R>::new(alloc, position, depth)?;
    let ended = finder.rounds(tree, compiler, nodes)?;
    Ok(told(compiler, ended))
}

/// What the last round says: its node, if it is one of the compiler.
fn told(compiler: &Compiler, ended: Ended) -> Option<u32>
    ensures node { IfSome result (λ i. i < length compiler.now) }
{
    match ended {
        Ended::Proved(Some(node)) if node < compiler.len() => Some(node),
        _ => None,
    }
}

impl<R: Rule> Finder<R> {
    /// A finder at the position that has searched nothing.
    fn new(alloc: Global, position: &Position<R>, depth: u32) -> Result<Finder<R>, AllocError> {
        let root = position.copy()?;
        let attacker = root.side();
        let size = root.board().cells().len();
        Ok(Finder {
            alloc,
            root,
            attacker,
            depth,
            width: Width {
                round: 1,
                budget: FIRST_BUDGET,
                moves: FIRST_MOVES,
            },
            memory: Memory::new(alloc)?,
            zones: Zones::new(alloc, attacker, size)?,
            notes: Notes::new(alloc)?,
            looked: 0,
        })
    }

    /// Round after round, until one ends otherwise than disproved.
    fn rounds(
        &mut self,
        tree: &mut ProofTree,
        compiler: &mut Compiler,
        nodes: u32,
    ) -> Result<Ended, SearchError>
        requires some_nodes { 1 ≤ nodes }
        requires nodes_fit { nodes ≤ MAX_LISTED }
        ensures small { OnOk result (IsSmall tree.new nodes) }
    {
        *tree = lone_leaf(self.alloc, nodes)?;
        let mut ended = self.run(tree, compiler, nodes)?;
        for _ in 1..ROUNDS {
            let Ended::Disproved = ended else {
                return Ok(ended);
            };
            self.widen()?;
            *tree = lone_leaf(self.alloc, nodes)?;
            ended = self.run(tree, compiler, nodes)?;
        }
        Ok(ended)
    }

    /// Begins the next round: the tree's notes are those of one leaf again, and the width grows. What was won stays remembered.
    fn widen(&mut self) -> Result<(), AllocError> {
        self.notes.begin()?;
        self.width = Width {
            round: self.width.round.saturating_add(1),
            budget: self.width.budget.saturating_mul(MORE_BUDGET),
            moves: self.width.moves.saturating_mul(MORE_MOVES),
        };
        Ok(())
    }
}
