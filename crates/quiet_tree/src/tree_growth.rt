//! The tree as this search uses it: every look at a node is tested, and it grows to its bound at most.
#![tactic(auto)]

ghost use Rattle.std.specs.Prelude.{◌≡◌, ◌≤◌, IfOk};
ghost use Rattle.std.specs.List.{list_all};
ghost use Rattle.proof_tree.specs.Combining.{is_settled};
ghost use Rattle.proof_tree.specs.Trees.{numbers_at, IsTree};
ghost use Rattle.quiet_tree.specs.Trees.{IsSmall, is_small as is_small_lem};
ghost use Rattle.quiet_tree.specs.declared.TheConstants.{MAX_LISTED};

use crate::MOST_NUMBER;
use proof_tree::{Kind, Link, Numbers, ProofTree};
use std::alloc::{AllocError, Global};

/// The most children of a node: a board has so many points at most.
const MOST_CHILDREN: usize = 1_024;

/// What is told of a node that the tree does not have.
const NO_NUMBERS: Numbers = Numbers {
    proof: 1,
    disproof: 1,
};

/// A tree of one leaf.
pub fn lone_leaf(alloc: Global, most: u32) -> Result<ProofTree, AllocError>
    requires some { 1 ≤ most }
    requires fits { most ≤ MAX_LISTED }
    ensures small { IfOk result (λ t. IsSmall t most) }
{
    ProofTree::new(alloc)
}

/// The numbers of node `i`.
pub fn numbers_of(tree: &ProofTree, i: u32) -> Numbers {
    if i < tree.len() {
        tree.numbers(i)
    } else {
        NO_NUMBERS
    }
}

/// How node `i` is joined to the others.
pub fn link_of(tree: &ProofTree, i: u32) -> Link {
    if i < tree.len() {
        tree.link(i)
    } else {
        Link {
            kind: Kind::Attack,
            parent: 0,
            first: 0,
            count: 0,
        }
    }
}

/// Whether the root is settled.
pub fn is_decided(tree: &ProofTree) -> bool
    ensures decided { result ≡ is_settled (numbers_at tree.now.numbers 0) }
    ensures tree { IsTree tree.now }
{
    // This tells what holds of every tree.
    tree.len();
    tree.numbers(0).is_settled()
}

/// Settles the most-proving leaf, if the root is open.
pub fn settle_leaf(tree: &mut ProofTree, proved: bool, most: u32)
    requires small { IsSmall tree.old most }
    ensures small { IsSmall tree.new most }
{
    if !is_decided(tree) {
        tree.settle(proved);
    }
}

/// Whether both numbers are positive and not large.
fn is_small(numbers: Numbers) -> bool
    ensures small { result ≡ is_small_lem numbers }
{
    1 <= numbers.proof
        && numbers.proof <= MOST_NUMBER
        && 1 <= numbers.disproof
        && numbers.disproof <= MOST_NUMBER
}

/// Whether all the numbers are so.
fn are_small(children: &[Numbers]) -> bool
    ensures small { result ≡ list_all is_small_lem children.now }
{
    children.iter().all(|numbers| is_small(*numbers))
}

/// Gives the most-proving leaf these children, if there is room for them: `false` says that there is none.
pub fn grow_leaf(tree: &mut ProofTree, children: &[Numbers], most: u32) -> Result<bool, AllocError>
    requires small { IsSmall tree.old most }
    ensures small { IsSmall tree.new most }
{
    if children.is_empty() || children.len() > MOST_CHILDREN || is_decided(tree) {
        return Ok(false);
    }
    if children.len() as u32 > most.saturating_sub(tree.len()) || !are_small(children) {
        return Ok(false);
    }
    // This tells which leaf it is.
    tree.most_proving();
    tree.expand(children)?;
    Ok(true)
}
