//! The tree: it grows at its leaves, and its numbers are right after every change.
//!
//! The numbers stand apart from the links, so that those of the children of a node are a slice.
#![tactic(auto)]

ghost use Rattle.std.specs.Prelude.{◌≡◌, ◌<◌, ◌≤◌, ◌+◌, ℕ, [], ◌∷◌, ◌++◌, false, length, IsTrue, ◌↔◌, IfOk, OnOk, OnErr, nat_eq};
ghost use Rattle.std.specs.Prelude.{replicate, slice_set, vec_len};
ghost use Rattle.std.specs.List.{All, position_or_len};
ghost use Rattle.proof_tree.specs.Combining.{AreNumbers, finite, is_settled, settled_numbers, sought};
ghost use Rattle.proof_tree.specs.Trees.{IsAlive, IsTree, OthersStay, grown_links, leaf_link, leaf_sum, link_at, numbers_at, walk_end};
ghost use Rattle.proof_tree.specs.Trees.{most_proving as most_proving_lem};
ghost use Rattle.proof_tree.specs.declared.Kind.{Kind as AnyKind};

use crate::updating::{renumber_leaf, update_from};
use crate::{INFINITE, Kind, Link, Numbers};
use std::alloc::{AllocError, Global};
use std::marker::Model;

/// A tree of proof and disproof numbers, which contracts see as the links of its nodes and their numbers.
#[derive(Debug, Drop)]
pub struct ProofTree {
    links: Vec<Link>,
    numbers: Vec<Numbers>,
}

impl Model for ProofTree {
    ghost use Rattle.proof_tree.specs.Trees.{IsTree, Tree};

    ghost Value = { Tree };

    ghost view = { λ t. record { links = t.links.items; numbers = t.numbers.items } };

    ghost invariant = { λ t. IsTree (record { links = t.links.items; numbers = t.numbers.items }) };
}

impl ProofTree {
    /// A tree of one leaf, node 0, which is an attacker's and has the numbers 1 and 1.
    pub fn new(alloc: Global) -> Result<ProofTree, AllocError>
        ensures links { IfOk result (λ t. t.links ≡ leaf_link AnyKind.Attack 0 ∷ []) }
        ensures numbers { IfOk result (λ t. t.numbers ≡ record { proof = 1; disproof = 1 } ∷ []) }
        ensures tree { IfOk result (λ t. IsTree t) }
    {
        let mut links = Vec::with_capacity(alloc, 1)?;
        links.push(Link {
            kind: Kind::Attack,
            parent: 0,
            first: 0,
            count: 0,
        })?;
        let mut numbers = Vec::with_capacity(alloc, 1)?;
        numbers.push(Numbers {
            proof: 1,
            disproof: 1,
        })?;
        Ok(ProofTree { links, numbers })
    }

    /// How many nodes there are.
    pub fn len(&self) -> u32
        ensures count { result ≡ length self.now.links }
        ensures tree { IsTree self.now }
    {
        self.links.len() as u32
    }

    /// The numbers of node `i`.
    pub fn numbers(&self, i: u32) -> Numbers
        requires in_tree { i < length self.now.links }
        ensures numbers { result ≡ numbers_at self.now.numbers i }
    {
        self.numbers[i as usize]
    }

    /// How node `i` is joined to the others.
    pub fn link(&self, i: u32) -> Link
        requires in_tree { i < length self.now.links }
        ensures link { result ≡ link_at self.now.links i }
    {
        self.links[i as usize]
    }

    /// The most-proving leaf: the end of the walk that starts at the root and goes, at each node with children, to the
    /// first child with the node's minimum.
    pub fn most_proving(&self) -> u32
        requires open { is_settled (numbers_at self.now.numbers 0) ≡ false }
        ensures leaf { result ≡ most_proving_lem self.now }
        ensures in_tree { result < length self.now.links }
        ensures childless { (link_at self.now.links result).count ≡ 0 }
        ensures open { is_settled (numbers_at self.now.numbers result) ≡ false }
    {
        // This tells what holds of every tree.
        self.len();
        self.most_proving_below(0)
    }

    /// The leaf to which the same walk leads from node `start`, which is not settled.
    pub fn most_proving_below(&self, start: u32) -> u32
        requires in_tree { start < length self.now.links }
        requires open { is_settled (numbers_at self.now.numbers start) ≡ false }
        ensures leaf { result ≡ walk_end (length self.now.links) self.now start }
        ensures in_tree { result < length self.now.links }
        ensures childless { (link_at self.now.links result).count ≡ 0 }
        ensures open { is_settled (numbers_at self.now.numbers result) ≡ false }
    {
        let mut number = start;
        loop {
            let link = self.links[number as usize];
            if link.count == 0 {
                return number;
            }
            let least = self.numbers[number as usize].sought(link.kind);
            let first = link.first as usize;
            let children = &self.numbers.as_slice()[first..first + link.count as usize];
            number = (first + first_with(children, link.kind, least)) as u32;
        }
    }

    /// Whether neither this node nor one above it is settled.
    pub fn is_alive(&self, start: u32) -> bool
        requires in_tree { start < length self.now.links }
        ensures alive { IsTrue result ↔ IsAlive self.now start }
    {
        let mut number = start;
        while !self.numbers[number as usize].is_settled() {
            if number == 0 {
                return true;
            }
            number = self.links[number as usize].parent;
        }
        false
    }

    /// Settles the most-proving leaf: it is proved, or else disproved. The numbers of the nodes above it follow, and
    /// all other nodes stay.
    pub fn settle(&mut self, proved: bool)
        requires open { is_settled (numbers_at self.old.numbers 0) ≡ false }
        ensures links { self.new.links ≡ self.old.links }
        ensures settled { numbers_at self.new.numbers (most_proving_lem self.old)
            ≡ settled_numbers proved }
        ensures others { OthersStay self.old.links (most_proving_lem self.old)
            self.old.numbers self.new.numbers }
        ensures leaves { (kind : AnyKind) → leaf_sum kind self.new.links self.new.numbers
            ≤ leaf_sum kind self.old.links self.old.numbers }
        ensures tree { IsTree self.new }
    {
        let leaf = self.most_proving();
        self.settle_at(leaf, proved);
    }

    /// Settles any leaf in the same way.
    pub fn settle_at(&mut self, leaf: u32, proved: bool)
        requires in_tree { leaf < length self.old.links }
        requires childless { (link_at self.old.links leaf).count ≡ 0 }
        ensures links { self.new.links ≡ self.old.links }
        ensures settled { numbers_at self.new.numbers leaf ≡ settled_numbers proved }
        ensures others { OthersStay self.old.links leaf self.old.numbers self.new.numbers }
        ensures leaves { (kind : AnyKind) → leaf_sum kind self.new.links self.new.numbers
            + finite (sought kind (numbers_at self.old.numbers leaf)) ≤ leaf_sum kind self.old.links self.old.numbers }
        ensures tree { IsTree self.new }
    {
        // This tells what holds of every tree.
        self.len();
        self.renumber(leaf, Numbers::settled(proved));
    }

    /// Gives a leaf other numbers. Those of the nodes above it follow, and all other nodes stay.
    pub fn renumber(&mut self, leaf: u32, numbers: Numbers)
        requires in_tree { leaf < length self.old.links }
        requires childless { (link_at self.old.links leaf).count ≡ 0 }
        requires numbers { AreNumbers numbers }
        requires sums { (kind : AnyKind) → leaf_sum kind self.old.links (slice_set self.old.numbers leaf numbers) < INFINITE }
        ensures links { self.new.links ≡ self.old.links }
        ensures numbers { numbers_at self.new.numbers leaf ≡ numbers }
        ensures others { OthersStay self.old.links leaf self.old.numbers self.new.numbers }
        ensures leaves { (kind : AnyKind) → leaf_sum kind self.new.links self.new.numbers
            ≤ leaf_sum kind self.old.links (slice_set self.old.numbers leaf numbers) }
        ensures tree { IsTree self.new }
    {
        renumber_leaf(
            self.links.as_slice(),
            self.numbers.as_mut_slice(),
            leaf,
            numbers,
        );
    }

    /// Gives the most-proving leaf these children, which are of the other kind, and answers the number of the first:
    /// they are numbered from `len` on. The numbers of the leaf and of the nodes above it follow, and all other nodes
    /// stay. After an `Err` the tree is as it was.
    pub fn expand(&mut self, children: &[Numbers]) -> Result<u32, AllocError>
        requires open { is_settled (numbers_at self.old.numbers 0) ≡ false }
        requires some { 0 < length children.now }
        requires each { All AreNumbers children.now }
        requires short { length self.old.links + length children.now ≤ INFINITE }
        requires sums { (kind : AnyKind) → leaf_sum kind
            (grown_links self.old.links (most_proving_lem self.old) (length children.now))
            (self.old.numbers ++ children.now) < INFINITE }
        ensures number { IfOk result (λ i. i ≡ length self.old.links) }
        ensures links { OnOk result (self.new.links
            ≡ grown_links self.old.links (most_proving_lem self.old) (length children.now)) }
        ensures others { OnOk result (OthersStay self.new.links (most_proving_lem self.old)
            (self.old.numbers ++ children.now) self.new.numbers) }
        ensures children { OnOk result ((j : ℕ) → j < length children.now
            → numbers_at self.new.numbers (length self.old.links + j) ≡ numbers_at children.now j) }
        ensures leaves { OnOk result ((kind : AnyKind) → leaf_sum kind self.new.links self.new.numbers
            ≤ leaf_sum kind self.new.links (self.old.numbers ++ children.now)) }
        ensures unchanged { OnErr result (self.new ≡ self.old) }
        ensures tree { IsTree self.new }
    {
        let leaf = self.most_proving();
        self.expand_at(leaf, children)
    }

    /// Gives any leaf children in the same way.
    pub fn expand_at(&mut self, leaf: u32, children: &[Numbers]) -> Result<u32, AllocError>
        requires in_tree { leaf < length self.old.links }
        requires childless { (link_at self.old.links leaf).count ≡ 0 }
        requires some { 0 < length children.now }
        requires each { All AreNumbers children.now }
        requires short { length self.old.links + length children.now ≤ INFINITE }
        requires sums { (kind : AnyKind) → leaf_sum kind
            (grown_links self.old.links leaf (length children.now)) (self.old.numbers ++ children.now) < INFINITE }
        ensures number { IfOk result (λ i. i ≡ length self.old.links) }
        ensures links { OnOk result (self.new.links ≡ grown_links self.old.links leaf (length children.now)) }
        ensures others { OnOk result (OthersStay self.new.links leaf (self.old.numbers ++ children.now) self.new.numbers) }
        ensures children { OnOk result ((j : ℕ) → j < length children.now
            → numbers_at self.new.numbers (length self.old.links + j) ≡ numbers_at children.now j) }
        ensures leaves { OnOk result ((kind : AnyKind) → leaf_sum kind self.new.links self.new.numbers
            ≤ leaf_sum kind self.new.links (self.old.numbers ++ children.now)) }
        ensures unchanged { OnErr result (self.new ≡ self.old) }
        ensures tree { IsTree self.new }
    {
        let link = self.links[leaf as usize];
        let len = self.links.len() as u32;
        let child = Link {
            kind: link.kind.other(),
            parent: leaf,
            first: 0,
            count: 0,
        };
        add_leaves(&mut self.links, &mut self.numbers, child, children)?;
        self.links[leaf as usize] = Link {
            first: len,
            count: children.len() as u32,
            ..link
        };
        update_from(self.links.as_slice(), self.numbers.as_mut_slice(), leaf);
        Ok(len)
    }
}

/// Adds leaves with these numbers, each with this link. After an `Err` both lists are as they were.
fn add_leaves(
    links: &mut Vec<Link>,
    numbers: &mut Vec<Numbers>,
    link: Link,
    more: &[Numbers],
) -> Result<(), AllocError>
    requires short { vec_len links.old + length more.now ≤ INFINITE }
    ensures links { OnOk result (links.new.items ≡ links.old.items ++ replicate (length more.now) link) }
    ensures numbers { OnOk result (numbers.new.items ≡ numbers.old.items ++ more.now) }
    ensures same_links { OnErr result (links.new.items ≡ links.old.items) }
    ensures same_numbers { OnErr result (numbers.new.items ≡ numbers.old.items) }
{
    let len = links.len();
    links.resize(len + more.len(), link)?;
    if numbers.extend_from_slice(more).is_err() {
        links.truncate(len);
        return Err(AllocError);
    }
    Ok(())
}

/// The place of the first child whose number, of those that this kind seeks, is `least`, or the count of the children if
/// there is none.
fn first_with(children: &[Numbers], kind: Kind, least: u32) -> usize
    ensures place { result ≡ position_or_len (λ n. nat_eq (sought kind n) least) children.now }
{
    for (i, child) in children.iter().enumerate() {
        if child.sought(kind) == least {
            return i;
        }
    }
    children.len()
}
