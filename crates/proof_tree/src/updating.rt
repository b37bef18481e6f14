//! Numbers brought up to date above a node that changed.
//!
//! Each node is counted anew from its children, from the one that is out of date up to the root. The way up ends where a
//! node has the numbers that it had, since nothing above it changes then.
#![tactic(auto)]

ghost use Rattle.std.specs.Prelude.{◌≡◌, ◌≢◌, ◌<◌, ◌≤◌, ℕ, length, slice_set};
ghost use Rattle.proof_tree.specs.Combining.{AreNumbers};
ghost use Rattle.proof_tree.specs.Trees.{IsCombinedAt, IsLinked, IsNumbered, OthersStay, leaf_sum, link_at, numbers_at};
ghost use Rattle.proof_tree.specs.declared.Kind.{Kind as AnyKind};
ghost use Rattle.proof_tree.specs.declared.TheConstants.{INFINITE};

use crate::combining::combined;
use crate::{Link, Numbers};

/// Brings the numbers of node `start`, which has children, and of those above it up to date. Those of all other nodes
/// are right, and stay.
pub(crate) fn update_from(links: &[Link], numbers: &mut [Numbers], start: u32)
    requires linked { IsLinked links.now }
    requires count { length numbers.old ≡ length links.now }
    requires start { start < length links.now }
    requires has_children { 0 < (link_at links.now start).count }
    requires each { (i : ℕ) → i < length links.now → AreNumbers (numbers_at numbers.old i) }
    requires right { (i : ℕ) → i < length links.now → i ≢ start → IsCombinedAt links.now numbers.old i }
    requires sums { (kind : AnyKind) → leaf_sum kind links.now numbers.old < INFINITE }
    ensures numbered { IsNumbered links.now numbers.new }
    ensures others { OthersStay links.now start numbers.old numbers.new }
    ensures leaves { (kind : AnyKind) → leaf_sum kind links.now numbers.new
        ≤ leaf_sum kind links.now numbers.old }
{
    let mut number = start;
    loop {
        let link = links[number as usize];
        let first = link.first as usize;
        let found = combined(link.kind, &numbers[first..first + link.count as usize]);
        if found == numbers[number as usize] {
            return;
        }
        numbers[number as usize] = found;
        if number == 0 {
            return;
        }
        number = link.parent;
    }
}

/// Gives a leaf these numbers, and brings those of the nodes above it up to date.
pub(crate) fn renumber_leaf(links: &[Link], numbers: &mut [Numbers], leaf: u32, found: Numbers)
    requires linked { IsLinked links.now }
    requires numbered { IsNumbered links.now numbers.old }
    requires leaf { leaf < length links.now }
    requires childless { (link_at links.now leaf).count ≡ 0 }
    requires found { AreNumbers found }
    requires sums { (kind : AnyKind) → leaf_sum kind links.now (slice_set numbers.old leaf found) < INFINITE }
    ensures numbered { IsNumbered links.now numbers.new }
    ensures found { numbers_at numbers.new leaf ≡ found }
    ensures others { OthersStay links.now leaf numbers.old numbers.new }
    ensures leaves { (kind : AnyKind) → leaf_sum kind links.now numbers.new
        ≤ leaf_sum kind links.now (slice_set numbers.old leaf found) }
{
    numbers[leaf as usize] = found;
    if leaf == 0 {
        return;
    }
    let parent = links[leaf as usize].parent;
    update_from(links, numbers, parent);
}
