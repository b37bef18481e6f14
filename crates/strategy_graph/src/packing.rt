//! Nodes in one list, and the replies of all of them in another.
//!
//! A node takes 16 bytes and has no list of its own: it keeps where its replies end, and they begin where those of the node before
//! it end. So nodes that are added one after another lie side by side, and few pieces of memory hold them all.
#![tactic(auto)]

ghost use Rattle.std.specs.Prelude.{◌≡◌, ◌<◌, [], ◌∷◌, ◌++◌, length, slice_get, Some, OnOk, OnErr};
ghost use Rattle.strategy_graph.specs.Lent.{lent_node};
ghost use Rattle.strategy_graph.specs.Packing.{AreEnds, nodes_from, start_at};

use crate::{LentNode, Reply, Rest};
use game_rules::Point;
use std::alloc::{AllocError, Global};
use std::marker::Model;

/// A node without its replies, and the number of all replies up to its last one.
#[derive(Clone, Copy, Debug)]
struct Packed {
    attack: Point,
    rest: Rest,
    end: u32,
}

/// Nodes in the order in which they were added, with at most `u32::MAX` replies in all.
#[derive(Debug, Drop)]
pub(crate) struct PackedNodes {
    nodes: Vec<Packed>,
    replies: Vec<Reply>,
}

impl Model for PackedNodes {
    ghost use Rattle.std.specs.Prelude.{List, length};
    ghost use Rattle.strategy_graph.specs.declared.Node.{Node};
    ghost use Rattle.strategy_graph.specs.Packing.{AreEnds, nodes_from};

    ghost Value = { List Node };

    ghost view = { λ t. nodes_from 0 t.nodes.items t.replies.items };

    ghost invariant = { λ t. AreEnds 0 t.nodes.items (length t.replies.items) };
}

/// Where the replies of node `i` begin.
fn start_of(nodes: &[Packed], i: usize) -> usize
    requires in_list { i < length nodes.now }
    ensures start { result ≡ start_at 0 nodes.now i }
{
    match i.checked_sub(1) {
        None => 0,
        Some(before) => nodes[before].end as usize,
    }
}

/// Node `i`, with its part of all replies.
#[tactic(auto, using(crate::proofs::PackedLists::ends_behind, crate::proofs::PackedLists::ends_within))]
fn lent_at<'a>(nodes: &[Packed], replies: &'a [Reply], i: usize) -> LentNode<'a>
    requires in_list { i < length nodes.now }
    requires ends { AreEnds 0 nodes.now (length replies.now) }
    ensures node { slice_get (nodes_from 0 nodes.now replies.now) i ≡ Some (lent_node result) }
{
    let packed = nodes[i];
    let start = start_of(nodes, i);
    LentNode {
        attack: packed.attack,
        replies: &replies[start..packed.end as usize],
        rest: packed.rest,
    }
}

/// Adds replies at the end. `Err` says that memory ran out: then the list is as it was.
fn extend(all: &mut Vec<Reply>, more: &[Reply]) -> Result<(), AllocError>
    ensures extended { OnOk result (all.new.items ≡ all.old.items ++ more.now) }
    ensures unchanged { OnErr result (all.new.items ≡ all.old.items) }
{
    // Most nodes list no reply.
    if more.is_empty() {
        return Ok(());
    }
    all.extend_from_slice(more)
}

impl PackedNodes {
    /// No nodes. It takes no memory.
    pub(crate) fn new(alloc: Global) -> Self
        ensures empty { result ≡ [] }
    {
        PackedNodes {
            nodes: Vec::new(alloc),
            replies: Vec::new(alloc),
        }
    }

    /// How many nodes there are.
    pub(crate) fn len(&self) -> usize
        ensures count { result ≡ length self.now }
    {
        self.nodes.len()
    }

    /// Node `i`, counted from 0.
    pub(crate) fn node(&self, i: usize) -> LentNode<'_>
        requires in_list { i < length self.now }
        ensures node { slice_get self.now i ≡ Some (lent_node result) }
    {
        lent_at(self.nodes.as_slice(), self.replies.as_slice(), i)
    }

    /// Adds the node at the end. `Err` says that memory ran out, or that there would be more than `u32::MAX` replies in all: then
    /// the nodes are as they were.
    pub(crate) fn push(&mut self, node: LentNode) -> Result<(), AllocError>
        ensures pushed { OnOk result (self.new ≡ self.old ++ lent_node node.entry ∷ []) }
        ensures unchanged { OnErr result (self.new ≡ self.old) }
    {
        let start = self.replies.len();
        let Ok(end) = u32::try_from(start + node.replies.len()) else {
            return Err(AllocError);
        };
        if extend(&mut self.replies, node.replies).is_err() {
            return Err(AllocError);
        }
        let packed = Packed {
            attack: node.attack,
            rest: node.rest,
            end,
        };
        if self.nodes.push(packed).is_err() {
            // The replies go again, so that all is as it was.
            self.replies.truncate(start);
            return Err(AllocError);
        }
        Ok(())
    }
}
