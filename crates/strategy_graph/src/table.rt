//! A table: nodes that name only lower ones.
//!
//! It is filled from the bottom up, and each node is checked against those that are there when it is added. So there is
//! no circle, what is counted node by node ends, and a table never has to be checked again. The depth of each node is
//! counted when it is added, from those of the nodes that it names, and kept beside the nodes.
#![tactic(auto)]

ghost use Rattle.std.specs.Prelude.{◌≡◌, ◌↔◌, ◌<◌, ◌++◌, [], ◌∷◌, IsTrue, true, false, List, length, slice_get, Some, IfOk, IfSome, IsOk, OnOk, OnErr, IsErrOf};
ghost use Rattle.strategy_graph.specs.Lent.{lent_node};
ghost use Rattle.strategy_graph.specs.Roots.{root_below, root_depth};
ghost use Rattle.strategy_graph.specs.Tables.{IsNode, IsTable, answer_at, is_rising, is_winning, names_below, names_nodes_of, depth, start_depth};

use crate::depths::deepest;
use crate::packing::PackedNodes;
use crate::replies::{answer_among, are_all_below, rises};
use crate::{LentNode, MAX_NODES, Node, Root, Start};
use game_rules::Point;
use std::alloc::{AllocError, Global};
use std::marker::Model;
use thiserror::Error;

/// A table of answers, which contracts see as the list of its nodes. Each node names only lower ones, its replies rise
/// strictly in reading order, a winning node lists none, and there are at most `MAX_NODES` nodes, which list at most
/// `u32::MAX` replies in all.
#[derive(Debug, Drop)]
pub struct Table {
    nodes: PackedNodes,
    depths: Vec<u32>,
}

impl Model for Table {
    ghost use Rattle.std.specs.Prelude.{List};
    ghost use Rattle.strategy_graph.specs.declared.Node.{Node};
    ghost use Rattle.strategy_graph.specs.Tables.{IsTableWithDepths};

    ghost Value = { List Node };

    ghost view = { λ t. t.nodes };

    ghost invariant = { λ t. IsTableWithDepths t.nodes t.depths.items };
}

/// Why a node is not added. The first that holds is answered.
#[derive(Debug, Drop, PartialEq, Eq, Error)]
pub enum PushError {
    /// The node names a number that is not below the length of the table.
    #[error("the node names a node that is not below it")]
    NotBelow,
    /// The replies of the node do not rise strictly in reading order.
    #[error("the replies of the node do not rise")]
    NotRising,
    /// The table has `MAX_NODES` nodes.
    #[error("the table is full")]
    Full,
    /// There is no memory for the node, its replies and its depth, or the table would list more than `u32::MAX` replies in all.
    #[error("out of memory")]
    Memory,
}

impl Table {
    /// A table with no nodes. It takes no memory.
    pub fn new(alloc: Global) -> Self
        ensures empty { result ≡ [] }
    {
        Table {
            nodes: PackedNodes::new(alloc),
            depths: Vec::new(alloc),
        }
    }

    /// How many nodes there are.
    pub fn len(&self) -> u32
        ensures count { result ≡ length self.now }
        ensures table { IsTable self.now }
    {
        self.nodes.len() as u32
    }

    /// Whether there are no nodes.
    pub fn is_empty(&self) -> bool
        ensures empty { IsTrue result ↔ (self.now ≡ []) }
    {
        self.nodes.len() == 0
    }

    /// Node `i`, counted from 0.
    pub fn node(&self, i: u32) -> LentNode<'_>
        requires in_table { i < length self.now }
        ensures node { slice_get self.now i ≡ Some (lent_node result) }
        ensures table { IsTable self.now }
    {
        self.nodes.node(i as usize)
    }

    /// The node that answers the reply at node `i`: the one that is listed for it, else the one of the rest, else
    /// `None`. It takes no memory.
    pub fn lookup(&self, i: u32, reply: Point) -> Option<u32>
        requires in_table { i < length self.now }
        ensures answer { result ≡ answer_at self.now i reply }
        ensures below { IfSome result (λ j. j < i) }
    {
        let node = self.nodes.node(i as usize);
        answer_among(node.replies, node.rest, reply)
    }

    /// Adds the node at the end, and answers its number. A node whose rest is `Wins` has no replies. After an `Err` the
    /// table is as it was, and the node is gone. The first refusal that holds is answered:
    ///
    /// - `NotBelow`, exactly where the node names a number that is not below the length of the table;
    /// - `NotRising`, exactly where its replies do not rise strictly in reading order;
    /// - `Full`, exactly where the table has `MAX_NODES` nodes;
    /// - `Memory`, where there is no memory for it, its replies and its depth, or the table would list more than `u32::MAX`
    ///   replies in all.
    pub fn push(&mut self, node: Node) -> Result<u32, PushError>
        requires winning { is_winning node.rest ≡ true → node.replies ≡ [] }
        ensures number { IfOk result (λ i. i ≡ length self.old) }
        ensures pushed { OnOk result (self.new ≡ self.old ++ node ∷ []) }
        ensures not_below { IsErrOf result PushError.NotBelow
            ↔ (names_nodes_of self.old node ≡ false) }

        // A later refusal comes only where no earlier one does.
        ensures not_rising { IsErrOf result PushError.NotRising
            ↔ ((names_nodes_of self.old node ≡ true) × (is_rising node.replies ≡ false)) }
        ensures full { IsErrOf result PushError.Full
            ↔ ((names_nodes_of self.old node ≡ true) × (is_rising node.replies ≡ true)
            × (length self.old ≡ MAX_NODES)) }
        ensures unchanged { OnErr result (self.new ≡ self.old) }
    {
        self.push_lent(node.lent())
    }

    /// The same of a node that is lent, so that one list of replies serves many nodes.
    pub fn push_lent(&mut self, node: LentNode) -> Result<u32, PushError>
        requires winning { is_winning node.rest ≡ true → node.replies.now ≡ [] }
        ensures number { IfOk result (λ i. i ≡ length self.old) }
        ensures pushed { OnOk result (self.new ≡ self.old ++ lent_node node.entry ∷ []) }
        ensures not_below { IsErrOf result PushError.NotBelow
            ↔ (names_nodes_of self.old (lent_node node.entry) ≡ false) }
        ensures not_rising { IsErrOf result PushError.NotRising
            ↔ ((names_nodes_of self.old (lent_node node.entry) ≡ true) × (is_rising node.entry.replies.now ≡ false)) }
        ensures full { IsErrOf result PushError.Full
            ↔ ((names_nodes_of self.old (lent_node node.entry) ≡ true) × (is_rising node.entry.replies.now ≡ true)
            × (length self.old ≡ MAX_NODES)) }
        ensures unchanged { OnErr result (self.new ≡ self.old) }
    {
        let number = self.nodes.len() as u32;
        if !are_all_below(node.replies, node.rest, number) {
            return Err(PushError::NotBelow);
        }
        if !rises(node.replies) {
            return Err(PushError::NotRising);
        }
        if number == MAX_NODES {
            return Err(PushError::Full);
        }
        match self.push_lent_node(node) {
            Ok(()) => Ok(number),
            Err(_) => Err(PushError::Memory),
        }
    }

    /// Adds a node that is known to be one of a table, for which there is room, at the end. `Err` says that memory ran out, or that
    /// the table would list more than `u32::MAX` replies in all: then the table is as it was, and the node is gone.
    pub fn push_node(&mut self, node: Node) -> Result<(), AllocError>
        requires node { IsNode node (length self.old) }
        requires room { length self.old < MAX_NODES }
        ensures pushed { OnOk result (self.new ≡ self.old ++ node ∷ []) }
        ensures unchanged { OnErr result (self.new ≡ self.old) }
    {
        self.push_lent_node(node.lent())
    }

    /// The same of a node that is lent.
    pub fn push_lent_node(&mut self, node: LentNode) -> Result<(), AllocError>
        requires node { IsNode (lent_node node) (length self.old) }
        requires room { length self.old < MAX_NODES }
        ensures pushed { OnOk result (self.new ≡ self.old ++ lent_node node.entry ∷ []) }
        ensures unchanged { OnErr result (self.new ≡ self.old) }
    {
        let below = deepest(node.replies, node.rest, self.depths.as_slice());
        if self.depths.push(below + 1).is_err() {
            return Err(AllocError);
        }
        if self.nodes.push(node).is_err() {
            // The depth goes again, so that the table is as it was.
            self.depths.pop();
            return Err(AllocError);
        }
        Ok(())
    }

    /// The depth of node `i`: 1 for a node that names no other, else 1 more than the greatest depth of those that it
    /// names. Where the node is accepted, a game from it is won with at most so many attacks. The depths are counted as
    /// the nodes are added, so that it asks for no memory and always answers `Ok`.
    pub fn depth(&self, i: u32) -> Result<u32, AllocError>
        requires in_table { i < length self.now }
        ensures depth { IfOk result (λ d. d ≡ depth self.now i) }
        ensures always { IsOk result }
    {
        Ok(self.depths[i as usize])
    }

    /// The depth of a start, which names only nodes of the table: the greatest depth of those that it names, or 0 if it
    /// names none. It looks only at what the start names, asks for no memory and always answers `Ok`.
    pub fn start_depth(&self, start: &Start) -> Result<u32, AllocError>
        requires below { names_below start.now (length self.now) ≡ true }
        ensures depth { IfOk result (λ d. d ≡ start_depth self.now start.now) }
        ensures always { IsOk result }
    {
        let depths = self.depths.as_slice();
        Ok(deepest(start.replies().as_slice(), start.rest(), depths))
    }

    /// The depth of a root, which names only nodes of the table. It asks for no memory and always answers `Ok`.
    pub fn root_depth(&self, root: &Root) -> Result<u32, AllocError>
        requires below { root_below root.now (length self.now) ≡ true }
        ensures depth { IfOk result (λ d. d ≡ root_depth self.now root.now) }
        ensures always { IsOk result }
    {
        match root {
            Root::Attack(number) => self.depth(*number),
            Root::Defend(start) => self.start_depth(start),
        }
    }
}
