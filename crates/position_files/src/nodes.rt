//! The nodes of a table, read line by line.
//!
//! Each node is added to the table of those before it, which takes it where it is a node of the next number. So the
//! nodes that are read are always a table.
#![tactic(auto)]

ghost use Rattle.std.specs.Prelude.{◌≡◌, ℕ, ◌≤◌, ◌<◌, true, List, [], ◌∷◌, ◌++◌, length, map, OnOk, OnErr, IfOk, IfErr, IfNone, IfSome, Err};
ghost use Rattle.std.specs.List.{AllByRecursion};
ghost use Rattle.strategy_graph.specs.Lent.{lent_node};
ghost use Rattle.strategy_graph.specs.Tables.{IsNode, is_winning};
ghost use Rattle.strategy_graph.specs.declared.Node.{Node};
ghost use Rattle.text_lines.specs.Lines.{line_feed, text_of};
ghost use Rattle.position_files.specs.Tables.{node_line};
ghost use Rattle.position_files.specs.Boards.{IsSide};
ghost use Rattle.position_files.specs.Answers.{AddsNode, NodeFits};
ghost use Rattle.position_files.specs.Faults.{IsUpTo};
ghost use Rattle.position_files.specs.Sections.{AreNodeLines, IsSectionFault};

use crate::answers::node;
use crate::{HeadError, fronts};
use std::alloc::Global;
use strategy_graph::{LentNode, MAX_NODES, PushError, Replies, Table};
use text_lines::{Fault, line};

/// Adds the node at the end of the table. `Bad` says that it is no node of this number.
fn append(table: &mut Table, node: LentNode) -> Result<(), Fault>
    requires winning { is_winning node.rest ≡ true → node.replies.now ≡ [] }
    ensures pushed { OnOk result (table.new ≡ table.old ++ lent_node node.entry ∷ []) }
    ensures bad { result ≡ Err Fault.Bad
        → IsNode (lent_node node.entry) (length table.old) → length table.old < MAX_NODES → ⊥ }
    ensures unchanged { OnErr result (table.new ≡ table.old) }
{
    match table.push_lent(node) {
        Ok(_) => Ok(()),
        Err(PushError::NotBelow | PushError::NotRising | PushError::Full) => Err(Fault::Bad),
        Err(PushError::Memory) => Err(Fault::Memory),
    }
}

/// Adds the node whose line the bytes begin with at the end of the table, where it is taken in place and is a node of this
/// number, and answers the bytes after the line.
fn take_node<'a>(
    listed: &mut Replies,
    table: &mut Table,
    bytes: &'a [u8],
    width: u8,
    height: u8,
) -> Option<&'a [u8]>
    ensures added { IfSome result (λ rest. AddsNode width height
        table.old table.new bytes.now rest.now) }
    ensures unchanged { IfNone result (table.new ≡ table.old) }
{
    let ((attack, rest), after) = fronts::node(listed, bytes, width, height)?;
    let node = LentNode {
        attack,
        replies: listed.as_slice(),
        rest,
    };
    append(table, node).ok()?;
    Some(after)
}

/// Adds the node of the first line at the end of the table, and answers the bytes after the line.
fn add_line<'a>(
    alloc: Global,
    table: &mut Table,
    bytes: &'a [u8],
    width: u8,
    height: u8,
) -> Result<&'a [u8], Fault>
    requires wide { IsSide width }
    requires high { IsSide height }
    ensures added { IfOk result (λ rest. AddsNode width height
        table.old table.new bytes.now rest.now) }
    ensures bad { result ≡ Err Fault.Bad → (n : Node) (others : List ℕ) → NodeFits width height n
        → IsNode n (length table.old) → length table.old < MAX_NODES
        → bytes.now ≡ node_line n ++ line_feed ∷ others → ⊥ }
    ensures unchanged { OnErr result (table.new ≡ table.old) }
{
    let Some((text, rest)) = line(bytes) else {
        return Err(Fault::Bad);
    };
    let node = node(alloc, text, width, height)?;
    append(table, node.lent())?;
    Ok(rest)
}

/// The same. Most lines are read in place, with one list for the replies of all of them; the others are read as whole lines, which
/// tells why a line is bad.
fn add_node<'a>(
    alloc: Global,
    listed: &mut Replies,
    table: &mut Table,
    bytes: &'a [u8],
    width: u8,
    height: u8,
) -> Result<&'a [u8], Fault>
    requires wide { IsSide width }
    requires high { IsSide height }
    ensures added { IfOk result (λ rest. AddsNode width height
        table.old table.new bytes.now rest.now) }
    ensures bad { result ≡ Err Fault.Bad → (n : Node) (others : List ℕ) → NodeFits width height n
        → IsNode n (length table.old) → length table.old < MAX_NODES
        → bytes.now ≡ node_line n ++ line_feed ∷ others → ⊥ }
    ensures unchanged { OnErr result (table.new ≡ table.old) }
{
    if let Some(rest) = take_node(listed, table, bytes, width, height) {
        return Ok(rest);
    }
    add_line(alloc, table, bytes, width, height)
}

/// The table of the next `count` lines, and the bytes after them.
pub(crate) fn node_lines(
    alloc: Global,
    bytes: &[u8],
    count: u32,
    width: u8,
    height: u8,
) -> Result<(Table, &[u8]), HeadError>
    requires wide { IsSide width }
    requires high { IsSide height }
    requires few { count ≤ MAX_NODES }
    ensures count { IfOk result (λ found. length found.0 ≡ count) }
    ensures nodes { IfOk result (λ found. AllByRecursion (NodeFits width height) found.0) }
    ensures text { IfOk result (λ found. bytes.now
        ≡ text_of (map node_line found.0) ++ found.1.now) }
    ensures refused { IfErr result (IsSectionFault (AreNodeLines width height count) bytes.now) }
    ensures within { IfErr result (IsUpTo count) }
{
    let mut table = Table::new(alloc);
    let mut listed = Replies::new(alloc);
    let mut rest = bytes;
    for number in 0..count {
        match add_node(alloc, &mut listed, &mut table, rest, width, height) {
            Ok(after) => rest = after,
            Err(fault) => return Err(HeadError::at(number + 1, fault)),
        }
    }
    Ok((table, rest))
}
