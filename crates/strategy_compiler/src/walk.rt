//! The order in which walks complete nodes, from one root after the other. The way from the root down to where the walk is
//! stands in a list, so that no recursion goes as deep as the chain of nodes: each node of it names the next, and the
//! last is completed once no node that it names is left.
#![tactic(auto)]

ghost use Rattle.std.specs.Prelude.{◌≡◌, ◌<◌, ◌≤◌, true, false, not, map, length, find, slice_index_or, All, IfOk, OnOk};
ghost use Rattle.strategy_graph.specs.Tables.{NamesLower, answers_of, names_below};
ghost use Rattle.strategy_compiler.specs.Walks.{completed_after, completed_from, visits};
ghost use Rattle.strategy_compiler.specs.Orders.{IsBetween, IsOrder};

use std::alloc::{AllocError, Global};
use strategy_graph::{MAX_NODES, Node, Reply};

/// The first of the listed nodes that is not completed.
fn first_listed(replies: &[Reply], is_completed: &[bool]) -> Option<u32>
    requires below { All (λ r. r.next < length is_completed.now) replies.now }
    ensures first { result ≡ find (λ j. not (slice_index_or is_completed.now j false))
        (map (λ r. r.next) replies.now) }
{
    for reply in replies {
        if !is_completed[reply.next as usize] {
            return Some(reply.next);
        }
    }
    None
}

/// The first node that this node names, in the order of a walk, that is not completed.
fn first_open(node: &Node, is_completed: &[bool]) -> Option<u32>
    requires below { names_below (answers_of node.now) (length is_completed.now) ≡ true }
    ensures first { result ≡ find (λ j. not (slice_index_or is_completed.now j false))
        (visits (answers_of node.now)) }
{
    if let Some(number) = node.rest.node() {
        if !is_completed[number as usize] {
            return Some(number);
        }
    }
    first_listed(node.replies.as_slice(), is_completed)
}

/// Walks from the root, and adds the nodes that are not completed yet to the order, as the walk completes them.
fn complete(
    alloc: Global,
    nodes: &[Node],
    root: u32,
    order: &mut Vec<u32>,
    is_completed: &mut [bool],
) -> Result<(), AllocError>
    requires lower { NamesLower nodes.now }
    requires in_table { root < length nodes.now }
    requires between { IsBetween nodes.now order.old.items is_completed.old }
    ensures walked { OnOk result
        (order.new.items ≡ completed_after nodes.now order.old.items root) }
    ensures between { OnOk result (IsBetween nodes.now order.new.items is_completed.new) }
{
    if is_completed[root as usize] {
        return Ok(());
    }
    let mut path = Vec::new(alloc);
    path.push(root)?;
    while let Some(number) = path.pop() {
        match first_open(&nodes[number as usize], is_completed) {
            Some(next) => {
                path.push(number)?;
                path.push(next)?;
            }
            None => {
                order.push(number)?;
                is_completed[number as usize] = true;
            }
        }
    }
    Ok(())
}

/// The nodes that the roots reach, in the order in which walks from them, one after the other, complete them.
pub(crate) fn completed_order(
    alloc: Global,
    nodes: &[Node],
    roots: &[u32],
) -> Result<Vec<u32>, AllocError>
    requires lower { NamesLower nodes.now }
    requires few { length nodes.now ≤ MAX_NODES }
    requires in_table { All (λ root. root < length nodes.now) roots.now }
    ensures walked { IfOk result (λ order. order.items ≡ completed_from nodes.now roots.now) }
    ensures order { IfOk result (λ order. IsOrder nodes.now order.items) }
{
    let mut order = Vec::new(alloc);
    let mut is_completed = vec![in alloc; false; nodes.len()]?;
    for root in roots {
        complete(alloc, nodes, *root, &mut order, is_completed.as_mut_slice())?;
    }
    Ok(order)
}
