//! The table of some nodes in a given order: each number that a node names becomes its place in that order.
//!
//! Each node comes after all that it names, so its copy names only lower ones, and is pushed onto the table as it is read.
#![tactic(auto)]

ghost use Rattle.std.specs.Prelude.{◌≡◌, ◌<◌, ◌≤◌, ℕ, true, nat_lt, map, length, slice_get, slice_index, Some, All, IfOk};
ghost use Rattle.std.specs.Prelude.{option_to_list};
ghost use Rattle.std.specs.List.{list_all};
ghost use Rattle.strategy_graph.specs.declared.TheConstants.{MAX_NODES};
ghost use Rattle.strategy_graph.specs.Tables.{IsTable, answers_of, names_below, rest_node};
ghost use Rattle.strategy_graph.specs.Lent.{lent_node};
ghost use Rattle.strategy_graph.specs.Renumbered.{renumbered_node, renumbered_reply, renumbered_rest as renumbered_rest_lem};
ghost use Rattle.strategy_compiler.specs.Walks.{Renumbers, completed_from};
ghost use Rattle.strategy_compiler.specs.Orders.{ArePlaces, IsMadeFrom, IsOrder};
ghost use Rattle.strategy_compiler.specs.Nodes.{IsCompiled};

use crate::walk::completed_order;
use std::alloc::{AllocError, Global};
use strategy_graph::{LentNode, Node, Replies, Reply, Rest, Table};

/// For each number of the order its place there, as a list by number; for other numbers it says nothing.
fn places_in(alloc: Global, order: &[u32], len: usize) -> Result<Vec<u32>, AllocError>
    requires few { len ≤ MAX_NODES }
    requires short { length order.now ≤ len }
    requires within { (k : ℕ) → k < length order.now → slice_index order.now k < len }
    requires once { (k l i : ℕ) → slice_get order.now k ≡ Some i → slice_get order.now l ≡ Some i
        → k ≡ l }
    ensures count { IfOk result (λ places. length places.items ≡ len) }
    ensures places { IfOk result (λ places. ArePlaces order.now places.items) }
{
    let mut places = vec![in alloc; 0; len]?;
    for (place, number) in order.iter().enumerate() {
        places[*number as usize] = place as u32;
    }
    Ok(places)
}

/// The replies, with the place of each number that they name.
pub(crate) fn renumbered_replies(
    alloc: Global,
    replies: &[Reply],
    places: &[u32],
) -> Result<Replies, AllocError>
    requires below { All (λ r. r.next < length places.now) replies.now }
    ensures replies { IfOk result
        (λ rs. rs ≡ map (renumbered_reply (λ j. slice_index places.now j)) replies.now) }
{
    let mut renumbered = Replies::new(alloc);
    for reply in replies {
        let next = places[reply.next as usize];
        renumbered.push(Reply { at: reply.at, next })?;
    }
    Ok(renumbered)
}

/// The rest, with the place of the number that it names.
pub(crate) fn renumbered_rest(rest: Rest, places: &[u32]) -> Rest
    requires below { list_all (λ j. nat_lt j (length places.now)) (option_to_list (rest_node rest)) ≡ true }
    ensures rest { result ≡ renumbered_rest_lem (λ j. slice_index places.now j) rest }
{
    match rest {
        Rest::Wins => Rest::Wins,
        Rest::To(number) => Rest::To(places[number as usize]),
        Rest::Nothing => Rest::Nothing,
    }
}

/// The node, with the place of each number that it names: the number that stands in the list at that number.
pub(crate) fn renumbered(alloc: Global, node: LentNode, places: &[u32]) -> Result<Node, AllocError>
    requires below { names_below (answers_of (lent_node node)) (length places.now) ≡ true }
    ensures node { IfOk result (λ n. n ≡ renumbered_node (λ j. slice_index places.now j) (lent_node node.entry)) }
{
    let replies = renumbered_replies(alloc, node.replies, places)?;
    Ok(Node {
        attack: node.attack,
        replies,
        rest: renumbered_rest(node.rest, places),
    })
}

/// The table of the nodes with these numbers, in this order, where each number has its place.
fn table_of(
    alloc: Global,
    nodes: &[Node],
    order: &[u32],
    places: &[u32],
) -> Result<Table, AllocError>
    requires table { IsTable nodes.now }
    requires order { IsOrder nodes.now order.now }
    requires count { length places.now ≡ length nodes.now }
    requires places { ArePlaces order.now places.now }
    ensures nodes { IfOk result (λ t. Renumbers nodes.now order.now t) }
{
    let mut table = Table::new(alloc);
    for number in order {
        let node = renumbered(alloc, nodes[*number as usize].lent(), places)?;
        table.push_node(node)?;
    }
    Ok(table)
}

/// A table that is made of nodes, and for each number of one of these its number in the table, as a list by number; for
/// other numbers it says nothing.
#[derive(Drop)]
pub(crate) struct Made {
    pub(crate) table: Table,
    pub(crate) places: Vec<u32>,
}

/// The table of the nodes that the roots reach, in the order in which walks from them complete them.
pub(crate) fn made_from(alloc: Global, nodes: &[Node], roots: &[u32]) -> Result<Made, AllocError>
    requires compiled { IsCompiled nodes.now }
    requires in_table { All (λ root. root < length nodes.now) roots.now }
    ensures made { IfOk result
        (λ made. IsMadeFrom nodes.now roots.now (completed_from nodes.now roots.now) made.table) }
    ensures count { IfOk result (λ made. length made.places.items ≡ length nodes.now) }
    ensures places { IfOk result
        (λ made. ArePlaces (completed_from nodes.now roots.now) made.places.items) }
{
    let order = completed_order(alloc, nodes, roots)?;
    let places = places_in(alloc, order.as_slice(), nodes.len())?;
    let table = table_of(alloc, nodes, order.as_slice(), places.as_slice())?;
    Ok(Made { table, places })
}
