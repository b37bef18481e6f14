//! A list of replies, each with the number of the node that answers it. Contracts see it as that list.
//!
//! The replies of a table rise in reading order, so that equal answers have one list, and two nodes are equal exactly where
//! they say the same; a rest stands for all replies that are not listed.
#![tactic(auto)]

ghost use Rattle.std.specs.Prelude.{◌≡◌, ◌↔◌, ◌<◌, ◌&&◌, nat_lt, [], ◌∷◌, ◌++◌, length, slice_get, Some, OnOk, OnErr, IsTrue};
ghost use Rattle.std.specs.List.{list_all};
ghost use Rattle.strategy_graph.specs.Tables.{answer, is_rising, listed_node, names_below};

use crate::{Reply, Rest};
use game_rules::Point;
use std::alloc::{AllocError, Global};
use std::hash::{Hash, Hasher};
use std::marker::Model;

pub(crate) fn rises(replies: &[Reply]) -> bool
    ensures rising { result ≡ is_rising replies.now }
{
    let Some((first, others)) = replies.split_first() else {
        return true;
    };
    let mut last = first.at;
    for reply in others {
        if !last.precedes(reply.at) {
            return false;
        }
        last = reply.at;
    }
    true
}

/// The node that is listed for the reply at this point, if one is. It takes no memory.
pub fn listed_among(replies: &[Reply], at: Point) -> Option<u32>
    ensures listed { result ≡ listed_node replies.now at }
{
    let found = replies.iter().find(|reply| reply.at == at)?;
    Some(found.next)
}

/// Replies in the order in which they were added.
#[derive(Debug, Drop)]
pub struct Replies {
    items: Vec<Reply>,
}

impl Model for Replies {
    ghost use Rattle.std.specs.Prelude.{List};
    ghost use Rattle.strategy_graph.specs.declared.Reply.{Reply};

    ghost Value = { List Reply };

    ghost view = { λ r. r.items.items };
}

impl PartialEq for Replies {
    ghost use Rattle.strategy_graph.specs.Same.{same_replies, same_replies_per};

    ghost eq = { same_replies };

    ghost laws = { same_replies_per };

    fn eq(&self, other: &Replies) -> bool {
        self.items == other.items
    }
}

impl Eq for Replies {
    ghost use Rattle.strategy_graph.specs.Same.{same_replies_equiv};

    ghost laws = { same_replies_equiv };
}

impl Hash for Replies {
    ghost use Rattle.strategy_graph.specs.Same.{hashed_replies, same_replies_hashed};

    ghost hash_input = { hashed_replies };

    ghost respects_eq = { same_replies_hashed };

    fn hash<H: Hasher>(&self, state: &mut H) {
        self.items.hash(state);
    }
}

impl Replies {
    /// No replies. It takes no memory.
    pub fn new(alloc: Global) -> Self
        ensures empty { result ≡ [] }
    {
        Replies {
            items: Vec::new(alloc),
        }
    }

    /// How many replies there are.
    pub fn len(&self) -> usize
        ensures count { result ≡ length self.now }
    {
        self.items.len()
    }

    /// Whether there are none.
    pub fn is_empty(&self) -> bool
        ensures empty { IsTrue result ↔ (self.now ≡ []) }
    {
        self.items.is_empty()
    }

    /// Reply `i`, counted from 0.
    pub fn at(&self, i: usize) -> &Reply
        requires in_list { i < length self.now }
        ensures item { slice_get self.now i ≡ Some result.now }
    {
        &self.items[i]
    }

    /// The replies as a slice.
    pub fn as_slice(&self) -> &[Reply]
        ensures items { result.now ≡ self.now }
    {
        self.items.as_slice()
    }

    /// Whether the replies rise strictly in reading order: by y, then by x.
    pub fn is_rising(&self) -> bool
        ensures rising { result ≡ is_rising self.now }
    {
        rises(self.items.as_slice())
    }

    /// The node that is listed for the reply at this point, if one is. It takes no memory.
    pub fn find(&self, at: Point) -> Option<u32>
        ensures listed { result ≡ listed_node self.now at }
    {
        listed_among(self.items.as_slice(), at)
    }

    /// Takes all replies out. The memory is kept for others.
    pub fn clear(&mut self)
        ensures empty { self.new ≡ [] }
    {
        self.items.clear();
    }

    /// Adds the reply at the end. After an `Err` the list is as it was, and the reply is gone.
    pub fn push(&mut self, item: Reply) -> Result<(), AllocError>
        ensures pushed { OnOk result (self.new ≡ self.old ++ item ∷ []) }
        ensures unchanged { OnErr result (self.new ≡ self.old) }
    {
        self.items.push(item)?;
        Ok(())
    }
}

/// The node that answers the reply, by the replies that are listed and the rest: the one that is listed for it, else the
/// one of the rest, else `None`. It takes no memory.
pub fn answer_among(replies: &[Reply], rest: Rest, reply: Point) -> Option<u32>
    ensures answer { result ≡ answer (record { replies = replies.now; rest = rest }) reply }
{
    match listed_among(replies, reply) {
        Some(number) => Some(number),
        None => rest.node(),
    }
}

/// Whether each node that the replies name is below `len`.
fn are_below(replies: &[Reply], len: u32) -> bool
    ensures below { result ≡ list_all (λ r. nat_lt r.next len) replies.now }
{
    replies.iter().all(|reply| reply.next < len)
}

/// Whether each node that the replies and the rest name is below `len`.
pub(crate) fn are_all_below(replies: &[Reply], rest: Rest, len: u32) -> bool
    ensures below { result ≡ names_below (record { replies = replies.now; rest = rest }) len }
{
    are_below(replies, len) && rest.is_below(len)
}
