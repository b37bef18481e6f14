//! A start: what answers the first move of the opponent.
//!
//! It is a node without an attack: replies that are listed, and a rest for the others. It is no node of the table, so that
//! one table may have many starts.
#![tactic(auto)]

ghost use Rattle.std.specs.Prelude.{◌≡◌, true, false};
ghost use Rattle.strategy_graph.specs.Tables.{answer, is_rising, is_winning, names_below};

use crate::replies::{answer_among, are_all_below};
use crate::{Replies, Rest};
use game_rules::Point;
use std::marker::Model;

/// What answers the first move of the opponent: the replies that are listed, and the rest. The rest is never `Wins`,
/// and the replies rise strictly in reading order. Contracts see it as the record of its replies and its rest.
#[derive(Debug, Drop)]
pub struct Start {
    replies: Replies,
    rest: Rest,
}

impl Model for Start {
    ghost use Rattle.strategy_graph.specs.Tables.{Answers, IsStart};

    ghost Value = { Answers };

    ghost view = { λ s. record { replies = s.replies; rest = s.rest } };

    ghost invariant = { λ s. IsStart (record { replies = s.replies; rest = s.rest }) };
}

impl Start {
    /// A start of these replies, which rise strictly in reading order, and this rest, which is not `Wins`.
    pub fn new(replies: Replies, rest: Rest) -> Self
        requires rising { is_rising replies ≡ true }
        requires not_winning { is_winning rest ≡ false }
        ensures replies { result.replies ≡ replies }
        ensures rest { result.rest ≡ rest }
    {
        Start { replies, rest }
    }

    /// The replies that are listed.
    pub fn replies(&self) -> &Replies
        ensures listed { result.now ≡ self.now.replies }
        ensures rising { is_rising result.now ≡ true }
    {
        &self.replies
    }

    /// What answers the other replies.
    pub fn rest(&self) -> Rest
        ensures rest { result ≡ self.now.rest }
        ensures not_winning { is_winning result ≡ false }
    {
        self.rest
    }

    /// The node that answers the reply: the one that is listed for it, else the one of the rest, else `None`. It takes
    /// no memory.
    pub fn lookup(&self, reply: Point) -> Option<u32>
        ensures answer { result ≡ answer self.now reply }
    {
        answer_among(self.replies.as_slice(), self.rest, reply)
    }

    /// Whether each node that the start names is below `len`.
    pub fn names_below(&self, len: u32) -> bool
        ensures below { result ≡ names_below self.now len }
    {
        are_all_below(self.replies.as_slice(), self.rest, len)
    }
}
