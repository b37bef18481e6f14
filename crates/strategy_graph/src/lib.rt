//! Tables of answers: what a player plays after each reply of the other, and when such a table is sure to win.
//!
//! A table is a list of nodes, each of which names only lower ones. A node is the attack that is played there, the
//! node for each reply that is listed, and a rest for all the others. A start is the same without an attack, where the
//! opponent moves first. Several boards may share a node.
//!
//! `specs/` says when a node is accepted at a board, how many arrivals that takes, how a game against it goes, and
//! which line leads to a fault. The functions of `laws` prove that an accepted node wins within its depth, that
//! games against it end well, and that all this stays as it is however the table grows.
#![tactic(auto)]

ghost use Rattle.std.specs.Prelude.{◌≡◌, nat_lt, option_to_list};
ghost use Rattle.std.specs.List.{list_all};
ghost use Rattle.strategy_graph.specs.Lent.{lent_node};
ghost use Rattle.strategy_graph.specs.Tables.{is_winning, rest_node};

mod depths;
mod laws;
mod packing;
mod replies;
mod roots;
mod start;
mod table;

use game_rules::Point;
pub use laws::{
    accepted_start_wins, accepted_wins, faults_refute, faults_refute_start, games_end_well,
    growth_keeps, growth_keeps_start, nodes_go_by_node,
};
pub use replies::{Replies, answer_among, listed_among};
pub use roots::Root;
pub use start::Start;
pub use table::{PushError, Table};

/// The most nodes that a table has.
pub const MAX_NODES: u32 = 1_000_000;

/// A reply that is listed, and the number of the node that answers it.
#[derive(Clone, Copy, Debug, PartialEq, Eq, Hash)]
pub struct Reply {
    pub at: Point,
    pub next: u32,
}

/// What answers the replies that are not listed: none of them comes, since the attack wins (`Wins`), a node (`To`), or
/// nothing.
#[derive(Clone, Copy, Debug, PartialEq, Eq, Hash)]
pub enum Rest {
    Wins,
    To(u32),
    Nothing,
}

impl Rest {
    /// Whether this is the rest of a winning node.
    pub fn is_winning(self) -> bool
        ensures wins { result ≡ is_winning self }
    {
        matches!(self, Rest::Wins)
    }

    /// Whether the node that is named, if one is, is below `len`.
    pub(crate) fn is_below(self, len: u32) -> bool
        ensures below { result ≡ list_all (λ j. nat_lt j len) (option_to_list (rest_node self)) }
    {
        match self {
            Rest::To(number) => number < len,
            Rest::Wins | Rest::Nothing => true,
        }
    }

    /// The node that is named, if one is.
    pub fn node(self) -> Option<u32>
        ensures node { result ≡ rest_node self }
    {
        match self {
            Rest::Wins => None,
            Rest::To(number) => Some(number),
            Rest::Nothing => None,
        }
    }
}

/// A node of a table: the attack that is played, the replies that are listed, and the rest. A node whose rest is `Wins`
/// is a winning node: its attack is to win at once.
#[derive(Debug, Drop, PartialEq, Eq, Hash)]
pub struct Node {
    pub attack: Point,
    pub replies: Replies,
    pub rest: Rest,
}

impl Node {
    /// The node, lent.
    pub fn lent(&self) -> LentNode<'_>
        ensures node { lent_node result ≡ self.now }
    {
        LentNode {
            attack: self.attack,
            replies: self.replies.as_slice(),
            rest: self.rest,
        }
    }
}

/// A node that is lent: its attack, its replies as a slice, and its rest.
#[derive(Clone, Copy, Debug)]
pub struct LentNode<'a> {
    pub attack: Point,
    pub replies: &'a [Reply],
    pub rest: Rest,
}

/// What is wrong with a table at the end of a line: its attack is no move, fouls or draws, is that of a winning node
/// and yet goes on, or a reply to it wins, draws, or goes on and has no answer.
#[derive(Clone, Copy, Debug, PartialEq, Eq)]
pub enum Why {
    AttackRefused,
    AttackFouls,
    AttackDraws,
    NotWon,
    ReplyWins,
    ReplyDraws,
    NoAnswer,
}
