//! What the brain follows: a node of the table that it holds, or of the table of a win that it found itself.
//!
//! To follow is to look the reply up among the replies of the node: the ones that are listed first, and else the node for all
//! others.
#![tactic(auto)]

ghost use Rattle.std.specs.Prelude.{◌≡◌, ◌-◌, ◌<◌, ◌≤◌, true, false, length, Some, MatchOption};
ghost use Rattle.game_rules.specs.Grid.{Grid};
ghost use Rattle.game_rules.specs.declared.RuleKind.{RuleKind};
ghost use Rattle.strategy_graph.specs.Tables.{IsTable, answer_at};
ghost use Rattle.brain_session.specs.ChosenMoves.{move_by};
ghost use Rattle.brain_session.specs.Kept.{IsInTable, NodeStandsAt, followed_of, guide_after, nodes_of};

use four_search::FourTable;
use game_rules::Point;
use strategy_checker::Held;
use strategy_graph::Table;

/// A node of the held table, or a table of the brain's own with the node in it.
#[derive(Drop)]
pub(crate) enum Guide {
    HeldNode { node: u32 },
    OwnWin { own: FourTable },
}

impl Guide {
    /// The attack of the node that is followed.
    pub(crate) fn attack(&self, held: &Held) -> Point
        requires in_table { IsInTable held.now self.now }
        ensures attack { (rule : RuleKind) (b : Grid) → NodeStandsAt held.now rule b self.now → move_by held.now rule b (followed_of self.now) ≡ Some result }
        ensures table { IsTable (nodes_of held.now self.now) }
    {
        match self {
            Guide::HeldNode { node } => held.table().node(*node).attack,
            Guide::OwnWin { own } => own.table.node(own.node).attack,
        }
    }

    /// Goes on to the node that answers the reply, and answers whether there is one. No memory is taken.
    pub(crate) fn answer(&mut self, held: &Held, reply: Point) -> bool
        requires in_table { IsInTable held.now self.old }
        ensures answered { MatchOption (guide_after held.now self.old reply) ((result ≡ false) × (self.new ≡ self.old)) (λ g. (result ≡ true) × (self.new ≡ g)) }
    {
        match self {
            Guide::HeldNode { node } => goes_on(held.table(), node, reply),
            Guide::OwnWin { own } => goes_on_in(own, reply),
        }
    }
}

/// Goes on in a table of the brain's own to the node that answers the reply, and answers whether there is one.
fn goes_on_in(own: &mut FourTable, reply: Point) -> bool
    requires in_table { own.old.node < length own.old.table }
    requires moves { 1 ≤ own.old.moves }
    ensures answered { MatchOption (answer_at own.old.table own.old.node reply) ((result ≡ false) × (own.new ≡ own.old))
        (λ j. (result ≡ true) × (own.new ≡ record own.old { node = j; moves = own.old.moves - 1 })) }
{
    let answered = goes_on(&own.table, &mut own.node, reply);
    if answered {
        own.moves -= 1;
    }
    answered
}

/// Goes on from the node to the one that answers the reply, and answers whether there is one.
fn goes_on(table: &Table, node: &mut u32, reply: Point) -> bool
    requires in_table { node.old < length table.now }
    ensures answered { MatchOption (answer_at table.now node.old reply) ((result ≡ false) × (node.new ≡ node.old)) (λ j. (result ≡ true) × (node.new ≡ j)) }
{
    match table.lookup(*node, reply) {
        Some(next) => {
            *node = next;
            true
        }
        None => false,
    }
}
