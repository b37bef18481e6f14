//! Where a table is entered: at a node, whose attack is played, or at a start, where the opponent moves first.
//!
//! `specs/Roots.antt` says of both kinds in the same words what they name, where they are accepted and what they claim.
#![tactic(auto)]

ghost use Rattle.std.specs.Prelude.{◌≡◌};
ghost use Rattle.strategy_graph.specs.Roots.{root_below};

use crate::Start;

/// Where a table is entered: at the node of this number, whose attack is to be played, or at a start.
#[derive(Debug, Drop)]
pub enum Root {
    Attack(u32),
    Defend(Start),
}

impl Root {
    /// Whether each node that the root names is below `len`.
    pub fn names_below(&self, len: u32) -> bool
        ensures below { result ≡ root_below self.now len }
    {
        match self {
            Root::Attack(number) => *number < len,
            Root::Defend(start) => start.names_below(len),
        }
    }
}
