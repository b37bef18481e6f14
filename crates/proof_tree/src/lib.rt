//! The tree of a proof-number search: nodes of two players in turn, each with a proof and a disproof number.
//!
//! The proof number of a node is the least number of leaves that have to be proved for the node to be proved, and the
//! disproof number is the same for disproving it (Allis, van der Meulen and van den Herik, Proof-Number Search). At a
//! node of the attacker one proved child is enough, and at one of the defender all of them have to be proved. So each
//! is the minimum of the children's at the nodes of one player, and their sum at those of the other. The search expands
//! the most-proving leaf, to which a walk leads from the root by children with the node's minimum.
//!
//! `specs/` says what holds of the numbers, and where the walk leads.
#![tactic(auto)]

ghost use Rattle.std.specs.Prelude.{◌≡◌, true, IsTrue, ◌↔◌};
ghost use Rattle.proof_tree.specs.Combining.{is_settled, other_kind, settled_numbers, sought};

mod combining;
mod tree;
mod updating;

pub use tree::ProofTree;

/// Infinity, as a proof or disproof number.
pub const INFINITE: u32 = u32::MAX;

/// Whose move it is at a node: the attacker's or the defender's.
#[derive(Clone, Copy, Debug, PartialEq, Eq)]
pub enum Kind {
    Attack,
    Defend,
}

impl Kind {
    /// The other kind, which the children of a node of this kind have.
    pub fn other(self) -> Kind
        ensures other { result ≡ other_kind self }
    {
        match self {
            Kind::Attack => Kind::Defend,
            Kind::Defend => Kind::Attack,
        }
    }
}

/// The proof number and the disproof number of a node. `INFINITE` is infinity.
#[derive(Clone, Copy, Debug, PartialEq, Eq)]
pub struct Numbers {
    pub proof: u32,
    pub disproof: u32,
}

impl Numbers {
    const PROVED: Numbers = Numbers {
        proof: 0,
        disproof: INFINITE,
    };

    const DISPROVED: Numbers = Numbers {
        proof: INFINITE,
        disproof: 0,
    };

    /// The numbers of a node that is settled: 0 and infinity if it is proved, else infinity and 0.
    pub fn settled(proved: bool) -> Numbers
        ensures settled { result ≡ settled_numbers proved }
    {
        if proved {
            Numbers::PROVED
        } else {
            Numbers::DISPROVED
        }
    }

    /// Whether the node is settled: its numbers are 0 and infinity, in either order.
    pub fn is_settled(self) -> bool
        ensures settled { result ≡ is_settled self }
    {
        (self.proof == 0 && self.disproof == INFINITE)
            || (self.proof == INFINITE && self.disproof == 0)
    }

    /// The number that a player with the move makes least: the attacker the proof number, the defender the disproof
    /// number.
    pub fn sought(self, kind: Kind) -> u32
        ensures sought { result ≡ sought kind self }
    {
        match kind {
            Kind::Attack => self.proof,
            Kind::Defend => self.disproof,
        }
    }
}

/// How a node is joined to the others: its kind, its parent, and its children, which are `count` nodes from `first` on.
/// The root is its own parent. A leaf has the count 0.
#[derive(Clone, Copy, Debug, PartialEq, Eq)]
pub struct Link {
    pub kind: Kind,
    pub parent: u32,
    pub first: u32,
    pub count: u32,
}
