//! What a node has of its children's numbers: the least of those that its player seeks, and the sum of the others.
//!
//! The player of a node picks the best of its children, and the other side has to be beaten in all of them. Infinity is a number
//! that no sum leaves (Allis, van der Meulen and van den Herik, Proof-Number Search).
#![tactic(auto)]

ghost use Rattle.std.specs.Prelude.{◌≡◌, ◌<◌, map};
ghost use Rattle.proof_tree.specs.Combining.{combined as combined_lem, finite_sum, least as least_lem, sought, total as total_lem};
ghost use Rattle.proof_tree.specs.declared.Kind.{Kind as AnyKind};

use crate::{INFINITE, Kind, Numbers};

/// The least of the numbers that this kind seeks, or infinity if there are no children.
fn least(kind: Kind, children: &[Numbers]) -> u32
    ensures least { result ≡ least_lem (map (sought kind) children.now) }
{
    let mut least = INFINITE;
    for child in children {
        least = least.min(child.sought(kind));
    }
    least
}

/// The sum of the numbers that this kind seeks, which is infinity if one of them is.
fn total(kind: Kind, children: &[Numbers]) -> u32
    requires sum { finite_sum (map (sought kind) children.now) < INFINITE }
    ensures total { result ≡ total_lem (map (sought kind) children.now) }
{
    let mut sum = 0;
    for child in children {
        let number = child.sought(kind);
        if number == INFINITE {
            return INFINITE;
        }
        sum += number;
    }
    sum
}

/// The numbers of a node of this kind with these children.
pub(crate) fn combined(kind: Kind, children: &[Numbers]) -> Numbers
    requires sums { (k : AnyKind) → finite_sum (map (sought k) children.now) < INFINITE }
    ensures combined { result ≡ combined_lem kind children.now }
{
    match kind {
        Kind::Attack => Numbers {
            proof: least(Kind::Attack, children),
            disproof: total(Kind::Defend, children),
        },
        Kind::Defend => Numbers {
            proof: total(Kind::Attack, children),
            disproof: least(Kind::Defend, children),
        },
    }
}
