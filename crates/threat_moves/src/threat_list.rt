//! Threats, and lists of them.
//!
//! A threat has its gain, the point where the attacker plays, and its costs, the points of which the defender may take any
//! to answer it (Allis, van den Herik and Huntjens, "Go-Moku and Threat-Space Search").
#![tactic(auto)]

ghost use Rattle.std.specs.Prelude.{◌≡◌, ◌<◌, ◌++◌, ◌-◌, [], ◌∷◌, length, take, slice_get, Some, IfOk, OnOk, OnErr};

use std::alloc::{AllocError, Global};
use std::marker::Model;
use stone_board::{Axis, Point, Points};

/// What a threat makes: a four, which wins by one more stone, or a three, which becomes a straight four by one more.
#[derive(Clone, Copy, Debug, PartialEq, Eq)]
pub enum ThreatKind {
    Four,
    Three,
}

/// A threat of a side: its stone on the gain makes a four or a three on the axis, and a stone of the other side on any of
/// the costs answers it.
#[derive(Debug, Drop)]
pub struct Threat {
    pub gain: Point,
    pub kind: ThreatKind,
    pub axis: Axis,
    pub costs: Points,
}

impl Threat {
    /// A copy of the threat. `Err` says that memory ran out.
    pub fn copy(&self, alloc: Global) -> Result<Threat, AllocError>
        ensures copy { IfOk result (λ t. t ≡ self.now) }
    {
        let mut costs = Points::new(alloc);
        for p in self.costs.as_slice() {
            costs.push(*p)?;
        }
        Ok(Threat {
            gain: self.gain,
            kind: self.kind,
            axis: self.axis,
            costs,
        })
    }
}

/// A list of threats, seen by contracts as a list.
#[derive(Debug, Drop)]
pub struct Threats {
    items: Vec<Threat>,
}

impl Model for Threats {
    ghost use Rattle.std.specs.Prelude.{List};
    ghost use Rattle.threat_moves.specs.declared.threat_list.Threat.{Threat};

    ghost Value = { List Threat };

    ghost view = { λ t. t.items.items };
}

impl Threats {
    /// The empty list. It takes no memory.
    pub fn new(alloc: Global) -> Self
        ensures empty { result ≡ [] }
    {
        Threats {
            items: Vec::new(alloc),
        }
    }

    /// How many threats are in the list.
    pub fn len(&self) -> usize
        ensures length { result ≡ length self.now }
    {
        self.items.len()
    }

    /// Threat `i` of the list, counted from 0.
    pub fn at(&self, i: usize) -> &Threat
        requires within { i < length self.now }
        ensures item { slice_get self.now i ≡ Some result.now }
    {
        &self.items[i]
    }

    /// The threats in their order.
    pub fn as_slice(&self) -> &[Threat]
        ensures items { result.now ≡ self.now }
    {
        self.items.as_slice()
    }

    /// Adds a threat at the end. Without memory the list stays as it was, and the threat is gone.
    pub fn push(&mut self, item: Threat) -> Result<(), AllocError>
        ensures ok { OnOk result (self.new ≡ self.old ++ item ∷ []) }
        ensures err { OnErr result (self.new ≡ self.old) }
    {
        self.items.push(item)?;
        Ok(())
    }

    /// Takes the last threat off, if there is one.
    pub fn drop_last(&mut self)
        ensures dropped { self.new ≡ take (length self.old - 1) self.old }
    {
        self.items.truncate(self.items.len().saturating_sub(1));
    }

    /// A copy of the list. `Err` says that memory ran out.
    pub fn copy(&self, alloc: Global) -> Result<Threats, AllocError>
        ensures copy { IfOk result (λ t. t ≡ self.now) }
    {
        let mut copied = Threats::new(alloc);
        for threat in self.items.as_slice() {
            copied.push(threat.copy(alloc)?)?;
        }
        Ok(copied)
    }
}
