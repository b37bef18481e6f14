//! Which calls of a device in memory fail.
//!
//! The calls are counted from 1, and those whose numbers are listed fail. Both counts stop at their last value.
ghost use Rattle.std.specs.Prelude.{◌≡◌};
ghost use Rattle.renju_io.specs.Faults.{HasRisen, HasNotFallen};
ghost use Rattle.renju_io.specs.Asked.{one_more};
ghost use Rattle.renju_io.specs.Memory.{no_calls, fails_next};

use std::marker::Model;

/// The calls of a device in memory, numbered from 1, and how many of them failed.
#[derive(Drop)]
pub struct Failures {
    failing: Vec<u64>,
    made: u64,
    faults: u64,
}

impl Model for Failures {
    ghost use Rattle.renju_io.specs.Memory.{Calls};

    ghost Value = { Calls };

    ghost view = { λ f. record { failing = f.failing.items; made = f.made; faults = f.faults } };
}

impl Failures {
    /// No call was made, and those with these numbers are to fail.
    pub fn new(failing: Vec<u64>) -> Self
        ensures calls { result ≡ no_calls failing.items }
    {
        Failures {
            failing,
            made: 0,
            faults: 0,
        }
    }

    /// Counts a call, and answers whether it is one that is to fail.
    pub fn begin_call(&mut self) -> bool
        ensures fails { result ≡ fails_next self.old }
        ensures counted { self.new ≡ record self.old { made = one_more self.old.made } }
    {
        self.made = self.made.saturating_add(1);
        self.failing.contains(&self.made)
    }

    /// Counts a call that failed.
    pub fn count_fault(&mut self)
        ensures counted { self.new ≡ record self.old { faults = one_more self.old.faults } }
        ensures risen { HasRisen self.old.faults self.new.faults }
        ensures not_fallen { HasNotFallen self.old.faults self.new.faults }
    {
        self.faults = self.faults.saturating_add(1);
    }
}
