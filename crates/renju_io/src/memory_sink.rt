//! A sink that keeps what is written in memory, and fails at stated calls.
//!
//! It stands in for an output in tests: a call that fails keeps a front of its piece, of a length that is set.
ghost use Rattle.std.specs.Prelude.{◌≡◌, [], true, false, Some, IsErr, OnOk, OnErr};
ghost use Rattle.renju_io.specs.Faults.{HasRisen, HasStayed, HasNotFallen};
ghost use Rattle.renju_io.specs.Told.{Takes, TakesPart};
ghost use Rattle.renju_io.specs.Asked.{IsAskedOnce};
ghost use Rattle.renju_io.specs.Memory.{no_calls, fails_next, after_write, FailsToWrite};

use crate::failures::Failures;
use crate::{Failed, Sink};
use std::alloc::Global;
use std::marker::Model;

/// A sink whose bytes stay in memory.
#[derive(Drop)]
pub struct MemorySink {
    bytes: Vec<u8>,
    kept: usize,
    failures: Failures,
}

impl Model for MemorySink {
    ghost use Rattle.renju_io.specs.Memory.{SinkState};

    ghost Value = { SinkState };

    ghost view = { λ s. record { written = s.bytes.items; kept = s.kept; calls = s.failures } };
}

impl MemorySink {
    /// A sink with nothing written. The writes whose numbers are in `failing` fail, the first write being number 1,
    /// and keep the first `kept` bytes of their piece, or the whole piece if it is shorter. It takes no memory.
    pub fn new(alloc: Global, kept: usize, failing: Vec<u64>) -> MemorySink
        ensures empty { result ≡ record { written = []; kept = kept; calls = no_calls failing.items } }
    {
        MemorySink {
            bytes: Vec::new(alloc),
            kept,
            failures: Failures::new(failing),
        }
    }

    /// What was written.
    pub fn bytes(&self) -> &[u8]
        ensures written { result.now ≡ self.now.written }
    {
        &self.bytes
    }
}

impl Sink for MemorySink {
    ghost written = { λ s. Some s.written };

    ghost faults = { λ s. s.calls.faults };

    ghost asked = { λ s. s.calls.made };

    /// A write for which no memory is found fails too, and keeps nothing of its piece.
    fn write(&mut self, piece: &[u8]) -> Result<(), Failed>
        ensures whole { OnOk result (Takes (Some self.old.written) piece.now (Some self.new.written)) }
        ensures part { OnErr result (TakesPart (Some self.old.written) piece.now (Some self.new.written)) }
        ensures failed { OnErr result (HasRisen self.old.calls.faults self.new.calls.faults) }
        ensures uncounted { OnOk result (HasStayed self.old.calls.faults self.new.calls.faults) }
        ensures counted { HasNotFallen self.old.calls.faults self.new.calls.faults }
        ensures asks { IsAskedOnce self.old.calls.made self.new.calls.made }

        // Which writes fail, and what each leaves.
        ensures listed { fails_next self.old.calls ≡ true → IsErr result }
        ensures written { OnOk result (self.new ≡ after_write self.old piece.now false) }
        ensures not_written { OnErr result (FailsToWrite self.old piece.now self.new) }
    {
        let fails = self.failures.begin_call();
        let taken = if fails {
            &piece[..self.kept.min(piece.len())]
        } else {
            piece
        };
        if self.bytes.extend_from_slice(taken).is_err() || fails {
            self.failures.count_fault();
            return Err(Failed);
        }
        Ok(())
    }
}
