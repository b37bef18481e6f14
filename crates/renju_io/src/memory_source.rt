//! A source that gives bytes of memory, in pieces, and fails at stated calls.
//!
//! It stands in for an input in tests: cut into pieces of any size, it gives the same bytes, and a call that fails gives
//! none. It may be asked again once it has told its end, which it then tells again.
ghost use Rattle.std.specs.Prelude.{◌≡◌, ◌<◌, ◌≤◌, [], true, min, length, take, IfOk, OnOk, OnErr, Ok, Err, None, Some, if◌then◌else◌};
ghost use Rattle.renju_io.specs.Faults.{HasRisen, HasStayed, HasNotFallen};
ghost use Rattle.renju_io.specs.Told.{Gives, tells_end as tells_end_lem};
ghost use Rattle.renju_io.specs.Asked.{IsAskedOnce};
ghost use Rattle.renju_io.specs.Memory.{no_calls, fails_next, given_count, after_read};

use crate::failures::Failures;
use crate::source::tells_end;
use crate::{Failed, Source};
use std::marker::Model;

/// A source over bytes in memory.
#[derive(Drop)]
pub struct MemorySource {
    bytes: Vec<u8>,
    given: usize,
    last: Option<usize>,
    piece: usize,
    failures: Failures,
}

impl Model for MemorySource {
    ghost use Rattle.std.specs.Prelude.{◌≡◌, ◌≤◌, ◌<◌, true, drop, vec_len};
    ghost use Rattle.renju_io.specs.Memory.{SourceState};
    ghost use Rattle.renju_io.specs.Told.{tells_end};

    ghost Value = { SourceState };

    ghost view = { λ s. record { left = drop s.given s.bytes.items; last = s.last; piece = s.piece; calls = s.failures } };

    ghost invariant = { λ s. (s.given ≤ vec_len s.bytes) × (0 < s.piece) × (tells_end s.last ≡ true → s.given ≡ vec_len s.bytes) };
}

impl MemorySource {
    /// A source that has these bytes left. A read gives at most `piece` of them, and the reads whose numbers are in
    /// `failing` fail, the first read being number 1. It takes no memory.
    pub fn new(bytes: Vec<u8>, piece: usize, failing: Vec<u64>) -> MemorySource
        requires some { 0 < piece }
        ensures whole { result ≡ record { left = bytes.items; last = None; piece = piece; calls = no_calls failing.items } }
    {
        MemorySource {
            bytes,
            given: 0,
            last: None,
            piece,
            failures: Failures::new(failing),
        }
    }
}

impl Source for MemorySource {
    ghost left = { λ s. Some s.left };

    ghost last = { λ s. s.last };

    ghost faults = { λ s. s.calls.faults };

    ghost asked = { λ s. s.calls.made };

    fn has_ended(&self) -> bool
        ensures told { result ≡ tells_end_lem self.now.last }
        ensures at_end { result ≡ true → self.now.left ≡ [] }
    {
        tells_end(self.last)
    }

    fn read(&mut self, buf: &mut [u8]) -> Result<usize, Failed>
        requires room { 0 < length buf.old }
        ensures fits { IfOk result (λ count. count ≤ length buf.old) }
        ensures given { IfOk result (λ count.
            Gives (Some self.old.left) (take count buf.new) (Some self.new.left)) }
        ensures end { result ≡ Ok 0 → self.new.left ≡ [] }
        ensures last { IfOk result (λ count. self.new.last ≡ Some count) }
        ensures kept { OnErr result (self.new.left ≡ self.old.left) }
        ensures last_kept { OnErr result (self.new.last ≡ self.old.last) }
        ensures failed { OnErr result (HasRisen self.old.calls.faults self.new.calls.faults) }
        ensures uncounted { OnOk result (HasStayed self.old.calls.faults self.new.calls.faults) }
        ensures counted { HasNotFallen self.old.calls.faults self.new.calls.faults }
        ensures asks { IsAskedOnce self.old.calls.made self.new.calls.made }

        // Which reads fail, and how much the others give.
        ensures answer { result ≡ (if fails_next self.old.calls
            then Err (record {}) else Ok (given_count self.old (length buf.old))) }
        ensures after { self.new ≡ after_read self.old (length buf.old) }
    {
        if self.failures.begin_call() {
            self.failures.count_fault();
            return Err(Failed);
        }
        let count = copy_front(&self.bytes[self.given..], buf, self.piece);
        self.given += count;
        self.last = Some(count);
        Ok(count)
    }
}

// Copies bytes of `from` to the front of `to`, at most so many, and answers how many.
fn copy_front(from: &[u8], to: &mut [u8], most: usize) -> usize
    ensures count { result ≡ min (length to.old) (min most (length from.now)) }
    ensures copied { take result to.new ≡ take result from.now }
{
    let count = to.len().min(most.min(from.len()));
    to[..count].copy_from_slice(&from[..count]);
    count
}
