//! What takes bytes, piece by piece.
//!
//! A sink may tell the bytes that were written. A write that fails leaves a front of its piece written, so that what a
//! reader of the output sees is always a front of what was meant. A longer text is cut into pieces by `write_text`.
ghost use Rattle.std.specs.Prelude.{◌≡◌, ◌≤◌, ℕ, List, Option, length, OnOk, OnErr};
ghost use Rattle.renju_io.specs.Faults.{HasRisen, HasStayed, HasNotFallen};
ghost use Rattle.renju_io.specs.Asked.{IsAskedOnce};
ghost use Rattle.renju_io.specs.Told.{Takes, TakesPart};

use crate::{Failed, MAX_PIECE_BYTES};

/// A sink of bytes.
pub trait Sink {
    /// The bytes that were written, where the sink tells them.
    ghost written: { Self → Option (List ℕ) };

    /// How often the sink has failed, up to 2^64 - 1.
    ghost faults: { Self → ℕ };

    /// How often the sink was asked, up to 2^64 - 1. A write that fails counts too.
    ghost asked: { Self → ℕ };

    /// Writes the whole piece, of at most MAX_PIECE_BYTES bytes, behind what was written. A write that fails has written some first
    /// bytes of the piece, maybe none or all of them.
    fn write(&mut self, piece: &[u8]) -> Result<(), Failed>
        requires short { length piece.now ≤ MAX_PIECE_BYTES }
        ensures whole { OnOk result (Takes (written self.old) piece.now (written self.new)) }
        ensures part { OnErr result (TakesPart (written self.old) piece.now (written self.new)) }
        ensures failed { OnErr result (HasRisen (faults self.old) (faults self.new)) }
        ensures uncounted { OnOk result (HasStayed (faults self.old) (faults self.new)) }
        ensures counted { HasNotFallen (faults self.old) (faults self.new) }
        ensures asks { IsAskedOnce (asked self.old) (asked self.new) };
}
