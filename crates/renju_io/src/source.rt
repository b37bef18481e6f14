//! What gives bytes, piece by piece, up to its end.
//!
//! A source may tell the bytes that it has left. Each read moves some of them to a buffer; where the source does not tell
//! them, nothing is said of what it gave but how much. A source that has told its end may not be read again.
ghost use Rattle.std.specs.Prelude.{◌≡◌, ◌<◌, ◌≤◌, ℕ, false, true, List, Option, Some, length, take, IfOk, OnOk, OnErr};
ghost use Rattle.std.specs.Io.KnownBytes.{IsAtEnd};
ghost use Rattle.renju_io.specs.Faults.{HasRisen, HasStayed, HasNotFallen};
ghost use Rattle.renju_io.specs.Asked.{IsAskedOnce};
ghost use Rattle.renju_io.specs.Told.{Gives, tells_end as tells_end_lem};

use crate::Failed;

/// A source of bytes.
pub trait Source {
    /// The bytes that are left, where the source tells them.
    ghost left: { Self → Option (List ℕ) };

    /// How many bytes the last read gave that did not fail, if there was one. Where it gave none it told the end.
    ghost last: { Self → Option ℕ };

    /// How often the source has failed, up to 2^64 - 1.
    ghost faults: { Self → ℕ };

    /// How often the source was asked, up to 2^64 - 1. A read that fails counts too.
    ghost asked: { Self → ℕ };

    /// Whether a read has told the end of the input. Then nothing is left, and the source may not be asked again.
    fn has_ended(&self) -> bool
        ensures told { result ≡ tells_end_lem (last self.now) }
        ensures at_end { result ≡ true → IsAtEnd (left self.now) };

    /// Moves the next bytes that are left to the front of `buf`, which has room, and answers how many. The bytes of `buf` behind
    /// them may be any. 0 means that the input has ended, and no read may follow.
    fn read(&mut self, buf: &mut [u8]) -> Result<usize, Failed>
        requires room { 0 < length buf.old }
        requires open { tells_end_lem (last self.old) ≡ false }
        ensures fits { IfOk result (λ count. count ≤ length buf.old) }
        ensures given { IfOk result (λ count. Gives (left self.old) (take count buf.new) (left self.new)) }
        ensures end { result ≡ Ok 0 → IsAtEnd (left self.new) }
        ensures last { IfOk result (λ count. last self.new ≡ Some count) }

        // A read that fails gives nothing.
        ensures kept { OnErr result (left self.new ≡ left self.old) }
        ensures last_kept { OnErr result (last self.new ≡ last self.old) }
        ensures failed { OnErr result (HasRisen (faults self.old) (faults self.new)) }
        ensures uncounted { OnOk result (HasStayed (faults self.old) (faults self.new)) }
        ensures counted { HasNotFallen (faults self.old) (faults self.new) }
        ensures asks { IsAskedOnce (asked self.old) (asked self.new) };
}

/// Whether that last read told the end.
pub(crate) fn tells_end(last: Option<usize>) -> bool
    ensures told { result ≡ tells_end_lem last }
{
    match last {
        Some(count) => count == 0,
        None => false,
    }
}
