//! The whole input of a command, read to its end.
//!
//! Reads are asked for until one tells the end, and none after that or after one that failed. The bytes are those of all
//! reads, one behind the other, whatever the reads cut them into.
ghost use Rattle.std.specs.Prelude.{◌≡◌, ◌≢◌, ◌+◌, ◌<◌, ◌≤◌, true, length, IfOk, IfErr, IfSome, IsErrOf, OnOk, vec_len};
ghost use Rattle.std.specs.Io.KnownBytes.{IsAtEnd};
ghost use Rattle.renju_io.specs.Faults.{HasRisen, HasStayed, HasNotFallen};
ghost use Rattle.renju_io.specs.Asked.{GivesByEach, IsAskedAtMost};
ghost use Rattle.renju_io.specs.Told.{GivesSome, FailsAfter, tells_end};

use crate::{MAX_INPUT_BYTES, Source};
use std::alloc::{AllocError, Global};
use thiserror::Error;

/// Why an input was not read to its end.
#[derive(Clone, Copy, Debug, PartialEq, Eq, Error)]
pub enum ReadAllError {
    /// The source failed: its count of faults rose in this call.
    #[error("the input failed")]
    Failed,
    /// The input has more than `MAX_INPUT_BYTES` bytes.
    #[error("the input is too long")]
    TooLong,
    /// No memory was found for the bytes.
    #[error("out of memory")]
    Memory,
}

// How many bytes one read asks for: few, so that a small input does not pay for a large piece.
const READ_BYTES: usize = 8_192;

/// The bytes of a source to the end of its input, of which there are at most `MAX_INPUT_BYTES`. After an `Err` the
/// source has given what was read.
pub fn read_all<S: Source>(alloc: Global, source: &mut S) -> Result<Vec<u8>, ReadAllError>
    ensures whole { IfOk result (λ bytes. IfSome (S.left source.old) (λ left. bytes.items ≡ left)) }
    ensures at_end { OnOk result (IsAtEnd (S.left source.new)) }
    ensures told_end { OnOk result (tells_end (S.last source.new) ≡ true) }
    ensures short { IfOk result (λ bytes. length bytes.items ≤ MAX_INPUT_BYTES) }

    ensures too_long { IsErrOf result ReadAllError.TooLong →
        IfSome (S.left source.old) (λ left. MAX_INPUT_BYTES < length left) }
    ensures failed { IsErrOf result ReadAllError.Failed → HasRisen (S.faults source.old) (S.faults source.new) }

    // The read that failed was the last, and left what the reads before it had left.
    ensures stopped { IsErrOf result ReadAllError.Failed → FailsAfter S.left S.faults source.old source.new }
    ensures uncounted { OnOk result (HasStayed (S.faults source.old) (S.faults source.new)) }
    ensures not_failed { IfErr result (λ e.
        e ≢ ReadAllError.Failed → HasStayed (S.faults source.old) (S.faults source.new)) }

    ensures taken { GivesSome (S.left source.old) (S.left source.new) }
    ensures by_each { GivesByEach (S.left source.old) (S.left source.new) (S.asked source.old) (S.asked source.new) }
    ensures few_reads { IsAskedAtMost (MAX_INPUT_BYTES + 1) (S.asked source.old) (S.asked source.new) }
    ensures counted { HasNotFallen (S.faults source.old) (S.faults source.new) }
{
    let Ok(mut piece) = empty_piece(alloc) else {
        return Err(ReadAllError::Memory);
    };
    let mut bytes = Vec::new(alloc);
    while !source.has_ended() {
        let Ok(count) = source.read(&mut piece) else {
            return Err(ReadAllError::Failed);
        };
        if count > MAX_INPUT_BYTES - bytes.len() {
            return Err(ReadAllError::TooLong);
        }
        if bytes.extend_from_slice(&piece[..count]).is_err() {
            return Err(ReadAllError::Memory);
        }
    }
    Ok(bytes)
}

// Room for what one read gives. That it isn't empty is all that the reader needs to know.
fn empty_piece(alloc: Global) -> Result<Vec<u8>, AllocError>
    ensures room { IfOk result (λ piece. 0 < vec_len piece) }
{
    vec![in alloc; 0u8; READ_BYTES]
}
