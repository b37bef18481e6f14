//! What holds files by name.
//!
//! A shelf may tell its files, which are a map from names to bytes. A name without a file is a failure of the shelf, as a
//! file that cannot be read is.
ghost use Rattle.std.specs.Prelude.{◌≡◌, ◌≢◌, ◌<◌, ◌≤◌, ℕ, Option, length, IfOk, IfErr, OnOk, IfSome, IsErrOf, IsSomeAnd};
ghost use Rattle.renju_io.specs.Faults.{HasRisen, HasStayed, HasNotFallen};
ghost use Rattle.renju_io.specs.Asked.{IsAskedOnce};
ghost use Rattle.renju_io.specs.Files.{Files, file_under};

use crate::MAX_INPUT_BYTES;
use std::alloc::Global;
use thiserror::Error;

/// Why a file was not loaded.
#[derive(Clone, Copy, Debug, PartialEq, Eq, Error)]
pub enum LoadError {
    /// The shelf failed, or holds no file under the name: its count of faults rose in this call.
    #[error("the shelf failed")]
    Failed,
    /// The file has more than `MAX_INPUT_BYTES` bytes.
    #[error("the file is too long")]
    TooLong,
    /// No memory was found for the bytes.
    #[error("out of memory")]
    Memory,
}

/// A shelf of files.
pub trait Shelf {
    /// The files, where the shelf tells them.
    ghost files: { Self → Option Files };

    /// How often the shelf has failed, up to 2^64 - 1. A name without a file is such a fault.
    ghost faults: { Self → ℕ };

    /// How often the shelf was asked, up to 2^64 - 1. A load that fails counts too.
    ghost asked: { Self → ℕ };

    /// The bytes of the file under a name. No call changes the files.
    fn load(&mut self, alloc: Global, name: &str) -> Result<Vec<u8>, LoadError>
        ensures found { IfOk result (λ bytes. IfSome (files self.old) (λ files.
            file_under name.now files ≡ Some bytes.items)) }
        ensures short { IfOk result (λ bytes. length bytes.items ≤ MAX_INPUT_BYTES) }
        ensures too_long { IsErrOf result LoadError.TooLong → IfSome (files self.old) (λ files.
            IsSomeAnd (file_under name.now files) (λ bytes. MAX_INPUT_BYTES < length bytes)) }
        ensures failed { IsErrOf result LoadError.Failed → HasRisen (faults self.old) (faults self.new) }
        ensures uncounted { OnOk result (HasStayed (faults self.old) (faults self.new)) }
        ensures not_failed { IfErr result (λ e.
            e ≢ LoadError.Failed → HasStayed (faults self.old) (faults self.new)) }
        ensures kept { files self.new ≡ files self.old }
        ensures counted { HasNotFallen (faults self.old) (faults self.new) }
        ensures asks { IsAskedOnce (asked self.old) (asked self.new) };
}
