//! Why a root is not accepted, or not held.
#![tactic(auto)]

ghost use Rattle.std.specs.Prelude.{◌≡◌};

use crate::Why;
use std::alloc::AllocError;
use stone_board::Points;
use thiserror::Error;

/// Why a root is not accepted, or not held.
#[derive(Debug, Drop, Error)]
pub enum HeldError {
    /// The root is not accepted. The moves of `line` lead to a fault, and `why` says which it is.
    #[error("the table is refused")]
    Refused { line: Points, why: Why },
    /// There are more arrivals than the work allows.
    #[error("the work is spent")]
    Spent,
    /// There is no memory to check the root or to keep it.
    #[error("out of memory")]
    Memory,
}

impl From<AllocError> for HeldError {
    ghost use Rattle.strategy_checker.specs.declared.error.HeldError.TheVariants.{Memory};

    ghost from_gives = { λ _ error. error ≡ Memory };

    fn from(_error: AllocError) -> HeldError {
        HeldError::Memory
    }
}
