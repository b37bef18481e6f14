//! Why a search gives no answer. Every search that writes its wins into a compiler fails in the same two ways: there is no
//! room for a node, or no memory.
#![tactic(auto)]

use crate::CompileError;
use std::alloc::AllocError;
use thiserror::Error;

/// Why a search gives no answer. The nodes that were put into the compiler before stay.
#[derive(Debug, Drop, PartialEq, Eq, Error)]
pub enum SearchError {
    /// A node that the answer needs is new, and the compiler has no room for it.
    #[error("the compiler is full")]
    Full,
    /// There is no memory.
    #[error("out of memory")]
    Memory,
}

impl From<CompileError> for SearchError {
    ghost use Rattle.std.specs.Prelude.{◌≡◌};
    ghost use Rattle.strategy_compiler.specs.Wins.{search_error};

    ghost from_gives = { λ error given. given ≡ search_error error };

    fn from(error: CompileError) -> SearchError {
        match error {
            CompileError::Full => SearchError::Full,
            CompileError::Memory => SearchError::Memory,
        }
    }
}

impl From<AllocError> for SearchError {
    ghost use Rattle.std.specs.Prelude.{◌≡◌};
    ghost use Rattle.strategy_compiler.specs.declared.error.SearchError.TheVariants.{Memory};

    ghost from_gives = { λ _ error. error ≡ Memory };

    fn from(_error: AllocError) -> SearchError {
        SearchError::Memory
    }
}
