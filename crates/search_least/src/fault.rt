// Why there is no outcome.
ghost use Rattle.std.specs.Prelude.{◌≡◌};
ghost use Rattle.search_least.specs.declared.fault.MinFault.TheVariants.{Memory};

use plan_core::OutOfMemory;
use std::alloc::{AllocError, AllocFailed};
use thiserror::Error;

/// Why there is no outcome.
#[derive(Debug, Drop, Error)]
pub enum MinFault {
    /// The log couldn't be written. Its count of faults rose in the call.
    #[error("the log could not be written")]
    Log,
    /// Memory couldn't be had.
    #[error("out of memory")]
    Memory,
}

impl From<AllocError> for MinFault {
    ghost from_gives = { λ _ e. e ≡ Memory };

    fn from(_: AllocError) -> Self {
        MinFault::Memory
    }
}

impl<T: Drop> From<AllocFailed<T>> for MinFault {
    ghost from_gives = { λ _ e. e ≡ Memory };

    fn from(_: AllocFailed<T>) -> Self {
        MinFault::Memory
    }
}

impl From<OutOfMemory> for MinFault {
    ghost from_gives = { λ _ e. e ≡ Memory };

    fn from(_: OutOfMemory) -> Self {
        MinFault::Memory
    }
}
