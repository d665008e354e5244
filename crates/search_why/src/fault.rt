// Why there is no answer.
ghost use Rattle.std.specs.Prelude.{◌≡◌};
ghost use Rattle.search_why.specs.declared.fault.WhyFault.TheVariants.{Memory};

use plan_core::OutOfMemory;
use std::alloc::{AllocError, AllocFailed};
use thiserror::Error;

/// Why there is no answer.
#[derive(Debug, Drop, Error)]
pub enum WhyFault {
    /// The log couldn't be written. Its count of faults rose in the call.
    #[error("the log could not be written")]
    Log,
    /// Memory couldn't be had.
    #[error("out of memory")]
    Memory,
}

impl From<AllocError> for WhyFault {
    ghost from_gives = { λ _ e. e ≡ Memory };

    fn from(_: AllocError) -> Self {
        WhyFault::Memory
    }
}

impl<T: Drop> From<AllocFailed<T>> for WhyFault {
    ghost from_gives = { λ _ e. e ≡ Memory };

    fn from(_: AllocFailed<T>) -> Self {
        WhyFault::Memory
    }
}

impl From<OutOfMemory> for WhyFault {
    ghost from_gives = { λ _ e. e ≡ Memory };

    fn from(_: OutOfMemory) -> Self {
        WhyFault::Memory
    }
}
