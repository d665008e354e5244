// Why a document gives no rows.
ghost use Rattle.std.specs.Prelude.{◌≡◌};
ghost use Rattle.railml_read.specs.declared.faults.ReadFault.TheVariants.{Memory};

use plan_core::OutOfMemory;
use railml_text::TextWhat;
use std::alloc::{AllocError, AllocFailed};
use thiserror::Error;

/// Why a document gives no rows.
#[derive(Debug, Drop, Error)]
pub enum ReadFault {
    /// The text has a fault. `at` is its place, in bytes from 0.
    #[error("a fault in the text")]
    Text { what: TextWhat, at: usize },
    /// Memory couldn't be had.
    #[error("out of memory")]
    Memory,
}

impl From<OutOfMemory> for ReadFault {
    ghost from_gives = { λ _ e. e ≡ Memory };

    fn from(_: OutOfMemory) -> Self {
        ReadFault::Memory
    }
}

impl From<AllocError> for ReadFault {
    ghost from_gives = { λ _ e. e ≡ Memory };

    fn from(_: AllocError) -> Self {
        ReadFault::Memory
    }
}

impl<T: Drop> From<AllocFailed<T>> for ReadFault {
    ghost from_gives = { λ _ e. e ≡ Memory };

    fn from(_: AllocFailed<T>) -> Self {
        ReadFault::Memory
    }
}
