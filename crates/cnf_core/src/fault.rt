// Why a formula doesn't grow.
use plan_core::OutOfMemory;
use std::alloc::{AllocError, AllocFailed};
use thiserror::Error;

/// Why a call that adds variables or clauses is refused.
#[derive(Debug, Drop, Error)]
pub enum CnfFault {
    /// The clauses would have more words than there is room for, or there would be too many
    /// variables.
    #[error("no room for further clauses or variables")]
    Room,
    /// Memory couldn't be had.
    #[error("out of memory")]
    Memory,
}

impl From<AllocError> for CnfFault {
    ghost use Rattle.std.specs.Prelude.{◌≡◌};
    ghost use Rattle.cnf_core.specs.declared.fault.CnfFault.TheVariants.{Memory};

    ghost from_gives = { λ _ e. e ≡ Memory };

    fn from(_: AllocError) -> Self {
        CnfFault::Memory
    }
}

impl<T: Drop> From<AllocFailed<T>> for CnfFault {
    ghost use Rattle.std.specs.Prelude.{◌≡◌};
    ghost use Rattle.cnf_core.specs.declared.fault.CnfFault.TheVariants.{Memory};

    ghost from_gives = { λ _ e. e ≡ Memory };

    fn from(_: AllocFailed<T>) -> Self {
        CnfFault::Memory
    }
}

impl From<OutOfMemory> for CnfFault {
    ghost use Rattle.std.specs.Prelude.{◌≡◌};
    ghost use Rattle.cnf_core.specs.declared.fault.CnfFault.TheVariants.{Memory};

    ghost from_gives = { λ _ e. e ≡ Memory };

    fn from(_: OutOfMemory) -> Self {
        CnfFault::Memory
    }
}
