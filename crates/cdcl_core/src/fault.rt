// Why a call fails.
ghost use Rattle.std.specs.Prelude.{◌≡◌};
ghost use Rattle.cdcl_core.specs.Faults.{add_fault, solve_fault};
ghost use Rattle.cdcl_core.specs.declared.fault.AddFault.TheVariants.{Memory as NoMemory};
ghost use Rattle.cdcl_core.specs.declared.fault.SolveFault.TheVariants.{Memory as NoMemoryLeft};

use plan_core::OutOfMemory;
use refute_log::LogSinkFault;
use std::alloc::{AllocError, AllocFailed};
use thiserror::Error;

/// Why variables or a clause weren't added.
#[derive(Debug, Drop, Error)]
pub enum AddFault {
    /// There would be too many variables, or the clauses would have more words than there is room for.
    #[error("no room for further variables or clauses")]
    Room,
    /// The log refused the line. Its count of faults rose in the call.
    #[error("the log could not be written")]
    Log,
    /// Memory couldn't be had.
    #[error("out of memory")]
    Memory,
}

impl From<OutOfMemory> for AddFault {
    ghost from_gives = { λ _ e. e ≡ NoMemory };

    fn from(_: OutOfMemory) -> Self {
        AddFault::Memory
    }
}

impl From<AllocError> for AddFault {
    ghost from_gives = { λ _ e. e ≡ NoMemory };

    fn from(_: AllocError) -> Self {
        AddFault::Memory
    }
}

impl<T: Drop> From<AllocFailed<T>> for AddFault {
    ghost from_gives = { λ _ e. e ≡ NoMemory };

    fn from(_: AllocFailed<T>) -> Self {
        AddFault::Memory
    }
}

impl From<LogSinkFault> for AddFault {
    ghost from_gives = { λ f e. e ≡ add_fault f };

    fn from(fault: LogSinkFault) -> Self {
        match fault {
            LogSinkFault::Failed => AddFault::Log,
            LogSinkFault::Memory => AddFault::Memory,
        }
    }
}

/// Why a query wasn't answered.
#[derive(Debug, Drop, Error)]
pub enum SolveFault {
    /// The log refused a line. Its count of faults rose in the call.
    #[error("the log could not be written")]
    Log,
    /// Memory couldn't be had.
    #[error("out of memory")]
    Memory,
}

impl From<OutOfMemory> for SolveFault {
    ghost from_gives = { λ _ e. e ≡ NoMemoryLeft };

    fn from(_: OutOfMemory) -> Self {
        SolveFault::Memory
    }
}

impl From<AllocError> for SolveFault {
    ghost from_gives = { λ _ e. e ≡ NoMemoryLeft };

    fn from(_: AllocError) -> Self {
        SolveFault::Memory
    }
}

impl<T: Drop> From<AllocFailed<T>> for SolveFault {
    ghost from_gives = { λ _ e. e ≡ NoMemoryLeft };

    fn from(_: AllocFailed<T>) -> Self {
        SolveFault::Memory
    }
}

impl From<LogSinkFault> for SolveFault {
    ghost from_gives = { λ f e. e ≡ solve_fault f };

    fn from(fault: LogSinkFault) -> Self {
        match fault {
            LogSinkFault::Failed => SolveFault::Log,
            LogSinkFault::Memory => SolveFault::Memory,
        }
    }
}
