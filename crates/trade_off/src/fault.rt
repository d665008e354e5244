// Why there is no front.
ghost use Rattle.std.specs.Prelude.{◌≡◌};
ghost use Rattle.search_least.specs.declared.fault.MinFault.TheVariants.{Log as OracleLog};
ghost use Rattle.trade_off.specs.declared.fault.FrontFault.TheVariants.{Log, Memory};

use plan_core::OutOfMemory;
use search_least::MinFault;
use thiserror::Error;

/// Why there is no front.
#[derive(Debug, Drop, Error)]
pub enum FrontFault {
    /// The log couldn't be written. Its count of faults rose in the call.
    #[error("the log could not be written")]
    Log,
    /// Memory couldn't be had.
    #[error("out of memory")]
    Memory,
}

impl From<OutOfMemory> for FrontFault {
    ghost from_gives = { λ _ e. e ≡ Memory };

    fn from(_: OutOfMemory) -> Self {
        FrontFault::Memory
    }
}

impl From<MinFault> for FrontFault {
    ghost from_gives = { λ f e. e ≡ Log → f ≡ OracleLog };

    fn from(fault: MinFault) -> Self {
        match fault {
            MinFault::Log => FrontFault::Log,
            MinFault::Memory => FrontFault::Memory,
        }
    }
}
