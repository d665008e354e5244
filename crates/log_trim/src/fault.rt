// Why it isn't known what is left of a log.
ghost use Rattle.std.specs.Prelude.{◌≡◌};
ghost use Rattle.log_trim.specs.declared.fault.TrimFault.TheVariants.{Memory};

use plan_core::OutOfMemory;

/// Why it isn't known what is left of a log.
#[derive(Clone, Copy, Debug, PartialEq, Eq)]
pub enum TrimFault {
    /// It has more variables or words than hints are found in.
    Limits,
    /// Memory couldn't be had.
    Memory,
}

impl From<OutOfMemory> for TrimFault {
    ghost from_gives = { λ _ e. e ≡ Memory };

    fn from(_: OutOfMemory) -> Self {
        TrimFault::Memory
    }
}
