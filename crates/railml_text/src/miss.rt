// Why nothing was read.
use std::alloc::{AllocError, AllocFailed};

/// Why a thing of the grammar doesn't begin the bytes.
#[derive(Clone, Copy, Debug, PartialEq, Eq)]
pub(crate) enum Miss {
    /// The bytes end within it.
    Cut,
    /// Nothing that may follow completes it.
    Bad,
}

/// Why a call that takes memory read nothing.
#[derive(Debug, Drop)]
pub(crate) enum Stop {
    Miss(Miss),
    Memory,
}

impl From<AllocError> for Stop {
    ghost use Rattle.std.specs.Prelude.{◌≡◌};
    ghost use Rattle.railml_text.specs.declared.miss.Stop.TheVariants.{Memory};

    ghost from_gives = { λ _ e. e ≡ Memory };

    fn from(_: AllocError) -> Self {
        Stop::Memory
    }
}

impl<T: Drop> From<AllocFailed<T>> for Stop {
    ghost use Rattle.std.specs.Prelude.{◌≡◌};
    ghost use Rattle.railml_text.specs.declared.miss.Stop.TheVariants.{Memory};

    ghost from_gives = { λ _ e. e ≡ Memory };

    fn from(_: AllocFailed<T>) -> Self {
        Stop::Memory
    }
}
