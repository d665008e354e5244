// Why a line is refused.
use plan_core::OutOfMemory;
use std::alloc::{AllocError, AllocFailed};
use thiserror::Error;

/// Why a line of a log isn't accepted. Where several causes hold, the first of this list is
/// answered.
#[derive(Debug, Drop, Error)]
pub enum LineFault {
    /// A Learnt, Query or Refuted line names a variable that no Formula line before it reaches.
    #[error("the line names a new variable")]
    NewVar,
    /// A Refuted line has a literal that isn't the negation of one of the latest query, or there
    /// is no query.
    #[error("the line does not answer the latest query")]
    WrongQuery,
    /// With the line's clause the words would pass the room, or a Formula line names a variable
    /// above `VARS`.
    #[error("no room for the line's clause")]
    Room,
    /// A Learnt or Refuted line doesn't follow by unit propagation from the Formula and Learnt
    /// lines before it.
    #[error("the line's clause does not follow")]
    NotImplied,
    /// The first literal of a Learnt line follows already where its others are false, or these
    /// falsify a clause.
    #[error("the line's clause is not new")]
    NotNew,
    /// Memory couldn't be had, at this line or at one before it.
    #[error("out of memory")]
    Memory,
}

impl From<AllocError> for LineFault {
    ghost use Rattle.std.specs.Prelude.{◌≡◌};
    ghost use Rattle.refute_check.specs.declared.fault.LineFault.TheVariants.{Memory};

    ghost from_gives = { λ _ e. e ≡ Memory };

    fn from(_: AllocError) -> Self {
        LineFault::Memory
    }
}

impl<T: Drop> From<AllocFailed<T>> for LineFault {
    ghost use Rattle.std.specs.Prelude.{◌≡◌};
    ghost use Rattle.refute_check.specs.declared.fault.LineFault.TheVariants.{Memory};

    ghost from_gives = { λ _ e. e ≡ Memory };

    fn from(_: AllocFailed<T>) -> Self {
        LineFault::Memory
    }
}

impl From<OutOfMemory> for LineFault {
    ghost use Rattle.std.specs.Prelude.{◌≡◌};
    ghost use Rattle.refute_check.specs.declared.fault.LineFault.TheVariants.{Memory};

    ghost from_gives = { λ _ e. e ≡ Memory };

    fn from(_: OutOfMemory) -> Self {
        LineFault::Memory
    }
}
