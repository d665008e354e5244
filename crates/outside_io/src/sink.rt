// Where a run's answer goes.
ghost use Rattle.std.specs.Prelude.{◌≡◌, ◌≤◌, List, ℕ, OnOk, OnErr, IsErrOf};
ghost use Rattle.std.specs.declared.option.Option.{Option};
ghost use Rattle.std.specs.Io.KnownBytes.{Appends};
ghost use Rattle.outside_io.specs.declared.sink.SinkFault.TheVariants.{Memory};
ghost use Rattle.outside_io.specs.Counts.{IsCount, Rose};
ghost use Rattle.outside_io.specs.Given.{AppendsPrefix};

use plan_core::OutOfMemory;
use std::alloc::{AllocError, AllocFailed};
use thiserror::Error;

/// Why a put didn't do what it was asked.
#[derive(Debug, Drop, Error)]
pub enum SinkFault {
    /// The bytes couldn't all be written. The count of faults rose in the call.
    #[error("the output could not be written")]
    Failed,
    /// Memory couldn't be had.
    #[error("out of memory")]
    Memory,
}

impl From<AllocError> for SinkFault {
    ghost from_gives = { λ _ e. e ≡ Memory };

    fn from(_: AllocError) -> Self {
        SinkFault::Memory
    }
}

impl<T: Drop> From<AllocFailed<T>> for SinkFault {
    ghost from_gives = { λ _ e. e ≡ Memory };

    fn from(_: AllocFailed<T>) -> Self {
        SinkFault::Memory
    }
}

impl From<OutOfMemory> for SinkFault {
    ghost from_gives = { λ _ e. e ≡ Memory };

    fn from(_: OutOfMemory) -> Self {
        SinkFault::Memory
    }
}

/// A place that takes bytes, one after the other. What a clause says of them holds where the sink tells what it was
/// given. A clause on an error holds for both errors.
pub trait Sink {
    /// The bytes put so far, where the sink tells them.
    ghost given: { Self → Option (List ℕ) };

    /// How many faults of putting there were.
    ghost faults: { Self → ℕ };

    /// Adds the bytes. After an error some of them may be there, from the first on. Only `Failed` adds to the count.
    fn put(&mut self, bytes: &[u8]) -> Result<(), SinkFault>
        ensures ok { OnOk result (Appends (given self.old) (given self.new) bytes.now) }
        ensures err { OnErr result (AppendsPrefix (given self.old) (given self.new) bytes.now) }
        ensures later { faults self.old ≤ faults self.new }
        ensures cause { IsErrOf result SinkFault.Failed → Rose (faults self.old) (faults self.new) }
        ensures still { (IsErrOf result SinkFault.Failed → ⊥) → faults self.new ≡ faults self.old };

    /// The count doesn't pass its end.
    ghost count_ends: { (s : Self) → IsCount (faults s) };
}
