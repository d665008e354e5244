// Why rows give no topology.
ghost use Rattle.std.specs.Prelude.{◌≡◌};
ghost use Rattle.railml_topology.specs.declared.fault.ResolveFault.TheVariants.{Memory};

use plan_core::{OutOfMemory, Text};
use railml_faults::TopologyWhat;
use std::alloc::{AllocError, AllocFailed};
use thiserror::Error;

/// Why rows give no topology.
#[derive(Debug, Drop, Error)]
pub enum ResolveFault {
    /// The rows have a fault. `at` is the byte of the start tag that has the fault, 0 where there is no track. The
    /// texts are those of the fault's kind, empty where the kind has none.
    #[error("a fault in the topology")]
    Topology {
        what: TopologyWhat,
        at: usize,
        first: Text,
        second: Text,
    },
    /// Memory couldn't be had.
    #[error("out of memory")]
    Memory,
}

impl From<OutOfMemory> for ResolveFault {
    ghost from_gives = { λ _ e. e ≡ Memory };

    fn from(_: OutOfMemory) -> Self {
        ResolveFault::Memory
    }
}

impl From<AllocError> for ResolveFault {
    ghost from_gives = { λ _ e. e ≡ Memory };

    fn from(_: AllocError) -> Self {
        ResolveFault::Memory
    }
}

impl<T: Drop> From<AllocFailed<T>> for ResolveFault {
    ghost from_gives = { λ _ e. e ≡ Memory };

    fn from(_: AllocFailed<T>) -> Self {
        ResolveFault::Memory
    }
}
