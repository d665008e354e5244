// Why a graph has no order.
ghost use Rattle.std.specs.Prelude.{◌≡◌};
ghost use Rattle.track_order.specs.declared.fault.OrderFault.TheVariants.{Memory};
ghost use Rattle.track_order.specs.Causes.{number_of, word_of};

use plan_core::{EdgeNo, OutOfMemory};
use std::alloc::{AllocError, AllocFailed};
use thiserror::Error;

/// Why no order was derived.
#[derive(Debug, Drop, Error)]
pub enum OrderFault {
    /// Each of the two edges is above the other; they are the least pair, the smaller number first.
    #[error("two edges are each above the other")]
    Contradicts(EdgeNo, EdgeNo),
    /// Memory couldn't be had.
    #[error("out of memory")]
    Memory,
}

impl OrderFault {
    /// The number by which a fault line tells the fault; want of memory has no line, and 0.
    pub fn number(&self) -> u8
        ensures { result ≡ number_of self.now }
    {
        match self {
            OrderFault::Contradicts(..) => 1,
            OrderFault::Memory => 0,
        }
    }

    /// The word by which a fault line tells the fault; want of memory has none.
    pub fn word(&self) -> &'static str
        ensures { result.now ≡ word_of self.now }
    {
        match self {
            OrderFault::Contradicts(..) => "Contradicts",
            OrderFault::Memory => "",
        }
    }
}

impl From<AllocError> for OrderFault {
    ghost from_gives = { λ _ e. e ≡ Memory };

    fn from(_: AllocError) -> Self {
        OrderFault::Memory
    }
}

impl<T: Drop> From<AllocFailed<T>> for OrderFault {
    ghost from_gives = { λ _ e. e ≡ Memory };

    fn from(_: AllocFailed<T>) -> Self {
        OrderFault::Memory
    }
}

impl From<OutOfMemory> for OrderFault {
    ghost from_gives = { λ _ e. e ≡ Memory };

    fn from(_: OutOfMemory) -> Self {
        OrderFault::Memory
    }
}
