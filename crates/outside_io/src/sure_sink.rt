// A sink in memory that never fails.
ghost use Rattle.std.specs.Prelude.{◌≡◌, [], Some};
ghost use Rattle.outside_io.specs.Counts.{none_counted};

use crate::{Sink, SinkFault};
use std::alloc::Global;

/// A list of bytes. No put fails, but for want of memory.
#[derive(Drop)]
pub struct SureSink {
    bytes: Vec<u8>,
}

impl SureSink {
    /// A sink that was given nothing yet.
    pub fn new(alloc: Global) -> Self
        ensures given { ⟦<SureSink as Sink>⟧.given result ≡ Some [] }
        ensures faults { ⟦<SureSink as Sink>⟧.faults result ≡ 0 }
    {
        SureSink {
            bytes: Vec::new(alloc),
        }
    }

    /// All bytes put so far.
    pub fn bytes(&self) -> &[u8]
        ensures { ⟦<SureSink as Sink>⟧.given self.now ≡ Some result.now }
    {
        &self.bytes
    }
}

impl Sink for SureSink {
    ghost given = { λ s. Some s.bytes.items };

    ghost faults = { λ _. 0 };

    ghost count_ends = { λ _. none_counted };

    fn put(&mut self, bytes: &[u8]) -> Result<(), SinkFault> {
        self.bytes.extend_from_slice(bytes)?;
        Ok(())
    }
}
