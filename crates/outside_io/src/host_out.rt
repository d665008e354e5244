// Standard output as a sink. It tells nothing of what it was given.
ghost use Rattle.std.specs.Prelude.{◌≡◌, None};

use crate::counting::Count;
use crate::streams::write_whole;
use crate::{Sink, SinkFault};
use std::io;

/// Standard output, over the program's runtime. A write that the system refuses fails, and so does
/// one that takes nothing.
#[derive(Drop)]
pub struct HostOut<'a, R: Print> {
    rt: &'a R,
    faults: Count,
}

impl<'a, R: Print> HostOut<'a, R> {
    /// The standard output of this runtime.
    pub fn new(rt: &'a R) -> Self
        ensures given { ⟦<HostOut<'a, R> as Sink>⟧.given result ≡ None }
        ensures faults { ⟦<HostOut<'a, R> as Sink>⟧.faults result ≡ 0 }
    {
        HostOut {
            rt,
            faults: Count::new(),
        }
    }
}

impl<'a, R: Print> Sink for HostOut<'a, R> {
    ghost given = { λ _. None };

    ghost faults = { λ s. s.faults.value };

    ghost count_ends = { λ s. s.faults.in_range };

    fn put(&mut self, bytes: &[u8]) -> Result<(), SinkFault> {
        if write_whole(&mut io::writer(self.rt), bytes) {
            return Ok(());
        }
        self.faults.raise();
        Err(SinkFault::Failed)
    }
}
