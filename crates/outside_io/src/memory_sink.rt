// A sink in memory whose calls can be made to fail.
ghost use Rattle.std.specs.Prelude.{◌≡◌, ◌↔◌, ◌++◌, [], Some, IfOk, OnOk, OnErr, IsErrOf};
ghost use Rattle.outside_io.specs.Given.{AppendsPrefix};
ghost use Rattle.outside_io.specs.MemorySink.{sink_bytes, sink_plan, sink_faults, after_put};
ghost use Rattle.outside_io.specs.FailingCalls.{IsNextToFail, after_call};

use crate::call_plan::CallPlan;
use crate::counting::Count;
use crate::{Sink, SinkFault};
use plan_core::OutOfMemory;
use std::alloc::Global;

/// A list of bytes, with a list of the numbers of the puts that are to fail.
#[derive(Drop)]
pub struct MemorySink {
    bytes: Vec<u8>,
    plan: CallPlan,
    faults: Count,
}

impl MemorySink {
    /// A sink that was given nothing yet. Puts are numbered from 1 on, and those whose number is in `fail` fail.
    pub fn new(alloc: Global, fail: &[u32]) -> Result<Self, OutOfMemory>
        ensures given { IfOk result (λ s. ⟦<MemorySink as Sink>⟧.given s ≡ Some []) }
        ensures faults { IfOk result (λ s. ⟦<MemorySink as Sink>⟧.faults s ≡ 0) }
        ensures plan { IfOk result (λ s. sink_plan s ≡ record { to_fail = fail.now; calls = 0 }) }
    {
        Ok(MemorySink {
            bytes: Vec::new(alloc),
            plan: CallPlan::new(alloc, fail)?,
            faults: Count::new(),
        })
    }

    /// All bytes put so far.
    pub fn bytes(&self) -> &[u8]
        ensures { ⟦<MemorySink as Sink>⟧.given self.now ≡ Some result.now }
    {
        &self.bytes
    }
}

impl Sink for MemorySink {
    ghost given = { λ s. Some (sink_bytes s) };

    ghost faults = { λ s. s.faults.value };

    ghost count_ends = { λ s. s.faults.in_range };

    /// Fails exactly where the call's number is in the list.
    fn put(&mut self, bytes: &[u8]) -> Result<(), SinkFault>
        ensures ok { OnOk result (sink_bytes self.new ≡ sink_bytes self.old ++ bytes.now) }
        ensures err { OnErr result (AppendsPrefix (Some (sink_bytes self.old)) (Some (sink_bytes self.new)) bytes.now) }
        ensures count { sink_faults self.new ≡ after_put result (sink_faults self.old) }
        ensures failed { IsErrOf result SinkFault.Failed ↔ IsNextToFail (sink_plan self.old) }
        ensures plan { sink_plan self.new ≡ after_call (sink_plan self.old) }
    {
        if self.plan.next_fails() {
            self.faults.raise();
            return Err(SinkFault::Failed);
        }
        self.bytes.extend_from_slice(bytes)?;
        Ok(())
    }
}
