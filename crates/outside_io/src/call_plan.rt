// Which calls on an object in memory are to fail.
ghost use Rattle.std.specs.Prelude.{◌≡◌, ◌↔◌, IfOk, IsTrue};
ghost use Rattle.outside_io.specs.FailingCalls.{IsNextToFail, after_call, plan_of};

use crate::counting::Count;
use plan_core::OutOfMemory;
use std::alloc::Global;

/// The numbers of the calls that are to fail, and how many calls there were. The first call has the
/// number 1.
#[derive(Drop)]
pub struct CallPlan {
    pub to_fail: Vec<u32>,
    pub calls: Count,
}

impl CallPlan {
    /// The plan at the start, before any call.
    pub fn new(alloc: Global, to_fail: &[u32]) -> Result<Self, OutOfMemory>
        ensures { IfOk result (λ p. plan_of p ≡ record { to_fail = to_fail.now; calls = 0 }) }
    {
        Ok(CallPlan {
            to_fail: Vec::from_slice(alloc, to_fail)?,
            calls: Count::new(),
        })
    }

    /// Counts one more call, and tells whether it is to fail.
    pub fn next_fails(&mut self) -> bool
        ensures planned { IsTrue result ↔ IsNextToFail (plan_of self.old) }
        ensures counted { plan_of self.new ≡ after_call (plan_of self.old) }
    {
        self.calls.raise();
        let number = self.calls.value;
        self.to_fail.iter().any(|n| u64::from(*n) == number)
    }
}
