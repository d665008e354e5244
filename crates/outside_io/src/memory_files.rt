// Files in memory whose calls can be made to fail.
ghost use Rattle.std.specs.Prelude.{◌≡◌, ◌≤◌, ◌↔◌, ◌⊎◌, Some, None, IfOk, OnOk, OnErr, IsErrOf};
ghost use Rattle.std.specs.Option.{option_copied};
ghost use Rattle.outside_io.specs.Contents.{WhereTold, SameFiles, Sets, TellsAt, Creates, MayCreate, AppendsTo};
ghost use Rattle.outside_io.specs.Contents.{MayAppendTo, ReadsFront, Begins};
ghost use Rattle.outside_io.specs.MemoryFiles.{files_told, files_plan, files_counts, after_read, after_write};
ghost use Rattle.outside_io.specs.FailingCalls.{IsNextToFail, after_call};

use crate::call_plan::CallPlan;
use crate::counting::Count;
use crate::named_bytes::NamedBytes;
use crate::{FileFault, Files};
use plan_core::OutOfMemory;
use std::alloc::Global;

/// Names and byte lists, with a list of the numbers of the calls that are to fail.
#[derive(Drop)]
pub struct MemoryFiles {
    named: NamedBytes,
    plan: CallPlan,
    read_faults: Count,
    write_faults: Count,
    reads: Count,
}

impl MemoryFiles {
    /// No file is there. Calls of the trait `Files` are numbered from 1 on, and those whose number is in `fail` fail.
    pub fn new(alloc: Global, fail: &[u32]) -> Result<Self, OutOfMemory>
        ensures contents { IfOk result (λ s. (⟦<MemoryFiles as Files>⟧.at s).contents ≡ Some (λ _. None)) }
        ensures read_faults { IfOk result (λ s. (⟦<MemoryFiles as Files>⟧.at s).read_faults ≡ 0) }
        ensures write_faults { IfOk result (λ s. (⟦<MemoryFiles as Files>⟧.at s).write_faults ≡ 0) }
        ensures reads { IfOk result (λ s. (⟦<MemoryFiles as Files>⟧.at s).reads ≡ 0) }
        ensures plan { IfOk result (λ s. files_plan s ≡ record { to_fail = fail.now; calls = 0 }) }
    {
        Ok(MemoryFiles {
            named: NamedBytes::new(alloc),
            plan: CallPlan::new(alloc, fail)?,
            read_faults: Count::new(),
            write_faults: Count::new(),
            reads: Count::new(),
        })
    }

    /// Sets the bytes under the name, whether it was there or not. It isn't a call of the trait, so it has no number,
    /// and no fault can come of it.
    pub fn add(&mut self, name: &str, bytes: &[u8]) -> Result<(), OutOfMemory>
        ensures ok { OnOk result (WhereTold (⟦<MemoryFiles as Files>⟧.at self.old).contents
            (⟦<MemoryFiles as Files>⟧.at self.new).contents (Sets name.now bytes.now)) }
        ensures err { OnErr result (WhereTold (⟦<MemoryFiles as Files>⟧.at self.old).contents
            (⟦<MemoryFiles as Files>⟧.at self.new).contents SameFiles) }
        ensures read_faults { (⟦<MemoryFiles as Files>⟧.at self.new).read_faults ≡
            (⟦<MemoryFiles as Files>⟧.at self.old).read_faults }
        ensures write_faults { (⟦<MemoryFiles as Files>⟧.at self.new).write_faults
            ≡ (⟦<MemoryFiles as Files>⟧.at self.old).write_faults }
        ensures reads { (⟦<MemoryFiles as Files>⟧.at self.new).reads ≡ (⟦<MemoryFiles as Files>⟧.at self.old).reads }
        ensures plan { files_plan self.new ≡ files_plan self.old }
    {
        self.named.set(name, bytes)
    }

    /// The bytes under the name, or `None` exactly where it isn't there.
    pub fn get(&self, name: &str) -> Option<&[u8]>
        ensures { TellsAt (⟦<MemoryFiles as Files>⟧.at self.now).contents name.now (option_copied result) }
    {
        self.named.get(name)
    }
}

impl Files for MemoryFiles {
    ghost at = { λ s. record {
      contents = Some (files_told s);
      read_faults = s.read_faults.value;
      write_faults =
          s.write_faults.value;
      reads = s.reads.value;
    } };

    ghost counts_end = { λ s. (s.read_faults.in_range, s.write_faults.in_range, s.reads.in_range) };

    /// Fails exactly where the call's number is in the list or the name isn't there.
    fn read_front(&mut self, name: &str, limit: usize, into: &mut Vec<u8>) -> Result<(), FileFault>
        requires { 1 ≤ limit }
        ensures ok { OnOk result
            (ReadsFront (Some (files_told self.old)) name.now limit into.old.items into.new.items) }
        ensures begins { Begins into.old.items into.new.items }
        ensures same { SameFiles (files_told self.old) (files_told self.new) }
        ensures counts { files_counts self.new ≡ after_read result (files_counts self.old) }
        ensures failed { IsErrOf result FileFault.Failed ↔ (IsNextToFail (files_plan self.old)
            ⊎ (files_told self.old name.now ≡ None)) }
        ensures plan { files_plan self.new ≡ after_call (files_plan self.old) }
    {
        if self.plan.next_fails() || !self.named.read_front(name, limit, into)? {
            self.read_faults.raise();
            return Err(FileFault::Failed);
        }
        self.reads.raise();
        Ok(())
    }

    /// Fails exactly where the call's number is in the list.
    fn create(&mut self, name: &str) -> Result<(), FileFault>
        ensures ok { OnOk result (Creates name.now (files_told self.old) (files_told self.new)) }
        ensures err { OnErr result (MayCreate name.now (files_told self.old) (files_told self.new)) }
        ensures counts { files_counts self.new ≡ after_write result (files_counts self.old) }
        ensures failed { IsErrOf result FileFault.Failed ↔ IsNextToFail (files_plan self.old) }
        ensures plan { files_plan self.new ≡ after_call (files_plan self.old) }
    {
        if self.plan.next_fails() {
            self.write_faults.raise();
            return Err(FileFault::Failed);
        }
        self.named.set(name, &[])?;
        Ok(())
    }

    /// Fails exactly where the call's number is in the list or the name isn't there.
    fn append(&mut self, name: &str, bytes: &[u8]) -> Result<(), FileFault>
        ensures ok { OnOk result (AppendsTo name.now bytes.now (files_told self.old) (files_told self.new)) }
        ensures err { OnErr result (MayAppendTo name.now bytes.now (files_told self.old) (files_told self.new)) }
        ensures counts { files_counts self.new ≡ after_write result (files_counts self.old) }
        ensures failed { IsErrOf result FileFault.Failed ↔ (IsNextToFail (files_plan self.old)
            ⊎ (files_told self.old name.now ≡ None)) }
        ensures plan { files_plan self.new ≡ after_call (files_plan self.old) }
    {
        if self.plan.next_fails() || !self.named.append(name, bytes)? {
            self.write_faults.raise();
            return Err(FileFault::Failed);
        }
        Ok(())
    }
}
