// Files in memory that never fail.
ghost use Rattle.std.specs.Prelude.{◌≡◌, [], Some, OnOk, OnErr};
ghost use Rattle.std.specs.Option.{option_copied};
ghost use Rattle.outside_io.specs.Contents.{WhereTold, SameFiles, Sets, TellsAt};
ghost use Rattle.outside_io.specs.Counts.{none_counted};
ghost use Rattle.outside_io.specs.NamedBytes.{sure_of};

use crate::counting::Count;
use crate::named_bytes::NamedBytes;
use crate::{FileFault, Files};
use plan_core::OutOfMemory;
use std::alloc::Global;

/// Names and byte lists. Every name is there, and its contents are empty until bytes come. No call
/// fails, but for want of memory.
#[derive(Drop)]
pub struct SureFiles {
    named: NamedBytes,
    reads: Count,
}

impl SureFiles {
    /// Every file is empty.
    pub fn new(alloc: Global) -> Self
        ensures contents { (⟦<SureFiles as Files>⟧.at result).contents ≡ Some (λ _. Some []) }
        ensures read_faults { (⟦<SureFiles as Files>⟧.at result).read_faults ≡ 0 }
        ensures write_faults { (⟦<SureFiles as Files>⟧.at result).write_faults ≡ 0 }
        ensures reads { (⟦<SureFiles as Files>⟧.at result).reads ≡ 0 }
    {
        SureFiles {
            named: NamedBytes::new(alloc),
            reads: Count::new(),
        }
    }

    /// Sets the bytes under the name. It isn't a call of the trait, so it counts as no read.
    pub fn add(&mut self, name: &str, bytes: &[u8]) -> Result<(), OutOfMemory>
        ensures ok { OnOk result (WhereTold (⟦<SureFiles as Files>⟧.at self.old).contents
            (⟦<SureFiles as Files>⟧.at self.new).contents (Sets name.now bytes.now)) }
        ensures err { OnErr result (WhereTold (⟦<SureFiles as Files>⟧.at self.old).contents
            (⟦<SureFiles as Files>⟧.at self.new).contents SameFiles) }
        ensures read_faults { (⟦<SureFiles as Files>⟧.at self.new).read_faults ≡ (⟦<SureFiles as Files>⟧.at
            self.old).read_faults }
        ensures write_faults { (⟦<SureFiles as Files>⟧.at self.new).write_faults ≡
            (⟦<SureFiles as Files>⟧.at self.old).write_faults }
        ensures reads { (⟦<SureFiles as Files>⟧.at self.new).reads ≡ (⟦<SureFiles as Files>⟧.at self.old).reads }
    {
        self.named.set(name, bytes)
    }

    /// The bytes under the name: never `None`, since every name is there.
    pub fn get(&self, name: &str) -> Option<&[u8]>
        ensures { TellsAt (⟦<SureFiles as Files>⟧.at self.now).contents name.now (option_copied result) }
    {
        Some(self.named.get(name).unwrap_or(&[]))
    }
}

impl Files for SureFiles {
    ghost at = { λ s. record {
      contents = Some (sure_of s.named);
      read_faults = 0;
      write_faults = 0;
      reads =
          s.reads.value;
    } };

    ghost counts_end = { λ s. (none_counted, none_counted, s.reads.in_range) };

    fn read_front(
        &mut self,
        name: &str,
        limit: usize,
        into: &mut Vec<u8>,
    ) -> Result<(), FileFault> {
        // a name that no bytes came to has nothing to read
        let _ = self.named.read_front(name, limit, into)?;
        self.reads.raise();
        Ok(())
    }

    fn create(&mut self, name: &str) -> Result<(), FileFault> {
        self.named.set(name, &[])?;
        Ok(())
    }

    fn append(&mut self, name: &str, bytes: &[u8]) -> Result<(), FileFault> {
        if !self.named.append(name, bytes)? {
            self.named.set(name, bytes)?;
        }
        Ok(())
    }
}
