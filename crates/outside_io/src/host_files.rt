// The system's files. They tell nothing of their contents.
ghost use Rattle.std.specs.Prelude.{◌≡◌, None};

use crate::counting::Count;
use crate::streams::{read_up_to, write_whole};
use crate::{FileFault, Files};
use std::fs::{self, OpenFile, OpenOptions};
use std::io::ErrorKind;

/// Whether the system has what was written on its disk. What would fail only when the file is closed,
/// as on a disk of another machine or past a quota, fails here. A pipe and a device have no disk to wait for.
fn is_kept<F: OpenFile>(file: &F) -> bool {
    match file.sync_data() {
        Ok(()) => true,
        Err(e) => matches!(e.kind(), ErrorKind::InvalidInput | ErrorKind::Unsupported),
    }
}

/// Files of the system, over the program's runtime. A call that the system refuses fails, and so
/// does a write that takes nothing or doesn't reach the disk.
#[derive(Drop)]
pub struct HostFiles<'a, R: std::rt::Files> {
    rt: &'a R,
    read_faults: Count,
    write_faults: Count,
    reads: Count,
}

impl<'a, R: std::rt::Files> HostFiles<'a, R> {
    /// The files of this runtime.
    pub fn new(rt: &'a R) -> Self
        ensures contents { (⟦<HostFiles<'a, R> as Files>⟧.at result).contents ≡ None }
        ensures read_faults { (⟦<HostFiles<'a, R> as Files>⟧.at result).read_faults ≡ 0 }
        ensures write_faults { (⟦<HostFiles<'a, R> as Files>⟧.at result).write_faults ≡ 0 }
        ensures reads { (⟦<HostFiles<'a, R> as Files>⟧.at result).reads ≡ 0 }
    {
        HostFiles {
            rt,
            read_faults: Count::new(),
            write_faults: Count::new(),
            reads: Count::new(),
        }
    }
}

impl<'a, R: std::rt::Files> Files for HostFiles<'a, R> {
    ghost at = { λ s. record {
      contents = None;
      read_faults = s.read_faults.value;
      write_faults =
          s.write_faults.value;
      reads = s.reads.value;
    } };

    ghost counts_end = { λ s. (s.read_faults.in_range, s.write_faults.in_range, s.reads.in_range) };

    fn read_front(
        &mut self,
        name: &str,
        limit: usize,
        into: &mut Vec<u8>,
    ) -> Result<(), FileFault> {
        let read = match fs::open(self.rt, name) {
            Ok(mut file) => read_up_to(&mut file, limit, into),
            Err(_) => Err(FileFault::Failed),
        };
        match &read {
            Ok(()) => self.reads.raise(),
            Err(FileFault::Failed) => self.read_faults.raise(),
            Err(FileFault::Memory) => {}
        }
        read
    }

    fn create(&mut self, name: &str) -> Result<(), FileFault> {
        match fs::create(self.rt, name) {
            Ok(_) => Ok(()),
            Err(_) => {
                self.write_faults.raise();
                Err(FileFault::Failed)
            }
        }
    }

    fn append(&mut self, name: &str, bytes: &[u8]) -> Result<(), FileFault> {
        let mut options = OpenOptions::new();
        options.append(true);
        if let Ok(mut file) = options.open(self.rt, name)
            && write_whole(&mut file, bytes)
            && is_kept(&file)
        {
            return Ok(());
        }
        self.write_faults.raise();
        Err(FileFault::Failed)
    }
}
