// Files as a run sees them: read in front, created, and appended to, each by its name.
ghost use Rattle.std.specs.Prelude.{◌≡◌, ◌≤◌, OnOk, OnErr, IsErrOf};
ghost use Rattle.outside_io.specs.declared.files.FileFault.TheVariants.{Memory};
ghost use Rattle.outside_io.specs.Counts.{IsCount, Rose, next_count};
ghost use Rattle.outside_io.specs.Contents.{FilesAt, WhereTold, SameFiles, Sets, MaySet, Creates, MayCreate, AppendsTo};
ghost use Rattle.outside_io.specs.Contents.{MayAppendTo, ReadsFront, Begins};

use plan_core::OutOfMemory;
use std::alloc::{AllocError, AllocFailed};
use thiserror::Error;

/// Why a call on files didn't do what it was asked.
#[derive(Debug, Drop, Error)]
pub enum FileFault {
    /// A read or a write failed, or the file to read or to append to isn't there. The count of
    /// such faults rose in the call.
    #[error("a file could not be read or written")]
    Failed,
    /// Memory couldn't be had.
    #[error("out of memory")]
    Memory,
}

impl From<AllocError> for FileFault {
    ghost from_gives = { λ _ e. e ≡ Memory };

    fn from(_: AllocError) -> Self {
        FileFault::Memory
    }
}

impl<T: Drop> From<AllocFailed<T>> for FileFault {
    ghost from_gives = { λ _ e. e ≡ Memory };

    fn from(_: AllocFailed<T>) -> Self {
        FileFault::Memory
    }
}

impl From<OutOfMemory> for FileFault {
    ghost from_gives = { λ _ e. e ≡ Memory };

    fn from(_: OutOfMemory) -> Self {
        FileFault::Memory
    }
}

/// Files by name. What a clause says of contents holds where the files tell them. A clause on an
/// error holds for both errors.
pub trait Files {
    /// The files at this moment.
    ghost at: { Self → FilesAt };

    /// Appends to `into` the first `limit` bytes of the file, or the whole file where it is shorter.
    /// A name that isn't there is a fault. After an error `into` begins with what it held, and may
    /// have more. No file is changed.
    fn read_front(&mut self, name: &str, limit: usize, into: &mut Vec<u8>) -> Result<(), FileFault>
        requires { 1 ≤ limit }
        ensures ok { OnOk result (ReadsFront (at self.old).contents name.now limit into.old.items into.new.items) }
        ensures begins { Begins into.old.items into.new.items }
        ensures same { WhereTold (at self.old).contents (at self.new).contents SameFiles }
        ensures later { (at self.old).read_faults ≤ (at self.new).read_faults }
        ensures cause { IsErrOf result FileFault.Failed → Rose (at self.old).read_faults (at self.new).read_faults }
        ensures reads_ok { OnOk result ((at self.new).reads ≡ next_count (at self.old).reads) }
        ensures reads_err { OnErr result ((at self.new).reads ≡ (at self.old).reads) }
        ensures write_faults { (at self.new).write_faults ≡ (at self.old).write_faults };

    /// Leaves an empty file under the name, whether it was there or not. After an error the file is as it was, or is
    /// there and empty. No other file is changed.
    fn create(&mut self, name: &str) -> Result<(), FileFault>
        ensures ok { OnOk result (WhereTold (at self.old).contents (at self.new).contents (Creates name.now)) }
        ensures err { OnErr result (WhereTold (at self.old).contents (at self.new).contents (MayCreate name.now)) }
        ensures later { (at self.old).write_faults ≤ (at self.new).write_faults }
        ensures cause { IsErrOf result FileFault.Failed → Rose (at self.old).write_faults (at self.new).write_faults }
        ensures read_faults { (at self.new).read_faults ≡ (at self.old).read_faults }
        ensures reads { (at self.new).reads ≡ (at self.old).reads };

    /// Adds the bytes at the end of the file. A name that isn't there is a fault. After an error some of the bytes
    /// may be there, from the first on. No other file is changed.
    fn append(&mut self, name: &str, bytes: &[u8]) -> Result<(), FileFault>
        ensures ok { OnOk result (WhereTold (at self.old).contents (at self.new).contents
            (AppendsTo name.now bytes.now)) }
        ensures err { OnErr result (WhereTold (at self.old).contents (at self.new).contents
            (MayAppendTo name.now bytes.now)) }
        ensures later { (at self.old).write_faults ≤ (at self.new).write_faults }
        ensures cause { IsErrOf result FileFault.Failed → Rose (at self.old).write_faults (at self.new).write_faults }
        ensures read_faults { (at self.new).read_faults ≡ (at self.old).read_faults }
        ensures reads { (at self.new).reads ≡ (at self.old).reads };

    /// No count passes its end.
    ghost counts_end: { (s : Self) → IsCount (at s).read_faults × IsCount (at s).write_faults × IsCount (at s).reads };
}

/// Leaves a file of these bytes under the name, whether it was there or not. After an error the file is as it was, or
/// has some of the bytes, from the first on. No other file is changed.
pub fn write_file<F: Files>(files: &mut F, name: &str, bytes: &[u8]) -> Result<(), FileFault>
    ensures ok { OnOk result (WhereTold (F.at files.old).contents (F.at files.new).contents (Sets name.now bytes.now)) }
    ensures err { OnErr result (WhereTold (F.at files.old).contents (F.at files.new).contents
        (MaySet name.now bytes.now)) }
    ensures later { (F.at files.old).write_faults ≤ (F.at files.new).write_faults }
    ensures cause { IsErrOf result FileFault.Failed → Rose (F.at files.old).write_faults (F.at files.new).write_faults }
    ensures read_faults { (F.at files.new).read_faults ≡ (F.at files.old).read_faults }
    ensures reads { (F.at files.new).reads ≡ (F.at files.old).reads }
{
    files.create(name)?;
    files.append(name, bytes)
}
