// Files in memory, as a map from names to bytes.
ghost use Rattle.std.specs.Prelude.{◌≡◌, ◌≢◌, None, Some, false, IfOk, OnOk, OnErr, MatchBool};
ghost use Rattle.std.specs.Option.{option_copied};
ghost use Rattle.outside_io.specs.Contents.{Sets, AppendsTo, ReadsFront, SameFiles};
ghost use Rattle.outside_io.specs.NamedBytes.{told_of};

use plan_core::OutOfMemory;
use std::alloc::Global;
use std::collections::BTreeMap;

/// The bytes under each name that is there.
#[derive(Drop)]
pub struct NamedBytes {
    alloc: Global,
    files: BTreeMap<String, Vec<u8>>,
}

impl NamedBytes {
    /// No name is there.
    pub fn new(alloc: Global) -> Self
        ensures { told_of result ≡ (λ _. None) }
    {
        NamedBytes {
            alloc,
            files: BTreeMap::new(alloc),
        }
    }

    /// The bytes under the name, or `None` exactly where it isn't there.
    pub fn get(&self, name: &str) -> Option<&[u8]>
        ensures { option_copied result ≡ told_of self.now name.now }
    {
        self.files.get(name).map(|bytes| bytes.as_slice())
    }

    /// Sets the bytes under the name, whether it was there or not.
    pub fn set(&mut self, name: &str, bytes: &[u8]) -> Result<(), OutOfMemory>
        ensures ok { OnOk result (Sets name.now bytes.now (told_of self.old) (told_of self.new)) }
        ensures err { OnErr result (SameFiles (told_of self.old) (told_of self.new)) }
    {
        let name = String::from_str(self.alloc, name)?;
        let bytes = Vec::from_slice(self.alloc, bytes)?;
        self.files.insert(name, bytes)?;
        Ok(())
    }

    /// Adds bytes at the end of those under the name. Tells whether the name is there; where it isn't,
    /// nothing changes.
    pub fn append(&mut self, name: &str, bytes: &[u8]) -> Result<bool, OutOfMemory>
        ensures ok { IfOk result (λ found. MatchBool found (AppendsTo name.now bytes.now (told_of self.old)
            (told_of self.new)) (told_of self.old name.now ≡ None)) }
        ensures absent { IfOk result (λ found. found ≡ false → SameFiles (told_of self.old) (told_of self.new)) }
        ensures err { OnErr result (SameFiles (told_of self.old) (told_of self.new)) }
        ensures there { OnErr result (told_of self.old name.now ≢ None) }
    {
        match self.files.get_mut(name) {
            Some(old) => {
                old.extend_from_slice(bytes)?;
                Ok(true)
            }
            None => Ok(false),
        }
    }

    /// Appends to `into` the first `limit` bytes under the name, or all where they are fewer. Tells
    /// whether the name is there; where it isn't, and after an error, `into` is as it was.
    pub fn read_front(
        &self,
        name: &str,
        limit: usize,
        into: &mut Vec<u8>,
    ) -> Result<bool, OutOfMemory>
        ensures ok { IfOk result (λ found. MatchBool found (ReadsFront (Some (told_of self.now)) name.now limit
            into.old.items into.new.items) (told_of self.now name.now ≡ None)) }
        ensures absent { IfOk result (λ found. found ≡ false → into.new.items ≡ into.old.items) }
        ensures err { OnErr result (into.new.items ≡ into.old.items) }
        ensures there { OnErr result (told_of self.now name.now ≢ None) }
    {
        match self.get(name) {
            Some(bytes) => {
                let end = bytes.len().min(limit);
                into.extend_from_slice(&bytes[..end])?;
                Ok(true)
            }
            None => Ok(false),
        }
    }
}
