// The system's files, where a read fails on the way.
use outside_io::{FileFault, Files, HostFiles};
use std::alloc::{Allocator, Global};
use std::fs::{Metadata, OpenFile, OpenOptions};
use std::io::{self, ErrorKind, Read, Seek, SeekFrom, Write};
use std::test::Fail;

/// Gives one byte a read, and fails once it has given `until`.
#[derive(Drop)]
struct Halting {
    given: u8,
    until: u8,
}

impl Read for Halting {
    fn read(&mut self, buf: &mut [u8]) -> io::Result<usize> {
        if self.given >= self.until {
            return Err(io::Error::from(ErrorKind::TimedOut));
        }
        self.given += 1;
        match buf.first_mut() {
            Some(first) => {
                *first = self.given;
                Ok(1)
            }
            None => Ok(0),
        }
    }
}

/// What no case calls.
fn none<T>() -> io::Result<T> {
    Err(io::Error::from(ErrorKind::Unsupported))
}

impl Write for Halting {
    fn write(&mut self, _buf: &[u8]) -> io::Result<usize> {
        Err(io::Error::from(ErrorKind::Unsupported))
    }

    fn flush(&mut self) -> io::Result<()> {
        none()
    }
}

impl Seek for Halting {
    fn seek(&mut self, _to: SeekFrom) -> io::Result<u64> {
        none()
    }
}

impl OpenFile for Halting {
    fn metadata(&self) -> io::Result<Metadata> {
        none()
    }

    fn set_len(&self, _size: u64) -> io::Result<()> {
        none()
    }

    fn sync_all(&self) -> io::Result<()> {
        none()
    }

    fn sync_data(&self) -> io::Result<()> {
        none()
    }
}

/// A system whose files all fail once they have given so many bytes.
#[derive(Drop)]
struct System {
    until: u8,
}

impl std::rt::Files for System {
    type File = Halting;

    type Dir = Halting;

    fn open_file(&self, how: &OpenOptions, _path: &str) -> io::Result<Halting> {
        how.check()?;
        Ok(Halting {
            given: 0,
            until: self.until,
        })
    }

    fn open_dir(&self, _path: &str) -> io::Result<Halting> {
        none()
    }

    fn metadata(&self, _path: &str) -> io::Result<Metadata> {
        none()
    }

    fn symlink_metadata(&self, _path: &str) -> io::Result<Metadata> {
        none()
    }

    fn copy(&self, _from: &str, _to: &str) -> io::Result<u64> {
        none()
    }

    fn rename(&self, _from: &str, _to: &str) -> io::Result<()> {
        none()
    }

    fn remove_file(&self, _path: &str) -> io::Result<()> {
        none()
    }

    fn create_dir(&self, _path: &str) -> io::Result<()> {
        none()
    }

    fn remove_dir(&self, _path: &str) -> io::Result<()> {
        none()
    }

    fn remove_dir_all<B: Allocator>(&self, _alloc: B, _path: &str) -> io::Result<()> {
        none()
    }
}

/// After how many bytes reads fail, what a read of three is left with, and whether it fails.
static ROWS: [(u8, &str, bool); 4] = [
    (0, ">", true),
    (2, ">\x01\x02", true),
    (3, ">\x01\x02\x03", false),
    (9, ">\x01\x02\x03", false),
];

/// Whether a read of three bytes behind one that was held ends so.
fn is_kept(alloc: Global, (until, kept, fails): &(u8, &str, bool)) -> Result<bool, Fail> {
    let mut into = Vec::from_slice(alloc, b">")?;
    let system = System { until: *until };
    let mut files = HostFiles::new(&system);
    let failed = matches!(files.read_front("l", 3, &mut into), Err(FileFault::Failed));
    Ok(failed == *fails && into.as_slice() == kept.as_bytes())
}

fn keep_all(alloc: Global) -> Result<(), Fail> {
    for row in &ROWS {
        if !is_kept(alloc, row)? {
            return Err(Fail::new(row.0));
        }
    }
    Ok(())
}

#[test]
fn keeps_what_came_before_a_read_that_fails(rt: HostRuntime) -> Result<(), Fail> {
    keep_all(rt.alloc())
}
