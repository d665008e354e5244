// The system's files, tried on a real one, and its output, tried on one that takes little.
use outside_io::{FileFault, Files, HostFiles, HostOut, Sink, SinkFault};
use std::alloc::{AllocError, Global};
use std::cell::Cell;
use std::fmt::Display;
use std::test::Fail;
use std::{fs, io};

/// The file of the test, in the folder that the test is run in.
const NAME: &str = "outside_io_host_files_test.tmp";

/// Whether a read of up to `limit` bytes, at least one, puts these behind the two bytes that were held.
fn reads<F: Files>(alloc: Global, files: &mut F, limit: usize, want: &[u8]) -> Result<bool, Fail> {
    let mut into = Vec::from_slice(alloc, b"> ")?;
    files.read_front(NAME, limit.max(1), &mut into)?;
    Ok(into.starts_with(b"> ") && into.get(2..) == Some(want))
}

/// Whether a file that isn't there is neither read nor appended to, no append makes it, and none is made in a folder
/// that isn't there.
fn is_missing<F: Files>(alloc: Global, files: &mut F) -> bool {
    let mut into = Vec::new(alloc);
    matches!(files.read_front(NAME, 9, &mut into), Err(FileFault::Failed))
        && matches!(files.append(NAME, b"lost"), Err(FileFault::Failed))
        && matches!(files.read_front(NAME, 9, &mut into), Err(FileFault::Failed))
        && matches!(files.create("no/such/folder"), Err(FileFault::Failed))
        && into.is_empty()
}

static FRONTS: [(usize, &str); 4] = [
    (1, "n"),
    (6, "north "),
    (11, "north south"),
    (99, "north south"),
];

/// Whether a file that is created is empty, and has what is appended.
fn has_short<F: Files>(alloc: Global, files: &mut F) -> Result<bool, Fail> {
    files.create(NAME)?;
    let mut is_so = reads(alloc, files, 9, b"")?;
    files.append(NAME, b"north ")?;
    files.append(NAME, b"")?;
    files.append(NAME, b"south")?;
    for (limit, want) in &FRONTS {
        is_so = is_so && reads(alloc, files, *limit, want.as_bytes())?;
    }
    Ok(is_so)
}

/// More than two pieces of a file, of which no two begin at the same of its fifteen letters.
fn long_bytes(alloc: Global) -> Result<Vec<u8>, AllocError> {
    let mut long = Vec::new(alloc);
    for _ in 0..10_000 {
        long.extend_from_slice(b"abcdefghijklmno")?;
    }
    Ok(long)
}

/// Whether such a file is read up to just before, at and behind its end, and is empty where it is created again.
fn has_long<F: Files>(alloc: Global, files: &mut F) -> Result<bool, Fail> {
    let long = long_bytes(alloc)?;
    files.create(NAME)?;
    files.append(NAME, &long)?;
    let mut is_so = true;
    for (limit, count) in [
        (65_536, 65_536),
        (149_999, 149_999),
        (150_000, 150_000),
        (4_194_305, 150_000),
    ] {
        is_so = is_so && reads(alloc, files, limit, long.get(..count).unwrap_or(b""))?;
    }
    files.create(NAME)?;
    Ok(is_so && reads(alloc, files, 9, b"")?)
}

#[test]
fn creates_appends_to_and_reads_a_file_of_the_system(rt: HostRuntime) -> Result<(), Fail> {
    let _ = fs::remove_file(&rt, NAME);
    let mut files = HostFiles::new(&rt);
    let is_so = is_missing(rt.alloc(), &mut files)
        && has_short(rt.alloc(), &mut files)?
        && has_long(rt.alloc(), &mut files)?;
    fs::remove_file(&rt, NAME)?;
    if is_so {
        Ok(())
    } else {
        Err(Fail::new("another answer"))
    }
}

/// A standard output that takes two bytes a write, and at its write number `stop`, counted from 1,
/// refuses or takes nothing. It notes whether it was ever offered other bytes than those left of `due`.
#[derive(Drop)]
struct Narrow {
    due: &'static [u8],
    taken: Cell<usize>,
    writes: Cell<u8>,
    strays: Cell<bool>,
    stop: u8,
    refuses: bool,
}

impl Print for Narrow {
    fn print<D: Display + Drop>(&self, _value: D) -> io::Result<()> {
        Ok(())
    }

    fn println<D: Display + Drop>(&self, _value: D) -> io::Result<()> {
        Ok(())
    }

    fn write_all(&self, _bytes: &[u8]) -> io::Result<()> {
        Ok(())
    }

    fn write_some(&self, bytes: &[u8]) -> io::Result<usize> {
        self.writes.set(self.writes.get().saturating_add(1));
        if self.writes.get() != self.stop {
            let at = self.taken.get();
            if self.due.get(at..) != Some(bytes) {
                self.strays.set(true);
            }
            let taken = bytes.len().min(2);
            self.taken.set(at.saturating_add(taken));
            Ok(taken)
        } else if self.refuses {
            Err(io::Error::from(io::ErrorKind::BrokenPipe))
        } else {
            Ok(0)
        }
    }
}

/// At which write it stops and whether it refuses then, and whether the put fails and how many bytes are taken.
static STOPS: [(u8, bool, bool, usize); 5] = [
    (0, false, false, 5),
    (1, true, true, 0),
    (2, true, true, 2),
    (3, false, true, 4),
    (4, true, false, 5),
];

/// Whether a put of five bytes fails, how many were taken, and whether it was offered another.
fn put_five(stop: u8, refuses: bool) -> (bool, usize, bool) {
    let narrow = Narrow {
        due: b"abcde",
        taken: Cell::new(0),
        writes: Cell::new(0),
        strays: Cell::new(false),
        stop,
        refuses,
    };
    let mut out = HostOut::new(&narrow);
    let failed = matches!(out.put(b"abcde"), Err(SinkFault::Failed));
    (failed, narrow.taken.get(), narrow.strays.get())
}

fn put_all() -> Result<(), Fail> {
    for (stop, refuses, fails, taken) in &STOPS {
        if put_five(*stop, *refuses) != (*fails, *taken, false) {
            return Err(Fail::new(*stop));
        }
    }
    Ok(())
}

#[test]
fn puts_every_byte_once_or_fails_where_a_write_does(rt: HostRuntime) -> Result<(), Fail> {
    HostOut::new(&rt).put(b"one line\n")?;
    put_all()
}
