// What runs print and leave where one call of their files, or of their sink, fails: each call in its turn, until a run
// meets no failure.
use crate::runs::{run_untraced, words_from};
use crate::sheets::{LOOP_SHEET, ONE_SHEET};
use crate::stations::{LOOP, ONE, ONE_GRAPH};
use outside_io::{Files, MemoryFiles, MemorySink, Sink};
use std::alloc::{AllocError, Global};
use std::test::Fail;

/// The first line of a log, behind which there is nothing.
const TITLE: &str = "railplan-log 1\n";

/// A sheet of one track that isn't the best, of a search that has settled no more than it says.
const UNSETTLED_SHEET: &str = "railplan 2
grid 40 8 1
order height bends diagonal width
nodes 2
node 0 mb 0 0 0.000000
node 1 me 2 0 600.000000
edges 1
edge 0 m 0 1 0 0 2 0
values 0 0 0 2
end conflicts 3
";

/// More calls than any of these runs makes.
const MANY: u32 = 100;

/// What a run leaves.
#[derive(Drop)]
struct Left {
    status: u8,
    put: Vec<u8>,
    /// The file for the log, where it is there.
    log: Option<Vec<u8>>,
    /// The file for the picture, where it is there.
    picture: Option<Vec<u8>>,
    /// Whether the call that was to fail is the one behind the run's last: then the run met no failure.
    spared: bool,
}

/// A copy of a file, where it is there.
fn copy_of(alloc: Global, files: &MemoryFiles, name: &str) -> Result<Option<Vec<u8>>, AllocError> {
    match files.get(name) {
        Some(bytes) => Ok(Some(Vec::from_slice(alloc, bytes)?)),
        None => Ok(None),
    }
}

/// The files of each run, some of whose calls fail.
fn files_of(alloc: Global, failing: &[u32]) -> Result<MemoryFiles, Fail> {
    let mut files = MemoryFiles::new(alloc, failing)?;
    files.add("loop.xml", LOOP.as_bytes())?;
    files.add("one.xml", ONE.as_bytes())?;
    files.add("sheet", UNSETTLED_SHEET.as_bytes())?;
    files.add("log", TITLE.as_bytes())?;
    Ok(files)
}

/// What a run leaves where these calls of its files and these of its sink fail.
fn left_by(
    alloc: Global,
    words: &[&'static str],
    of_files: &[u32],
    of_sink: &[u32],
) -> Result<Left, Fail> {
    let words = words_from(alloc, words)?;
    let mut files = files_of(alloc, of_files)?;
    let mut out = MemorySink::new(alloc, of_sink)?;
    let status = run_untraced(alloc, &words, &mut files, &mut out);
    Ok(Left {
        status,
        put: Vec::from_slice(alloc, out.bytes())?,
        log: copy_of(alloc, &files, "l")?,
        picture: copy_of(alloc, &files, "s")?,
        spared: files.append("log", b"").is_err() || out.put(b"").is_err(),
    })
}

/// Whether a file isn't there or begins the text.
fn begins(file: &Option<Vec<u8>>, text: &Option<Vec<u8>>) -> bool {
    match (file, text) {
        (Some(file), Some(text)) => text.starts_with(file),
        (Some(_), None) => false,
        (None, _) => true,
    }
}

/// The words of a run that writes files, how many files it reads, and the text that it prints where it meets no
/// failure.
type Writing = (&'static [&'static str], u32, &'static str);

static WRITINGS: [Writing; 4] = [
    (
        &["draw", "loop.xml", "--log", "l", "--svg", "s"],
        1,
        LOOP_SHEET,
    ),
    (&["draw", "one.xml", "--log", "l"], 1, ONE_SHEET),
    (&["draw", "one.xml", "--svg", "s"], 1, ONE_SHEET),
    (
        &["trim", "one.xml", "sheet", "log", "l"],
        3,
        "trimmed 0 0\n",
    ),
];

/// Whether both runs leave the same files.
fn same_files(left: &Left, whole: &Left) -> bool {
    left.log == whole.log && left.picture == whole.picture
}

/// Whether a run that writes files answers so where a call of its files fails, one of its reads or a later one, and
/// leaves so much of them. Where a read fails this line is printed, and no file is created. Where a later call fails
/// nothing is printed, and the picture is begun behind a whole log.
fn tells_failing_call(left: &Left, whole: &Left, reads: bool, line: &str) -> bool {
    if left.spared {
        left.status == 0 && left.put == whole.put && same_files(left, whole)
    } else if reads {
        left.status == 5
            && left.put.as_slice() == line.as_bytes()
            && left.log.is_none()
            && left.picture.is_none()
    } else {
        left.status == 6
            && left.put.is_empty()
            && begins(&left.log, &whole.log)
            && begins(&left.picture, &whole.picture)
            && (left.picture.is_none() || left.log == whole.log)
    }
}

/// Whether a run answers so each failing call of its files, in turn until it meets no failure, and then prints this
/// text.
fn tells_failing_calls(alloc: Global, writing: &Writing) -> Result<bool, Fail> {
    let (words, inputs, text) = writing;
    let whole = left_by(alloc, words, &[], &[])?;
    if whole.put.as_slice() != text.as_bytes() {
        return Ok(false);
    }
    for failing in 1..MANY {
        let left = left_by(alloc, words, &[failing], &[])?;
        let line = format!(in alloc; "read failed {failing}\n")?;
        if !tells_failing_call(&left, &whole, failing <= *inputs, line.as_str()) {
            return Ok(false);
        }
        if left.spared {
            return Ok(true);
        }
    }
    Ok(false)
}

fn tell_all_calls(alloc: Global) -> Result<(), Fail> {
    for writing in &WRITINGS {
        if !tells_failing_calls(alloc, writing)? {
            return Err(Fail::new(writing.2));
        }
    }
    Ok(())
}

#[test]
fn each_failing_call_of_files_is_told(rt: HostRuntime) -> Result<(), Fail> {
    tell_all_calls(rt.alloc())
}

/// The words of a run that writes no file, how many files it reads, and the status and the text of the run that meets
/// no failure.
type Reading = (&'static [&'static str], u32, u8, &'static str);

static READINGS: [Reading; 7] = [
    (&["draw", "one.xml"], 1, 0, ONE_SHEET),
    (&["graph", "one.xml"], 1, 0, ONE_GRAPH),
    (&["verify", "one.xml", "sheet"], 2, 0, "lawful 0 0 0 2\n"),
    (&["check", "one.xml", "sheet", "log"], 3, 0, "certified 3\n"),
    (
        &["check", "loop.xml", "sheet", "log"],
        3,
        1,
        "sheet 3 Graph line 4\n",
    ),
    (
        &["recheck", "loop.xml", "sheet", "log"],
        3,
        1,
        "sheet 3 Graph line 4\n",
    ),
    (
        &["trial", "0"],
        0,
        0,
        "trial 0 nodes 4 edges 4 height 1 width 5\n",
    ),
];

/// Whether a run reads each of its inputs once, and says which read failed.
fn tells_failing_reads(alloc: Global, reading: &Reading) -> Result<bool, Fail> {
    let (words, inputs, status, text) = reading;
    for failing in 1..inputs.saturating_add(1) {
        let left = left_by(alloc, words, &[failing], &[])?;
        let line = format!(in alloc; "read failed {failing}\n")?;
        if left.spared || left.status != 5 || left.put.as_slice() != line.as_bytes() {
            return Ok(false);
        }
    }
    let left = left_by(alloc, words, &[inputs.saturating_add(1)], &[])?;
    Ok(left.spared && left.status == *status && left.put.as_slice() == text.as_bytes())
}

fn tell_all_reads(alloc: Global) -> Result<(), Fail> {
    for reading in &READINGS {
        if !tells_failing_reads(alloc, reading)? {
            return Err(Fail::new(reading.3));
        }
    }
    Ok(())
}

#[test]
fn each_failing_read_is_told(rt: HostRuntime) -> Result<(), Fail> {
    tell_all_reads(rt.alloc())
}

/// Whether a run prints this text in one piece, and ends with 6 where that call fails: then nothing is printed, and the
/// files are as they are without a failure.
fn tells_failing_put(
    alloc: Global,
    words: &[&'static str],
    status: u8,
    text: &str,
) -> Result<bool, Fail> {
    let failed = left_by(alloc, words, &[], &[1])?;
    let whole = left_by(alloc, words, &[], &[2])?;
    let is_whole = whole.spared
        && whole.status == status
        && whole.put.as_slice() == text.as_bytes();
    let is_nothing = failed.put.is_empty() && same_files(&failed, &whole);
    Ok(is_whole && is_nothing && failed.status == 6 && !failed.spared)
}

fn tell_all_puts(alloc: Global) -> Result<(), Fail> {
    for (words, _, text) in &WRITINGS {
        if !tells_failing_put(alloc, words, 0, text)? {
            return Err(Fail::new(*text));
        }
    }
    for (words, _, status, text) in &READINGS {
        if !tells_failing_put(alloc, words, *status, text)? {
            return Err(Fail::new(*text));
        }
    }
    Ok(())
}

#[test]
fn each_failing_put_is_told(rt: HostRuntime) -> Result<(), Fail> {
    tell_all_puts(rt.alloc())
}
