// Logs of a few lines that are trimmed: which of them derive, and how many hinted lines are left.
ghost use Rattle.std.specs.Prelude.{◌≤◌, ◌^◌, length};

use hint_log::HintList;
use log_trim::trim;
use plan_core::OutOfMemory;
use refute_log::{LineList, read_line};
use std::alloc::Global;
use std::test::Fail;

/// The lines of a log, and how many hinted lines are left for its first Refuted line without literals; none where the
/// log doesn't derive.
struct Log {
    shows: &'static str,
    lines: &'static [&'static str],
    left: Option<usize>,
}

static LOGS: [Log; 9] = [
    Log {
        shows: "Nothing rests on the first Learnt line; a Formula line stands behind the one that is hinted.",
        lines: &[
            "f 3 4 0",
            "f 3 -4 0",
            "f 1 2 0",
            "f 1 -2 0",
            "f -1 2 0",
            "q 0",
            "l 3 0",
            "l 1 0",
            "f -1 -2 0",
            "r 0",
        ],
        left: Some(2),
    },
    Log {
        shows: "No line is wanted.",
        lines: &["f 1 2 0", "f 1 -2 0", "b width 7 2", "q 2 0", "m", "l 1 0"],
        left: Some(0),
    },
    Log {
        shows: "The Refuted line doesn't follow.",
        lines: &["f 1 2 0", "f 1 -2 0", "f -1 2 0", "f -1 -2 0", "q 0", "r 0"],
        left: None,
    },
    Log {
        shows: "Nor does a Learnt line that a later Formula line would show.",
        lines: &["f 1 2 0", "q 0", "l 1 0", "f 1 -2 0"],
        left: None,
    },
    Log {
        shows: "The Learnt line is known.",
        lines: &["f 1 2 0", "f 1 -2 0", "q 0", "l 1 0", "l 1 0"],
        left: None,
    },
    Log {
        shows: "The last literal of the Learnt line follows where the others are false, and it isn't the first.",
        lines: &["f 1 3 0", "f 1 4 0", "f 2 -3 -4 0", "q 0", "l 1 2 0"],
        left: Some(0),
    },
    Log {
        shows: "It is the first.",
        lines: &["f 1 3 0", "f 1 4 0", "f 2 -3 -4 0", "q 0", "l 2 1 0"],
        left: None,
    },
    Log {
        shows: "A line names a variable that no Formula line before it has.",
        lines: &["f 1 0", "q 3 0", "f 3 0"],
        left: None,
    },
    Log {
        shows: "A line that isn't wanted answers no query.",
        lines: &["f 1 0", "f -1 0", "q 0", "r 0", "r 1 0"],
        left: None,
    },
];

/// The lines of these texts.
fn lines_of(alloc: Global, texts: &[&str]) -> Result<LineList, Fail> {
    let mut lines = LineList::new(alloc);
    for text in texts {
        let line = read_line(alloc, text.as_bytes(), 1)?;
        lines.push(line)?;
    }
    Ok(lines)
}

/// How many lines there are, if there is a list.
fn count(list: &Option<HintList>) -> Option<usize> {
    match list {
        Some(lines) => Some(lines.len()),
        None => None,
    }
}

/// What is left for the first Refuted line without literals, if there is one.
fn left_of(alloc: Global, lines: &LineList) -> Result<Option<HintList>, OutOfMemory>
    requires { length lines.now ≤ 2 ^ 32 }
{
    match lines.first_refuted(&[]) {
        Some(place) => trim(alloc, lines, &[place]),
        None => trim(alloc, lines, &[]),
    }
}

/// Trims a log, of which so many lines are left.
fn trimmed(alloc: Global, log: &Log) -> Result<(), Fail> {
    let lines = lines_of(alloc, log.lines)?;
    if lines.len() >= 100 {
        return Err(Fail::new("few lines"));
    }
    if count(&left_of(alloc, &lines)?) != log.left {
        return Err(Fail::new(log.shows));
    }
    Ok(())
}

fn trim_all(alloc: Global) -> Result<(), Fail> {
    for log in &LOGS {
        trimmed(alloc, log)?;
    }
    Ok(())
}

#[test]
fn a_log_is_trimmed_where_it_derives(rt: HostRuntime) -> Result<(), Fail> {
    trim_all(rt.alloc())
}
