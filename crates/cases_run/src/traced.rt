// What a run gives its trace: the lines that it writes where a file is named for the log.
use crate::runs::{answer_to, run_traced, words_from};
use crate::stations::{LOOP, ONE};
use outside_io::{SureFiles, SureSink};
use refute_log::{LineList, LogLine, read_line};
use std::alloc::Global;
use std::test::Fail;

/// What a run of `draw` wrote that names the log `l`.
#[derive(Drop)]
struct Written {
    sheet: String,
    log: String,
}

/// The sheet and the log of a run with these words, where it ends with 0.
fn logged(alloc: Global, words: &[&str], file: &str) -> Result<Written, Fail> {
    let answer = answer_to(alloc, words, &[("one.xml", file.as_bytes())])?;
    if answer.status != 0 {
        return Err(Fail::new("a run with a log ends with 0"));
    }
    let log = String::from_str(alloc, answer.file("l")?.unwrap_or(""))?;
    Ok(Written {
        sheet: answer.text,
        log,
    })
}

/// Whether two lines are the same.
fn is_same(a: &LogLine, b: &LogLine) -> bool {
    match (a, b) {
        (LogLine::Formula(a), LogLine::Formula(b)) => a.as_slice() == b.as_slice(),
        (LogLine::Learnt(a), LogLine::Learnt(b)) => a.as_slice() == b.as_slice(),
        (LogLine::Query(a), LogLine::Query(b)) => a.as_slice() == b.as_slice(),
        (LogLine::Refuted(a), LogLine::Refuted(b)) => a.as_slice() == b.as_slice(),
        (LogLine::Model, LogLine::Model) => true,
        (
            LogLine::Bound { criterion, k, var },
            LogLine::Bound {
                criterion: other,
                k: number,
                var: variable,
            },
        ) => criterion == other && k == number && var == variable,
        _ => false,
    }
}

/// Whether the lines of a log behind its first are those that a trace took, and the last one says that nothing is
/// better.
fn has_lines(alloc: Global, log: &str, trace: &LineList) -> Result<bool, Fail> {
    let mut told = 0;
    let mut refuted = false;
    for text in log.lines().skip(1) {
        let line = read_line(alloc, text.as_bytes(), 1)?;
        if told >= trace.len() || !is_same(&line, trace.get(told)) {
            return Ok(false);
        }
        told += 1;
        refuted = text.starts_with("r ");
    }
    Ok(refuted && told == trace.len())
}

/// Whether a run that names no file for the log prints the same sheet and gives its trace the same lines as one that
/// does.
fn tells_its_trace(alloc: Global, file: &str) -> Result<bool, Fail> {
    let drawn = logged(alloc, &["draw", "one.xml", "--log", "l"], file)?;
    let words = words_from(alloc, &["draw", "one.xml"])?;
    let mut files = SureFiles::new(alloc);
    files.add("one.xml", file.as_bytes())?;
    let mut out = SureSink::new(alloc);
    let mut trace = LineList::new(alloc);
    let status = run_traced(alloc, &words, &mut files, &mut out, &mut trace);
    let same_sheet = status == 0 && out.bytes() == drawn.sheet.as_bytes();
    Ok(same_sheet && has_lines(alloc, &drawn.log, &trace)?)
}

fn trace_all(alloc: Global) -> Result<(), Fail> {
    for file in [ONE, LOOP] {
        if !tells_its_trace(alloc, file)? {
            return Err(Fail::new(file));
        }
    }
    Ok(())
}

#[test]
fn writes_the_log_that_a_trace_is_told(rt: HostRuntime) -> Result<(), Fail> {
    trace_all(rt.alloc())
}
