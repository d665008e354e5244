// A log in a file, some of whose calls fail.
use cnf_core::{Clause, Lit, Var};
use outside_io::MemoryFiles;
use refute_log::{FileLog, LogLine, LogSink, LogSinkFault};
use std::alloc::Global;
use std::test::Fail;

/// How a call ended, in one letter.
fn letter(outcome: Result<(), LogSinkFault>) -> char {
    match outcome {
        Ok(()) => 'o',
        Err(LogSinkFault::Failed) => 'f',
        Err(LogSinkFault::Memory) => 'm',
    }
}

/// Gives a line of 16 bytes 4,100 times. The answer is how many were taken, and how the last call ended.
fn tell_many<L: LogSink>(alloc: Global, log: &mut L) -> Result<(u32, char), Fail> {
    let line = LogLine::Refuted(Clause::new(alloc, &[Lit::new(Var(1073741823), false)])?);
    let mut told = 0u32;
    let mut last = ' ';
    for _ in 0..4100 {
        last = letter(log.tell(&line));
        if last == 'o' {
            told = told.saturating_add(1);
        }
    }
    Ok((told, last))
}

/// What comes of a log in a file. First how its start ended. Then, of the lines that it is given, how many it took and
/// how the last call ended. Then how its end did, where it was started.
type Ended = (char, (u32, char), char);

fn ended(alloc: Global, files: &mut MemoryFiles) -> Result<Ended, Fail> {
    match FileLog::start(alloc, files, "log") {
        Ok(mut log) => {
            let told = tell_many(alloc, &mut log)?;
            Ok(('o', told, letter(log.finish())))
        }
        Err((fault, _)) => Ok((letter(Err(fault)), (0, ' '), ' ')),
    }
}

/// Two calls that fail, what comes of a log, and how many lines of 16 bytes are in the file behind the first line, if
/// it is there. Call 1 creates the file and call 2 appends its first line of 15 bytes. The 4,096th line of 16 bytes
/// fills the first piece, which call 3 appends. Call 4 appends the rest.
static CALLS: [([u32; 2], Ended, Option<usize>); 6] = [
    ([0, 0], ('o', (4100, 'o'), 'o'), Some(4100)),
    ([1, 0], ('f', (0, ' '), ' '), None),
    ([2, 0], ('f', (0, ' '), ' '), Some(0)),
    ([3, 0], ('o', (4095, 'm'), 'm'), Some(0)),
    ([4, 0], ('o', (4100, 'o'), 'f'), Some(4096)),
    ([3, 4], ('o', (4095, 'm'), 'm'), Some(0)),
];

fn all_end(alloc: Global) -> Result<(), Fail> {
    for (fail, end, lines) in &CALLS {
        let mut files = MemoryFiles::new(alloc, fail)?;
        let found = ended(alloc, &mut files)?;
        let left = files.get("log").map(|bytes| bytes.len() / 16);
        if found != *end || left != *lines {
            return Err(Fail::new(fail[0]));
        }
    }
    Ok(())
}

#[test]
fn a_log_in_a_file_names_the_call_that_failed(rt: HostRuntime) -> Result<(), Fail> {
    all_end(rt.alloc())
}
