// Runs over files in memory, and what answers them.
use outside_io::{Files, MemoryFiles, Sink, SureSink};
use refute_log::{LogSink, NoLog};
use schematic_main::run;
use std::alloc::{AllocError, Global};
use std::test::Fail;

pub fn words_from(alloc: Global, words: &[&str]) -> Result<Vec<String>, AllocError> {
    let mut list = Vec::new(alloc);
    for word in words {
        list.push(String::from_str(alloc, word)?)?;
    }
    Ok(list)
}

/// The status of a run. What is proved of a run is long, and handed on to no case: here alone it is met.
pub fn run_traced<F: Files, O: Sink, T: LogSink>(
    alloc: Global,
    words: &[String],
    files: &mut F,
    out: &mut O,
    trace: &mut T,
) -> u8 {
    run(alloc, words, files, out, trace)
}

/// The status of a run whose trace keeps no line.
pub fn run_untraced<F: Files, O: Sink>(
    alloc: Global,
    words: &[String],
    files: &mut F,
    out: &mut O,
) -> u8 {
    let mut trace = NoLog::new();
    run_traced(alloc, words, files, out, &mut trace)
}

/// What answered a run, and the files that it left.
#[derive(Drop)]
pub struct Answer {
    pub status: u8,
    pub text: String,
    files: MemoryFiles,
}

/// The answer to a run of these words over files of these names.
pub fn answer_to(alloc: Global, words: &[&str], named: &[(&str, &[u8])]) -> Result<Answer, Fail> {
    let words = words_from(alloc, words)?;
    let mut files = MemoryFiles::new(alloc, &[])?;
    for (name, bytes) in named {
        files.add(name, bytes)?;
    }
    let mut out = SureSink::new(alloc);
    let status = run_untraced(alloc, &words, &mut files, &mut out);
    let text = String::from_str(alloc, std::str::from_utf8(out.bytes())?)?;
    Ok(Answer {
        status,
        text,
        files,
    })
}

impl Answer {
    /// The text of a file that the run left; none where the file isn't there.
    pub fn file(&self, name: &str) -> Result<Option<&str>, Fail> {
        match self.files.get(name) {
            Some(bytes) => Ok(Some(std::str::from_utf8(bytes)?)),
            None => Ok(None),
        }
    }
}
