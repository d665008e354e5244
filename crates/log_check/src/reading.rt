// The next line of a log's text.
ghost use Rattle.std.specs.Prelude.{◌≢◌, [], IfOk};
ghost use Rattle.log_check.specs.Progress.{IsLineRead, IsNext};

use outside_io::cut_line;
use plan_core::OutOfMemory;
use refute_log::{LineTextFault, LogLine, LogWhat, read_line};
use std::alloc::Global;

/// What is at the front of a log's text.
#[derive(Drop)]
pub enum Next<'a> {
    /// A line, and what follows it.
    Line(LogLine, &'a [u8]),
    /// A fault of the next line.
    Fault(LogWhat),
}

/// The line of a text, which more text follows, or its fault.
fn read<'a>(alloc: Global, text: &[u8], more: &'a [u8]) -> Result<Next<'a>, OutOfMemory>
    ensures { IfOk result (IsLineRead text.now more.now) }
{
    match read_line(alloc, text, 0) {
        Ok(line) => Ok(Next::Line(line, more)),
        Err(LineTextFault::Log { what, .. }) => Ok(Next::Fault(what)),
        Err(LineTextFault::Memory) => Err(OutOfMemory),
    }
}

/// The line at the front of a text that isn't empty, or its fault.
pub fn next_line<'a>(alloc: Global, rest: &'a [u8]) -> Result<Next<'a>, OutOfMemory>
    requires { rest.now ≢ [] }
    ensures { IfOk result (IsNext rest.now) }
{
    match cut_line(rest) {
        None => Ok(Next::Fault(LogWhat::Form)),
        Some((text, more)) => read(alloc, text, more),
    }
}
