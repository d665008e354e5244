// The next line of a hinted log's text.
ghost use Rattle.std.specs.Prelude.{◌≢◌, [], IfOk, IfErr};
ghost use Rattle.plan_core.specs.Values.{value_of};
ghost use Rattle.log_check.specs.HintRefused.{HasNextCapsFault};
ghost use Rattle.log_check.specs.HintProgress.{IsNextHint, AreNextCaps};

use hint_log::{HintLine, HintTextFault, HintsWhat, read_caps, read_hint};
use outside_io::cut_line;
use plan_core::{Order, OutOfMemory, Values};
use std::alloc::Global;

/// What is at the front of the text behind the caps.
#[derive(Drop)]
pub(crate) enum Next<'a> {
    /// A line, and what follows it.
    Line(HintLine, &'a [u8]),
    /// A fault of the next line.
    Fault(HintsWhat),
}

/// The line at the front of a text that isn't empty, or its fault.
pub(crate) fn next_hint<'a>(alloc: Global, rest: &'a [u8]) -> Result<Next<'a>, OutOfMemory>
    requires { rest.now ≢ [] }
    ensures { IfOk result (IsNextHint rest.now) }
{
    let Some((text, more)) = cut_line(rest) else {
        return Ok(Next::Fault(HintsWhat::Form));
    };
    match read_hint(alloc, text, 0) {
        Ok(line) => Ok(Next::Line(line, more)),
        Err(HintTextFault::Hints { what, .. }) => Ok(Next::Fault(what)),
        Err(HintTextFault::Memory) => Err(OutOfMemory),
    }
}

/// The caps at the front of a text, and what follows their line; or the fault of that line.
pub(crate) fn next_caps<'a>(
    rest: &'a [u8],
    greatest: &Values,
    order: &Order,
) -> Result<(Values, &'a [u8]), HintsWhat>
    ensures caps { IfOk result (λ p. AreNextCaps (value_of greatest.now) order.now rest.now p.0 p.1.now) }
    ensures fault { IfErr result (HasNextCapsFault (value_of greatest.now) order.now rest.now) }
{
    let Some((text, body)) = cut_line(rest) else {
        return Err(HintsWhat::Form);
    };
    match read_caps(text, greatest, order) {
        Ok(caps) => Ok((caps, body)),
        Err(what) => Err(what),
    }
}
