// The lines of a log's text, and the bounds that they tell.
ghost use Rattle.std.specs.Prelude.{◌≡◌, IfOk, MatchOption, flat_map, length};
ghost use Rattle.refute_log.specs.Log.{learnt};
ghost use Rattle.refute_check.specs.Lacking.{told_bound};
ghost use Rattle.log_trim.specs.TrimmedLog.{IsSpelledLog};
ghost use Rattle.log_trim.specs.Shown.{IsSomeLog};

use log_check::{Next, behind_header, next_line};
use plan_core::OutOfMemory;
use refute_check::ToldBound;
use refute_log::{LineList, LogLine};
use std::alloc::Global;

/// The lines of a log's text, if it is one.
pub(crate) fn lines_in(alloc: Global, log: &[u8]) -> Result<Option<LineList>, OutOfMemory>
    ensures { IfOk result (λ r. MatchOption r (IsSomeLog log.now → ⊥) (IsSpelledLog log.now)) }
{
    let Some(body) = behind_header(log) else {
        return Ok(None);
    };
    let mut list = LineList::new(alloc);
    let mut rest = body;
    while !rest.is_empty() {
        match next_line(alloc, rest)? {
            Next::Line(line, more) => {
                list.push(line)?;
                rest = more;
            }
            Next::Fault(_) => return Ok(None),
        }
    }
    Ok(Some(list))
}

/// The bounds of the Bound lines.
pub(crate) fn bounds_of(alloc: Global, lines: &LineList) -> Result<Vec<ToldBound>, OutOfMemory>
    ensures { IfOk result (λ bounds. bounds.items ≡ flat_map told_bound lines.now) }
{
    let mut bounds = Vec::new(alloc);
    for i in 0..lines.len() {
        if let Some(bound) = ToldBound::of(lines.get(i)) {
            bounds.push(bound)?;
        }
    }
    Ok(bounds)
}

/// How many Learnt lines there are.
pub(crate) fn count_learnt(lines: &LineList) -> usize
    ensures { result ≡ length (flat_map learnt lines.now) }
{
    let mut count = 0;
    for i in 0..lines.len() {
        if let LogLine::Learnt(_) = lines.get(i) {
            count += 1;
        }
    }
    count
}
