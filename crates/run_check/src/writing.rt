// The text of what is left of a log, and the lines that trim and recheck print.
ghost use Rattle.std.specs.Prelude.{◌≡◌, ◌++◌, IfOk, OnOk, flat_map, length};
ghost use Rattle.hint_log.specs.Checked.{clauses_learnt};
ghost use Rattle.hint_log.specs.HintedLines.{HintLines};
ghost use Rattle.hint_log.specs.HintText.{ended_hint};
ghost use Rattle.log_check.specs.declared.hint_verdict.HintsVerdict.TheVariants as verdicts;
ghost use Rattle.run_check.specs.Texts.{left_text, trimmed_line, no_room_line, hints_fault_line, hints_line};
ghost use Rattle.run_check.specs.Texts.{hint_refusal_status, TellsHints};

use crate::{certified_line, lacking_line};
use hint_log::{HintLine, HintList, HintsWhat, write_caps, write_hint};
use log_check::{HintRefusal, HintsVerdict};
use log_trim::TrimmedLog;
use outside_io::{push_field, push_number_field, push_place_field, push_text};
use plan_core::OutOfMemory;
use run_input::{Reply, Status};
use std::alloc::Global;

// ---- what is left

/// Appends the text of hinted lines.
fn push_lines(into: &mut Vec<u8>, lines: &HintList) -> Result<(), OutOfMemory>
    ensures { OnOk result (into.new.items ≡ into.old.items ++ flat_map ended_hint lines.now) }
{
    for line in lines.as_slice() {
        write_hint(line, into)?;
    }
    Ok(())
}

/// The text of what is left of a log.
pub(crate) fn text_of(alloc: Global, left: &TrimmedLog) -> Result<Vec<u8>, OutOfMemory>
    ensures { IfOk result (λ v. v.items ≡ left_text left.now) }
{
    let mut text = Vec::from_slice(alloc, b"railplan-hints 1\n")?;
    write_caps(&left.caps, &mut text)?;
    push_lines(&mut text, &left.kept)?;
    Ok(text)
}

/// How many Learnt lines there are.
fn count_kept(lines: &HintList) -> usize
    ensures { result ≡ length (flat_map clauses_learnt lines.now) }
{
    let mut count = 0;
    for i in 0..lines.len() {
        if let HintLine::Learnt { .. } = lines.get(i) {
            count += 1;
        }
    }
    count
}

/// The line that counts the lines of a log and those that are left.
pub(crate) fn trimmed_line(alloc: Global, left: &TrimmedLog) -> Result<Vec<u8>, OutOfMemory>
    ensures { IfOk result (λ v. v.items ≡ trimmed_line left.now) }
{
    let mut line = Vec::from_slice(alloc, b"trimmed")?;
    push_place_field(&mut line, left.learnt)?;
    push_place_field(&mut line, count_kept(&left.kept))?;
    push_text(&mut line, b"\n")?;
    Ok(line)
}

/// The line that says that there is no room to find hints in a log.
pub(crate) fn no_room_line(alloc: Global) -> Result<Vec<u8>, OutOfMemory>
    ensures { IfOk result (λ v. v.items ≡ no_room_line) }
{
    let mut line = Vec::from_slice(alloc, b"trim")?;
    push_field(&mut line, b"Room")?;
    push_text(&mut line, b"\n")?;
    Ok(line)
}

// ---- the verdict on hinted lines

/// The line of a fault of the text.
fn fault_line(alloc: Global, what: HintsWhat, number: u32) -> Result<Vec<u8>, OutOfMemory>
    ensures { IfOk result (λ v. v.items ≡ hints_fault_line what number) }
{
    let mut line = Vec::from_slice(alloc, b"hints")?;
    push_number_field(&mut line, u32::from(what.number()))?;
    push_field(&mut line, what.word().as_bytes())?;
    push_field(&mut line, b"line")?;
    push_number_field(&mut line, number)?;
    push_text(&mut line, b"\n")?;
    Ok(line)
}

/// The line of a hinted line that is refused.
fn refused_line(alloc: Global, why: HintRefusal, number: u32) -> Result<Vec<u8>, OutOfMemory>
    ensures { IfOk result (λ v. v.items ≡ hints_line 0 (verdicts.Refused why number)) }
{
    let mut line = Vec::from_slice(alloc, b"check")?;
    push_field(&mut line, why.word().as_bytes())?;
    push_field(&mut line, b"line")?;
    push_number_field(&mut line, number)?;
    push_text(&mut line, b"\n")?;
    Ok(line)
}

fn refusal_status(why: HintRefusal) -> Status
    ensures { result ≡ hint_refusal_status why }
{
    match why {
        HintRefusal::BadHint => Status::Broken,
        HintRefusal::Room => Status::Unfinished,
    }
}

/// The answer with a verdict on hinted lines, where so many places are claimed.
pub(crate) fn verdict_reply(
    alloc: Global,
    places: usize,
    verdict: HintsVerdict,
) -> Result<Reply, OutOfMemory>
    ensures { IfOk result (λ r. TellsHints places verdict r.status r.text.items) }
{
    match verdict {
        HintsVerdict::Certified => Ok(Reply {
            status: Status::Done,
            text: certified_line(alloc, places)?,
        }),
        HintsVerdict::Lacks { place } => Ok(Reply {
            status: Status::Broken,
            text: lacking_line(alloc, place)?,
        }),
        HintsVerdict::Refused { why, line } => Ok(Reply {
            status: refusal_status(why),
            text: refused_line(alloc, why, line)?,
        }),
        HintsVerdict::Faulty { what, line } => Ok(Reply {
            status: Status::Refused,
            text: fault_line(alloc, what, line)?,
        }),
    }
}
