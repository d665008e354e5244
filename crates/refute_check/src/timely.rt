// Whether the lines of a log are timely.
ghost use Rattle.std.specs.Prelude.{◌≡◌, ◌≤◌, max, All, IfOk, MatchBool};
ghost use Rattle.cnf_core.specs.Propagation.{greatest_var};
ghost use Rattle.refute_log.specs.Log.{Facts, Answers, bounded, given, asked};
ghost use Rattle.refute_check.specs.Timely.{IsTimely, AreTimely};

use crate::judging::{answer, are_named};
use crate::keeping::greatest;
use crate::question::Question;
use plan_core::OutOfMemory;
use refute_log::{LineList, LogLine};
use std::alloc::Global;

/// Whether a line that may name no further variable names none above this.
fn names_none_above(line: &LogLine, vars: u32) -> bool
    ensures { MatchBool result (All (λ l. l.var ≤ vars) (bounded line.now))
        (All (λ l. l.var ≤ vars) (bounded line.now) → ⊥) }
{
    match line {
        LogLine::Learnt(c) | LogLine::Query(c) | LogLine::Refuted(c) => {
            are_named(c.as_slice(), vars)
        }
        LogLine::Formula(_) | LogLine::Bound { .. } | LogLine::Model => true,
    }
}

/// Whether the line answers the query, if it is a Refuted line.
fn answers(line: &LogLine, query: &Option<Question>) -> bool
    ensures { MatchBool result (Answers query.now line.now) (Answers query.now line.now → ⊥) }
{
    match line {
        LogLine::Refuted(c) => answer(query, c.as_slice()),
        LogLine::Formula(_)
        | LogLine::Learnt(_)
        | LogLine::Bound { .. }
        | LogLine::Query(_)
        | LogLine::Model => true,
    }
}

/// Whether the line is timely after lines with this greatest variable and this query.
fn is_timely(line: &LogLine, vars: u32, query: &Option<Question>) -> bool
    ensures { (facts : Facts) → facts.greatest ≡ vars → facts.query ≡ query.now →
        MatchBool result (IsTimely facts line.now) (IsTimely facts line.now → ⊥) }
{
    names_none_above(line, vars) && answers(line, query)
}

/// The greatest variable of the Formula lines, with this line behind them.
fn greatest_with(line: &LogLine, vars: u32) -> u32
    ensures { result ≡ max vars (greatest_var (given line.now)) }
{
    match line {
        LogLine::Formula(c) => vars.max(greatest(c.as_slice())),
        LogLine::Learnt(_)
        | LogLine::Bound { .. }
        | LogLine::Query(_)
        | LogLine::Refuted(_)
        | LogLine::Model => vars,
    }
}

/// The latest query, with this line behind the others.
fn asked_with(
    alloc: Global,
    line: &LogLine,
    query: Option<Question>,
) -> Result<Option<Question>, OutOfMemory>
    ensures { IfOk result (λ q. q ≡ asked query line.now) }
{
    match line {
        LogLine::Query(c) => Ok(Some(Question::new(alloc, c.as_slice())?)),
        LogLine::Formula(_)
        | LogLine::Learnt(_)
        | LogLine::Bound { .. }
        | LogLine::Refuted(_)
        | LogLine::Model => Ok(query),
    }
}

/// Whether each Learnt, Query and Refuted line names no variable greater than all in the Formula lines before it, and
/// each Refuted line answers the latest query.
pub fn are_timely(alloc: Global, lines: &LineList) -> Result<bool, OutOfMemory>
    ensures { IfOk result (λ b. MatchBool b (AreTimely lines.now) (AreTimely lines.now → ⊥)) }
{
    let mut vars = 0;
    let mut query = None;
    for i in 0..lines.len() {
        let line = lines.get(i);
        if !is_timely(line, vars, &query) {
            return Ok(false);
        }
        vars = greatest_with(line, vars);
        query = asked_with(alloc, line, query)?;
    }
    Ok(true)
}
