// The Formula lines that a log lacks.
ghost use Rattle.std.specs.Prelude.{◌≡◌, ◌≢◌, ◌≤◌, ◌++◌, ℕ, [], ◌∷◌, List, IfOk, OnOk, MatchBool, drop};
ghost use Rattle.std.specs.Prelude.{flat_map, length, map};
ghost use Rattle.plan_core.specs.declared.criterion.Criterion.{Criterion as Measured};
ghost use Rattle.refute_log.specs.declared.line.LogLine.TheVariants.{Formula as FormulaLine};
ghost use Rattle.refute_log.specs.Log.{given, clause_line, clause_lines};
ghost use Rattle.drawing_cnf.specs.Layout.{Layout};
ghost use Rattle.log_check.specs.Expectation.{Expectation, expectation, PassesLimits};
ghost use Rattle.log_check.specs.Expecting.{IsExpecting};
ghost use Rattle.log_trim.specs.Trimmed.{AreRefutedLines};
ghost use Rattle.log_trim.specs.Shown.{IsReadied};

use crate::count_given;
use cnf_core::{Clause, ClauseNo, Formula};
use log_check::{Expected, begin_expected, has_clause_line, have_room};
use plan_core::OutOfMemory;
use refute_log::{LineList, LogLine};
use std::alloc::Global;

/// Adds Formula lines of the formula's clauses behind as many as the list has.
fn complete(alloc: Global, lines: &mut LineList, formula: &Formula) -> Result<(), OutOfMemory>
    requires { length (flat_map given lines.old) ≤ length formula.now.clauses }
    ensures { OnOk result (lines.new ≡ lines.old ++ map FormulaLine (drop (length (flat_map given lines.old))
        formula.now.clauses)) }
{
    let total = formula.clauses();
    let count = count_given(lines) as u32;
    for i in count..total {
        let clause = Clause::new(alloc, formula.lits_of(ClauseNo(i)))?;
        lines.push(LogLine::Formula(clause))?;
    }
    Ok(())
}

/// Whether lines fit what is expected of them and have room, so that they are accepted if they derive. Where some are
/// wanted, they are made complete then.
pub(crate) fn fit_by(
    alloc: Global,
    e: &Expected<'_>,
    lines: &mut LineList,
    wanted: &[u32],
) -> Result<bool, OutOfMemory>
    requires { (y : Layout) × (order : List Measured) × (cap : Measured → ℕ) ×
        IsExpecting y order cap e.now.encoded e.now.parts.items }
    ensures { (y : Layout) (o : List Measured) (cap : Measured → ℕ) → let d = expectation y o cap in
        IsExpecting y o cap e.now.encoded e.now.parts.items → (PassesLimits d → ⊥) →
        IfOk result (IsReadied d lines.old wanted.now lines.new) }
{
    if !begin_expected(lines, e) {
        return Ok(false);
    }
    if !have_room(lines) {
        return Ok(false);
    }
    if !wanted.is_empty() {
        complete(alloc, lines, e.encoded.formula())?;
    }
    Ok(true)
}

/// Whether lines have room, so that they are accepted if they derive, where what is expected passes the limits: no
/// Formula or Bound line is accepted then, and without such lines no Refuted one derives.
pub(crate) fn may_lack_all(lines: &LineList, wanted: &[u32]) -> bool
    requires { AreRefutedLines lines.now wanted.now }
    ensures { (e : Expectation) → PassesLimits e → IsReadied e lines.now wanted.now lines.now result }
{
    // each line may be told, as len says
    let _ = lines.len();
    if !wanted.is_empty() {
        return false;
    }
    if has_clause_line(lines) {
        return false;
    }
    have_room(lines)
}
