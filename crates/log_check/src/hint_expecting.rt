// What is expected, as a checker takes it: its clauses as a formula of their own, and its bounds.
ghost use Rattle.std.specs.Prelude.{◌≡◌, ◌≤◌, ◌+◌, ◌++◌, IfOk, OnOk, flat_map};
ghost use Rattle.cnf_core.specs.declared.limits.TheConstants.{VARS};
ghost use Rattle.cnf_core.specs.Clause.{Clauses};
ghost use Rattle.refute_log.specs.Expected.{bound_lines};
ghost use Rattle.refute_check.specs.Lacking.{told_bound};
ghost use Rattle.drawing_cnf.specs.Lists.{variables_behind};
ghost use Rattle.log_check.specs.Awaited.{IsPart, AreParts};
ghost use Rattle.log_check.specs.HintExpected.{bounds_of_part, bounds_of};

use crate::Part;
use cnf_core::{ClauseNo, CnfFault, Formula, Lit, ROOM, Var};
use plan_core::{Criterion, OutOfMemory};
use refute_check::ToldBound;
use std::alloc::Global;

/// The same clauses over the same variables. The formula has room for them, as the other one has.
pub(crate) fn copied(alloc: Global, f: &Formula) -> Result<Formula, OutOfMemory>
    ensures { IfOk result (λ c. c.clauses ≡ f.now.clauses) }
{
    let mut copy = Formula::new(alloc, ROOM)?;
    match copy.new_vars(f.vars()) {
        Ok(_) => {}
        Err(CnfFault::Room) => unreachable!(),
        Err(CnfFault::Memory) => return Err(OutOfMemory),
    }
    // one that is within its room has no more words than this
    let _ = f.words();
    for i in 0..f.clauses() {
        match copy.add(f.lits_of(ClauseNo(i))) {
            Ok(_) => {}
            Err(CnfFault::Room) => unreachable!(),
            Err(CnfFault::Memory) => return Err(OutOfMemory),
        }
    }
    Ok(copy)
}

/// Appends the bounds of a criterion for 1 up to a cap, whose variables come behind this one.
fn add_bounds(
    bounds: &mut Vec<ToldBound>,
    criterion: Criterion,
    last: u32,
    cap: u32,
) -> Result<(), OutOfMemory>
    requires { last + cap ≤ VARS }
    ensures { OnOk result (bounds.new.items ≡ bounds.old.items
        ++ flat_map told_bound (bound_lines criterion 1 (variables_behind last cap))) }
{
    for i in 0..cap {
        let k = i + 1;
        bounds.push(ToldBound {
            criterion,
            k,
            literal: Lit::new(Var(last + k), true),
        })?;
    }
    Ok(())
}

/// Appends the bounds of a part.
fn add_part(bounds: &mut Vec<ToldBound>, part: &Part) -> Result<(), OutOfMemory>
    requires { (clauses : Clauses) × IsPart clauses part.now }
    ensures { OnOk result (bounds.new.items ≡ bounds.old.items ++ bounds_of_part part.now) }
{
    match part {
        Part::ClausesTo(_) => Ok(()),
        Part::Bounds {
            criterion,
            last,
            cap,
        } => add_bounds(bounds, *criterion, *last, *cap),
    }
}

/// The bounds of parts.
pub(crate) fn bounds_in(alloc: Global, parts: &[Part]) -> Result<Vec<ToldBound>, OutOfMemory>
    requires { (clauses : Clauses) × AreParts clauses parts.now }
    ensures { IfOk result (λ v. v.items ≡ bounds_of parts.now) }
{
    let mut bounds = Vec::new(alloc);
    for part in parts {
        add_part(&mut bounds, part)?;
    }
    Ok(bounds)
}
