// The formula's clauses and a criterion's bounds, added whole or not at all.
ghost use Rattle.std.specs.Prelude.{◌≡◌, ◌≤◌, ◌+◌, ◌-◌, ◌++◌, ◌∷◌, [], false, IfOk, OnOk, OnErr, IsErrOf, IsTrue, ◌↔◌};
ghost use Rattle.std.specs.Prelude.{MatchOption, length, map, drop};
ghost use Rattle.outside_io.specs.Counts.{Rose};
ghost use Rattle.plan_core.specs.Values.{limit_of};
ghost use Rattle.cnf_core.specs.declared.limits.TheConstants.{VARS};
ghost use Rattle.cnf_core.specs.Clause.{words_of};
ghost use Rattle.refute_log.specs.declared.line.LogLine.TheVariants.{Formula as FormulaLine};
ghost use Rattle.refute_log.specs.Expected.{sum_lines};
ghost use Rattle.drawing_cnf.specs.Whole.{IsWhole};
ghost use Rattle.drawing_cnf.specs.Lists.{lines_behind};
ghost use Rattle.drawing_cnf.specs.Behind.{bound_behind, PassesWith, HasGrown};
ghost use Rattle.cdcl_core.specs.Kept.{with_more_vars};
ghost use Rattle.cdcl_core.specs.Belongs.{Belongs};
ghost use Rattle.search_least.specs.declared.oracle.Built.TheVariants.{Whole as AllOfThem};
ghost use Rattle.search_least.specs.Built.{IsBuild, AreBuiltTo};
ghost use Rattle.drawing_cnf.specs.Layout.{layout_of};
ghost use Rattle.lex_minimise.specs.Known.{caps_of};
ghost use Rattle.refute_log.specs.Steps.{GoesOn, Leaves};
ghost use Rattle.lex_minimise.specs.Told.{HasTaken};
ghost use Rattle.lex_minimise.specs.Grown.{IsGrown};
ghost use Rattle.lex_minimise.specs.Search.{task_with, IsReadyWith, KnowsWith};

use crate::search::Known;
use crate::telling::{tell_bounds, tell_clauses};
use cdcl_core::{AddFault, Solver};
use cnf_core::{CnfFault, Formula};
use drawing_cnf::{Bounds, criterion_bound};
use plan_core::Criterion;
use refute_log::LogSink;
use search_least::{Built, MinFault};

/// Gives the solver the formula's further variables, and its clauses from this number on.
pub fn add_clauses<L: LogSink>(
    formula: &Formula,
    from: u32,
    solver: &mut Solver,
    log: &mut L,
) -> Result<(), MinFault>
    requires from { from ≤ length formula.now.clauses }
    requires working { solver.old.failed ≡ false }
    requires more { solver.old.vars ≤ formula.now.vars }
    requires few { formula.now.vars ≤ VARS }
    requires fits { solver.old.words + words_of (drop from formula.now.clauses) ≤ solver.old.room }
    ensures taken { OnOk result
        (HasTaken (with_more_vars solver.old (formula.now.vars - solver.old.vars)) solver.new
        (drop from formula.now.clauses)) }
    ensures lines { OnOk result (GoesOn (λ ls. Belongs ls solver.old) (λ ls. Belongs ls solver.new)
        (L.tells log.old) (L.tells log.new) (L.learnt log.old) (L.learnt log.new)
        (λ lines more. more ≡ map FormulaLine (drop from formula.now.clauses))) }
    ensures leaves { OnErr result (Leaves 0 (map FormulaLine (drop from formula.now.clauses))
        (λ ls. Belongs ls solver.old) (L.tells log.old) (L.tells log.new)) }
    ensures later { L.is_later log.old log.new }
    ensures faults { L.faults log.old ≤ L.faults log.new }
    ensures cause { IsErrOf result MinFault.Log → Rose (L.faults log.old) (L.faults log.new) }
{
    match solver.add_vars(formula.vars() - solver.vars()) {
        Ok(()) => tell_clauses(formula, from, solver, log),
        Err(AddFault::Memory) => Err(MinFault::Memory),
        Err(AddFault::Room) | Err(AddFault::Log) => unreachable!(),
    }
}

/// The bound of the criterion behind the formula, if there is room for it. After an error the formula isn't used
/// further.
fn bounds_for(known: &mut Known, c: Criterion, cap: u32) -> Result<Option<Bounds>, MinFault>
    requires whole { IsWhole known.old.encoded }
    requires positive { 1 ≤ cap }
    requires limit { cap ≤ limit_of known.old.encoded.graph known.old.encoded.grid c }
    ensures layout { layout_of known.new.encoded ≡ layout_of known.old.encoded }
    ensures told { known.new.told.items ≡ known.old.told.items }
    ensures budget { known.new.budget ≡ known.old.budget }
    ensures room { known.new.room ≡ known.old.room }
    ensures bounds { let b = bound_behind known.old.encoded c cap in
        IfOk result (λ o. MatchOption o (PassesWith known.old.encoded b)
        (λ a. (a ≡ b) × HasGrown known.old.encoded known.new.encoded b)) }
    ensures cause { IsErrOf result MinFault.Log → ⊥ }
{
    match criterion_bound(known.alloc, &mut known.encoded, c, cap) {
        Ok(bounds) => Ok(Some(bounds)),
        Err(CnfFault::Room) => Ok(None),
        Err(CnfFault::Memory) => Err(MinFault::Memory),
    }
}

/// Whether the solver has room for so many words more.
fn has_room(solver: &Solver, more: u32, room: u32) -> bool
    ensures { IsTrue result ↔ solver.now.words + more ≤ room }
{
    u64::from(solver.words()) + u64::from(more) <= u64::from(room)
}

/// Adds the clauses and the numbers of the bound behind the formula, which the solver has room for.
fn tell_criterion<L: LogSink>(
    known: &mut Known,
    solver: &mut Solver,
    log: &mut L,
    bounds: Bounds,
    from: u32,
) -> Result<(), MinFault>
    requires grown { IsGrown known.old.encoded known.old.told.items known.old.budget known.old.room bounds from
        solver.old }
    requires fits { solver.old.words + words_of (drop from known.old.encoded.formula.clauses) ≤ known.old.room }
    ensures encoded { known.new.encoded ≡ known.old.encoded }
    ensures budget { known.new.budget ≡ known.old.budget }
    ensures room { known.new.room ≡ known.old.room }
    ensures told { OnOk result (known.new.told.items ≡ known.old.told.items ++ bounds ∷ []) }
    ensures ready { OnOk result (IsReadyWith known.new solver.new) }
    ensures lines { OnOk result (GoesOn
        (KnowsWith known.old solver.old) (KnowsWith known.new solver.new)
        (L.tells log.old) (L.tells log.new) (L.learnt log.old) (L.learnt log.new)
        (λ lines more. more ≡ lines_behind known.old.encoded bounds)) }
    ensures leaves { OnErr result (Leaves 0 (lines_behind known.old.encoded bounds)
        (KnowsWith known.old solver.old) (L.tells log.old) (L.tells log.new)) }
    ensures later { L.is_later log.old log.new }
    ensures faults { L.faults log.old ≤ L.faults log.new }
    ensures cause { IsErrOf result MinFault.Log → Rose (L.faults log.old) (L.faults log.new) }
{
    // what the types keep
    let _ = (known.encoded.graph().nodes(), known.encoded.grid().width());
    add_clauses(known.encoded.formula(), from, solver, log)?;
    tell_bounds(&bounds, log)?;
    known.told.push(bounds)?;
    Ok(())
}

/// Adds the clauses and the bounds of a criterion up to the cap, all or none.
pub(crate) fn build<L: LogSink>(
    known: &mut Known,
    solver: &mut Solver,
    log: &mut L,
    c: Criterion,
    cap: u32,
) -> Result<Built, MinFault>
    requires ready { IsReadyWith known.old solver.old }
    requires positive { 1 ≤ cap }
    requires limit { cap ≤ limit_of known.old.encoded.graph known.old.encoded.grid c }
    requires none { caps_of known.old.told.items c ≡ 0 }
    ensures layout { layout_of known.new.encoded ≡ layout_of known.old.encoded }
    ensures budget { known.new.budget ≡ known.old.budget }
    ensures room { known.new.room ≡ known.old.room }
    ensures ready { IfOk result (λ b. b ≡ AllOfThem → IsReadyWith known.new solver.new) }
    ensures built { IfOk result (λ b. AreBuiltTo (task_with known.old)
        (caps_of known.old.told.items) solver.old.vars c cap b (caps_of known.new.told.items) solver.new.vars) }
    ensures lines { IfOk result (λ b. GoesOn (KnowsWith known.old solver.old) (KnowsWith known.new solver.new)
        (L.tells log.old) (L.tells log.new) (L.learnt log.old) (L.learnt log.new)
        (IsBuild (task_with known.old) solver.old.vars c cap b)) }
    ensures leaves { OnErr result (Leaves 0 (sum_lines (task_with known.old).encoding solver.old.vars c cap)
        (KnowsWith known.old solver.old) (L.tells log.old) (L.tells log.new)) }
    ensures later { L.is_later log.old log.new }
    ensures faults { L.faults log.old ≤ L.faults log.new }
    ensures cause { IsErrOf result MinFault.Log → Rose (L.faults log.old) (L.faults log.new) }
{
    let from = known.encoded.formula().clauses();
    let words = known.encoded.formula().words();
    match bounds_for(known, c, cap)? {
        None => Ok(Built::NoRoom),
        Some(bounds) => {
            let more = known.encoded.formula().words() - words;
            if !has_room(solver, more, known.room) {
                return Ok(Built::NoRoom);
            }
            tell_criterion(known, solver, log, bounds, from)?;
            Ok(Built::Whole)
        }
    }
}
