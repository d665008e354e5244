// Clauses and bounds, given to the log one after another.
ghost use Rattle.std.specs.Prelude.{◌≡◌, ◌≤◌, ◌<◌, ◌+◌, ◌++◌, ◌∷◌, [], false, OnOk, OnErr, IsErrOf, length, map, drop};
ghost use Rattle.outside_io.specs.Counts.{Rose};
ghost use Rattle.cnf_core.specs.Clause.{words_of};
ghost use Rattle.cnf_core.specs.Formula.{clause_at};
ghost use Rattle.refute_log.specs.declared.line.LogLine.TheVariants.{Formula as FormulaLine};
ghost use Rattle.outside_io.specs.declared.numbers.TheConstants.{MAX_NUMBER};
ghost use Rattle.refute_log.specs.Told.{AddsAll};
ghost use Rattle.refute_log.specs.Log.{Derives};
ghost use Rattle.refute_log.specs.Expected.{bound_lines};
ghost use Rattle.cdcl_core.specs.Belongs.{Belongs};
ghost use Rattle.drawing_cnf.specs.Lists.{variables_behind};
ghost use Rattle.refute_log.specs.Steps.{GoesOn, Leaves};
ghost use Rattle.lex_minimise.specs.Told.{HasTaken};

use cdcl_core::{AddFault, Solver};
use cnf_core::{ClauseNo, Formula};
use drawing_cnf::Bounds;
use refute_log::{LogLine, LogSink, LogSinkFault};
use search_least::MinFault;

/// Adds one clause of the formula to the solver, which gives it to the log.
fn tell_clause<L: LogSink>(
    formula: &Formula,
    no: u32,
    solver: &mut Solver,
    log: &mut L,
) -> Result<(), MinFault>
    requires there { no < length formula.now.clauses }
    requires working { solver.old.failed ≡ false }
    requires vars { solver.old.vars ≡ formula.now.vars }
    requires fits { solver.old.words + words_of (clause_at formula.now no ∷ []) ≤ solver.old.room }
    ensures taken { OnOk result (HasTaken solver.old solver.new (clause_at formula.now no ∷ [])) }
    ensures lines { OnOk result (GoesOn (λ ls. Belongs ls solver.old) (λ ls. Belongs ls solver.new)
        (L.tells log.old) (L.tells log.new) (L.learnt log.old) (L.learnt log.new)
        (λ lines more. more ≡ FormulaLine (clause_at formula.now no) ∷ [])) }
    ensures leaves { OnErr result (Leaves 0 (FormulaLine (clause_at formula.now no) ∷ [])
        (λ ls. Belongs ls solver.old) (L.tells log.old) (L.tells log.new)) }
    ensures later { L.is_later log.old log.new }
    ensures faults { L.faults log.old ≤ L.faults log.new }
    ensures cause { IsErrOf result MinFault.Log → Rose (L.faults log.old) (L.faults log.new) }
{
    match solver.add_clause(formula.lits_of(ClauseNo(no)), log) {
        Ok(()) => Ok(()),
        Err(AddFault::Log) => Err(MinFault::Log),
        Err(AddFault::Memory) => Err(MinFault::Memory),
        Err(AddFault::Room) => unreachable!(),
    }
}

/// Says to the solver which clauses of the formula are to be added.
fn expect_clauses(formula: &Formula, from: u32, solver: &mut Solver)
    requires from { from ≤ length formula.now.clauses }
    requires working { solver.old.failed ≡ false }
    requires vars { solver.old.vars ≡ formula.now.vars }
    ensures { solver.new ≡ solver.old }
{
    let end = formula.clauses();
    for number in from..end {
        solver.expect(formula.lits_of(ClauseNo(number)));
    }
}

/// Adds the formula's clauses from this number on.
pub fn tell_clauses<L: LogSink>(
    formula: &Formula,
    from: u32,
    solver: &mut Solver,
    log: &mut L,
) -> Result<(), MinFault>
    requires from { from ≤ length formula.now.clauses }
    requires working { solver.old.failed ≡ false }
    requires vars { solver.old.vars ≡ formula.now.vars }
    requires fits { solver.old.words + words_of (drop from formula.now.clauses) ≤ solver.old.room }
    ensures taken { OnOk result (HasTaken solver.old solver.new (drop from formula.now.clauses)) }
    ensures lines { OnOk result (GoesOn (λ ls. Belongs ls solver.old) (λ ls. Belongs ls solver.new)
        (L.tells log.old) (L.tells log.new) (L.learnt log.old) (L.learnt log.new)
        (λ lines more. more ≡ map FormulaLine (drop from formula.now.clauses))) }
    ensures leaves { OnErr result (Leaves 0 (map FormulaLine (drop from formula.now.clauses))
        (λ ls. Belongs ls solver.old) (L.tells log.old) (L.tells log.new)) }
    ensures later { L.is_later log.old log.new }
    ensures faults { L.faults log.old ≤ L.faults log.new }
    ensures cause { IsErrOf result MinFault.Log → Rose (L.faults log.old) (L.faults log.new) }
{
    expect_clauses(formula, from, solver);
    let end = formula.clauses();
    for number in from..end {
        tell_clause(formula, number, solver, log)?;
    }
    Ok(())
}

fn fault_of(fault: LogSinkFault) -> MinFault
    ensures { result ≡ MinFault.Log → fault ≡ LogSinkFault.Failed }
{
    match fault {
        LogSinkFault::Failed => MinFault::Log,
        LogSinkFault::Memory => MinFault::Memory,
    }
}

/// Gives the log a Bound line for each number from 1 to the cap. The solver doesn't see them.
pub(crate) fn tell_bounds<L: LogSink>(bounds: &Bounds, log: &mut L) -> Result<(), MinFault>
    requires small { bounds.now.cap ≤ MAX_NUMBER }
    ensures lines { OnOk result (AddsAll (L.tells log.old) (L.tells log.new)
        (bound_lines bounds.now.criterion 1 (variables_behind bounds.now.last bounds.now.cap))) }
    ensures leaves { OnErr result (Leaves 0
        (bound_lines bounds.now.criterion 1 (variables_behind bounds.now.last bounds.now.cap))
        Derives (L.tells log.old) (L.tells log.new)) }
    ensures learnt { L.learnt log.new ≡ L.learnt log.old }
    ensures later { L.is_later log.old log.new }
    ensures faults { L.faults log.old ≤ L.faults log.new }
    ensures cause { IsErrOf result MinFault.Log → Rose (L.faults log.old) (L.faults log.new) }
{
    let end = bounds.cap();
    for i in 0..end {
        match log.tell(&LogLine::Bound {
            criterion: bounds.criterion(),
            k: i + 1,
            var: bounds.var(i + 1),
        }) {
            Ok(()) => {}
            Err(fault) => return Err(fault_of(fault)),
        }
    }
    Ok(())
}
