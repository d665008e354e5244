// The clauses of two formulas, given to the log one after another.
ghost use Rattle.std.specs.Prelude.{◌≡◌, ◌≤◌, ◌+◌, ◌-◌, ◌++◌, false, OnOk, OnErr, IsErrOf, map};
ghost use Rattle.outside_io.specs.Counts.{Rose};
ghost use Rattle.cnf_core.specs.Clause.{words_of};
ghost use Rattle.refute_log.specs.declared.line.LogLine.TheVariants.{Formula as FormulaLine};
ghost use Rattle.refute_log.specs.Steps.{GoesOn, Leaves};
ghost use Rattle.cdcl_core.specs.Kept.{with_more_vars};
ghost use Rattle.cdcl_core.specs.Belongs.{Belongs};
ghost use Rattle.lex_minimise.specs.Told.{HasTaken};

use cdcl_core::Solver;
use cnf_core::Formula;
use lex_minimise::add_clauses;
use refute_log::LogSink;
use search_least::MinFault;

/// Gives the solver the clauses of a formula and then those of another, whose variables go on from the first's.
pub(crate) fn tell_both<L: LogSink>(
    first: &Formula,
    second: &Formula,
    solver: &mut Solver,
    log: &mut L,
) -> Result<(), MinFault>
    requires working { solver.old.failed ≡ false }
    requires more { solver.old.vars ≤ first.now.vars }
    requires further { first.now.vars ≤ second.now.vars }
    requires fits { solver.old.words + words_of first.now.clauses + words_of second.now.clauses ≤ solver.old.room }
    ensures taken { OnOk result
        (HasTaken (with_more_vars solver.old (second.now.vars - solver.old.vars)) solver.new
        (first.now.clauses ++ second.now.clauses)) }
    ensures lines { OnOk result
        (GoesOn (λ ls. Belongs ls solver.old) (λ ls. Belongs ls solver.new) (L.tells log.old) (L.tells log.new)
        (L.learnt log.old) (L.learnt log.new) (λ ls m. m ≡ map FormulaLine (first.now.clauses ++ second.now.clauses))) }
    ensures leaves { OnErr result (Leaves 0 (map FormulaLine (first.now.clauses ++ second.now.clauses))
        (λ ls. Belongs ls solver.old) (L.tells log.old) (L.tells log.new)) }
    ensures later { L.is_later log.old log.new }
    ensures faults { L.faults log.old ≤ L.faults log.new }
    ensures cause { IsErrOf result MinFault.Log → Rose (L.faults log.old) (L.faults log.new) }
{
    // what the types keep
    let _counts = (first.vars(), second.vars());
    add_clauses(first, 0, solver, log)?;
    add_clauses(second, 0, solver, log)
}
