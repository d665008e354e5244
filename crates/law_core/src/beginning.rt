// The whole search for an explanation.
ghost use Rattle.std.specs.Prelude.{◌≡◌, ◌≤◌, [], map, IfOk, OnOk, OnErr, IsErrOf};
ghost use Rattle.outside_io.specs.Counts.{Rose};
ghost use Rattle.cnf_core.specs.declared.limits.TheConstants.{VARS, ROOM};
ghost use Rattle.cnf_core.specs.Clause.{words_of};
ghost use Rattle.track_order.specs.Order.{IsOrderOf};
ghost use Rattle.refute_log.specs.declared.line.LogLine.TheVariants.{Formula as FormulaLine};
ghost use Rattle.refute_log.specs.Told.{Lines};
ghost use Rattle.refute_log.specs.ToldTo.{told_to};
ghost use Rattle.refute_log.specs.Steps.{ToldBehind, GoesOn, Leaves};
ghost use Rattle.cdcl_core.specs.Kept.{blank, with_more_vars};
ghost use Rattle.cdcl_core.specs.Belongs.{Belongs};
ghost use Rattle.drawing_cnf.specs.Layout.{layout};
ghost use Rattle.lex_minimise.specs.Told.{HasTaken};
ghost use Rattle.search_why.specs.Task.{HasAllLaws};
ghost use Rattle.search_why.specs.Outcome.{IsRightOutcome, TellsOutcome};
ghost use Rattle.law_core.specs.Known.{task_of, HasFormula};
ghost use Rattle.law_core.specs.Search.{task_with, IsReadyWith, KnowsWith};
ghost use Rattle.law_core.specs.Why.{IsRightWhy, IsWhyLog, IsWhyLeft};

use crate::asking::WhyKnown;
use crate::ending::Why;
use crate::naming::answer_of;
use crate::search::WhySearch;
use crate::selecting::selectors_of;
use crate::whole::{WhyFormula, why_formula};
use cdcl_core::Solver;
use cnf_core::{CnfFault, Formula};
use lex_minimise::{Limits, add_clauses};
use plan_core::Grid;
use port_graph::PortGraph;
use refute_log::LogSink;
use search_least::MinFault;
use search_why::{Outcome, WhyFault, find_laws};
use std::alloc::Global;
use track_order::TrackOrder;

/// Gives a new solver the formula's variables and clauses.
fn begin<L: LogSink>(formula: &Formula, solver: &mut Solver, log: &mut L) -> Result<(), WhyFault>
    requires new { solver.old ≡ blank formula.now.room }
    requires few { formula.now.vars ≤ VARS }
    requires fits { words_of formula.now.clauses ≤ formula.now.room }
    ensures taken { OnOk result (HasTaken (with_more_vars solver.old formula.now.vars) solver.new formula.now.clauses) }
    ensures lines { OnOk result (GoesOn (λ ls. Belongs ls solver.old) (λ ls. Belongs ls solver.new)
        (L.tells log.old) (L.tells log.new) (L.learnt log.old) (L.learnt log.new)
        (λ lines more. more ≡ map FormulaLine formula.now.clauses)) }
    ensures leaves { OnErr result (Leaves 0 (map FormulaLine formula.now.clauses)
        (λ ls. Belongs ls solver.old) (L.tells log.old) (L.tells log.new)) }
    ensures later { L.is_later log.old log.new }
    ensures faults { L.faults log.old ≤ L.faults log.new }
    ensures cause { IsErrOf result WhyFault.Log → Rose (L.faults log.old) (L.faults log.new) }
{
    match add_clauses(formula, 0, solver, log) {
        Ok(()) => Ok(()),
        Err(MinFault::Log) => Err(WhyFault::Log),
        Err(MinFault::Memory) => Err(WhyFault::Memory),
    }
}

/// The search, once the solver and the log have the formula's clauses.
fn search_from<L: LogSink>(
    known: &WhyKnown,
    solver: &mut Solver,
    log: &mut L,
) -> Result<Outcome, WhyFault>
    requires ready { IsReadyWith known.now solver.old }
    requires laws { HasAllLaws (task_with known.now) }
    ensures right { IfOk result (IsRightOutcome (task_with known.now)) }
    ensures lines { IfOk result
        (λ o. GoesOn (KnowsWith known.now solver.old) (KnowsWith known.now solver.new) (L.tells log.old) (L.tells
        log.new) (L.learnt log.old) (L.learnt log.new) (λ ls m. TellsOutcome (task_with known.now) o ls m)) }
    ensures leaves { OnErr result (Leaves known.now.budget [] (KnowsWith known.now solver.old) (L.tells log.old)
        (L.tells log.new)) }
    ensures later { L.is_later log.old log.new }
    ensures faults { L.faults log.old ≤ L.faults log.new }
    ensures cause { IsErrOf result WhyFault.Log → Rose (L.faults log.old) (L.faults log.new) }
{
    let alloc = known.alloc;
    let mut search = WhySearch { known, solver, log };
    find_laws(alloc, &mut search)
}

/// The answer of a search in this formula, with a new solver.
fn explain_in<L: LogSink>(
    alloc: Global,
    g: &PortGraph,
    t: &TrackOrder,
    grid: &Grid,
    limits: &Limits,
    whole: &WhyFormula,
    solver: &mut Solver,
    log: &mut L,
) -> Result<Why, WhyFault>
    requires formula { HasFormula (layout g.now t.now grid.now) limits.now.room whole.now.laws.items whole.now.formula }
    requires new { solver.old ≡ blank limits.now.room }
    ensures right { IfOk result
        (IsRightWhy (task_of (layout g.now t.now grid.now) limits.now.budget limits.now.room)) }
    ensures lines { IfOk result (λ w. (lines : Lines) × told_to L.tells L.learnt log.old log.new lines
        × IsWhyLog (layout g.now t.now grid.now) limits.now.budget limits.now.room w lines) }
    ensures left { OnErr result (L.tells log.old [] → (lines : Lines) → L.tells log.new lines →
        IsWhyLeft (layout g.now t.now grid.now) limits.now.budget lines) }
    ensures later { L.is_later log.old log.new }
    ensures faults { L.faults log.old ≤ L.faults log.new }
    ensures cause { IsErrOf result WhyFault.Log → Rose (L.faults log.old) (L.faults log.new) }
{
    let selecting = selectors_of(alloc, whole.formula.vars(), &whole.laws)?;
    begin(&whole.formula, solver, log)?;
    let known = WhyKnown {
        alloc,
        graph: g,
        order: t,
        grid,
        selecting,
        budget: limits.budget,
        room: limits.room,
    };
    let outcome = search_from(&known, solver, log)?;
    let why = answer_of(alloc, &whole.laws, outcome)?;
    Ok(why)
}

/// The same as `explain`, with a new solver that is handed in. It was made with the room of the limits.
fn explain_with<L: LogSink>(
    alloc: Global,
    g: &PortGraph,
    t: &TrackOrder,
    grid: &Grid,
    limits: &Limits,
    solver: &mut Solver,
    log: &mut L,
) -> Result<Why, WhyFault>
    requires order { IsOrderOf g.now t.now }
    requires room { limits.now.room ≤ ROOM }
    requires new { solver.old ≡ blank limits.now.room }
    ensures right { IfOk result
        (IsRightWhy (task_of (layout g.now t.now grid.now) limits.now.budget limits.now.room)) }
    ensures lines { IfOk result (λ w. (lines : Lines) × told_to L.tells L.learnt log.old log.new lines
        × IsWhyLog (layout g.now t.now grid.now) limits.now.budget limits.now.room w lines) }
    ensures left { OnErr result (L.tells log.old [] → (lines : Lines) → L.tells log.new lines →
        IsWhyLeft (layout g.now t.now grid.now) limits.now.budget lines) }
    ensures later { L.is_later log.old log.new }
    ensures faults { L.faults log.old ≤ L.faults log.new }
    ensures cause { IsErrOf result WhyFault.Log → Rose (L.faults log.old) (L.faults log.new) }
{
    // what the types keep
    let _ = (g.nodes(), grid.width());
    match why_formula(alloc, g, t, grid, limits.room) {
        Ok(whole) => explain_in(alloc, g, t, grid, limits, &whole, solver, log),
        Err(CnfFault::Room) => Ok(Why::Room),
        Err(CnfFault::Memory) => Err(WhyFault::Memory),
    }
}

/// A lawful drawing of the graph on the grid. Or, where there is none, laws with their parties that no loose drawing
/// meets together and of which none can be left out, with a drawing for each that meets the others. Or as far as the
/// budget of learnt clauses and the room for the words of all clauses allow.
///
/// The order `t` is that of the graph's edges. The log takes all lines: the formula's clauses, the questions, what is
/// learnt, and the answers. With `Spent`, or `Room` behind a question, the latest one has no answer, and no lawful
/// drawing is kept back. After an error a log that had no line derives, its Formula lines are the first of those, and
/// it has no more Learnt lines than the budget allows.
pub fn explain<L: LogSink>(
    alloc: Global,
    g: &PortGraph,
    t: &TrackOrder,
    grid: &Grid,
    budget: u32,
    room: u32,
    log: &mut L,
) -> Result<Why, WhyFault>
    requires order { IsOrderOf g.now t.now }
    requires room { room ≤ ROOM }
    ensures right { IfOk result (IsRightWhy (task_of (layout g.now t.now grid.now) budget room)) }
    ensures lines { IfOk result (λ w. (lines : Lines) × told_to L.tells L.learnt log.old log.new lines
        × IsWhyLog (layout g.now t.now grid.now) budget room w lines) }
    ensures left { OnErr result (L.tells log.old [] → (lines : Lines) → L.tells log.new lines →
        IsWhyLeft (layout g.now t.now grid.now) budget lines) }
    ensures later { L.is_later log.old log.new }
    ensures faults { L.faults log.old ≤ L.faults log.new }
    ensures cause { IsErrOf result WhyFault.Log → Rose (L.faults log.old) (L.faults log.new) }
{
    let limits = Limits { budget, room };
    let mut solver = Solver::new(alloc, room)?;
    explain_with(alloc, g, t, grid, &limits, &mut solver, log)
}
