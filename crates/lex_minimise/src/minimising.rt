// The whole search with the solver.
ghost use Rattle.std.specs.Prelude.{◌≡◌, ◌≤◌, ◌++◌, [], IfOk, OnErr, IsErrOf};
ghost use Rattle.outside_io.specs.Counts.{Rose};
ghost use Rattle.cnf_core.specs.declared.limits.TheConstants.{ROOM};
ghost use Rattle.track_order.specs.Order.{IsOrderOf};
ghost use Rattle.refute_log.specs.Told.{Lines};
ghost use Rattle.refute_log.specs.ToldTo.{told_to};
ghost use Rattle.cdcl_core.specs.Kept.{blank};
ghost use Rattle.refute_log.specs.Steps.{ToldBehind};
ghost use Rattle.search_least.specs.Outcome.{IsOutcome, IsRightOutcome, IsLeastLeft, first_lines};
ghost use Rattle.drawing_cnf.specs.Layout.{layout};
ghost use Rattle.lex_minimise.specs.Task.{task_of};
ghost use Rattle.lex_minimise.specs.Told.{IsLogOfSolver};
ghost use Rattle.lex_minimise.specs.Search.{task_with, IsReadyWith, KnowsWith};

use crate::Limits;
use crate::building::add_clauses;
use crate::search::{Known, Search};
use cdcl_core::Solver;
use cnf_core::CnfFault;
use drawing_cnf::encode;
use plan_core::{Grid, Order};
use port_graph::PortGraph;
use refute_log::LogSink;
use search_least::{MinFault, Outcome, least_values};
use std::alloc::Global;
use track_order::TrackOrder;

/// The search, once the solver and the log have the formula's clauses, and no bound yet.
fn search_from<L: LogSink>(
    known: &mut Known,
    solver: &mut Solver,
    log: &mut L,
    wanted: &Order,
) -> Result<Outcome, MinFault>
    requires none { known.old.told.items ≡ [] }
    requires ready { IsReadyWith known.old solver.old }
    requires start { KnowsWith known.old solver.old (first_lines (task_with known.old)) }
    ensures right { IfOk result (IsRightOutcome (task_with known.old) wanted.now) }
    ensures lines { let p = task_with known.old in
        IfOk result (λ o. ToldBehind (IsLogOfSolver solver.new) (L.tells log.old) (L.tells log.new) (L.learnt log.old)
        (L.learnt log.new) (first_lines p) (λ m. IsOutcome p wanted.now o (first_lines p ++ m))) }
    ensures left { let p = task_with known.old in
        OnErr result (L.tells log.old (first_lines p) → (lines : Lines) → L.tells log.new lines →
        IsLeastLeft p wanted.now lines) }
    ensures later { L.is_later log.old log.new }
    ensures faults { L.faults log.old ≤ L.faults log.new }
    ensures cause { IsErrOf result MinFault.Log → Rose (L.faults log.old) (L.faults log.new) }
{
    let alloc = known.alloc;
    let mut search = Search { known, solver, log };
    least_values(alloc, &mut search, wanted)
}

/// The same as `minimise`, with a new solver that is handed in, so that a caller sees what it has learnt: as many
/// clauses as there are Learnt lines. It was made with the room of the limits.
pub fn minimise_with<L: LogSink>(
    alloc: Global,
    g: &PortGraph,
    t: &TrackOrder,
    grid: &Grid,
    wanted: &Order,
    limits: &Limits,
    solver: &mut Solver,
    log: &mut L,
) -> Result<Outcome, MinFault>
    requires order { IsOrderOf g.now t.now }
    requires room { limits.now.room ≤ ROOM }
    requires new { solver.old ≡ blank limits.now.room }
    ensures right { let p = task_of (layout g.now t.now grid.now) limits.now.budget limits.now.room in
        IfOk result (IsRightOutcome p wanted.now) }
    ensures lines { let p = task_of (layout g.now t.now grid.now) limits.now.budget limits.now.room in
        IfOk result (λ o. (ls : Lines) × told_to L.tells L.learnt log.old log.new ls
        × IsOutcome p wanted.now o ls × IsLogOfSolver solver.new ls) }
    ensures left { let p = task_of (layout g.now t.now grid.now) limits.now.budget limits.now.room in
        OnErr result (L.tells log.old [] → (lines : Lines) → L.tells log.new lines → IsLeastLeft p wanted.now lines) }
    ensures later { L.is_later log.old log.new }
    ensures faults { L.faults log.old ≤ L.faults log.new }
    ensures cause { IsErrOf result MinFault.Log → Rose (L.faults log.old) (L.faults log.new) }
{
    let encoded = match encode(alloc, g, t, grid, limits.room) {
        Ok(encoded) => encoded,
        Err(CnfFault::Room) => {
            return Ok(Outcome::Room {
                best: None,
                settled: 0,
            });
        }
        Err(CnfFault::Memory) => return Err(MinFault::Memory),
    };
    add_clauses(encoded.formula(), 0, solver, log)?;
    let mut known = Known {
        alloc,
        encoded,
        told: Vec::new(alloc),
        budget: limits.budget,
        room: limits.room,
    };
    search_from(&mut known, solver, log, wanted)
}

/// A lawful drawing of the graph on the grid with the least values in the wanted order, or as far as the limits allow.
///
/// The order `t` is that of the graph's edges. The log takes all lines: the drawings' clauses, each criterion's clauses
/// with its bounds, whole or not at all, the questions, what is learnt, and the answers. `Spent` comes where as many
/// clauses were learnt as the budget allows, `Room` where what comes next has no room: too many words or variables.
/// After an error a log that had no line derives, its Formula and Bound lines are the first of those that are expected,
/// and it has no more Learnt lines than the budget allows.
pub fn minimise<L: LogSink>(
    alloc: Global,
    g: &PortGraph,
    t: &TrackOrder,
    grid: &Grid,
    wanted: &Order,
    limits: &Limits,
    log: &mut L,
) -> Result<Outcome, MinFault>
    requires order { IsOrderOf g.now t.now }
    requires room { limits.now.room ≤ ROOM }
    ensures right { let p = task_of (layout g.now t.now grid.now) limits.now.budget limits.now.room in
        IfOk result (IsRightOutcome p wanted.now) }
    ensures lines { let p = task_of (layout g.now t.now grid.now) limits.now.budget limits.now.room in
        IfOk result (λ o. (lines : Lines) × told_to L.tells L.learnt log.old log.new lines
        × IsOutcome p wanted.now o lines) }
    ensures left { let p = task_of (layout g.now t.now grid.now) limits.now.budget limits.now.room in
        OnErr result (L.tells log.old [] → (lines : Lines) → L.tells log.new lines → IsLeastLeft p wanted.now lines) }
    ensures later { L.is_later log.old log.new }
    ensures faults { L.faults log.old ≤ L.faults log.new }
    ensures cause { IsErrOf result MinFault.Log → Rose (L.faults log.old) (L.faults log.new) }
{
    let mut solver = Solver::new(alloc, limits.room)?;
    minimise_with(alloc, g, t, grid, wanted, limits, &mut solver, log)
}
