// The whole search for the fewest moved nodes.
ghost use Rattle.std.specs.Prelude.{◌≡◌, ◌≤◌, ◌++◌, [], length, IfOk, OnErr, IsErrOf};
ghost use Rattle.outside_io.specs.Counts.{Rose};
ghost use Rattle.cnf_core.specs.declared.limits.TheConstants.{ROOM};
ghost use Rattle.track_order.specs.Order.{is_above, is_overlap, IsOrderOf};
ghost use Rattle.refute_log.specs.Told.{Lines};
ghost use Rattle.refute_log.specs.ToldTo.{told_to};
ghost use Rattle.cdcl_core.specs.Kept.{blank};
ghost use Rattle.refute_log.specs.Steps.{ToldBehind, Leaves};
ghost use Rattle.drawing_cnf.specs.Layout.{layout};
ghost use Rattle.search_least.specs.Fewest.{IsRightFewest, IsFewestLog, formula_lines};
ghost use Rattle.search_moved.specs.Known.{moved_task};
ghost use Rattle.lex_minimise.specs.Told.{IsLogOfSolver};
ghost use Rattle.search_moved.specs.MovedFormula.{SoundMoved, CoversMoved};
ghost use Rattle.search_moved.specs.Told.{IsMovedEnd, IsMovedLeft};
ghost use Rattle.search_moved.specs.Search.{task_with, IsReadyWith, KnowsWith};

use crate::asking::MovedKnown;
use crate::counting::counting;
use crate::near::begin_near;
use crate::search::MovedSearch;
use crate::telling::tell_both;
use cdcl_core::Solver;
use cnf_core::CnfFault;
use drawing_cnf::encode;
use lex_minimise::Limits;
use plan_core::{Grid, Point};
use port_graph::PortGraph;
use refute_log::LogSink;
use search_least::{Fewest, MinFault, least_count};
use std::alloc::Global;
use track_order::TrackOrder;

/// The search, once the solver and the log have the formula's clauses. It begins near the former points.
fn search_from<L: LogSink>(
    known: &MovedKnown,
    solver: &mut Solver,
    log: &mut L,
) -> Result<Fewest, MinFault>
    requires ready { IsReadyWith known.now solver.old }
    requires start { KnowsWith known.now solver.old (formula_lines (task_with known.now)) }
    ensures right { IfOk result (IsRightFewest (task_with known.now)) }
    ensures lines { let p = task_with known.now in IfOk result (λ o. ToldBehind (IsLogOfSolver solver.new)
        (L.tells log.old) (L.tells log.new) (L.learnt log.old) (L.learnt log.new) (formula_lines p)
        (λ more. IsFewestLog p o (formula_lines p ++ more))) }
    ensures leaves { OnErr result (Leaves known.now.budget [] (KnowsWith known.now solver.old) (L.tells log.old)
        (L.tells log.new)) }
    ensures later { L.is_later log.old log.new }
    ensures faults { L.faults log.old ≤ L.faults log.new }
    ensures cause { IsErrOf result MinFault.Log → Rose (L.faults log.old) (L.faults log.new) }
{
    begin_near(known, solver)?;
    let mut search = MovedSearch { known, solver, log };
    least_count(&mut search)
}

/// The same as `fewest_moved`, with a new solver.
fn fewest_with<L: LogSink>(
    alloc: Global,
    g: &PortGraph,
    t: &TrackOrder,
    grid: &Grid,
    former: &[Option<Point>],
    limits: &Limits,
    solver: &mut Solver,
    log: &mut L,
) -> Result<Fewest, MinFault>
    requires order { IsOrderOf g.now t.now }
    requires same { length former.now ≡ length g.now.nodes }
    requires room { limits.now.room ≤ ROOM }
    requires new { solver.old ≡ blank limits.now.room }
    ensures right { IfOk result
        (IsRightFewest (moved_task (layout g.now t.now grid.now) former.now limits.now.budget limits.now.room)) }
    ensures lines { IfOk result (λ o. (lines : Lines) × told_to L.tells L.learnt log.old log.new lines
        × IsMovedEnd (layout g.now t.now grid.now) former.now limits.now.budget limits.now.room o lines) }
    ensures left { OnErr result (L.tells log.old [] → (lines : Lines) → L.tells log.new lines →
        IsMovedLeft (layout g.now t.now grid.now) former.now limits.now.budget lines) }
    ensures later { L.is_later log.old log.new }
    ensures faults { L.faults log.old ≤ L.faults log.new }
    ensures cause { IsErrOf result MinFault.Log → Rose (L.faults log.old) (L.faults log.new) }
{
    // what the types keep
    let _ = (g.nodes(), grid.width());
    let encoded = match encode(alloc, g, t, grid, limits.room) {
        Ok(encoded) => encoded,
        Err(CnfFault::Room) => return Ok(Fewest::Room(None)),
        Err(CnfFault::Memory) => return Err(MinFault::Memory),
    };
    let counted = match counting(alloc, &encoded, former, limits.room)? {
        Some(counted) => counted,
        None => return Ok(Fewest::Room(None)),
    };
    tell_both(encoded.formula(), &counted, solver, log)?;
    let known = MovedKnown {
        alloc,
        encoded,
        former,
        budget: limits.budget,
        room: limits.room,
    };
    search_from(&known, solver, log)
}

/// A lawful drawing of the graph on the grid of whose nodes as few as can be aren't at their former points, or as far
/// as the limits allow.
///
/// The order `t` is that of the graph's edges, and `former` has an entry for each node. Where the formula has no room,
/// the log takes nothing. Else it takes the formula's clauses, the questions, what is learnt, and the answers. `Spent`
/// comes where as many clauses were learnt as the budget allows, `Room` where what comes next has no room: too many
/// words or variables.
///
/// The formula is what it is to be, both ways. Each assignment that satisfies it gives a lawful drawing and how many of
/// its nodes moved, and each lawful drawing has such an assignment. After an error a log that had no line derives, its
/// Formula lines are the first of the formula's, and it has no more Learnt lines than the budget allows.
pub fn fewest_moved<L: LogSink>(
    alloc: Global,
    g: &PortGraph,
    t: &TrackOrder,
    grid: &Grid,
    former: &[Option<Point>],
    limits: &Limits,
    log: &mut L,
) -> Result<Fewest, MinFault>
    requires order { IsOrderOf g.now t.now }
    requires same { length former.now ≡ length g.now.nodes }
    requires room { limits.now.room ≤ ROOM }
    ensures right { IfOk result
        (IsRightFewest (moved_task (layout g.now t.now grid.now) former.now limits.now.budget limits.now.room)) }
    ensures lines { IfOk result (λ o. (lines : Lines) × told_to L.tells L.learnt log.old log.new lines
        × IsMovedEnd (layout g.now t.now grid.now) former.now limits.now.budget limits.now.room o lines) }
    ensures sound { SoundMoved g.now (is_above t.now) (is_overlap t.now) grid.now former.now }
    ensures covers { CoversMoved g.now (is_above t.now) (is_overlap t.now) grid.now former.now }
    ensures left { OnErr result (L.tells log.old [] → (lines : Lines) → L.tells log.new lines →
        IsMovedLeft (layout g.now t.now grid.now) former.now limits.now.budget lines) }
    ensures later { L.is_later log.old log.new }
    ensures faults { L.faults log.old ≤ L.faults log.new }
    ensures cause { IsErrOf result MinFault.Log → Rose (L.faults log.old) (L.faults log.new) }
{
    // what the types keep
    let _ = (g.nodes(), grid.width());
    let mut solver = Solver::new(alloc, limits.room)?;
    fewest_with(alloc, g, t, grid, former, limits, &mut solver, log)
}
