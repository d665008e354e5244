// The front of two criteria, with the solver.
ghost use Rattle.std.specs.Prelude.{◌≡◌, ◌≢◌, ◌≤◌, [], IfOk, OnErr, IsErrOf};
ghost use Rattle.outside_io.specs.Counts.{Rose};
ghost use Rattle.cnf_core.specs.declared.limits.TheConstants.{ROOM};
ghost use Rattle.track_order.specs.Order.{IsOrderOf};
ghost use Rattle.refute_log.specs.Told.{Lines};
ghost use Rattle.refute_log.specs.ToldTo.{told_to};
ghost use Rattle.cdcl_core.specs.Kept.{blank};
ghost use Rattle.search_least.specs.Task.{IsLawful};
ghost use Rattle.refute_log.specs.Steps.{ToldBehind};
ghost use Rattle.search_least.specs.Outcome.{first_lines};
ghost use Rattle.trade_off.specs.Outcome.{IsRightFront, IsFrontLog, IsFrontAfter, IsFrontLeft};
ghost use Rattle.drawing_cnf.specs.Layout.{layout};
ghost use Rattle.lex_minimise.specs.Task.{task_of};
ghost use Rattle.lex_minimise.specs.Told.{IsLogOfSolver};
ghost use Rattle.lex_minimise.specs.Search.{task_with, IsReadyWith, KnowsWith};

use crate::Limits;
use crate::building::add_clauses;
use crate::search::{Known, Search};
use cdcl_core::Solver;
use cnf_core::CnfFault;
use drawing_cnf::encode;
use plan_core::{Criterion, Grid};
use port_graph::PortGraph;
use refute_log::LogSink;
use search_least::MinFault;
use std::alloc::Global;
use track_order::TrackOrder;
use trade_off::{FrontEnd, FrontFault, FrontList, PairList, find_front};

/// The search, once the solver and the log have the formula's clauses, and no bound yet.
fn front_from<L: LogSink>(
    known: &mut Known,
    solver: &mut Solver,
    log: &mut L,
    a: Criterion,
    b: Criterion,
) -> Result<FrontList, MinFault>
    requires none { known.old.told.items ≡ [] }
    requires ready { IsReadyWith known.old solver.old }
    requires start { KnowsWith known.old solver.old (first_lines (task_with known.old)) }
    requires apart { a ≢ b }
    ensures right { IfOk result (λ r. IsRightFront (IsLawful (task_with known.old)) a b r.pairs r.ending) }
    ensures lines { let p = task_with known.old in
        IfOk result (λ r. ToldBehind (IsLogOfSolver solver.new) (L.tells log.old) (L.tells log.new) (L.learnt log.old)
        (L.learnt log.new) (first_lines p) (IsFrontAfter p a b r.pairs r.ending)) }
    ensures left { let p = task_with known.old in
        OnErr result (L.tells log.old (first_lines p) → (lines : Lines) → L.tells log.new lines →
        IsFrontLeft p a b lines) }
    ensures later { L.is_later log.old log.new }
    ensures faults { L.faults log.old ≤ L.faults log.new }
    ensures cause { IsErrOf result MinFault.Log → Rose (L.faults log.old) (L.faults log.new) }
{
    let alloc = known.alloc;
    let mut search = Search { known, solver, log };
    find_front(alloc, &mut search, a, b)
}

/// The same as `front`, with a new solver that is handed in, so that a caller sees what it has learnt. It was made with
/// the room of the limits.
pub fn front_with<L: LogSink>(
    alloc: Global,
    g: &PortGraph,
    t: &TrackOrder,
    grid: &Grid,
    a: Criterion,
    b: Criterion,
    limits: &Limits,
    solver: &mut Solver,
    log: &mut L,
) -> Result<FrontList, MinFault>
    requires order { IsOrderOf g.now t.now }
    requires room { limits.now.room ≤ ROOM }
    requires new { solver.old ≡ blank limits.now.room }
    requires apart { a ≢ b }
    ensures right { let p = task_of (layout g.now t.now grid.now) limits.now.budget limits.now.room in
        IfOk result (λ r. IsRightFront (IsLawful p) a b r.pairs r.ending) }
    ensures lines { let p = task_of (layout g.now t.now grid.now) limits.now.budget limits.now.room in
        IfOk result (λ r. (ls : Lines) × told_to L.tells L.learnt log.old log.new ls
        × IsFrontLog p a b r.pairs r.ending ls × IsLogOfSolver solver.new ls) }
    ensures left { let p = task_of (layout g.now t.now grid.now) limits.now.budget limits.now.room in
        OnErr result (L.tells log.old [] → (lines : Lines) → L.tells log.new lines → IsFrontLeft p a b lines) }
    ensures later { L.is_later log.old log.new }
    ensures faults { L.faults log.old ≤ L.faults log.new }
    ensures cause { IsErrOf result MinFault.Log → Rose (L.faults log.old) (L.faults log.new) }
{
    let encoded = match encode(alloc, g, t, grid, limits.room) {
        Ok(encoded) => encoded,
        Err(CnfFault::Room) => {
            return Ok(FrontList {
                pairs: PairList::new(alloc),
                ending: FrontEnd::Room,
            });
        }
        Err(CnfFault::Memory) => return Err(MinFault::Memory),
    };
    add_clauses(encoded.formula(), 0, solver, log)?;
    let mut known = Known {
        alloc,
        encoded,
        told: Vec::new(alloc),
        budget: limits.budget,
        room: limits.room,
    };
    front_from(&mut known, solver, log, a, b)
}

/// The front of two criteria of the graph's lawful drawings on the grid, or as far as the limits allow: the budget of
/// learnt clauses, and the room for the words of all clauses.
///
/// The order `t` is that of the graph's edges, and the criteria differ. The log takes all lines: the drawings' clauses,
/// both criteria's clauses with all their bounds, the questions, what is learnt, and the answers. After an error a log
/// that had no line derives, its Formula and Bound lines are the first of those, and it has no more Learnt lines than
/// the budget allows. With `Conflicts`, or `Room` behind a question, the log has all of the clauses, the latest
/// question has no answer, and asks for the pair behind those that are there; no Model line answers the same one. With
/// `Room` before the first question there is no pair.
pub fn front<L: LogSink>(
    alloc: Global,
    g: &PortGraph,
    t: &TrackOrder,
    grid: &Grid,
    a: Criterion,
    b: Criterion,
    budget: u32,
    room: u32,
    log: &mut L,
) -> Result<FrontList, FrontFault>
    requires order { IsOrderOf g.now t.now }
    requires room { room ≤ ROOM }
    requires apart { a ≢ b }
    ensures right { let p = task_of (layout g.now t.now grid.now) budget room in
        IfOk result (λ r. IsRightFront (IsLawful p) a b r.pairs r.ending) }
    ensures lines { let p = task_of (layout g.now t.now grid.now) budget room in
        IfOk result (λ r. (lines : Lines) × told_to L.tells L.learnt log.old log.new lines
        × IsFrontLog p a b r.pairs r.ending lines) }
    ensures left { let p = task_of (layout g.now t.now grid.now) budget room in
        OnErr result (L.tells log.old [] → (lines : Lines) → L.tells log.new lines → IsFrontLeft p a b lines) }
    ensures later { L.is_later log.old log.new }
    ensures faults { L.faults log.old ≤ L.faults log.new }
    ensures cause { IsErrOf result FrontFault.Log → Rose (L.faults log.old) (L.faults log.new) }
{
    let limits = Limits { budget, room };
    let mut solver = Solver::new(alloc, room)?;
    let list = front_with(alloc, g, t, grid, a, b, &limits, &mut solver, log)?;
    Ok(list)
}
