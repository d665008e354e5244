// One question about laws that a loose drawing meets together.
ghost use Rattle.std.specs.Prelude.{◌≡◌, ◌≤◌, ◌<◌, [], ◌++◌, All, IfOk, OnOk, OnErr, IsErrOf, cond, ◌∷◌, length};
ghost use Rattle.std.specs.Prelude.{slice_index_or};
ghost use Rattle.outside_io.specs.Counts.{Rose};
ghost use Rattle.cnf_core.specs.declared.limits.TheConstants.{VARS};
ghost use Rattle.cnf_core.specs.Lit.{positive_of};
ghost use Rattle.cdcl_core.specs.Kept.{IsTrueAnswer, HasRefuted};
ghost use Rattle.refute_log.specs.Steps.{GoesOn, Leaves};
ghost use Rattle.search_why.specs.Asked.{AreLawPlaces, IsRightReply, TellsReply};
ghost use Rattle.law_core.specs.Known.{TellsAnswer};
ghost use Rattle.law_core.specs.Query.{query_of, has_variable, places_in, IsReplyOf};
ghost use Rattle.law_core.specs.Search.{task_with, formula_with, query_with, IsReadyWith, KnowsWith};

use cdcl_core::{Answer, SolveFault, Solver};
use cnf_core::{Lit, Var};
use model_decode::decode_loose;
use plan_core::{Grid, Items, OutOfMemory};
use port_graph::PortGraph;
use refute_log::{LogSink, Stop};
use search_why::{Reply, WhyFault};
use std::alloc::Global;
use track_order::TrackOrder;

/// What a search keeps beside the solver and the log.
#[derive(Drop)]
pub(crate) struct WhyKnown<'a> {
    pub(crate) alloc: Global,
    /// The graph that is drawn, the order of its edges, and the grid.
    pub(crate) graph: &'a PortGraph,
    pub(crate) order: &'a TrackOrder,
    pub(crate) grid: &'a Grid,
    /// The selecting variable of each law.
    pub(crate) selecting: Vec<u32>,
    /// How many clauses may be learnt.
    pub(crate) budget: u32,
    /// How many words all clauses may have.
    pub(crate) room: u32,
}

/// The literal that says that the law at this place is selected.
fn selected(selecting: &[u32], n: u32) -> Lit
    requires there { n < length selecting.now }
    requires variables { All (λ x. (1 ≤ x) × (x ≤ VARS)) selecting.now }
    ensures { result ≡ positive_of (slice_index_or selecting.now n 0) }
{
    Lit::new(Var(selecting[n as usize]), true)
}

/// The literals that say that the laws at these places are selected.
fn assumptions(alloc: Global, selecting: &[u32], wanted: &[u32]) -> Result<Vec<Lit>, OutOfMemory>
    requires there { All (λ n. n < length selecting.now) wanted.now }
    requires variables { All (λ x. (1 ≤ x) × (x ≤ VARS)) selecting.now }
    ensures { IfOk result (λ v. v.items ≡ query_of selecting.now wanted.now) }
{
    let mut assume = Vec::new(alloc);
    for n in wanted {
        assume.push(selected(selecting, *n))?;
    }
    Ok(assume)
}

/// Whether one of the literals is of the variable.
fn has_variable(literals: &[Lit], x: u32) -> bool
    ensures { result ≡ has_variable literals.now x }
{
    for l in literals {
        if l.var().0 == x {
            return true;
        }
    }
    false
}

/// A place, where it is to be kept.
fn keep_where(core: &mut Vec<u32>, yes: bool, n: u32) -> Result<(), OutOfMemory>
    ensures { OnOk result (core.new.items ≡ core.old.items ++ cond yes (n ∷ []) []) }
{
    if yes {
        core.push(n)?;
        return Ok(());
    }
    Ok(())
}

/// Those of the places whose selecting variables these literals have.
fn places_in(
    alloc: Global,
    selecting: &[u32],
    literals: &[Lit],
    wanted: &[u32],
) -> Result<Vec<u32>, OutOfMemory>
    requires there { All (λ n. n < length selecting.now) wanted.now }
    ensures { IfOk result (λ v. v.items ≡ places_in selecting.now literals.now wanted.now) }
{
    let mut core = Vec::new(alloc);
    for n in wanted {
        keep_where(
            &mut core,
            has_variable(literals, selecting[*n as usize]),
            *n,
        )?;
    }
    Ok(core)
}

/// Asks the solver with what is left of the budget.
fn query<L: LogSink>(
    known: &WhyKnown,
    solver: &mut Solver,
    log: &mut L,
    wanted: &[u32],
    assume: &[Lit],
) -> Result<Answer, WhyFault>
    requires ready { IsReadyWith known.now solver.old }
    requires places { AreLawPlaces (task_with known.now) wanted.now }
    requires assumed { assume.now ≡ query_with known.now wanted.now }
    ensures ready { OnOk result (IsReadyWith known.now solver.new) }
    ensures answer { IfOk result (λ a. IsTrueAnswer a (formula_with known.now) assume.now solver.new) }
    ensures refuted { IfOk result (λ a. HasRefuted a (formula_with known.now) assume.now solver.new.refuted) }
    ensures lines { IfOk result
        (λ a. GoesOn (KnowsWith known.now solver.old) (KnowsWith known.now solver.new) (L.tells log.old) (L.tells
        log.new) (L.learnt log.old) (L.learnt log.new) (λ ls m. TellsAnswer (task_with known.now) a ls m)) }
    ensures leaves { OnErr result (Leaves known.now.budget [] (KnowsWith known.now solver.old) (L.tells log.old)
        (L.tells log.new)) }
    ensures later { L.is_later log.old log.new }
    ensures faults { L.faults log.old ≤ L.faults log.new }
    ensures cause { IsErrOf result WhyFault.Log → Rose (L.faults log.old) (L.faults log.new) }
{
    let left = known.budget - solver.learnt();
    let _count = wanted.len();
    match solver.solve(assume, left, log) {
        Ok(answer) => {
            // what the solver keeps
            let _counts = (solver.words(), solver.vars());
            Ok(answer)
        }
        Err(SolveFault::Log) => Err(WhyFault::Log),
        Err(SolveFault::Memory) => Err(WhyFault::Memory),
    }
}

/// What the solver's answer says of drawings. Where it refuted the question, it names the places that it needed.
fn reply(
    known: &WhyKnown,
    solver: &Solver,
    wanted: &[u32],
    assume: &[Lit],
    answer: Answer,
) -> Result<Reply, OutOfMemory>
    requires ready { IsReadyWith known.now solver.now }
    requires places { AreLawPlaces (task_with known.now) wanted.now }
    requires assumed { assume.now ≡ query_with known.now wanted.now }
    requires answer { IsTrueAnswer answer (formula_with known.now) assume.now solver.now }
    requires refuted { HasRefuted answer (formula_with known.now) assume.now solver.now.refuted }
    ensures right { IfOk result (IsRightReply (task_with known.now) wanted.now) }
    ensures of { IfOk result (IsReplyOf answer) }
{
    let _counts = (assume.len(), known.budget);
    match answer {
        Answer::Model => match solver.model() {
            Some(model) => Ok(Reply::Found(decode_loose(
                known.alloc,
                known.graph,
                known.grid,
                model,
            )?)),
            None => unreachable!(),
        },
        Answer::Refuted => Ok(Reply::Refuted(Items::from_vec(places_in(
            known.alloc,
            &known.selecting,
            solver.refuted(),
            wanted,
        )?))),
        Answer::Spent => Ok(Reply::Stopped(Stop::BudgetSpent)),
        Answer::Room => Ok(Reply::Stopped(Stop::RoomFull)),
    }
}

/// Asks for a loose drawing that meets the laws at these places.
pub(crate) fn ask<L: LogSink>(
    known: &WhyKnown,
    solver: &mut Solver,
    log: &mut L,
    wanted: &[u32],
) -> Result<Reply, WhyFault>
    requires ready { IsReadyWith known.now solver.old }
    requires places { AreLawPlaces (task_with known.now) wanted.now }
    ensures ready { OnOk result (IsReadyWith known.now solver.new) }
    ensures right { IfOk result (IsRightReply (task_with known.now) wanted.now) }
    ensures lines { IfOk result
        (λ r. GoesOn (KnowsWith known.now solver.old) (KnowsWith known.now solver.new) (L.tells log.old) (L.tells
        log.new) (L.learnt log.old) (L.learnt log.new) (λ ls m. TellsReply (task_with known.now) r ls m)) }
    ensures leaves { OnErr result (Leaves known.now.budget [] (KnowsWith known.now solver.old) (L.tells log.old)
        (L.tells log.new)) }
    ensures later { L.is_later log.old log.new }
    ensures faults { L.faults log.old ≤ L.faults log.new }
    ensures cause { IsErrOf result WhyFault.Log → Rose (L.faults log.old) (L.faults log.new) }
{
    let assume = assumptions(known.alloc, &known.selecting, wanted)?;
    let answer = query(known, solver, log, wanted, &assume)?;
    let reply = reply(known, solver, wanted, &assume, answer)?;
    Ok(reply)
}
