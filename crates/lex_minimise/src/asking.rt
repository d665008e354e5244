// A question, as assumptions of the solver.
ghost use Rattle.std.specs.Prelude.{◌≡◌, ◌≤◌, ◌+◌, ⊤, ◌↔◌, [], All, IfOk, OnOk, OnErr, IsErrOf, IsTrue, MatchOption};
ghost use Rattle.outside_io.specs.Counts.{Rose};
ghost use Rattle.plan_core.specs.Lawful.{Lawful};
ghost use Rattle.track_order.specs.Order.{is_above};
ghost use Rattle.cdcl_core.specs.Kept.{IsTrueAnswer};
ghost use Rattle.cnf_core.specs.declared.limits.TheConstants.{VARS};
ghost use Rattle.search_least.specs.Asked.{IsWithinCap, AreOnce, IsRightReply, IsReply};
ghost use Rattle.lex_minimise.specs.Known.{caps_of};
ghost use Rattle.refute_log.specs.Steps.{GoesOn, Leaves};
ghost use Rattle.lex_minimise.specs.Asking.{HasLimit, IsLimitOf, AreAssumed, TellsAnswer, IsReplyOf};
ghost use Rattle.lex_minimise.specs.Search.{task_with, IsReadyWith, KnowsWith};

use crate::search::Known;
use crate::together::drawn_together;
use cdcl_core::{Answer, SolveFault, Solver};
use cnf_core::{Lit, Truths, Var};
use drawing_cnf::Bounds;
use model_decode::{decode, encode_drawing};
use plan_core::OutOfMemory;
use plan_geometry::Drawing;
use refute_log::{LogSink, Stop};
use search_least::{Below, MinFault, Reply};
use std::alloc::Global;

/// Whether the bound is of the criterion, and goes as far as the limit.
fn has_limit(bounds: &Bounds, bound: &Below) -> bool
    ensures { IsTrue result ↔ HasLimit bound.now bounds.now }
{
    bounds.criterion() == bound.criterion && bound.limit <= bounds.cap()
}

/// The variable that says "the value is at least the limit".
fn limit_of(told: &[Bounds], bound: &Below) -> Var
    requires there { IsWithinCap (caps_of told.now) bound.now }
    ensures { IsLimitOf told.now bound.now result }
{
    for bounds in told {
        if has_limit(bounds, bound) {
            return bounds.var(bound.limit);
        }
    }
    unreachable!()
}

/// The literals that say that each value is below its limit.
pub(crate) fn assumptions(
    alloc: Global,
    told: &[Bounds],
    bounds: &[Below],
) -> Result<Vec<Lit>, OutOfMemory>
    requires there { All (IsWithinCap (caps_of told.now)) bounds.now }
    requires few { All (λ t. t.last + t.cap ≤ VARS) told.now }
    ensures { IfOk result (λ v. AreAssumed told.now bounds.now v.items) }
{
    let mut assume = Vec::with_capacity(alloc, bounds.len())?;
    for bound in bounds {
        let x = limit_of(told, bound);
        assume.push(Lit::new(x, false))?;
    }
    Ok(assume)
}

/// Suggests truth values to the solver: those of the drawing, or all false where there is none.
fn begin_near(known: &Known, solver: &mut Solver, near: Option<&Drawing>) -> Result<(), OutOfMemory>
    requires ready { IsReadyWith known.now solver.old }
    requires near { MatchOption near ⊤ (λ d.
        Lawful known.now.encoded.graph (is_above known.now.encoded.order) known.now.encoded.grid d.now) }
    ensures { solver.new ≡ solver.old }
{
    let truths = match near {
        Some(d) => encode_drawing(known.alloc, &known.encoded, d)?,
        None => Truths::all_false(known.alloc, solver.vars())?,
    };
    solver.suggest(&truths);
    Ok(())
}

/// Asks the solver with these assumptions, and with what is left of the budget.
fn query<L: LogSink>(
    known: &Known,
    solver: &mut Solver,
    log: &mut L,
    bounds: &[Below],
    assume: &[Lit],
) -> Result<Answer, MinFault>
    requires ready { IsReadyWith known.now solver.old }
    requires once { AreOnce bounds.now }
    requires assumed { AreAssumed known.now.told.items bounds.now assume.now }
    ensures ready { OnOk result (IsReadyWith known.now solver.new) }
    ensures answer { IfOk result (λ a. IsTrueAnswer a known.now.encoded.formula.clauses assume.now solver.new) }
    ensures lines { IfOk result
        (λ a. GoesOn (KnowsWith known.now solver.old) (KnowsWith known.now solver.new) (L.tells log.old) (L.tells
        log.new) (L.learnt log.old) (L.learnt log.new) (λ ls m. TellsAnswer (task_with known.now) ls bounds.now a m)) }
    ensures leaves { OnErr result (Leaves known.now.budget [] (KnowsWith known.now solver.old) (L.tells log.old)
        (L.tells log.new)) }
    ensures vars { OnOk result (solver.new.vars ≡ solver.old.vars) }
    ensures later { L.is_later log.old log.new }
    ensures faults { L.faults log.old ≤ L.faults log.new }
    ensures cause { IsErrOf result MinFault.Log → Rose (L.faults log.old) (L.faults log.new) }
{
    let left = known.budget - solver.learnt();
    let _count = bounds.len();
    match solver.solve(assume, left, log) {
        Ok(answer) => {
            // what the solver keeps
            let _counts = (solver.words(), solver.vars());
            Ok(answer)
        }
        Err(SolveFault::Log) => Err(MinFault::Log),
        Err(SolveFault::Memory) => Err(MinFault::Memory),
    }
}

/// What the solver's answer says of drawings.
fn reply(
    known: &Known,
    solver: &Solver,
    bounds: &[Below],
    assume: &[Lit],
    answer: Answer,
) -> Result<Reply, OutOfMemory>
    requires ready { IsReadyWith known.now solver.now }
    requires assumed { AreAssumed known.now.told.items bounds.now assume.now }
    requires answer { IsTrueAnswer answer known.now.encoded.formula.clauses assume.now solver.now }
    ensures right { IfOk result (IsRightReply (task_with known.now) bounds.now) }
    ensures of { IfOk result (IsReplyOf answer) }
{
    let _counts = (bounds.len(), assume.len());
    match answer {
        Answer::Model => match solver.model() {
            Some(model) => {
                let found = decode(known.alloc, &known.encoded, model)?;
                let best = drawn_together(known.alloc, &known.encoded, bounds, found)?;
                Ok(Reply::Found(best))
            }
            None => unreachable!(),
        },
        Answer::Refuted => Ok(Reply::Refuted),
        Answer::Spent => Ok(Reply::Stopped(Stop::BudgetSpent)),
        Answer::Room => Ok(Reply::Stopped(Stop::RoomFull)),
    }
}

/// Asks for a drawing that meets the bounds.
pub(crate) fn ask<L: LogSink>(
    known: &Known,
    solver: &mut Solver,
    log: &mut L,
    bounds: &[Below],
    near: Option<&Drawing>,
) -> Result<Reply, MinFault>
    requires ready { IsReadyWith known.now solver.old }
    requires there { All (IsWithinCap (caps_of known.now.told.items)) bounds.now }
    requires once { AreOnce bounds.now }
    requires near { MatchOption near ⊤ (λ d.
        Lawful known.now.encoded.graph (is_above known.now.encoded.order) known.now.encoded.grid d.now) }
    ensures ready { OnOk result (IsReadyWith known.now solver.new) }
    ensures right { IfOk result (IsRightReply (task_with known.now) bounds.now) }
    ensures lines { IfOk result
        (λ r. GoesOn (KnowsWith known.now solver.old) (KnowsWith known.now solver.new) (L.tells log.old) (L.tells
        log.new) (L.learnt log.old) (L.learnt log.new) (λ ls m. IsReply (task_with known.now) ls bounds.now r m)) }
    ensures leaves { OnErr result (Leaves known.now.budget [] (KnowsWith known.now solver.old) (L.tells log.old)
        (L.tells log.new)) }
    ensures vars { OnOk result (solver.new.vars ≡ solver.old.vars) }
    ensures later { L.is_later log.old log.new }
    ensures faults { L.faults log.old ≤ L.faults log.new }
    ensures cause { IsErrOf result MinFault.Log → Rose (L.faults log.old) (L.faults log.new) }
{
    begin_near(known, solver, near)?;
    let assume = assumptions(known.alloc, &known.told, bounds)?;
    let answer = query(known, solver, log, bounds, &assume)?;
    let reply = reply(known, solver, bounds, &assume, answer)?;
    Ok(reply)
}
