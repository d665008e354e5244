// One question about moved nodes.
ghost use Rattle.std.specs.Prelude.{◌≡◌, ◌≤◌, ◌+◌, ⊤, [], IfOk, OnOk, OnErr, IsErrOf, MatchOption};
ghost use Rattle.outside_io.specs.Counts.{Rose};
ghost use Rattle.cnf_core.specs.declared.limits.TheConstants.{VARS};
ghost use Rattle.cdcl_core.specs.Kept.{IsTrueAnswer};
ghost use Rattle.drawing_cnf.specs.Moved.{matched};
ghost use Rattle.search_least.specs.CountAsked.{query_of, IsAnswer, IsRightAnswer};
ghost use Rattle.refute_log.specs.Steps.{GoesOn, Leaves};
ghost use Rattle.search_moved.specs.Known.{TellsAnswer};
ghost use Rattle.search_moved.specs.Query.{query_at, IsAnswerOf};
ghost use Rattle.search_moved.specs.Search.{task_with, formula_with, IsReadyWith, KnowsWith};

use cdcl_core::{Answer as Verdict, SolveFault, Solver};
use cnf_core::{Lit, Var};
use drawing_cnf::Encoded;
use model_decode::decode;
use plan_core::{OutOfMemory, Point};
use refute_log::{LogSink, Stop};
use search_least::{Answer, MinFault};
use std::alloc::Global;

/// What a search keeps beside the solver and the log.
#[derive(Drop)]
pub(crate) struct MovedKnown<'a> {
    pub(crate) alloc: Global,
    /// The formula of the drawings.
    pub(crate) encoded: Encoded<'a>,
    /// The former point of each node, where it has one.
    pub(crate) former: &'a [Option<Point>],
    /// How many clauses may be learnt.
    pub(crate) budget: u32,
    /// How many words all clauses may have.
    pub(crate) room: u32,
}

/// The literal that says that the count is below the limit, where there is one.
fn assumption(alloc: Global, last: u32, limit: Option<u32>) -> Result<Vec<Lit>, OutOfMemory>
    requires { MatchOption limit ⊤ (λ n. (1 ≤ n) × (last + n ≤ VARS)) }
    ensures { IfOk result (λ v. v.items ≡ query_at last limit) }
{
    let mut assume = Vec::new(alloc);
    if let Some(n) = limit {
        assume.push(Lit::new(Var(last + n), false))?;
    }
    Ok(assume)
}

/// Asks the solver with what is left of the budget.
fn query<L: LogSink>(
    known: &MovedKnown,
    solver: &mut Solver,
    log: &mut L,
    limit: Option<u32>,
    assume: &[Lit],
) -> Result<Verdict, MinFault>
    requires ready { IsReadyWith known.now solver.old }
    requires limit { MatchOption limit ⊤ (λ n. (1 ≤ n) × (n ≤ matched known.now.former.now)) }
    requires assumed { assume.now ≡ query_of (task_with known.now) limit }
    ensures ready { OnOk result (IsReadyWith known.now solver.new) }
    ensures answer { IfOk result (λ a. IsTrueAnswer a (formula_with known.now) assume.now solver.new) }
    ensures lines { IfOk result
        (λ a. GoesOn (KnowsWith known.now solver.old) (KnowsWith known.now solver.new) (L.tells log.old) (L.tells
        log.new) (L.learnt log.old) (L.learnt log.new) (λ ls m. TellsAnswer (task_with known.now) ls limit a m)) }
    ensures leaves { OnErr result (Leaves known.now.budget [] (KnowsWith known.now solver.old) (L.tells log.old)
        (L.tells log.new)) }
    ensures later { L.is_later log.old log.new }
    ensures faults { L.faults log.old ≤ L.faults log.new }
    ensures cause { IsErrOf result MinFault.Log → Rose (L.faults log.old) (L.faults log.new) }
{
    let left = known.budget - solver.learnt();
    match solver.solve(assume, left, log) {
        Ok(answer) => {
            // what the solver keeps
            let _counts = (solver.words(), solver.vars());
            Ok(answer)
        }
        Err(SolveFault::Log) => Err(MinFault::Log),
        Err(SolveFault::Memory) => Err(MinFault::Memory),
    }
}

/// What the solver's answer says of drawings.
fn reply(
    known: &MovedKnown,
    solver: &Solver,
    limit: Option<u32>,
    assume: &[Lit],
    answer: Verdict,
) -> Result<Answer, OutOfMemory>
    requires ready { IsReadyWith known.now solver.now }
    requires limit { MatchOption limit ⊤ (λ n. (1 ≤ n) × (n ≤ matched known.now.former.now)) }
    requires assumed { assume.now ≡ query_of (task_with known.now) limit }
    requires answer { IsTrueAnswer answer (formula_with known.now) assume.now solver.now }
    ensures right { IfOk result (IsRightAnswer (task_with known.now) limit) }
    ensures of { IfOk result (IsAnswerOf answer) }
{
    let _counts = (assume.len(), known.budget);
    let _limit = limit;
    match answer {
        Verdict::Model => match solver.model() {
            Some(model) => Ok(Answer::Found(decode(known.alloc, &known.encoded, model)?)),
            None => unreachable!(),
        },
        Verdict::Refuted => Ok(Answer::Refuted),
        Verdict::Spent => Ok(Answer::Stopped(Stop::BudgetSpent)),
        Verdict::Room => Ok(Answer::Stopped(Stop::RoomFull)),
    }
}

/// Asks for a drawing with fewer moved nodes than the limit, where there is one.
pub(crate) fn ask<L: LogSink>(
    known: &MovedKnown,
    solver: &mut Solver,
    log: &mut L,
    limit: Option<u32>,
) -> Result<Answer, MinFault>
    requires ready { IsReadyWith known.now solver.old }
    requires limit { MatchOption limit ⊤ (λ n. (1 ≤ n) × (n ≤ matched known.now.former.now)) }
    ensures ready { OnOk result (IsReadyWith known.now solver.new) }
    ensures right { IfOk result (IsRightAnswer (task_with known.now) limit) }
    ensures lines { IfOk result
        (λ r. GoesOn (KnowsWith known.now solver.old) (KnowsWith known.now solver.new) (L.tells log.old)
        (L.tells log.new) (L.learnt log.old) (L.learnt log.new) (λ ls m. IsAnswer (task_with known.now) ls limit r m)) }
    ensures leaves { OnErr result (Leaves known.now.budget [] (KnowsWith known.now solver.old) (L.tells log.old)
        (L.tells log.new)) }
    ensures later { L.is_later log.old log.new }
    ensures faults { L.faults log.old ≤ L.faults log.new }
    ensures cause { IsErrOf result MinFault.Log → Rose (L.faults log.old) (L.faults log.new) }
{
    // what the solver keeps
    let _vars = solver.vars();
    let assume = assumption(known.alloc, known.encoded.formula().vars(), limit)?;
    let answer = query(known, solver, log, limit, &assume)?;
    let reply = reply(known, solver, limit, &assume, answer)?;
    Ok(reply)
}
