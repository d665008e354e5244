// Queries of a few clauses.
ghost use Rattle.std.specs.Prelude.{◌≡◌, false, All, IfOk};
ghost use Rattle.cnf_core.specs.Clause.{AreDistinct, IsNamed};

use crate::last_line::LastLine;
use crate::written::{clause, number_of, spaced};
use cdcl_core::{AddFault, Answer, SolveFault, Solver};
use cnf_core::{Lit, Truths, Var};
use refute_log::are_distinct;
use std::alloc::Global;
use std::test::Fail;

/// Clauses that come; literals of variables of the last of them, which are assumed then; and how many clauses may be
/// learnt.
pub struct Query {
    pub clauses: &'static [&'static [i32]],
    pub assume: &'static [i32],
    pub budget: u32,
}

/// Adds a clause, whose variables then have one.
pub fn add(
    alloc: Global,
    solver: &mut Solver,
    log: &mut LastLine,
    numbers: &[i32],
) -> Result<Vec<Lit>, AddFault>
    ensures { IfOk result (λ lits. All (λ l. IsNamed solver.new.clauses l.var) lits.items) }
{
    if solver.failed() {
        return Err(AddFault::Memory);
    }
    let lits = clause(alloc, solver.vars(), numbers)?;
    solver.add_clause(&lits, log)?;
    Ok(lits)
}

/// The literal of a number, where its variable is one of a clause.
fn assumed(solver: &Solver, lits: &[Lit], number: i32) -> Result<Lit, AddFault>
    requires { All (λ l. IsNamed solver.now.clauses l.var) lits.now }
    ensures { IfOk result (λ l. IsNamed solver.now.clauses l.var) }
{
    for l in lits {
        if l.var().0 == number.unsigned_abs() {
            return Ok(Lit::new(l.var(), number > 0));
        }
    }
    Err(AddFault::Room)
}

/// Assumptions of variables of a clause.
#[tactic(auto, using(crate::proofs::NamedLemmas::named_push))]
fn assumptions(
    alloc: Global,
    solver: &Solver,
    lits: &[Lit],
    numbers: &[i32],
) -> Result<Vec<Lit>, AddFault>
    requires { All (λ l. IsNamed solver.now.clauses l.var) lits.now }
    ensures named { IfOk result (λ held. All (λ l. IsNamed solver.now.clauses l.var) held.items) }
    ensures distinct { IfOk result (λ held. AreDistinct held.items) }
{
    let mut held = Vec::new(alloc);
    for number in numbers {
        held.push(assumed(solver, lits, *number)?)?;
    }
    if !are_distinct(alloc, &held)? {
        return Err(AddFault::Room);
    }
    Ok(held)
}

/// Adds the clauses of a query, and asks it.
pub fn ask(
    alloc: Global,
    solver: &mut Solver,
    log: &mut LastLine,
    query: &Query,
) -> Result<Answer, AddFault> {
    let mut lits = Vec::new(alloc);
    for numbers in query.clauses {
        lits = add(alloc, solver, log, numbers)?;
    }
    let held = assumptions(alloc, solver, &lits, query.assume)?;
    if solver.failed() {
        return Err(AddFault::Memory);
    }
    match solver.solve(&held, query.budget, log) {
        Ok(answer) => Ok(answer),
        Err(SolveFault::Log) => Err(AddFault::Log),
        Err(SolveFault::Memory) => Err(AddFault::Memory),
    }
}

/// Suggests a model that has all variables.
fn suggest_model(solver: &mut Solver, model: &Truths) -> Result<(), AddFault> {
    if solver.failed() || model.vars() != solver.vars() as usize {
        return Err(AddFault::Memory);
    }
    solver.suggest(model);
    Ok(())
}

/// Suggests the model in which so many variables are true, and those behind them false.
pub fn suggest(alloc: Global, solver: &mut Solver, high: u32) -> Result<(), AddFault> {
    let mut values = Vec::new(alloc);
    for i in 0..solver.vars() {
        values.push(i < high)?;
    }
    suggest_model(solver, &Truths::from_vec(values))
}

/// The first four literals of the model, or the assumptions that are refuted, rising.
fn found(alloc: Global, solver: &Solver) -> Result<Vec<i64>, AddFault> {
    let mut numbers = Vec::new(alloc);
    if let Some(model) = solver.model() {
        for v in 1..5 {
            if v as usize <= model.vars() {
                let holds = model.holds(Lit::new(Var(v), true));
                numbers.push(number_of(Lit::new(Var(v), holds)))?;
            }
        }
    }
    for l in solver.refuted() {
        numbers.push(number_of(*l))?;
    }
    Ok(numbers)
}

/// What a solver answered, with what it found, and the number and the text of the last line.
fn told(
    alloc: Global,
    solver: &Solver,
    log: &LastLine,
    outcome: &Result<Answer, AddFault>,
) -> Result<String, Fail> {
    let mut numbers = found(alloc, solver)?;
    numbers.sort()?;
    let found = spaced(alloc, &numbers)?;
    let text = std::str::from_utf8(&log.text)?;
    Ok(format!(in alloc; "{outcome:?}{found}, line {} is {text}", log.lines)?)
}

/// A room, so many variables, how many of them are suggested to be true, if any model is; queries, and what is
/// answered.
struct Case {
    shows: &'static str,
    room: u32,
    vars: u32,
    suggested: Option<u32>,
    queries: &'static [Query],
    told: &'static str,
}

/// What a new solver answers to the queries of a case.
fn play(alloc: Global, case: &Case, log: &mut LastLine) -> Result<String, Fail> {
    let mut solver = Solver::new(alloc, case.room.min(1_000))?;
    solver.add_vars(case.vars)?;
    if let Some(high) = case.suggested {
        suggest(alloc, &mut solver, high)?;
    }
    let mut said = String::new(alloc);
    for query in case.queries {
        let outcome = ask(alloc, &mut solver, log, query);
        said.push_str(told(alloc, &solver, log, &outcome)?.as_str())?;
    }
    Ok(said)
}

/// The clauses of two variables that have no model: (1) is learnt, and they are refuted.
const FOUR: &[&[i32]] = &[&[1, 2], &[1, -2], &[-1, 2], &[-1, -2]];

/// Four pigeons don't fit three holes: a pigeon sits in one of them, and no two sit in one.
const PIGEONS: &[&[i32]] = &[
    &[1, 2, 3],
    &[4, 5, 6],
    &[7, 8, 9],
    &[10, 11, 12],
    &[-1, -4],
    &[-2, -5],
    &[-3, -6],
    &[-1, -7],
    &[-2, -8],
    &[-3, -9],
    &[-1, -10],
    &[-2, -11],
    &[-3, -12],
    &[-4, -7],
    &[-5, -8],
    &[-6, -9],
    &[-4, -10],
    &[-5, -11],
    &[-6, -12],
    &[-7, -10],
    &[-8, -11],
    &[-9, -12],
];

/// More lines than any case has.
pub const MANY: u32 = 10_000;

static CASES: [Case; 16] = [
    Case {
        shows: "A refutation speaks of assumptions alone.",
        room: 1_000,
        vars: 2,
        suggested: None,
        queries: &[Query {
            clauses: &[&[1, 2], &[1, -2]],
            assume: &[-1],
            budget: 5,
        }],
        told: "Ok(Refuted) -1, line 4 is r 1 0\n",
    },
    Case {
        shows: "A model makes assumptions true.",
        room: 1_000,
        vars: 2,
        suggested: None,
        queries: &[Query {
            clauses: &[&[1, 2], &[1, -2]],
            assume: &[2],
            budget: 5,
        }],
        told: "Ok(Model) 1 2, line 4 is m\n",
    },
    Case {
        shows: "What is decided first is false. A model is found also where nothing may be learnt.",
        room: 1_000,
        vars: 2,
        suggested: None,
        queries: &[Query {
            clauses: &[&[1, 2]],
            assume: &[],
            budget: 0,
        }],
        told: "Ok(Model) -1 2, line 3 is m\n",
    },
    Case {
        shows: "A suggested model is tried first.",
        room: 1_000,
        vars: 2,
        suggested: Some(1),
        queries: &[Query {
            clauses: &[&[1, 2]],
            assume: &[],
            budget: 0,
        }],
        told: "Ok(Model) -2 1, line 3 is m\n",
    },
    Case {
        shows: "Truth values are kept from one query to the next.",
        room: 1_000,
        vars: 2,
        suggested: None,
        queries: &[
            Query {
                clauses: &[&[1, 2]],
                assume: &[1],
                budget: 5,
            },
            Query {
                clauses: &[],
                assume: &[],
                budget: 5,
            },
            Query {
                clauses: &[&[1, 2]],
                assume: &[-1],
                budget: 5,
            },
            Query {
                clauses: &[],
                assume: &[],
                budget: 5,
            },
        ],
        told: "Ok(Model) -2 1, line 3 is m
Ok(Model) -2 1, line 5 is m
Ok(Model) -1 2, line 8 is m
Ok(Model) -1 2, line 10 is m
",
    },
    Case {
        shows: "An assumption that is false from the start is refuted.",
        room: 1_000,
        vars: 1,
        suggested: None,
        queries: &[Query {
            clauses: &[&[1]],
            assume: &[-1],
            budget: 5,
        }],
        told: "Ok(Refuted) -1, line 3 is r 1 0\n",
    },
    Case {
        shows: "The empty clause is refuted at once.",
        room: 1_000,
        vars: 0,
        suggested: None,
        queries: &[Query {
            clauses: &[&[]],
            assume: &[],
            budget: 5,
        }],
        told: "Ok(Refuted), line 3 is r 0\n",
    },
    Case {
        shows: "1 and 3 clash: these two are refuted, and the line has all assumptions.",
        room: 1_000,
        vars: 4,
        suggested: None,
        queries: &[Query {
            clauses: &[&[-1, -3, 2], &[-1, -3, -2], &[1, 4, 3]],
            assume: &[1, 4, 3],
            budget: 5,
        }],
        told: "Ok(Refuted) 1 3, line 5 is r -1 -4 -3 0\n",
    },
    Case {
        shows: "4 follows from 1 and 3.",
        room: 1_000,
        vars: 4,
        suggested: None,
        queries: &[Query {
            clauses: &[&[-1, 2], &[-2, -3, 4], &[1, 2, 3, 4]],
            assume: &[1, 3, -4],
            budget: 5,
        }],
        told: "Ok(Refuted) -4 1 3, line 5 is r 4 -3 -1 0\n",
    },
    Case {
        shows: "2 follows from 1 alone, and 3 was assumed in vain.",
        room: 1_000,
        vars: 4,
        suggested: None,
        queries: &[Query {
            clauses: &[&[-1, 2], &[-2, -3, 4], &[1, 2, 3, 4]],
            assume: &[1, 3, -2],
            budget: 5,
        }],
        told: "Ok(Refuted) -2 1, line 5 is r 2 -1 0\n",
    },
    Case {
        shows: "A budget of none is spent at a conflict.",
        room: 1_000,
        vars: 2,
        suggested: None,
        queries: &[Query {
            clauses: FOUR,
            assume: &[],
            budget: 0,
        }],
        told: "Ok(Spent), line 5 is q 0\n",
    },
    Case {
        shows: "One clause is learnt, and there is no model.",
        room: 1_000,
        vars: 2,
        suggested: None,
        queries: &[Query {
            clauses: FOUR,
            assume: &[],
            budget: 1,
        }],
        told: "Ok(Refuted), line 7 is r 0\n",
    },
    Case {
        shows: "The four clauses have 20 words, and one that is learnt has no room.",
        room: 20,
        vars: 2,
        suggested: None,
        queries: &[Query {
            clauses: FOUR,
            assume: &[],
            budget: 1,
        }],
        told: "Ok(Room), line 5 is q 0\n",
    },
    Case {
        shows: "2 follows from -1, and 3 from 2.",
        room: 1_000,
        vars: 3,
        suggested: None,
        queries: &[Query {
            clauses: &[&[-2, 3], &[1, 2]],
            assume: &[-1],
            budget: 0,
        }],
        told: "Ok(Model) -1 2 3, line 4 is m\n",
    },
    Case {
        shows: "3 and -3 follow from -1, and nothing has to be learnt.",
        room: 1_000,
        vars: 3,
        suggested: None,
        queries: &[Query {
            clauses: &[&[-2, 3], &[-2, -3], &[1, 2]],
            assume: &[-1],
            budget: 0,
        }],
        told: "Ok(Refuted) -1, line 5 is r 1 0\n",
    },
    Case {
        shows: "One clause of two literals or more is learnt of four pigeons, and then the budget is spent.",
        room: 1_000,
        vars: 12,
        suggested: None,
        queries: &[Query {
            clauses: PIGEONS,
            assume: &[],
            budget: 1,
        }],
        told: "Ok(Spent), line 24 is l -5 12 9 0\n",
    },
];

fn play_all(alloc: Global) -> Result<(), Fail> {
    for case in &CASES {
        let mut log = LastLine::of(alloc, MANY);
        let said = play(alloc, case, &mut log)?;
        if said.as_str() != case.told {
            return Err(Fail::new(case.shows));
        }
    }
    Ok(())
}

#[test]
fn queries_are_answered(rt: HostRuntime) -> Result<(), Fail> {
    play_all(rt.alloc())
}

/// A query with a learnt line, where each of its seven lines is refused in turn.
fn fail_all(alloc: Global) -> Result<(), Fail> {
    for left in 0..7 {
        let mut log = LastLine::of(alloc, left);
        let said = play(alloc, &CASES[11], &mut log)?;
        if log.faults != 1 || !said.as_str().starts_with("Err(Log)") {
            return Err(Fail::new(left));
        }
    }
    Ok(())
}

#[test]
fn a_log_that_fails_at_any_line_ends_the_solver(rt: HostRuntime) -> Result<(), Fail> {
    fail_all(rt.alloc())
}

/// Cases whose log refuses the line behind so many: the last that it takes is the clause that is learnt first.
static LEARNT: [(u32, Case); 3] = [
    (
        6,
        Case {
            shows: "(-1 -4 -5) is false where 1 and 2 are decided; the first unique implication point is 3.",
            room: 1_000,
            vars: 5,
            suggested: Some(5),
            queries: &[Query {
                clauses: &[&[-1, -2, 3], &[-3, 4], &[-3, 5], &[-1, -4, -5]],
                assume: &[],
                budget: 1,
            }],
            told: "Err(Log), line 6 is l -3 -1 0\n",
        },
    ),
    (
        5,
        Case {
            shows: "2 follows from 1, so that -2 is left out beside -1.",
            room: 1_000,
            vars: 4,
            suggested: Some(4),
            queries: &[Query {
                clauses: &[&[-1, 2], &[-3, 4], &[-1, -2, -3, -4]],
                assume: &[],
                budget: 1,
            }],
            told: "Err(Log), line 5 is l -3 -1 0\n",
        },
    ),
    (
        5,
        Case {
            shows: "2 is the implication point, and no level is left.",
            room: 1_000,
            vars: 3,
            suggested: None,
            queries: &[Query {
                clauses: &[&[1, 2], &[-2, 3], &[-2, -3]],
                assume: &[],
                budget: 1,
            }],
            told: "Err(Log), line 5 is l -2 0\n",
        },
    ),
];

fn learn_all(alloc: Global) -> Result<(), Fail> {
    for (taken, case) in &LEARNT {
        let mut log = LastLine::of(alloc, *taken);
        let said = play(alloc, case, &mut log)?;
        if said.as_str() != case.told {
            return Err(Fail::new(case.shows));
        }
    }
    Ok(())
}

#[test]
fn conflicts_are_analysed(rt: HostRuntime) -> Result<(), Fail> {
    learn_all(rt.alloc())
}
