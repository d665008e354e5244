// A formula, its solver and the solver's checker.
ghost use Rattle.std.specs.Prelude.{◌≡◌, false, All, IfOk, OnOk};
ghost use Rattle.cnf_core.specs.Clause.{AreDistinct, AreThere, IsNamed};

use crate::checked::CheckedLog;
use crate::literals::clause_within;
use crate::trying::{assignment_of, is_satisfiable, satisfies};
use cdcl_core::{Answer, SolveFault, Solver};
use cnf_core::{Formula, Lit};
use plan_core::OutOfMemory;
use refute_check::Checker;
use std::alloc::Global;

/// The most words of the clauses of a solver.
const WORDS: u32 = 1_000_000;

/// A formula, a solver that is given its clauses, and a checker that gets the solver's lines. An error is want of
/// memory, or of room, which is ample.
#[derive(Drop)]
pub struct Case {
    alloc: Global,
    formula: Formula,
    solver: Solver,
    log: CheckedLog,
}

/// Adds a clause to the solver.
fn add_to(solver: &mut Solver, log: &mut CheckedLog, lits: &[Lit]) -> Result<(), OutOfMemory>
    requires working { solver.old.failed ≡ false }
    requires distinct { AreDistinct lits.now }
    requires there { AreThere solver.old.vars lits.now }
    ensures working { OnOk result (solver.new.failed ≡ false) }
    ensures named { OnOk result (All (λ l. IsNamed solver.new.clauses l.var) lits.now) }
{
    match solver.add_clause(lits, log) {
        Ok(()) => Ok(()),
        Err(_) => Err(OutOfMemory),
    }
}

/// Adds a clause to the formula and to the solver.
fn add(
    formula: &mut Formula,
    solver: &mut Solver,
    log: &mut CheckedLog,
    lits: &[Lit],
) -> Result<(), OutOfMemory>
    requires working { solver.old.failed ≡ false }
    requires distinct { AreDistinct lits.now }
    requires formula { AreThere formula.old.vars lits.now }
    requires solver { AreThere solver.old.vars lits.now }
    ensures working { OnOk result (solver.new.failed ≡ false) }
    ensures named { OnOk result (All (λ l. IsNamed solver.new.clauses l.var) lits.now) }
{
    let Ok(_number) = formula.add(lits) else {
        return Err(OutOfMemory);
    };
    add_to(solver, log, lits)
}

fn answered(outcome: Result<Answer, SolveFault>) -> Result<Answer, OutOfMemory> {
    match outcome {
        Ok(answer) => Ok(answer),
        Err(_) => Err(OutOfMemory),
    }
}

/// The solver's answer. The assumptions are given as a clause first, which they make true, so that
/// each is of a clause.
fn answer(
    formula: &mut Formula,
    solver: &mut Solver,
    log: &mut CheckedLog,
    assume: &[Lit],
) -> Result<Answer, OutOfMemory>
    requires working { solver.old.failed ≡ false }
    requires distinct { AreDistinct assume.now }
    requires formula { AreThere formula.old.vars assume.now }
    requires solver { AreThere solver.old.vars assume.now }
{
    if assume.is_empty() {
        return answered(solver.solve(&[], 10_000, log));
    }
    add(formula, solver, log, assume)?;
    answered(solver.solve(assume, 10_000, log))
}

impl Case {
    /// A case of so many variables, without clauses.
    pub fn new(alloc: Global, vars: u32) -> Result<Case, OutOfMemory> {
        let mut formula = Formula::new(alloc, WORDS)?;
        let mut solver = Solver::new(alloc, WORDS)?;
        let Ok(_first) = formula.new_vars(vars) else {
            return Err(OutOfMemory);
        };
        let Ok(()) = solver.add_vars(vars) else {
            return Err(OutOfMemory);
        };
        let log = CheckedLog {
            checker: Checker::new(alloc, WORDS)?,
            learnt: 0,
            refused: false,
        };
        Ok(Case {
            alloc,
            formula,
            solver,
            log,
        })
    }

    /// Those of the literals that are of other variables than the ones before.
    fn fitting(&self, lits: &[Lit]) -> Result<Vec<Lit>, OutOfMemory>
        ensures working { OnOk result (self.now.solver.failed ≡ false) }
        ensures distinct { IfOk result (λ c. AreDistinct c.items) }
        ensures formula { IfOk result (λ c. AreThere self.now.formula.vars c.items) }
        ensures solver { IfOk result (λ c. AreThere self.now.solver.vars c.items) }
    {
        let vars = self.formula.vars();
        if self.solver.vars() != vars {
            return Err(OutOfMemory);
        }
        if self.solver.failed() {
            return Err(OutOfMemory);
        }
        clause_within(self.alloc, lits, vars)
    }

    /// Adds a clause of those literals that are of other variables than the ones before.
    pub fn give(&mut self, lits: &[Lit]) -> Result<(), OutOfMemory> {
        let clause = self.fitting(lits)?;
        add(&mut self.formula, &mut self.solver, &mut self.log, &clause)
    }

    /// Whether the solver's model satisfies the formula and makes the assumptions true.
    fn has_model(&self, assume: &[Lit]) -> bool {
        match self.solver.model() {
            None => false,
            Some(model) => satisfies(assignment_of(model), &self.formula, assume),
        }
    }

    /// Asks with assumptions, as they fit. None where the answer isn't that of all assignments, or the
    /// checker refused a line.
    pub fn ask(&mut self, lits: &[Lit]) -> Result<Option<Answer>, OutOfMemory> {
        let assume = self.fitting(lits)?;
        let answer = answer(&mut self.formula, &mut self.solver, &mut self.log, &assume)?;
        let right = match answer {
            Answer::Model => self.has_model(&assume),
            Answer::Refuted => !is_satisfiable(&self.formula, &assume),
            Answer::Spent | Answer::Room => false,
        };
        if right && !self.log.refused {
            Ok(Some(answer))
        } else {
            Ok(None)
        }
    }

    /// Asks without assumptions. None where the checker refused a line.
    pub fn ask_all(&mut self, budget: u32) -> Result<Option<Answer>, OutOfMemory> {
        if self.solver.failed() {
            return Err(OutOfMemory);
        }
        let answer = answered(self.solver.solve(&[], budget, &mut self.log))?;
        if self.log.refused {
            Ok(None)
        } else {
            Ok(Some(answer))
        }
    }

    /// How many clauses were learnt.
    pub fn learnt(&self) -> u32 {
        self.solver.learnt()
    }

    /// Whether the checker accepted a Refuted line without literals.
    pub fn is_refuted(&self) -> bool {
        self.log.checker.verdict(&[])
    }
}
