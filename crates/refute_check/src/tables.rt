// The tables that propagation works on, between the lines of a log.
ghost use Rattle.std.specs.Prelude.{◌≡◌, ◌≤◌, ◌<◌, ◌+◌, ◌*◌, ◌^◌, [], true, false, All, OnOk, IfOk, length, take};
ghost use Rattle.std.specs.Prelude.{slice_index};
ghost use Rattle.cnf_core.specs.Lit.{has};
ghost use Rattle.cnf_core.specs.Clause.{AreThere, AreDistinct};
ghost use Rattle.cnf_core.specs.Times.{times};
ghost use Rattle.cnf_core.specs.Trail.{IsTrail};
ghost use Rattle.cnf_core.specs.Propagation.{Falsifies, Rup, negations, IsClosure};
ghost use Rattle.refute_check.specs.Tables.{IsCountedTo, AreOccurrences, AreQuiet, AreExplained, CountedUp, NotesMore};
ghost use Rattle.refute_check.specs.Settled.{AreSettled};

use crate::assume::assume_false;
use crate::places::Places;
use crate::propagation::propagate;
use crate::undo::undo;
use cnf_core::{Formula, Lit};
use plan_core::OutOfMemory;
use std::alloc::Global;

/// What is true without assumptions, and the counts that belong to it.
#[derive(Drop)]
pub(crate) struct Tables {
    /// By a literal's word, the clauses that have the literal.
    pub(crate) occurrences: Vec<Places>,
    /// By clause of one literal or of more than three, how many of its literals are not false.
    pub(crate) counts: Vec<u32>,
    /// The numbers of the clauses from whose counts one was taken since the last line, once for each time.
    pub(crate) noted: Vec<u32>,
    /// By a literal's word, whether it is true.
    pub(crate) truth: Vec<bool>,
    /// The literals that are true, in the order in which they became so.
    pub(crate) trail: Vec<Lit>,
    /// What was read ahead. It says nothing, and keeps the compiler from leaving the reads out.
    pub(crate) ahead: usize,
}

impl Tables {
    /// No variable, and no clause.
    pub(crate) fn new(alloc: Global) -> Result<Tables, OutOfMemory>
        ensures { IfOk result (λ t. AreSettled 0 [] t) }
    {
        let mut occurrences = Vec::new(alloc);
        occurrences.push(Places::new(alloc))?;
        occurrences.push(Places::new(alloc))?;
        let mut truth = Vec::new(alloc);
        truth.push(false)?;
        truth.push(false)?;
        Ok(Tables {
            occurrences,
            counts: Vec::new(alloc),
            noted: Vec::new(alloc),
            truth,
            trail: Vec::new(alloc),
            ahead: 0,
        })
    }

    /// Assumes that the literals are false, and marks what follows. The answer is whether some
    /// clause is falsified, and how far the trail was counted.
    pub(crate) fn suppose(
        &mut self,
        formula: &Formula,
        lits: &[Lit],
    ) -> Result<(bool, usize), OutOfMemory>
        requires settled { AreSettled formula.now.vars formula.now.clauses self.old }
        requires there { AreThere formula.now.vars lits.now }
        requires distinct { AreDistinct lits.now }
        ensures counted { IfOk result (λ r. IsCountedTo formula.now.vars formula.now.clauses self.new.truth.items
            self.new.trail.items self.new.counts.items r.1) }
        ensures noted { OnOk result (NotesMore formula.now.clauses self.old.noted.items self.old.counts.items
            self.new.noted.items self.new.counts.items) }
        ensures on { IfOk result (λ r. length self.old.trail.items ≤ r.1) }
        ensures front { OnOk result (take (length self.old.trail.items) self.new.trail.items ≡ self.old.trail.items) }
        ensures same { OnOk result (self.new.occurrences.items ≡ self.old.occurrences.items) }
        ensures falsified { IfOk result (λ r. r.0 ≡ true → Falsifies formula.now.clauses (negations lits.now)) }
        ensures closed { IfOk result (λ r. r.0 ≡ false → IsClosure formula.now.clauses (negations lits.now)
            (has self.new.trail.items)) }
        ensures all { IfOk result (λ r. r.0 ≡ false → r.1 ≡ length self.new.trail.items) }
        ensures quiet { IfOk result (λ r. r.0 ≡ false → AreQuiet formula.now.clauses self.new.trail.items
            (length self.new.trail.items)) }
        ensures reasoned { IfOk result (λ r. r.0 ≡ false → AreExplained formula.now.clauses lits.now
            self.new.trail.items) }
    {
        let level = self.trail.len();
        let clash = assume_false(&mut self.truth, &mut self.trail, formula.vars(), lits)?;
        if clash {
            return Ok((true, level));
        }
        let reached = propagate(
            formula,
            &self.occurrences,
            &mut self.counts,
            &mut self.noted,
            &mut self.truth,
            &mut self.trail,
            level,
            &mut self.ahead,
        )?;
        Ok(reached)
    }

    /// Takes the trail back to its first `level` literals, and gives the counts back what was taken from them.
    pub(crate) fn take_back(&mut self, vars: u32, level: usize)
        requires trail { IsTrail vars self.old.truth.items self.old.trail.items }
        requires there { All (λ n. n < length self.old.counts.items) self.old.noted.items }
        requires small { All (λ n. slice_index self.old.counts.items n + times self.old.noted.items n < 2 ^ 32)
            self.old.noted.items }
        ensures trail { IsTrail vars self.new.truth.items self.new.trail.items }
        ensures rest { self.new.trail.items ≡ take level self.old.trail.items }
        ensures counts { CountedUp self.old.noted.items self.old.counts.items self.new.counts.items }
        ensures size { length self.new.counts.items ≡ length self.old.counts.items }
        ensures unnoted { self.new.noted.items ≡ [] }
        ensures same { self.new.occurrences.items ≡ self.old.occurrences.items }
    {
        undo(
            &mut self.counts,
            &mut self.noted,
            &mut self.truth,
            &mut self.trail,
            vars,
            level,
        );
    }

    /// Whether the clause of these literals follows by unit propagation.
    pub(crate) fn follows(&mut self, formula: &Formula, lits: &[Lit]) -> Result<bool, OutOfMemory>
        requires settled { AreSettled formula.now.vars formula.now.clauses self.old }
        requires there { AreThere formula.now.vars lits.now }
        requires distinct { AreDistinct lits.now }
        ensures settled { OnOk result (AreSettled formula.now.vars formula.now.clauses self.new) }
        ensures yes { IfOk result (λ b. b ≡ true → Rup formula.now.clauses lits.now) }
        ensures no { IfOk result (λ b. b ≡ false → Rup formula.now.clauses lits.now → ⊥) }
    {
        let level = self.trail.len();
        let (falsified, _) = self.suppose(formula, lits)?;
        self.take_back(formula.vars(), level);
        Ok(falsified)
    }
}
