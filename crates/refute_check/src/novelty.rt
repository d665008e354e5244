// What a Learnt line's clause is, from one run of propagation.
ghost use Rattle.std.specs.Prelude.{◌≡◌, ◌≤◌, ◌∷◌, true, false, OnOk, IfOk, length, take};
ghost use Rattle.cnf_core.specs.Lit.{has, negate};
ghost use Rattle.cnf_core.specs.Clause.{AreThere, AreDistinct, IsThere};
ghost use Rattle.cnf_core.specs.Propagation.{negations, IsClosure};
ghost use Rattle.cnf_core.specs.Trail.{marked};
ghost use Rattle.refute_check.specs.Tables.{IsCountedTo, AreOccurrences, AreQuiet, AreExplained, NotesMore};
ghost use Rattle.refute_check.specs.Settled.{AreSettled};
ghost use Rattle.refute_check.specs.Novelty.{IsNovelty};

use crate::scan::{Truth, truth_of};
use crate::tables::Tables;
use cnf_core::{Formula, Lit};
use plan_core::OutOfMemory;

/// What a Learnt line's clause is.
pub(crate) enum Novelty {
    /// It doesn't follow by unit propagation.
    Unproved,
    /// It follows, and its first literal does so already where the others are false, or these falsify
    /// some clause.
    Known,
    /// It follows, and says more than that.
    New,
}

impl Tables {
    /// Where the trail is the closure of the others' negations, denies the first literal too, which
    /// is neither true nor false there, and marks what follows.
    fn deny_first(
        &mut self,
        formula: &Formula,
        first: Lit,
        others: &[Lit],
    ) -> Result<(Novelty, usize), OutOfMemory>
        requires occurrences { AreOccurrences formula.now.vars formula.now.clauses self.old.occurrences.items }
        requires counted { IsCountedTo formula.now.vars formula.now.clauses self.old.truth.items self.old.trail.items
            self.old.counts.items (length self.old.trail.items) }
        requires quiet { AreQuiet formula.now.clauses self.old.trail.items (length self.old.trail.items) }
        requires closure { IsClosure formula.now.clauses (negations others.now) (has self.old.trail.items) }
        requires there { IsThere formula.now.vars first }
        requires not_true { marked self.old.truth.items first ≡ false }
        requires not_false { marked self.old.truth.items (negate first) ≡ false }
        ensures counted { IfOk result (λ r. IsCountedTo formula.now.vars formula.now.clauses self.new.truth.items
            self.new.trail.items self.new.counts.items r.1) }
        ensures noted { OnOk result (NotesMore formula.now.clauses self.old.noted.items self.old.counts.items
            self.new.noted.items self.new.counts.items) }
        ensures on { IfOk result (λ r. length self.old.trail.items ≤ r.1) }
        ensures front { OnOk result (take (length self.old.trail.items) self.new.trail.items ≡ self.old.trail.items) }
        ensures same { OnOk result (self.new.occurrences.items ≡ self.old.occurrences.items) }
        ensures novelty { IfOk result (λ r. IsNovelty formula.now.clauses first others.now r.0) }
    {
        let (falsified, front) = self.mark_and_propagate(formula, first.negated())?;
        if falsified {
            Ok((Novelty::New, front))
        } else {
            Ok((Novelty::Unproved, front))
        }
    }

    /// Assumes that the others are false, then the first literal too, and marks what follows.
    fn weigh(
        &mut self,
        formula: &Formula,
        first: Lit,
        others: &[Lit],
    ) -> Result<(Novelty, usize), OutOfMemory>
        requires settled { AreSettled formula.now.vars formula.now.clauses self.old }
        requires first { IsThere formula.now.vars first }
        requires there { AreThere formula.now.vars others.now }
        requires distinct { AreDistinct (first ∷ others.now) }
        ensures counted { IfOk result (λ r. IsCountedTo formula.now.vars formula.now.clauses self.new.truth.items
            self.new.trail.items self.new.counts.items r.1) }
        ensures noted { OnOk result (NotesMore formula.now.clauses self.old.noted.items self.old.counts.items
            self.new.noted.items self.new.counts.items) }
        ensures on { IfOk result (λ r. length self.old.trail.items ≤ r.1) }
        ensures front { OnOk result (take (length self.old.trail.items) self.new.trail.items ≡ self.old.trail.items) }
        ensures same { OnOk result (self.new.occurrences.items ≡ self.old.occurrences.items) }
        ensures novelty { IfOk result (λ r. IsNovelty formula.now.clauses first others.now r.0) }
    {
        let (falsified, front) = self.suppose(formula, others)?;
        if falsified {
            return Ok((Novelty::Known, front));
        }
        match truth_of(&self.truth, formula.vars(), first) {
            Truth::True => Ok((Novelty::Known, front)),
            Truth::False => Ok((Novelty::Unproved, front)),
            Truth::Unset => {
                let weighed = self.deny_first(formula, first, others)?;
                Ok(weighed)
            }
        }
    }

    /// What the clause of these literals is.
    pub(crate) fn novelty_of(
        &mut self,
        formula: &Formula,
        first: Lit,
        others: &[Lit],
    ) -> Result<Novelty, OutOfMemory>
        requires settled { AreSettled formula.now.vars formula.now.clauses self.old }
        requires first { IsThere formula.now.vars first }
        requires there { AreThere formula.now.vars others.now }
        requires distinct { AreDistinct (first ∷ others.now) }
        ensures settled { OnOk result (AreSettled formula.now.vars formula.now.clauses self.new) }
        ensures novelty { IfOk result (IsNovelty formula.now.clauses first others.now) }
    {
        let level = self.trail.len();
        let (novelty, _) = self.weigh(formula, first, others)?;
        self.take_back(formula.vars(), level);
        Ok(novelty)
    }
}
