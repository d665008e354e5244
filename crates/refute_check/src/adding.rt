// Adding variables and clauses to the tables.
ghost use Rattle.std.specs.Prelude.{◌≡◌, ◌≤◌, ◌<◌, ◌+◌, ◌*◌, ◌^◌, [], ◌∷◌, ◌++◌, true, false, OnOk, IfOk, length};
ghost use Rattle.std.specs.Prelude.{vec_len};
ghost use Rattle.cnf_core.specs.Lit.{has, negate};
ghost use Rattle.cnf_core.specs.Clause.{IsThere, AreThere, AllThere, AreDistinct};
ghost use Rattle.cnf_core.specs.Propagation.{Falsifies, Falsified, nothing};
ghost use Rattle.cnf_core.specs.Trail.{IsTrail, marked, Grows};
ghost use Rattle.refute_check.specs.Entries.{is_short, other_of, rest_of, with_entry};
ghost use Rattle.refute_check.specs.Tables.{AreOccurrences, false_count, Lists, IsUnsetUnit, IsCountedTo, AreQuiet};
ghost use Rattle.refute_check.specs.Tables.{NotesMore};
ghost use Rattle.refute_check.specs.Settled.{AreSettled, IsListed};

use crate::places::{Places, Rest};
use crate::propagation::propagate;
use crate::scan::{Scan, scan_clause};
use crate::tables::Tables;
use crate::trail::mark;
use cnf_core::{Formula, Lit};
use plan_core::OutOfMemory;
use std::alloc::Global;

/// Whether the literal is marked.
fn is_marked(truth: &[bool], vars: u32, l: Lit) -> bool
    requires table { length truth.now ≡ 2 * vars + 2 }
    requires there { IsThere vars l }
    ensures { result ≡ marked truth.now l }
{
    truth[l.word() as usize]
}

/// How many of the literals aren't false.
fn count_open(lits: &[Lit], truth: &[bool], vars: u32) -> u32
    requires table { length truth.now ≡ 2 * vars + 2 }
    requires there { AreThere vars lits.now }
    requires small { length lits.now < 2 ^ 32 }
    ensures { result + false_count (marked truth.now) lits.now ≡ length lits.now }
{
    let mut count = 0;
    for l in lits {
        if !is_marked(truth, vars, l.negated()) {
            count += 1;
        }
    }
    count
}

/// Whether there are two or three literals.
fn is_short(lits: &[Lit]) -> bool
    ensures { result ≡ is_short lits.now }
{
    lits.len() == 2 || lits.len() == 3
}

/// The one of two literals that isn't `l`, where `l` is one of them.
fn other_of(a: Lit, b: Lit, l: Lit) -> Lit
    ensures { result ≡ other_of a b l }
{
    if a == l { b } else { a }
}

/// The literals of a clause of two or three beside `l`.
fn rest_of(lits: &[Lit], l: Lit) -> Rest
    requires { is_short lits.now ≡ true }
    ensures { result ≡ rest_of lits.now l }
{
    let first = other_of(lits[0], lits[1], l);
    let last = if lits.len() == 3 {
        other_of(lits[2], lits[1], l)
    } else {
        first
    };
    Rest { first, last }
}

/// Adds the clause to the lists of one of its literals.
fn list_at(places: &mut Places, lits: &[Lit], l: Lit, number: u32) -> Result<(), OutOfMemory>
    ensures { OnOk result (places.new ≡ with_entry number lits.now l places.old) }
{
    if is_short(lits) {
        places.push_short(rest_of(lits, l))
    } else {
        places.push_counted(number)
    }
}

/// Adds the clause behind those that have its literals.
fn list_clause(
    occurrences: &mut Vec<Places>,
    lits: &[Lit],
    number: u32,
    vars: u32,
) -> Result<(), OutOfMemory>
    requires table { length occurrences.old.items ≡ 2 * vars + 2 }
    requires there { AreThere vars lits.now }
    requires distinct { AreDistinct lits.now }
    ensures { OnOk result (Lists lits.now number lits.now occurrences.old.items occurrences.new.items) }
{
    for l in lits {
        let places = &mut occurrences[l.word() as usize];
        list_at(places, lits, *l, number)?;
    }
    Ok(())
}

impl Tables {
    /// Lists the clause of these literals behind those of the formula. It isn't looked at yet.
    pub(crate) fn list(&mut self, formula: &Formula, lits: &[Lit]) -> Result<(), OutOfMemory>
        requires settled { AreSettled formula.now.vars formula.now.clauses self.old }
        requires there { AreThere formula.now.vars lits.now }
        requires distinct { AreDistinct lits.now }
        requires small { length lits.now < 2 ^ 32 }
        ensures { OnOk result (IsListed formula.now.vars (formula.now.clauses ++ lits.now ∷ []) lits.now self.new) }
    {
        let count = count_open(lits, &self.truth, formula.vars());
        list_clause(
            &mut self.occurrences,
            lits,
            formula.clauses(),
            formula.vars(),
        )?;
        self.counts.push(count)?;
        Ok(())
    }

    /// Looks at the clause that was listed last, and marks what follows. The answer is whether some
    /// clause is falsified without assumptions.
    pub(crate) fn settle(&mut self, formula: &Formula, lits: &[Lit]) -> Result<bool, OutOfMemory>
        requires listed { IsListed formula.now.vars formula.now.clauses lits.now self.old }
        requires there { AreThere formula.now.vars lits.now }
        requires distinct { AreDistinct lits.now }
        ensures settled { IfOk result (λ found. found ≡ false → AreSettled formula.now.vars formula.now.clauses
            self.new) }
        ensures falsified { IfOk result (λ found. found ≡ true → Falsifies formula.now.clauses nothing) }
    {
        match scan_clause(lits, &self.truth, formula.vars()) {
            Scan::Falsified => Ok(true),
            Scan::Quiet => Ok(false),
            Scan::Unit(l) => self.settle_unit(formula, lits, l),
        }
    }

    /// Marks the literal of the clause that is alone not false, and what follows.
    fn settle_unit(&mut self, formula: &Formula, lits: &[Lit], l: Lit) -> Result<bool, OutOfMemory>
        requires listed { IsListed formula.now.vars formula.now.clauses lits.now self.old }
        requires there { AreThere formula.now.vars lits.now }
        requires unset { IsUnsetUnit (marked self.old.truth.items) lits.now l }
        ensures settled { IfOk result (λ found. found ≡ false → AreSettled formula.now.vars formula.now.clauses
            self.new) }
        ensures falsified { IfOk result (λ found. found ≡ true → Falsifies formula.now.clauses nothing) }
    {
        let reached = self.mark_and_propagate(formula, l)?;
        self.noted.clear();
        Ok(reached.0)
    }

    /// Marks a literal that is neither true nor false, and what follows. The answer is whether some
    /// clause is falsified, and how far the trail was counted.
    pub(crate) fn mark_and_propagate(
        &mut self,
        formula: &Formula,
        l: Lit,
    ) -> Result<(bool, usize), OutOfMemory>
        requires occurrences { AreOccurrences formula.now.vars formula.now.clauses self.old.occurrences.items }
        requires counted { IsCountedTo formula.now.vars formula.now.clauses self.old.truth.items self.old.trail.items
            self.old.counts.items (length self.old.trail.items) }
        requires quiet { AreQuiet formula.now.clauses (self.old.trail.items ++ l ∷ []) (length self.old.trail.items) }
        requires there { IsThere formula.now.vars l }
        requires not_true { marked self.old.truth.items l ≡ false }
        requires not_false { marked self.old.truth.items (negate l) ≡ false }
        ensures same { OnOk result (self.new.occurrences.items ≡ self.old.occurrences.items) }
        ensures noted { OnOk result (NotesMore formula.now.clauses self.old.noted.items self.old.counts.items
            self.new.noted.items self.new.counts.items) }
        ensures on { IfOk result (λ r. length self.old.trail.items ≤ r.1) }
        ensures counted { IfOk result (λ r. IsCountedTo formula.now.vars formula.now.clauses self.new.truth.items
            self.new.trail.items self.new.counts.items r.1) }
        ensures grows { OnOk result (Grows formula.now.clauses (self.old.trail.items ++ l ∷ []) self.new.trail.items) }
        ensures falsified { IfOk result (λ r. r.0 ≡ true → Falsified formula.now.clauses (has self.new.trail.items)) }
        ensures all { IfOk result (λ r. r.0 ≡ false → r.1 ≡ length self.new.trail.items) }
        ensures quiet { IfOk result (λ r. r.0 ≡ false → AreQuiet formula.now.clauses self.new.trail.items
            (length self.new.trail.items)) }
    {
        let level = self.trail.len();
        mark(&mut self.truth, &mut self.trail, formula.vars(), l)?;
        let reached = propagate(
            formula,
            &self.occurrences,
            &mut self.counts,
            &mut self.noted,
            &mut self.truth,
            &mut self.trail,
            level,
            &mut self.ahead,
        )?;
        Ok(reached)
    }

    /// Makes room for one more variable.
    pub(crate) fn add_var(&mut self, alloc: Global, formula: &Formula) -> Result<(), OutOfMemory>
        requires settled { AreSettled formula.now.vars formula.now.clauses self.old }
        ensures { OnOk result (AreSettled (formula.now.vars + 1) formula.now.clauses self.new) }
    {
        let _vars = formula.vars();
        self.occurrences.push(Places::new(alloc))?;
        self.occurrences.push(Places::new(alloc))?;
        self.truth.push(false)?;
        self.truth.push(false)?;
        Ok(())
    }
}
