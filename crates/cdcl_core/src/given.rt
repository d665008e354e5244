// Clauses that are given.
ghost use Rattle.std.specs.Prelude.{◌≡◌, ◌≢◌, ◌≤◌, ◌<◌, ◌+◌, ◌↔◌, ℕ, true, false, length, slice_index_or, OnOk, OnErr};
ghost use Rattle.std.specs.Prelude.{IfOk, IsErrOf};
ghost use Rattle.outside_io.specs.Counts.{Rose};
ghost use Rattle.cnf_core.specs.Lit.{Literal, negate, has};
ghost use Rattle.cnf_core.specs.Clause.{AreDistinct, AreThere};
ghost use Rattle.cnf_core.specs.Propagation.{IsIn, SameLiterals};
ghost use Rattle.refute_log.specs.declared.line.LogLine.TheVariants.{Formula};
ghost use Rattle.refute_log.specs.Told.{AddsLine};
ghost use Rattle.refute_log.specs.Steps.{StillDerives};
ghost use Rattle.cdcl_core.specs.Belongs.{Belongs, GivesAtMost};
ghost use Rattle.cdcl_core.specs.Search.{IsIdle, IsKeptOne, IsFalseClause, IsFronted, IsSilent, IsExchanged, seen};

use crate::choices::is_unset;
use crate::fault::AddFault;
use crate::lines::into_clause;
use crate::search::Search;
use cnf_core::{Clause, Lit};
use plan_core::OutOfMemory;
use refute_log::{LogLine, LogSink};
use std::mem;
use watch_arena::Trail;

/// The first place from `from` on whose literal isn't false, or the number of literals.
fn open_place(lits: &[Lit], trail: &Trail, from: usize) -> usize
    requires there { AreThere trail.now.vars lits.now }
    requires from { from ≤ length lits.now }
    ensures from { from ≤ result }
    ensures to { result ≤ length lits.now }
    ensures before { (i : ℕ) (d : Literal) → from ≤ i → i < result →
        IsIn (has trail.now.lits) (negate (slice_index_or lits.now i d)) }
    ensures here { (d : Literal) → result < length lits.now →
        has trail.now.lits (negate (slice_index_or lits.now result d)) ≡ false }
{
    let mut i = from;
    while i < lits.len() {
        if !trail.is_false(lits[i]) {
            return i;
        }
        i += 1;
    }
    i
}

/// Puts up to two literals that aren't false in front. The answer is how many there are in front.
fn front_open(lits: &mut [Lit], trail: &Trail) -> usize
    requires there { AreThere trail.now.vars lits.old }
    requires distinct { AreDistinct lits.old }
    ensures same { SameLiterals lits.old lits.new }
    ensures there { AreThere trail.now.vars lits.new }
    ensures distinct { AreDistinct lits.new }
    ensures fronted { IsFronted trail.now lits.new result }
{
    let first = open_place(lits, trail, 0);
    if first == lits.len() {
        return 0;
    }
    exchange(lits, 0, first);
    let second = open_place(lits, trail, 1);
    if second == lits.len() {
        return 1;
    }
    exchange(lits, 1, second);
    2
}

/// Two literals change places.
fn exchange(lits: &mut [Lit], a: usize, b: usize)
    requires a { a < length lits.old }
    requires b { b < length lits.old }
    ensures { IsExchanged lits.old lits.new a b }
{
    lits.swap(a, b);
}

/// The clause of these literals, in this memory.
fn filled(spare: Vec<Lit>, lits: &[Lit]) -> Result<Clause, OutOfMemory>
    requires { AreDistinct lits.now }
    ensures { IfOk result (λ c. c ≡ lits.now) }
{
    let mut own = spare;
    own.clear();
    own.extend_from_slice(lits)?;
    Ok(Clause::from_vec(own))
}

impl Search {
    /// Tells a clause as a Formula line and keeps it.
    pub fn add_clause<L: LogSink>(&mut self, lits: &[Lit], log: &mut L) -> Result<(), AddFault>
        requires idle { IsIdle self.old }
        requires there { AreThere self.old.trail.vars lits.now }
        requires distinct { AreDistinct lits.now }
        ensures idle { OnOk result (IsIdle self.new) }
        ensures kept { OnOk result (IsKeptOne self.old self.new lits.now) }
        ensures learnt_same { OnOk result (self.new.learnt ≡ self.old.learnt) }
        ensures told { OnOk result (AddsLine (L.tells log.old) (L.tells log.new) (Formula lits.now)) }
        ensures derives { OnErr result
            (StillDerives (λ ls. Belongs ls (seen self.old)) (L.tells log.old) (L.tells log.new)) }
        ensures gives { OnErr result (GivesAtMost (L.tells log.old) (L.tells log.new) lits.now) }
        ensures learnt { L.learnt log.new ≡ L.learnt log.old }
        ensures room { IsErrOf result AddFault.Room ↔ self.old.room < self.old.words + length lits.now + 3 }
        ensures untold { IsErrOf result AddFault.Room → log.new ≡ log.old }
        ensures cause { IsErrOf result AddFault.Log → Rose (L.faults log.old) (L.faults log.new) }
        ensures faults { L.faults log.old ≤ L.faults log.new }
        ensures later { L.is_later log.old log.new }
    {
        if self.has_room(lits.len()) {
            self.add_fitting(lits, log)
        } else {
            Err(AddFault::Room)
        }
    }

    /// Tells a clause that is within the room as a Formula line, and keeps it.
    fn add_fitting<L: LogSink>(&mut self, lits: &[Lit], log: &mut L) -> Result<(), AddFault>
        requires idle { IsIdle self.old }
        requires there { AreThere self.old.trail.vars lits.now }
        requires distinct { AreDistinct lits.now }
        requires room { self.old.words + length lits.now + 3 ≤ self.old.room }
        ensures idle { OnOk result (IsIdle self.new) }
        ensures kept { OnOk result (IsKeptOne self.old self.new lits.now) }
        ensures learnt_same { OnOk result (self.new.learnt ≡ self.old.learnt) }
        ensures told { OnOk result (AddsLine (L.tells log.old) (L.tells log.new) (Formula lits.now)) }
        ensures derives { OnErr result
            (StillDerives (λ ls. Belongs ls (seen self.old)) (L.tells log.old) (L.tells log.new)) }
        ensures gives { OnErr result (GivesAtMost (L.tells log.old) (L.tells log.new) lits.now) }
        ensures learnt { L.learnt log.new ≡ L.learnt log.old }
        ensures fits { IsErrOf result AddFault.Room → ⊥ }
        ensures cause { IsErrOf result AddFault.Log → Rose (L.faults log.old) (L.faults log.new) }
        ensures faults { L.faults log.old ≤ L.faults log.new }
        ensures later { L.is_later log.old log.new }
    {
        let spare = mem::replace(&mut self.spare, Vec::new(self.alloc));
        let line = LogLine::Formula(filled(spare, lits)?);
        log.tell(&line)?;
        self.keep_given(into_clause(self.alloc, line))?;
        Ok(())
    }

    /// Keeps a clause that was given, at level 0.
    fn keep_given(&mut self, clause: Clause) -> Result<(), OutOfMemory>
        requires idle { IsIdle self.old }
        requires there { AreThere self.old.trail.vars clause }
        requires room { self.old.words + length clause + 3 ≤ self.old.room }
        ensures idle { OnOk result (IsIdle self.new) }
        ensures kept { OnOk result (IsKeptOne self.old self.new clause) }
        ensures learnt { OnOk result (self.new.learnt ≡ self.old.learnt) }
    {
        let mut lits = clause.into_vec();
        let front = front_open(&mut lits, &self.trail);
        self.keep_fronted(Clause::from_vec(lits), front)
    }

    /// Keeps a clause whose first so many literals, at most two, are all that may not be false.
    fn keep_fronted(&mut self, clause: Clause, front: usize) -> Result<(), OutOfMemory>
        requires idle { IsIdle self.old }
        requires there { AreThere self.old.trail.vars clause }
        requires distinct { AreDistinct clause }
        requires room { self.old.words + length clause + 3 ≤ self.old.room }
        requires fronted { IsFronted self.old.trail clause front }
        ensures idle { OnOk result (IsIdle self.new) }
        ensures kept { OnOk result (IsKeptOne self.old self.new clause) }
        ensures learnt { OnOk result (self.new.learnt ≡ self.old.learnt) }
    {
        if front == 0 {
            return self.keep_refuting(clause);
        }
        if front == 1 {
            self.keep_one_open(clause)
        } else {
            self.keep_silent(clause)
        }
    }

    /// Keeps a clause whose first literal alone isn't false.
    fn keep_one_open(&mut self, clause: Clause) -> Result<(), OutOfMemory>
        requires idle { IsIdle self.old }
        requires there { AreThere self.old.trail.vars clause }
        requires distinct { AreDistinct clause }
        requires room { self.old.words + length clause + 3 ≤ self.old.room }
        requires fronted { IsFronted self.old.trail clause 1 }
        ensures idle { OnOk result (IsIdle self.new) }
        ensures kept { OnOk result (IsKeptOne self.old self.new clause) }
        ensures learnt { OnOk result (self.new.learnt ≡ self.old.learnt) }
    {
        if is_unset(&self.trail, clause.get(0)) {
            self.keep_asserting(clause)
        } else {
            self.keep_silent(clause)
        }
    }

    /// Keeps a clause all of whose literals are false at level 0: it refutes every query.
    fn keep_refuting(&mut self, clause: Clause) -> Result<(), OutOfMemory>
        requires idle { IsIdle self.old }
        requires there { AreThere self.old.trail.vars clause }
        requires room { self.old.words + length clause + 3 ≤ self.old.room }
        requires falsified { IsFalseClause self.old.trail clause }
        ensures idle { OnOk result (IsIdle self.new) }
        ensures kept { OnOk result (IsKeptOne self.old self.new clause) }
        ensures learnt { OnOk result (self.new.learnt ≡ self.old.learnt) }
    {
        let words = clause.len() as u32 + 3;
        self.own.push(clause)?;
        self.words += words;
        self.refuted = true;
        Ok(())
    }

    /// Keeps a clause that makes no literal true: its first literal is true, or its first two aren't
    /// false.
    fn keep_silent(&mut self, clause: Clause) -> Result<(), OutOfMemory>
        requires idle { IsIdle self.old }
        requires there { AreThere self.old.trail.vars clause }
        requires distinct { AreDistinct clause }
        requires room { self.old.words + length clause + 3 ≤ self.old.room }
        requires silent { IsSilent self.old.trail clause }
        ensures idle { OnOk result (IsIdle self.new) }
        ensures kept { OnOk result (IsKeptOne self.old self.new clause) }
        ensures learnt { OnOk result (self.new.learnt ≡ self.old.learnt) }
    {
        if clause.len() == 1 {
            self.keep_owned(clause)
        } else {
            self.keep_attached(clause)
        }
    }

    /// Keeps a true clause of one literal in the solver's own list.
    fn keep_owned(&mut self, clause: Clause) -> Result<(), OutOfMemory>
        requires idle { IsIdle self.old }
        requires there { AreThere self.old.trail.vars clause }
        requires distinct { AreDistinct clause }
        requires room { self.old.words + length clause + 3 ≤ self.old.room }
        requires silent { IsSilent self.old.trail clause }
        requires one { length clause ≡ 1 }
        ensures idle { OnOk result (IsIdle self.new) }
        ensures kept { OnOk result (IsKeptOne self.old self.new clause) }
        ensures learnt { OnOk result (self.new.learnt ≡ self.old.learnt) }
    {
        self.own.push(clause)?;
        self.words += 4;
        Ok(())
    }

    /// Keeps a longer clause that makes no literal true in the arena.
    fn keep_attached(&mut self, clause: Clause) -> Result<(), OutOfMemory>
        requires idle { IsIdle self.old }
        requires there { AreThere self.old.trail.vars clause }
        requires distinct { AreDistinct clause }
        requires room { self.old.words + length clause + 3 ≤ self.old.room }
        requires silent { IsSilent self.old.trail clause }
        requires more { length clause ≢ 1 }
        ensures idle { OnOk result (IsIdle self.new) }
        ensures kept { OnOk result (IsKeptOne self.old self.new clause) }
        ensures learnt { OnOk result (self.new.learnt ≡ self.old.learnt) }
    {
        let words = clause.len() as u32 + 3;
        let Ok(place) = self.arena.attach(clause.as_slice(), &self.trail) else {
            return Err(OutOfMemory);
        };
        let _kept = place;
        self.words += words;
        self.spare = clause.into_vec();
        Ok(())
    }
}
