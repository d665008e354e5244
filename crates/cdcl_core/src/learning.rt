// Clauses that are learnt.
ghost use Rattle.std.specs.Prelude.{◌≡◌, ◌≢◌, ◌≤◌, ◌<◌, ◌+◌, ℕ, List, true, false, length, take, IfOk, OnOk};
ghost use Rattle.std.specs.Prelude.{MatchOption};
ghost use Rattle.cnf_core.specs.Lit.{Literal};
ghost use Rattle.pick_heap.specs.Heap.{IsHeld};
ghost use Rattle.watch_arena.specs.Arena.{IsClashOf};
ghost use Rattle.cdcl_core.specs.Kept.{IsFull, more_learnt};
ghost use Rattle.cdcl_core.specs.Search.{IsSearch, IsKeptOne, IsAsking, IsAssertedClause, IsAnalysed, IsLearntFrom};
ghost use Rattle.cdcl_core.specs.Search.{clauses};

use crate::search::Search;
use cdcl_learn::Analyser;
use cnf_core::{Clause, Lit};
use pick_heap::Heap;
use plan_core::OutOfMemory;
use std::alloc::Global;
use watch_arena::ClauseRef;

/// The analyser's clause, as a list of its own.
pub fn copied(alloc: Global, analyser: &Analyser) -> Result<Vec<Lit>, OutOfMemory>
    ensures { IfOk result (λ v. v.items ≡ analyser.now.clause) }
{
    let len = analyser.len();
    let mut lits = Vec::with_capacity(alloc, len as usize)?;
    for i in 0..len {
        lits.push(analyser.lit(i))?;
    }
    Ok(lits)
}

/// Makes each variable on the conflict side more active.
fn bump(heap: &mut Heap, analyser: &Analyser)
    requires { analyser.now.vars ≡ heap.old.vars }
    ensures vars { heap.new.vars ≡ heap.old.vars }
    ensures held { (v : ℕ) → IsHeld heap.old v → IsHeld heap.new v }
{
    for i in 0..analyser.seen_len() {
        heap.bump(analyser.seen(i));
    }
}

impl Search {
    /// Makes a clause of one that is false, at a level above those of the assumptions. None where it
    /// would take the words past the room.
    pub fn derive(&mut self, clash: ClauseRef) -> Result<Option<Clause>, OutOfMemory>
        requires search { IsSearch self.old }
        requires unrefuted { self.old.refuted ≡ false }
        requires clash { IsClashOf self.old.arena self.old.trail clash.0 }
        requires above { 0 < length self.old.trail.cuts }
        ensures search { OnOk result (IsSearch self.new) }
        ensures same { OnOk result (IsAnalysed self.old self.new) }
        ensures learnt { IfOk result (λ r. MatchOption r (IsFull self.old.room self.old.words (clauses self.old))
            (λ c. IsLearntFrom self.new c)) }
    {
        self.analyser.analyse(&self.arena, &self.trail, clash);
        if self.has_room(self.analyser.len() as usize) {
            Ok(Some(Clause::from_vec(copied(self.alloc, &self.analyser)?)))
        } else {
            Ok(None)
        }
    }

    /// Jumps back from a conflict, keeps the clause that it gave, and makes its first literal true.
    pub fn take_learnt(&mut self, clause: Clause) -> Result<(), OutOfMemory>
        requires search { IsSearch self.old }
        requires unrefuted { self.old.refuted ≡ false }
        requires learnt { IsLearntFrom self.old clause }
        ensures search { OnOk result (IsSearch self.new) }
        ensures kept { OnOk result (IsKeptOne self.old self.new clause) }
        ensures asking { OnOk result ((query : List Literal) → IsAsking query self.old → IsAsking query self.new) }
        ensures refuted { OnOk result (self.new.refuted ≡ false) }
        ensures learnt { OnOk result (self.new.learnt ≡ more_learnt self.old.learnt 1) }
    {
        bump(&mut self.heap, &self.analyser);
        let back = self.analyser.back();
        self.back_to(back);
        self.keep_asserting(clause)?;
        self.learnt = self.learnt.saturating_add(1);
        Ok(())
    }

    /// Keeps a clause whose first literal is unset and whose others are false, the second one at the
    /// present level, and makes its first literal true; one of a single literal comes at level 0.
    pub fn keep_asserting(&mut self, clause: Clause) -> Result<(), OutOfMemory>
        requires search { IsSearch self.old }
        requires room { self.old.words + length clause + 3 ≤ self.old.room }
        requires asserted { IsAssertedClause self.old.arena self.old.trail clause }
        ensures search { OnOk result (IsSearch self.new) }
        ensures kept { OnOk result (IsKeptOne self.old self.new clause) }
        ensures asking { OnOk result ((query : List Literal) → IsAsking query self.old → IsAsking query self.new) }
        ensures refuted { OnOk result (self.new.refuted ≡ self.old.refuted) }
        ensures learnt { OnOk result (self.new.learnt ≡ self.old.learnt) }
        ensures cuts { OnOk result (self.new.trail.cuts ≡ self.old.trail.cuts) }
    {
        if clause.len() == 1 {
            self.keep_single(clause)
        } else {
            self.keep_long(clause)
        }
    }

    /// Keeps a clause of one literal, at level 0, and makes the literal true.
    fn keep_single(&mut self, clause: Clause) -> Result<(), OutOfMemory>
        requires search { IsSearch self.old }
        requires room { self.old.words + length clause + 3 ≤ self.old.room }
        requires asserted { IsAssertedClause self.old.arena self.old.trail clause }
        requires one { length clause ≡ 1 }
        ensures search { OnOk result (IsSearch self.new) }
        ensures kept { OnOk result (IsKeptOne self.old self.new clause) }
        ensures asking { OnOk result ((query : List Literal) → IsAsking query self.old → IsAsking query self.new) }
        ensures refuted { OnOk result (self.new.refuted ≡ self.old.refuted) }
        ensures learnt { OnOk result (self.new.learnt ≡ self.old.learnt) }
        ensures cuts { OnOk result (self.new.trail.cuts ≡ self.old.trail.cuts) }
    {
        let first = clause.get(0);
        self.own.push(clause)?;
        self.trail.set(first, None);
        self.words += 4;
        Ok(())
    }

    /// Keeps a longer clause whose others are false, and makes its first literal true.
    fn keep_long(&mut self, clause: Clause) -> Result<(), OutOfMemory>
        requires search { IsSearch self.old }
        requires room { self.old.words + length clause + 3 ≤ self.old.room }
        requires asserted { IsAssertedClause self.old.arena self.old.trail clause }
        requires more { length clause ≢ 1 }
        ensures search { OnOk result (IsSearch self.new) }
        ensures kept { OnOk result (IsKeptOne self.old self.new clause) }
        ensures asking { OnOk result ((query : List Literal) → IsAsking query self.old → IsAsking query self.new) }
        ensures refuted { OnOk result (self.new.refuted ≡ self.old.refuted) }
        ensures learnt { OnOk result (self.new.learnt ≡ self.old.learnt) }
        ensures cuts { OnOk result (self.new.trail.cuts ≡ self.old.trail.cuts) }
    {
        let words = clause.len() as u32 + 3;
        let first = clause.get(0);
        let Ok(place) = self.arena.attach(clause.as_slice(), &self.trail) else {
            return Err(OutOfMemory);
        };
        self.trail.set(first, Some(place));
        self.words += words;
        Ok(())
    }
}
