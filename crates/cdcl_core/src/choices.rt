// What is decided next.
ghost use Rattle.std.specs.Prelude.{◌≡◌, ◌≢◌, ◌≤◌, ◌<◌, ◌+◌, ℕ, All, true, false, length, slice_index_or, IfSome};
ghost use Rattle.cnf_core.specs.Lit.{Literal, has, literal};
ghost use Rattle.cnf_core.specs.Clause.{IsThere, AreThere, AreDistinct};
ghost use Rattle.cnf_core.specs.Propagation.{IsIn};
ghost use Rattle.watch_arena.specs.Trail.{IsUnset};
ghost use Rattle.pick_heap.specs.Heap.{IsHeld};
ghost use Rattle.cdcl_core.specs.Roots.{HasPropagated, AreOffered};
ghost use Rattle.cdcl_core.specs.Search.{IsSearch, IsSameStore, IsAsking, IsStop};

use crate::search::Search;
use cnf_core::{Lit, Var};
use pick_heap::Heap;
use watch_arena::{ClauseRef, Trail};

/// Where a search can't go on by deciding.
#[derive(Clone, Copy)]
pub enum Stop {
    /// All literals of the clause are false.
    Clash(ClauseRef),
    /// An assumption is false.
    Denied(Lit),
    /// All variables are set.
    Complete,
}

/// The place of the first assumption from `from` on that isn't true, or their number.
fn past_true(query: &[Lit], trail: &Trail, from: usize) -> usize
    requires there { AreThere trail.now.vars query.now }
    requires from { from ≤ length query.now }
    ensures from { from ≤ result }
    ensures to { result ≤ length query.now }
    ensures before { (i : ℕ) (d : Literal) → from ≤ i → i < result → IsIn (has trail.now.lits)
        (slice_index_or query.now i d) }
    ensures here { (d : Literal) → result < length query.now → has trail.now.lits (slice_index_or query.now result d)
        ≡ false }
{
    let mut i = from;
    while i < query.len() {
        let l = query[i];
        if !trail.is_false(l.negated()) {
            return i;
        }
        i += 1;
    }
    i
}

/// Whether a literal is neither true nor false.
pub fn is_unset(trail: &Trail, l: Lit) -> bool
    requires { IsThere trail.now.vars l }
    ensures unset { result ≡ true → IsUnset trail.now.lits l }
    ensures set { result ≡ false → IsUnset trail.now.lits l → ⊥ }
{
    match trail.value(l) {
        None => true,
        Some(_) => false,
    }
}

/// Takes the most active variable that is unset; None where all are set.
fn pick(heap: &mut Heap, trail: &Trail) -> Option<Var>
    requires offered { AreOffered heap.old trail.now }
    requires vars { heap.old.vars ≡ trail.now.vars }
    ensures vars { heap.new.vars ≡ heap.old.vars }
    ensures none { result ≡ None → (l : Literal) → IsThere trail.now.vars l → IsUnset trail.now.lits l → ⊥ }
    ensures from { IfSome result (λ v. 1 ≤ v.0) }
    ensures to { IfSome result (λ v. v.0 ≤ trail.now.vars) }
    ensures unset { IfSome result (λ v. IsUnset trail.now.lits (literal v.0 true)) }
    ensures others { IfSome result (λ v. (l : Literal) → IsThere trail.now.vars l → IsUnset trail.now.lits l →
        l.var ≢ v.0 →
        IsHeld heap.new l.var) }
{
    let _vars = trail.vars();
    while let Some(v) = heap.pop() {
        if is_unset(trail, Lit::new(v, true)) {
            return Some(v);
        }
    }
    None
}

impl Search {
    /// Decides the next assumption, which isn't true; or answers that it is false.
    fn assume(&mut self, query: &[Lit]) -> Option<Stop>
        requires search { IsSearch self.old }
        requires settled { HasPropagated self.old.arena self.old.trail }
        requires there { AreThere self.old.trail.vars query.now }
        requires distinct { AreDistinct query.now }
        requires asking { IsAsking query.now self.old }
        requires left { self.old.assumed < length query.now }
        requires untrue { (d : Literal) → has self.old.trail.lits (slice_index_or query.now self.old.assumed d)
            ≡ false }
        ensures search { IsSearch self.new }
        ensures asking { IsAsking query.now self.new }
        ensures store { IsSameStore self.old self.new }
        ensures stop { IfSome result (λ s. IsStop query.now self.new s) }
        ensures more { result ≡ None → length self.old.trail.lits < length self.new.trail.lits }
    {
        let l = query[self.assumed];
        if self.trail.is_false(l) {
            return Some(Stop::Denied(l));
        }
        self.trail.decide(l);
        self.levels += 1;
        self.assumed += 1;
        None
    }

    /// Decides the most active variable that is unset; or answers that all are set.
    fn choose(&mut self, query: &[Lit]) -> Option<Stop>
        requires search { IsSearch self.old }
        requires unrefuted { self.old.refuted ≡ false }
        requires settled { HasPropagated self.old.arena self.old.trail }
        requires asking { IsAsking query.now self.old }
        requires all { length query.now ≤ self.old.assumed }
        ensures search { IsSearch self.new }
        ensures asking { IsAsking query.now self.new }
        ensures store { IsSameStore self.old self.new }
        ensures stop { IfSome result (λ s. IsStop query.now self.new s) }
        ensures more { result ≡ None → length self.old.trail.lits < length self.new.trail.lits }
    {
        match pick(&mut self.heap, &self.trail) {
            None => Some(Stop::Complete),
            Some(v) => {
                let l = Lit::new(v, self.phases[v.0 as usize]);
                self.trail.decide(l);
                None
            }
        }
    }

    /// Decides one literal where all is propagated: the next assumption, or else a variable.
    fn decide_next(&mut self, query: &[Lit]) -> Option<Stop>
        requires search { IsSearch self.old }
        requires unrefuted { self.old.refuted ≡ false }
        requires settled { HasPropagated self.old.arena self.old.trail }
        requires there { AreThere self.old.trail.vars query.now }
        requires distinct { AreDistinct query.now }
        requires asking { IsAsking query.now self.old }
        ensures search { IsSearch self.new }
        ensures asking { IsAsking query.now self.new }
        ensures store { IsSameStore self.old self.new }
        ensures stop { IfSome result (λ s. IsStop query.now self.new s) }
        ensures more { result ≡ None → length self.old.trail.lits < length self.new.trail.lits }
    {
        self.assumed = past_true(query, &self.trail, self.assumed);
        if self.assumed < query.len() {
            self.assume(query)
        } else {
            self.choose(query)
        }
    }

    /// Propagates and decides until a clause or an assumption is false, or all variables are set.
    pub fn descend(&mut self, query: &[Lit]) -> Stop
        requires search { IsSearch self.old }
        requires unrefuted { self.old.refuted ≡ false }
        requires there { AreThere self.old.trail.vars query.now }
        requires distinct { AreDistinct query.now }
        requires asking { IsAsking query.now self.old }
        ensures search { IsSearch self.new }
        ensures asking { IsAsking query.now self.new }
        ensures store { IsSameStore self.old self.new }
        ensures stop { IsStop query.now self.new result }
    {
        loop {
            if let Some(clash) = self.propagate() {
                return Stop::Clash(clash);
            }
            if let Some(stop) = self.decide_next(query) {
                return stop;
            }
        }
    }
}
