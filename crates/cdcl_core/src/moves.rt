// The moves along the trail.
ghost use Rattle.std.specs.Prelude.{◌≡◌, ◌≤◌, ◌<◌, ◌+◌, List, false, length, IfSome};
ghost use Rattle.cnf_core.specs.Lit.{Literal};
ghost use Rattle.watch_arena.specs.Trail.{undone};
ghost use Rattle.watch_arena.specs.Arena.{IsClashOf};
ghost use Rattle.cdcl_core.specs.Roots.{HasPropagated, AreOffered};
ghost use Rattle.cdcl_core.specs.Search.{IsSearch, IsSameStore, IsAsking};

use crate::search::Search;
use cnf_core::Lit;
use pick_heap::Heap;
use watch_arena::{ClauseRef, Trail};

/// Remembers the truth of each variable that is set at a later level, and puts it back into the heap.
fn release(heap: &mut Heap, phases: &mut [bool], trail: &Trail, level: u32)
    requires level { level ≤ length trail.now.cuts }
    requires heap { heap.old.vars ≡ trail.now.vars }
    requires phases { length phases.old ≡ trail.now.vars + 1 }
    requires offered { AreOffered heap.old trail.now }
    ensures offered { AreOffered heap.new (undone trail.now level) }
    ensures vars { heap.new.vars ≡ heap.old.vars }
{
    let mut i = trail.len();
    while i > 0 {
        let l = trail.lit(i - 1);
        let v = l.var();
        if trail.level_of(v) <= level {
            break;
        }
        phases[v.0 as usize] = l.positive();
        heap.put_back(v);
        i -= 1;
    }
}

impl Search {
    /// Puts what follows by unit propagation behind the trail. The answer is a clause all of whose
    /// literals are false; None where there is none.
    pub fn propagate(&mut self) -> Option<ClauseRef>
        requires { IsSearch self.old }
        ensures search { IsSearch self.new }
        ensures store { IsSameStore self.old self.new }
        ensures asking { (query : List Literal) → IsAsking query self.old → IsAsking query self.new }
        ensures settled { result ≡ None → HasPropagated self.new.arena self.new.trail }
        ensures clash { IfSome result (λ c. IsClashOf self.new.arena self.new.trail c.0) }
        ensures longer { length self.old.trail.lits ≤ length self.new.trail.lits }
    {
        self.arena.propagate(&mut self.trail)
    }

    /// Leaves the literals of levels up to this one.
    pub fn back_to(&mut self, level: u32)
        requires search { IsSearch self.old }
        requires level { level ≤ length self.old.trail.cuts }
        ensures search { IsSearch self.new }
        ensures arena { self.new.arena ≡ self.old.arena }
        ensures trail { self.new.trail ≡ undone self.old.trail level }
        ensures analyser { self.new.analyser ≡ self.old.analyser }
        ensures own { self.new.own ≡ self.old.own }
        ensures store { IsSameStore self.old self.new }
        ensures asking { (query : List Literal) → IsAsking query self.old → IsAsking query self.new }
        ensures levels { self.new.levels ≤ level }
    {
        release(&mut self.heap, &mut self.phases, &self.trail, level);
        self.trail.undo_to(level);
        if level < self.levels {
            self.levels = level;
            self.assumed = 0;
        }
    }
}
