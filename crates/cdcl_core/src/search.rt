// The state of a search, and how it grows.
ghost use Rattle.std.specs.Prelude.{◌≡◌, ◌≤◌, ◌<◌, ◌+◌, ◌-◌, ◌↔◌, [], false, length, IfOk, OnOk, IsErrOf};
ghost use Rattle.cnf_core.specs.Clause.{AreThere};
ghost use Rattle.cdcl_core.specs.Search.{IsFitted, IsIdle, kept_of};
ghost use Rattle.cdcl_core.specs.Kept.{blank, with_more_vars};

use crate::fault::AddFault;
use cdcl_learn::Analyser;
use cnf_core::{Clause, Lit, ROOM, Truths, VARS, Var, lengthen};
use pick_heap::Heap;
use plan_core::OutOfMemory;
use std::alloc::Global;
use watch_arena::{Arena, Trail};

/// The parts of a solver.
#[derive(Drop)]
pub struct Search {
    pub alloc: Global,
    /// The most words that the clauses may have.
    pub room: u32,
    pub trail: Trail,
    /// The clauses of two literals or more of which not all were false when they came.
    pub arena: Arena,
    /// The variables that may be decided.
    pub heap: Heap,
    pub analyser: Analyser,
    /// By variable, the truth value that it has when it is decided next.
    pub phases: Vec<bool>,
    /// The other clauses.
    pub own: Vec<Clause>,
    /// The memory of the clause that was given before, for the next one. It is empty where that clause wasn't kept by
    /// `keep_attached`, and after an error.
    pub spare: Vec<Lit>,
    /// The words of all clauses.
    pub words: u32,
    /// How many clauses were learnt.
    pub learnt: u32,
    /// Whether propagation alone falsifies a clause.
    pub refuted: bool,
    /// How many levels were opened by assumptions.
    pub levels: u32,
    /// How many of the first assumptions are true.
    pub assumed: usize,
}

impl Search {
    /// No variable and no clause is there.
    pub fn new(alloc: Global, room: u32) -> Result<Search, OutOfMemory>
        requires { room ≤ ROOM }
        ensures idle { IfOk result (λ s. IsIdle s) }
        ensures blank { IfOk result (λ s. kept_of s None [] false ≡ blank room) }
    {
        Ok(Search {
            alloc,
            room,
            trail: Trail::with_vars(alloc, 0)?,
            arena: Arena::new(alloc, 0, room)?,
            heap: Heap::with_vars(alloc, 0)?,
            analyser: Analyser::with_vars(alloc, 0)?,
            phases: vec![in alloc; false; 1]?,
            own: Vec::new(alloc),
            spare: Vec::new(alloc),
            words: 0,
            learnt: 0,
            refuted: false,
            levels: 0,
            assumed: 0,
        })
    }

    /// Takes `n` further variables.
    pub fn add_vars(&mut self, n: u32) -> Result<(), AddFault>
        requires { IsIdle self.old }
        ensures idle { OnOk result (IsIdle self.new) }
        ensures more { OnOk result
            (kept_of self.new None [] false ≡ with_more_vars (kept_of self.old None [] false) n) }
        ensures room { IsErrOf result AddFault.Room ↔ VARS < self.old.trail.vars + n }
        ensures cause { IsErrOf result AddFault.Log → ⊥ }
    {
        if n > VARS - self.trail.vars() {
            return Err(AddFault::Room);
        }
        lengthen(&mut self.phases, n as usize, false)?;
        self.arena.add_vars(n)?;
        self.heap.add_vars(n)?;
        self.analyser.add_vars(n)?;
        self.trail.add_vars(n)?;
        Ok(())
    }

    /// Says that a clause is to be added.
    pub fn expect(&mut self, lits: &[Lit])
        requires idle { IsIdle self.old }
        requires there { AreThere self.old.trail.vars lits.now }
        ensures idle { IsIdle self.new }
        ensures same { kept_of self.new None [] false ≡ kept_of self.old None [] false }
    {
        self.arena.expect(lits);
    }

    /// Whether a further clause of so many literals is within the room.
    pub fn has_room(&self, n: usize) -> bool
        requires { IsFitted self.now }
        ensures { result ≡ false ↔ self.now.room < self.now.words + n + 3 }
    {
        let left = (self.room - self.words) as usize;
        left >= 3 && n <= left - 3
    }

    /// Takes a truth value for each variable, for when it is decided next.
    pub fn suggest(&mut self, m: &Truths)
        requires idle { IsIdle self.old }
        requires vars { length m.now ≡ self.old.trail.vars }
        ensures idle { IsIdle self.new }
        ensures same { kept_of self.new None [] false ≡ kept_of self.old None [] false }
    {
        let vars = self.trail.vars();
        suggest(&mut self.phases, m, vars);
    }
}

/// Copies the truth values of the variables 1 to `vars`.
fn suggest(phases: &mut [bool], m: &Truths, vars: u32)
    requires phases { length phases.old ≡ vars + 1 }
    requires vars { length m.now ≡ vars }
    requires limit { vars ≤ VARS }
{
    for i in 0..vars {
        phases[i as usize + 1] = m.holds(Lit::new(Var(i + 1), true));
    }
}
