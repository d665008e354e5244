// Watched clauses.
ghost use Rattle.std.specs.Prelude.{◌≡◌, ◌≤◌, ◌<◌, ◌+◌, ◌*◌, ◌↔◌, ◌∷◌, ◌++◌, ℕ, Contains, length, slice_index_or, []};
ghost use Rattle.std.specs.Prelude.{IfSome, IfOk, OnOk, OnErr, IsErrOf};
ghost use Rattle.cnf_core.specs.Clause.{AreDistinct, AreThere};
ghost use Rattle.cnf_core.specs.Lit.{has};
ghost use Rattle.cnf_core.specs.Propagation.{Falsifies, IsClosure};
ghost use Rattle.watch_arena.specs.declared.fault.ArenaFault.TheVariants.{Room};
ghost use Rattle.watch_arena.specs.Trail.{Marks, IsMarks, IsLonger};
ghost use Rattle.cnf_core.specs.Trail.{Grows};
ghost use Rattle.watch_arena.specs.Walk.{KeepsReasons};
ghost use Rattle.watch_arena.specs.Arena.{AreWatched, AreReasoned, AreBecause, AreAttached, IsSameText, IsMoreText};
ghost use Rattle.watch_arena.specs.Arena.{MayBeWatched, IsClashOf, attached_at, attached_clauses, spread};

use crate::attach::{attach, expect_all};
use crate::clause_ref::ClauseRef;
use crate::fault::ArenaFault;
use crate::rows::Rows;
use crate::trail::Trail;
use crate::walks::propagate;
use cnf_core::{Lit, ROOM, VARS};
use plan_core::OutOfMemory;
use std::alloc::Global;
use std::marker::Model;

/// Clauses. The words hold for each its length, two words that are free, and its literals. Its watches are its first
/// two literals. Each literal has a row, with an entry for each clause that it is a watch of: first those of two
/// literals, then the longer ones. A row has place for each clause that has its literal, so that a watch moves without
/// memory.
#[derive(Drop)]
pub struct Arena {
    vars: u32,
    room: u32,
    words: Vec<u32>,
    rows: Rows,
    places: Vec<u32>,
    visits: u64,
}

impl Model for Arena {
    ghost use Rattle.watch_arena.specs.Arena.{Attached, attached_of, IsArena};

    ghost Value = { Attached };

    ghost view = { λ a. attached_of a.vars a.room a.words.items a.places.items a.visits };

    ghost invariant = { λ a. IsArena a.vars a.room a.words.items a.places.items a.rows };
}

impl Arena {
    /// The arena without clauses, for at most `room` words of clauses.
    pub fn new(alloc: Global, vars: u32, room: u32) -> Result<Arena, OutOfMemory>
        requires vars { vars ≤ VARS }
        requires room { room ≤ ROOM }
        ensures vars { IfOk result (λ a. a.vars ≡ vars) }
        ensures room { IfOk result (λ a. a.room ≡ room) }
        ensures words { IfOk result (λ a. length a.words ≡ 1) }
        ensures places { IfOk result (λ a. a.places ≡ []) }
        ensures visits { IfOk result (λ a. a.visits ≡ 0) }
        ensures watched { IfOk result (λ a. (m : Marks) → AreWatched a m) }
    {
        let mut rows = Rows::new(alloc);
        rows.add(2 * vars as usize + 2)?;
        Ok(Arena {
            vars,
            room,
            words: vec![in alloc; 0; 1]?,
            rows,
            places: Vec::new(alloc),
            visits: 0,
        })
    }

    /// Takes `n` further variables, and changes no clause.
    pub fn add_vars(&mut self, n: u32) -> Result<(), OutOfMemory>
        requires { self.old.vars + n ≤ VARS }
        ensures more { OnOk result (self.new ≡ spread self.old n) }
        ensures none { OnErr result (self.new ≡ self.old) }
        ensures watched { (m : Marks) → AreWatched self.old m → AreWatched self.new m }
        ensures reasoned { (m : Marks) → AreReasoned self.old m → AreReasoned self.new m }
    {
        self.rows.add(2 * n as usize)?;
        self.vars += n;
        Ok(())
    }

    /// The number of literals of a clause.
    pub fn len_of(&self, clause: ClauseRef) -> u32
        requires { Contains self.now.places clause.0 }
        ensures value { result ≡ length (attached_at self.now clause.0) }
        ensures attached { AreAttached self.now }
    {
        self.words[clause.0 as usize]
    }

    /// The literal of a clause at place `i` of it, in the present order.
    pub fn lit_of(&self, clause: ClauseRef, i: u32) -> Lit
        requires clause { Contains self.now.places clause.0 }
        requires below { i < length (attached_at self.now clause.0) }
        ensures { slice_index_or (attached_at self.now clause.0) i result ≡ result }
    {
        Lit::from_word(self.words[(clause.0 + 3 + i) as usize])
    }

    /// How many entries `propagate` has gone through, each for a clause that a false literal watches. Behind a
    /// false clause of two literals no longer clause is counted. The count stops at its type's end.
    pub fn visits(&self) -> u64
        ensures { result ≡ self.now.visits }
    {
        self.visits
    }

    /// Puts what follows by unit propagation behind the trail. None: the trail's literals are the
    /// closure of what they were. Else the answer is a clause all of whose literals are false. Each
    /// further literal has the clause as reason that made it true.
    pub fn propagate(&mut self, trail: &mut Trail) -> Option<ClauseRef>
        requires vars { trail.old.vars ≡ self.old.vars }
        requires watched { AreWatched self.old trail.old }
        ensures marks { IsMarks trail.new }
        ensures watched { AreWatched self.new trail.new }
        ensures reasoned { AreReasoned self.old trail.old → AreReasoned self.new trail.new }
        ensures text { IsSameText self.old self.new }
        ensures longer { IsLonger trail.old trail.new }
        ensures grows { Grows (attached_clauses self.old) trail.old.lits trail.new.lits }
        ensures reasons { KeepsReasons trail.old trail.new }
        ensures because { AreBecause self.new trail.old trail.new }
        ensures front { trail.old.front ≤ trail.new.front }
        ensures all { result ≡ None → trail.new.front ≡ length trail.new.lits }
        ensures closes { result ≡ None
            → IsClosure (attached_clauses self.old) (has trail.old.lits) (has trail.new.lits) }
        ensures clash { IfSome result (λ c. IsClashOf self.new trail.new c.0) }
        ensures falsifies { IfSome result (λ _. Falsifies (attached_clauses self.old) (has trail.old.lits)) }
        ensures visits { self.old.visits ≤ self.new.visits }
    {
        propagate(
            &mut self.words,
            &mut self.rows,
            &self.places,
            trail,
            &mut self.visits,
        )
    }

    /// Says that a clause is to be attached. Whoever calls this for many clauses before the first of them is attached
    /// gives each of their rows its place at once. It changes nothing that is seen.
    pub fn expect(&mut self, lits: &[Lit])
        requires { AreThere self.old.vars lits.now }
        ensures { self.new ≡ self.old }
    {
        expect_all(&mut self.rows, lits);
    }

    /// Attaches a clause of distinct variables, and watches its first two literals. `Room` comes
    /// exactly where the words so far, the literals and 3 pass the room. On whichever trail the arena was
    /// watched, it is so with the clause, where its first two literals may be watched.
    pub fn attach(&mut self, lits: &[Lit], trail: &Trail) -> Result<ClauseRef, ArenaFault>
        requires vars { trail.now.vars ≡ self.old.vars }
        requires two { 2 ≤ length lits.now }
        requires there { AreThere self.old.vars lits.now }
        requires distinct { AreDistinct lits.now }
        ensures places { IfOk result (λ c. self.new.places ≡ self.old.places ++ c.0 ∷ []) }
        ensures clause { IfOk result (λ c. attached_at self.new c.0 ≡ lits.now) }
        ensures words { OnOk result (length self.new.words ≡ length self.old.words + length lits.now + 3) }
        ensures others { IsMoreText self.old self.new }
        ensures watched { OnOk result ((m : Marks) → AreWatched self.old m → MayBeWatched m lits.now →
            AreWatched self.new m) }
        ensures reasoned { (m : Marks) → AreReasoned self.old m → AreReasoned self.new m }
        ensures attached { AreAttached self.new }
        ensures none { OnErr result (self.new ≡ self.old) }
        ensures room { IsErrOf result Room ↔ self.old.room + 1 < length self.old.words + length lits.now + 3 }
    {
        attach(
            &mut self.words,
            &mut self.rows,
            &mut self.places,
            trail,
            lits,
            self.room,
        )
    }
}
