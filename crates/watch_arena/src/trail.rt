// Trails.
ghost use Rattle.std.specs.Prelude.{◌≡◌, ◌≢◌, ◌≤◌, ◌<◌, ◌+◌, ◌*◌, ℕ, [], ◌∷◌, ◌++◌, length, slice_index};
ghost use Rattle.std.specs.Prelude.{slice_index_or, take, IfOk, OnOk, OnErr, MatchOption};
ghost use Rattle.cnf_core.specs.Lit.{negate, has};
ghost use Rattle.cnf_core.specs.Clause.{IsThere};
ghost use Rattle.cnf_core.specs.Trail.{IsTrail};
ghost use Rattle.watch_arena.specs.Trail.{IsMarks, IsUnset, IsValue, IsReason, with_lit, advanced, opened, undone};
ghost use Rattle.watch_arena.specs.Trail.{widened, place_of};
ghost use Rattle.watch_arena.specs.Arena.{Attached, AreWatched, AreReasoned, MayBeSet};

use crate::clause_ref::{ClauseRef, place_of};
use crate::tables::lengthen_all;
use cnf_core::{Lit, VARS, Var};
use plan_core::OutOfMemory;
use std::alloc::Global;
use std::marker::Model;

/// The literals that are true, in the order in which they became so, with their levels and reasons,
/// and how many of them are propagated.
#[derive(Drop)]
pub struct Trail {
    vars: u32,
    truth: Vec<bool>,
    order: Vec<Lit>,
    len: u32,
    front: u32,
    starts: Vec<u32>,
    level: u32,
    reasons: Vec<u32>,
    levels: Vec<u32>,
}

impl Model for Trail {
    ghost use Rattle.watch_arena.specs.Trail.{Marks, marks_of, IsStoredTrail};

    ghost Value = { Marks };

    ghost view = { λ t. marks_of t.vars t.order.items t.len t.front t.starts.items t.level t.reasons.items
        t.levels.items };

    ghost invariant = { λ t. IsStoredTrail t.vars t.truth.items t.order.items t.len t.front t.starts.items t.level
        t.reasons.items t.levels.items };
}

impl Trail {
    /// The trail of these variables, all unset.
    pub fn with_vars(alloc: Global, vars: u32) -> Result<Trail, OutOfMemory>
        requires { vars ≤ VARS }
        ensures vars { IfOk result (λ t. t.vars ≡ vars) }
        ensures lits { IfOk result (λ t. t.lits ≡ []) }
        ensures cuts { IfOk result (λ t. t.cuts ≡ []) }
        ensures front { IfOk result (λ t. t.front ≡ 0) }
        ensures marks { IfOk result (λ t. IsMarks t) }
        ensures reasoned { IfOk result (λ t. (a : Attached) → AreReasoned a t) }
    {
        let literals = 2 * vars as usize + 2;
        Ok(Trail {
            vars,
            truth: vec![in alloc; false; literals]?,
            order: vec![in alloc; Lit::new(Var(1), true); literals]?,
            len: 0,
            front: 0,
            starts: vec![in alloc; 0; literals]?,
            level: 0,
            reasons: vec![in alloc; 0; vars as usize + 1]?,
            levels: vec![in alloc; 0; vars as usize + 1]?,
        })
    }

    /// Takes `n` further variables, which are unset.
    pub fn add_vars(&mut self, n: u32) -> Result<(), OutOfMemory>
        requires { self.old.vars + n ≤ VARS }
        ensures more { OnOk result (self.new ≡ widened self.old n) }
        ensures none { OnErr result (self.new ≡ self.old) }
        ensures marks { IsMarks self.new }
        ensures watched { (a : Attached) → AreWatched a self.old → AreWatched a self.new }
        ensures reasoned { (a : Attached) → AreReasoned a self.old → AreReasoned a self.new }
    {
        lengthen_all(
            &mut self.truth,
            &mut self.order,
            &mut self.starts,
            &mut self.reasons,
            &mut self.levels,
            n,
        )?;
        self.vars += n;
        Ok(())
    }

    /// The number of variables.
    pub fn vars(&self) -> u32
        ensures value { result ≡ self.now.vars }
        ensures marks { IsMarks self.now }
    {
        self.vars
    }

    /// The number of literals.
    pub fn len(&self) -> u32
        ensures value { result ≡ length self.now.lits }
        ensures marks { IsMarks self.now }
    {
        self.len
    }

    /// How many of the first literals are propagated.
    pub fn propagated(&self) -> u32
        ensures value { result ≡ self.now.front }
        ensures marks { IsMarks self.now }
    {
        self.front
    }

    /// The literal at place `i`.
    pub fn lit(&self, i: u32) -> Lit
        requires { i < length self.now.lits }
        ensures value { slice_index_or self.now.lits i result ≡ result }
        ensures there { IsThere self.now.vars result }
    {
        self.order[i as usize]
    }

    /// Whether the literal is true or false; None where its variable is unset.
    pub fn value(&self, l: Lit) -> Option<bool>
        requires { IsThere self.now.vars l }
        ensures { IsValue self.now.lits l result }
    {
        if self.truth[l.word() as usize] {
            return Some(true);
        }
        if self.truth[l.negated().word() as usize] {
            return Some(false);
        }
        None
    }

    /// Whether the literal is false.
    pub fn is_false(&self, l: Lit) -> bool
        requires { IsThere self.now.vars l }
        ensures { result ≡ has self.now.lits (negate l) }
    {
        self.truth[l.negated().word() as usize]
    }

    /// The level at which the literal of a variable became true.
    pub fn level_of(&self, v: Var) -> u32
        requires { v.0 ≤ self.now.vars }
        ensures value { result ≡ slice_index self.now.levels v.0 }
        ensures marks { IsMarks self.now }
    {
        self.levels[v.0 as usize]
    }

    /// The clause that made the literal of a variable true; None where it was decided or set without
    /// a reason.
    pub fn reason(&self, v: Var) -> Option<ClauseRef>
        requires { v.0 ≤ self.now.vars }
        ensures value { IsReason (slice_index self.now.reasons v.0) result }
        ensures marks { IsMarks self.now }
    {
        match self.reasons[v.0 as usize] {
            0 => None,
            place => Some(ClauseRef(place)),
        }
    }

    /// Sets a literal whose variable is unset, at the present level, by a clause or without a reason.
    pub fn set(&mut self, l: Lit, reason: Option<ClauseRef>)
        requires there { IsThere self.old.vars l }
        requires unset { IsUnset self.old.lits l }
        ensures value { self.new ≡ with_lit self.old l (place_of reason) }
        ensures marks { IsMarks self.new }
        ensures watched { (a : Attached) → AreWatched a self.old → AreWatched a self.new }
        ensures reasoned { (a : Attached) → MayBeSet a self.old l reason → AreReasoned a self.old →
            AreReasoned a self.new }
    {
        self.truth[l.word() as usize] = true;
        self.order[self.len as usize] = l;
        let v = l.var();
        self.reasons[v.0 as usize] = place_of(reason);
        self.levels[v.0 as usize] = self.level;
        self.len += 1;
    }

    /// One more literal is propagated: the next of the trail.
    pub(crate) fn advance(&mut self)
        requires { self.old.front < length self.old.lits }
        ensures value { self.new ≡ advanced self.old }
        ensures marks { IsMarks self.new }
    {
        self.front += 1;
    }

    /// The present level: how many levels above 0 began.
    pub fn level(&self) -> u32
        ensures value { result ≡ length self.now.cuts }
        ensures marks { IsMarks self.now }
    {
        self.level
    }

    /// Opens a level with a literal whose variable is unset.
    pub fn decide(&mut self, l: Lit)
        requires there { IsThere self.old.vars l }
        requires unset { IsUnset self.old.lits l }
        requires all { self.old.front ≡ length self.old.lits }
        ensures value { self.new ≡ with_lit (opened self.old) l 0 }
        ensures marks { IsMarks self.new }
        ensures watched { (a : Attached) → AreWatched a self.old → AreWatched a self.new }
        ensures reasoned { (a : Attached) → AreReasoned a self.old → AreReasoned a self.new }
    {
        self.starts[self.level as usize] = self.len;
        self.truth[l.word() as usize] = true;
        self.order[self.len as usize] = l;
        let v = l.var();
        self.reasons[v.0 as usize] = 0;
        self.level += 1;
        self.levels[v.0 as usize] = self.level;
        self.len += 1;
    }

    /// Leaves exactly the literals of levels up to this one.
    pub fn undo_to(&mut self, level: u32)
        requires { level ≤ length self.old.cuts }
        ensures value { self.new ≡ undone self.old level }
        ensures marks { IsMarks self.new }
        ensures watched { (a : Attached) → AreWatched a self.old → AreWatched a self.new }
        ensures reasoned { (a : Attached) → AreReasoned a self.old → AreReasoned a self.new }
    {
        if level < self.level {
            let end = self.starts[level as usize];
            unset(&mut self.truth, &self.order, end, self.len);
            self.len = end;
            self.front = self.front.min(end);
            self.level = level;
        }
    }
}

/// Takes back the marks of the literals from place `from` on.
fn unset(truth: &mut [bool], order: &[Lit], from: u32, to: u32)
    requires from { from ≤ to }
    requires to { to ≤ length order.now }
    requires trail { (vars : ℕ) × IsTrail vars truth.old (take to order.now) }
    ensures { (vars : ℕ) → IsTrail vars truth.old (take to order.now) → IsTrail vars truth.new (take from order.now) }
{
    let mut len = to;
    while len > from {
        len -= 1;
        truth[order[len as usize].word() as usize] = false;
    }
}
