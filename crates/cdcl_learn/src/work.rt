// The working clause.
ghost use Rattle.std.specs.Prelude.{◌≡◌, ◌≢◌, ◌≤◌, ◌<◌, ◌+◌, ◌-◌, ℕ, true, false, length, slice_index, slice_index_or};
ghost use Rattle.std.specs.Prelude.{All, Contains, [], IfOk, OnOk, OnErr};
ghost use Rattle.cnf_core.specs.Clause.{AreDistinct};
ghost use Rattle.cnf_core.specs.Lit.{Literal, negate, has};
ghost use Rattle.cnf_core.specs.Propagation.{IsIn};
ghost use Rattle.watch_arena.specs.Arena.{Attached};
ghost use Rattle.cdcl_learn.specs.Sight.{sight, IsSound};
ghost use Rattle.cdcl_learn.specs.Shorter.{IsFalseBelow, IsShortened};
ghost use Rattle.cdcl_learn.specs.Cut.{is_seen, with_open, with_lower, with_resolved, IsBlank, IsBack, IsLatest};
ghost use Rattle.cdcl_learn.specs.Cut.{IsShuffle};

use crate::consequences::Consequences;
use crate::shorter::keep_needed;
use crate::tables::lengthen_all;
use cnf_core::{Lit, VARS, Var};
use plan_core::OutOfMemory;
use std::alloc::Global;
use std::marker::Model;
use watch_arena::{Arena, Trail};

/// The variables that were seen, the literals of lower levels, and the number of those of the present
/// level that are to be resolved. Its tables have a place for each variable, so no call but the first
/// and `add_vars` takes memory.
#[derive(Drop)]
pub struct Work {
    vars: u32,
    seen: Vec<bool>,
    touched: Vec<u32>,
    count: u32,
    rest: Vec<Lit>,
    len: u32,
    pending: u32,
}

impl Model for Work {
    ghost use Rattle.cdcl_learn.specs.Cut.{Cut, working_cut, IsWork};

    ghost Value = { Cut };

    ghost view = { λ w. working_cut w.vars w.seen.items w.touched.items w.count w.rest.items w.len w.pending };

    ghost invariant = { λ w. IsWork w.vars w.seen.items w.touched.items w.count w.rest.items w.len w.pending };
}

/// Unmarks the first so many variables of a list, which has each marked one.
fn unmark(seen: &mut [bool], touched: &[u32], count: u32)
    requires size { count ≤ length touched.now }
    requires within { (i : ℕ) → i < count → slice_index touched.now i < length seen.old }
    requires all { (v : ℕ) → is_seen seen.old v ≡ true → (i : ℕ) × (i < count) × (slice_index touched.now i ≡ v) }
    ensures { (v : ℕ) → is_seen seen.new v ≡ false }
{
    for i in 0..count {
        let v = touched[i as usize];
        seen[v as usize] = false;
    }
}

/// The place of a literal of the latest level among the first so many.
fn latest(rest: &[Lit], len: u32, trail: &Trail) -> u32
    requires some { 1 ≤ len }
    requires size { len ≤ length rest.now }
    requires there { (i : ℕ) (d : Literal) → i < len → (slice_index_or rest.now i d).var ≤ trail.now.vars }
    ensures below { result < len }
    ensures latest { IsLatest trail.now.levels rest.now len result }
{
    let mut best = 0;
    let mut back = trail.level_of(rest[0].var());
    for i in 1..len {
        let level = trail.level_of(rest[i as usize].var());
        if level > back {
            best = i;
            back = level;
        }
    }
    best
}

impl Work {
    /// The working clause over the variables 1 to `vars`; none is seen.
    pub fn with_vars(alloc: Global, vars: u32) -> Result<Work, OutOfMemory>
        requires { vars ≤ VARS }
        ensures vars { IfOk result (λ w. w.vars ≡ vars) }
        ensures rest { IfOk result (λ w. w.rest ≡ []) }
        ensures met { IfOk result (λ w. w.met ≡ []) }
    {
        let size = vars as usize + 1;
        Ok(Work {
            vars,
            seen: vec![in alloc; false; size]?,
            touched: vec![in alloc; 0; size]?,
            count: 0,
            rest: vec![in alloc; Lit::new(Var(1), true); size]?,
            len: 0,
            pending: 0,
        })
    }

    /// Takes `n` further variables, which aren't seen.
    pub fn add_vars(&mut self, n: u32) -> Result<(), OutOfMemory>
        requires { self.old.vars + n ≤ VARS }
        ensures vars { OnOk result (self.new.vars ≡ self.old.vars + n) }
        ensures rest { OnOk result (self.new.rest ≡ self.old.rest) }
        ensures met { OnOk result (self.new.met ≡ self.old.met) }
        ensures none { OnErr result (self.new ≡ self.old) }
    {
        lengthen_all(&mut self.seen, &mut self.touched, &mut self.rest, n)?;
        self.vars += n;
        Ok(())
    }

    /// Drops literals of lower levels that follow from others.
    pub fn shorten(&mut self, found: &mut Consequences, arena: &Arena, trail: &Trail)
        requires sound { IsSound (sight arena.now trail.now) }
        requires vars { self.old.vars ≡ trail.now.vars }
        requires tables { trail.now.vars + 1 ≤ length found.old }
        requires falsified { All (IsFalseBelow (sight arena.now trail.now)) self.old.rest }
        requires distinct { AreDistinct self.old.rest }
        ensures vars { self.new.vars ≡ self.old.vars }
        ensures seen { self.new.seen ≡ self.old.seen }
        ensures met { self.new.met ≡ self.old.met }
        ensures tables { length found.new ≡ length found.old }
        ensures shortened { IsShortened (sight arena.now trail.now) self.old.seen self.old.rest self.new.rest }
    {
        self.len = keep_needed(&mut self.rest, self.len, &self.seen, found, arena, trail);
    }

    /// Puts a literal of the latest level first among those of lower levels. The answer is its level,
    /// or 0 where there is none.
    pub fn put_latest_first(&mut self, trail: &Trail) -> u32
        requires { All (λ k. k.var ≤ trail.now.vars) self.old.rest }
        ensures shuffle { IsShuffle self.old.rest self.new.rest }
        ensures vars { self.new.vars ≡ self.old.vars }
        ensures seen { self.new.seen ≡ self.old.seen }
        ensures met { self.new.met ≡ self.old.met }
        ensures back { (a : Attached) → IsBack (sight a trail.now) self.new.rest result }
    {
        if self.len == 0 {
            return 0;
        }
        let best = latest(&self.rest, self.len, trail);
        let first = self.rest[0];
        let second = self.rest[best as usize];
        self.rest[0] = second;
        self.rest[best as usize] = first;
        trail.level_of(second.var())
    }

    /// How many literals of lower levels there are.
    pub fn len(&self) -> u32
        ensures value { result ≡ length self.now.rest }
        ensures short { length self.now.rest ≤ self.now.vars + 1 }
        ensures limit { self.now.vars ≤ VARS }
    {
        self.len
    }

    /// The literal of a lower level at place `i`.
    pub fn lit(&self, i: u32) -> Lit
        requires { i < length self.now.rest }
        ensures { slice_index_or self.now.rest i result ≡ result }
    {
        self.rest[i as usize]
    }

    /// How many variables were seen.
    pub fn met_len(&self) -> u32
        ensures value { result ≡ length self.now.met }
        ensures short { length self.now.met ≤ self.now.vars + 1 }
        ensures marked { (i : ℕ) → i < length self.now.met → is_seen self.now.seen (slice_index self.now.met i) ≡ true }
        ensures all { (v : ℕ) → is_seen self.now.seen v ≡ true → Contains self.now.met v }
        ensures apart { (i j : ℕ) → i < j → j < length self.now.met → slice_index self.now.met i ≢ slice_index
            self.now.met j }
    {
        self.count
    }

    /// The variable at place `i` of those that were seen.
    pub fn met(&self, i: u32) -> u32
        requires { i < length self.now.met }
        ensures { result ≡ slice_index self.now.met i }
    {
        self.touched[i as usize]
    }

    /// How many literals of the present level are to be resolved.
    pub fn pending(&self) -> u32
        ensures { result ≡ self.now.pending }
    {
        self.pending
    }

    /// Whether the variable was seen.
    pub fn is_seen(&self, v: Var) -> bool
        requires { v.0 ≤ self.now.vars }
        ensures { result ≡ is_seen self.now.seen v.0 }
    {
        self.seen[v.0 as usize]
    }

    /// No variable is seen.
    pub fn clear(&mut self)
        ensures blank { IsBlank self.new }
        ensures vars { self.new.vars ≡ self.old.vars }
        ensures size { length self.new.seen ≡ self.old.vars + 1 }
        ensures rest { self.new.rest ≡ [] }
        ensures pending { self.new.pending ≡ 0 }
    {
        unmark(&mut self.seen, &self.touched, self.count);
        self.count = 0;
        self.len = 0;
        self.pending = 0;
    }

    /// One more variable of the present level is seen.
    pub fn add_open(&mut self, k: Lit)
        requires within { k.var ≤ self.old.vars }
        requires unseen { is_seen self.old.seen k.var ≡ false }
        ensures { self.new ≡ with_open self.old k }
    {
        let v = k.var().0;
        self.seen[v as usize] = true;
        self.touched[self.count as usize] = v;
        self.count += 1;
        self.pending += 1;
    }

    /// One more literal of a lower level is seen.
    pub fn add_lower(&mut self, k: Lit)
        requires within { k.var ≤ self.old.vars }
        requires unseen { is_seen self.old.seen k.var ≡ false }
        ensures { self.new ≡ with_lower self.old k }
    {
        let v = k.var().0;
        self.seen[v as usize] = true;
        self.touched[self.count as usize] = v;
        self.count += 1;
        self.rest[self.len as usize] = k;
        self.len += 1;
    }

    /// One literal of the present level is resolved.
    pub fn close(&mut self)
        requires { 1 ≤ self.old.pending }
        ensures { self.new ≡ with_resolved self.old }
    {
        self.pending -= 1;
    }
}
