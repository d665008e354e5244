// The analyser as one value.
ghost use Rattle.std.specs.Prelude.{◌≡◌, ◌≢◌, ◌≤◌, ◌<◌, ◌+◌, ℕ, true, Contains, [], length, slice_index};
ghost use Rattle.std.specs.Prelude.{slice_index_or, take, IfOk, OnOk, OnErr};
ghost use Rattle.cnf_core.specs.Clause.{IsThere};
ghost use Rattle.watch_arena.specs.Arena.{AreReasoned, IsClashOf};
ghost use Rattle.cdcl_learn.specs.Sight.{sight};
ghost use Rattle.cdcl_learn.specs.Cut.{is_seen, IsConflict, IsLearntOf};
ghost use Rattle.cdcl_learn.specs.Trace.{IsTraced, IsTracedOf};
ghost use Rattle.cdcl_learn.specs.Analysis.{AreVars, AreSeen, IsImpliedFalse};

use crate::conflict::learn;
use crate::consequences::Consequences;
use crate::tracing::{trace_back, trace_clash};
use crate::work::Work;
use cnf_core::{Lit, VARS, Var, lengthen};
use plan_core::OutOfMemory;
use std::alloc::Global;
use std::marker::Model;
use watch_arena::{Arena, ClauseRef, Trail};

/// Makes a clause of a conflict, or of a false literal or clause, and holds it until the next one.
#[derive(Drop)]
pub struct Analyser {
    work: Work,
    found: Consequences,
    /// Whether the clause has `first` before the literals of `work`.
    headed: bool,
    first: Lit,
    back: u32,
    side: Vec<u32>,
    side_len: u32,
}

impl Model for Analyser {
    ghost use Rattle.cdcl_learn.specs.Analysis.{Analysis, analysis_of, IsAnalyser};

    ghost Value = { Analysis };

    ghost view = { λ a. analysis_of a.work a.headed a.first a.back a.side.items a.side_len };

    ghost invariant = { λ a. IsAnalyser a.work a.found a.side.items a.side_len };
}

/// Copies the variables that were seen. The answer is how many there are.
fn copy_met(side: &mut [u32], work: &Work) -> u32
    requires { work.now.vars + 1 ≤ length side.old }
    ensures len { result ≡ length work.now.met }
    ensures same { take result side.new ≡ work.now.met }
    ensures short { result ≤ work.now.vars + 1 }
    ensures marked { (i : ℕ) → i < length work.now.met → is_seen work.now.seen (slice_index work.now.met i) ≡ true }
    ensures all { (v : ℕ) → is_seen work.now.seen v ≡ true → Contains work.now.met v }
    ensures apart { (i j : ℕ) → i < j → j < length work.now.met → slice_index work.now.met i ≢ slice_index work.now.met
        j }
{
    let len = work.met_len();
    for i in 0..len {
        side[i as usize] = work.met(i);
    }
    len
}

impl Analyser {
    /// The analyser of these variables, without a clause.
    pub fn with_vars(alloc: Global, n: u32) -> Result<Analyser, OutOfMemory>
        requires { n ≤ VARS }
        ensures vars { IfOk result (λ a. a.vars ≡ n) }
        ensures clause { IfOk result (λ a. a.clause ≡ []) }
        ensures seen { IfOk result (λ a. a.seen ≡ []) }
    {
        Ok(Analyser {
            work: Work::with_vars(alloc, n)?,
            found: Consequences::with_vars(alloc, n)?,
            headed: false,
            first: Lit::new(Var(1), true),
            back: 0,
            side: vec![in alloc; 0; n as usize + 1]?,
            side_len: 0,
        })
    }

    /// Takes `n` further variables.
    pub fn add_vars(&mut self, n: u32) -> Result<(), OutOfMemory>
        requires { self.old.vars + n ≤ VARS }
        ensures vars { OnOk result (self.new.vars ≡ self.old.vars + n) }
        ensures none { OnErr result (self.new.vars ≡ self.old.vars) }
        ensures clause { self.new.clause ≡ self.old.clause }
        ensures back { self.new.back ≡ self.old.back }
        ensures seen { self.new.seen ≡ self.old.seen }
    {
        lengthen(&mut self.side, n as usize, 0)?;
        self.found.add_vars(n)?;
        self.work.add_vars(n)
    }

    /// Learns from a clause all of whose literals are false, one of them at the present level: leaves
    /// the clause of the first unique implication point, without the literals that follow from
    /// others.
    pub fn analyse(&mut self, arena: &Arena, trail: &Trail, clash: ClauseRef)
        requires reasoned { AreReasoned arena.now trail.now }
        requires vars { self.old.vars ≡ trail.now.vars }
        requires arena { arena.now.vars ≡ trail.now.vars }
        requires clash { IsConflict (sight arena.now trail.now) clash.0 }
        ensures vars { self.new.vars ≡ self.old.vars }
        ensures learnt { IsLearntOf (sight arena.now trail.now) self.new.clause self.new.back }
        ensures seen { AreSeen arena.now trail.now self.new.clause self.new.seen }
    {
        // what the types keep
        let _level = trail.level();
        let _literals = arena.len_of(clash);
        let learnt = learn(&mut self.work, &mut self.found, arena, trail, clash);
        // what the types keep
        let _short = self.work.len();
        self.headed = true;
        self.first = learnt.first;
        self.back = learnt.back;
        self.side_len = copy_met(&mut self.side, &self.work);
    }

    /// Leaves the negation of a false literal that wasn't decided, and the negations of the decided
    /// literals from which that follows.
    pub fn trace_back(&mut self, arena: &Arena, trail: &Trail, l: Lit)
        requires reasoned { AreReasoned arena.now trail.now }
        requires vars { self.old.vars ≡ trail.now.vars }
        requires arena { arena.now.vars ≡ trail.now.vars }
        requires there { IsThere trail.now.vars l }
        requires implied { IsImpliedFalse arena.now trail.now l }
        ensures vars { self.new.vars ≡ self.old.vars }
        ensures traced { IsTracedOf (sight arena.now trail.now) l self.new.clause }
        ensures back { self.new.back ≡ 0 }
        ensures seen { self.new.seen ≡ self.old.seen }
    {
        trace_back(&mut self.work, arena, trail, l);
        // what the types keep
        let _short = self.work.len();
        self.headed = true;
        self.first = l.negated();
        self.back = 0;
    }

    /// Leaves the negations of the decided literals from which it follows that a clause is false.
    pub fn trace_clash(&mut self, arena: &Arena, trail: &Trail, clash: ClauseRef)
        requires reasoned { AreReasoned arena.now trail.now }
        requires vars { self.old.vars ≡ trail.now.vars }
        requires arena { arena.now.vars ≡ trail.now.vars }
        requires clash { IsClashOf arena.now trail.now clash.0 }
        ensures vars { self.new.vars ≡ self.old.vars }
        ensures traced { IsTraced (sight arena.now trail.now) [] self.new.clause }
        ensures back { self.new.back ≡ 0 }
        ensures seen { self.new.seen ≡ self.old.seen }
    {
        // what the types keep
        let _level = trail.level();
        let _literals = arena.len_of(clash);
        trace_clash(&mut self.work, arena, trail, clash);
        // what the types keep
        let _short = self.work.len();
        self.headed = false;
        self.back = 0;
    }

    /// Leaves the clause without literals.
    pub fn clear(&mut self)
        ensures vars { self.new.vars ≡ self.old.vars }
        ensures clause { self.new.clause ≡ [] }
        ensures back { self.new.back ≡ 0 }
        ensures seen { self.new.seen ≡ self.old.seen }
    {
        self.work.clear();
        self.headed = false;
        self.back = 0;
    }

    /// The number of literals of the clause.
    pub fn len(&self) -> u32
        ensures { result ≡ length self.now.clause }
    {
        let rest = self.work.len();
        if self.headed { rest + 1 } else { rest }
    }

    /// The literal of the clause at place `i`.
    pub fn lit(&self, i: u32) -> Lit
        requires { i < length self.now.clause }
        ensures { slice_index_or self.now.clause i result ≡ result }
    {
        if !self.headed {
            return self.work.lit(i);
        }
        if i == 0 {
            self.first
        } else {
            self.work.lit(i - 1)
        }
    }

    /// The level to jump back to: the latest among the literals behind the first, or 0.
    pub fn back(&self) -> u32
        ensures { result ≡ self.now.back }
    {
        self.back
    }

    /// How many variables there are on the conflict side of the latest analysis.
    pub fn seen_len(&self) -> u32
        ensures value { result ≡ length self.now.seen }
        ensures vars { AreVars self.now.vars self.now.seen }
    {
        self.side_len
    }

    /// The variable at place `i` of those on the conflict side.
    pub fn seen(&self, i: u32) -> Var
        requires { i < length self.now.seen }
        ensures value { result.0 ≡ slice_index self.now.seen i }
        ensures from { 1 ≤ result.0 }
        ensures to { result.0 ≤ self.now.vars }
    {
        Var(self.side[i as usize])
    }
}
