// The heap of variables.
ghost use Rattle.std.specs.Prelude.{◌≡◌, ◌≤◌, ◌<◌, ◌+◌, ◌*◌, ◌/◌, ◌-◌, ◌^◌, ℕ, length, map, MatchOption, IfOk, OnOk};
ghost use Rattle.std.specs.Prelude.{OnErr, replicate, true};
ghost use Rattle.pick_heap.specs.Heap.{AreFresh, IsGreatest, IsHeld, NoneHeld, activity, without, with_held, roomy};
ghost use Rattle.pick_heap.specs.Heap.{raised, bumped, with_fresh};

use crate::matches::{lay_out, leaf_word, play_all, set_leaf};
use cnf_core::{VARS, Var, lengthen};
use plan_core::OutOfMemory;
use std::alloc::Global;
use std::marker::Model;

/// The activity at which all activities are halved, before one would rise further.
pub const HALVED_AT: u16 = 63;

/// Variables with whole-number activities, each held at most once.
#[derive(Drop)]
pub struct Heap {
    vars: u32,
    leaves: u32,
    held: Vec<bool>,
    activities: Vec<u16>,
    tree: Vec<u32>,
}

impl Model for Heap {
    ghost use Rattle.pick_heap.specs.Heap.{Ranked, ranked_of};
    ghost use Rattle.pick_heap.specs.Tree.{IsHeap};

    ghost Value = { Ranked };

    ghost view = { λ h. ranked_of h.vars h.held.items h.activities.items };

    ghost invariant = { λ h. IsHeap h.vars h.leaves h.held.items h.activities.items h.tree.items };
}

/// How many leaves there are for so many variables: a power of two, so that of two children the
/// left one has the smaller variables.
fn leaves_for(vars: u32) -> u32
    requires { vars ≤ VARS }
    ensures some { 1 ≤ result }
    ensures fits { vars ≤ result }
    ensures limit { result ≤ 2 * VARS }
{
    let mut leaves = 1;
    while leaves < vars {
        leaves *= 2;
    }
    leaves
}

/// Halves all activities, rounded down.
fn halve(activities: &mut [u16])
    ensures { activities.new ≡ map (λ a. a / 2) activities.old }
{
    for i in 0..activities.len() {
        activities[i] /= 2;
    }
}

impl Heap {
    /// The heap that holds the variables 1 to `n`, all of activity 0.
    pub fn with_vars(alloc: Global, n: u32) -> Result<Heap, OutOfMemory>
        requires { n ≤ VARS }
        ensures vars { IfOk result (λ h. h.vars ≡ n) }
        ensures fresh { IfOk result (λ h. AreFresh h) }
    {
        let leaves = leaves_for(n);
        let mut held = vec![in alloc; true; n as usize + 1]?;
        held[0] = false;
        let activities = vec![in alloc; 0; n as usize + 1]?;
        let mut tree = vec![in alloc; 0; 2 * leaves as usize]?;
        lay_out(&mut tree, &activities, &held, leaves);
        Ok(Heap {
            vars: n,
            leaves,
            held,
            activities,
            tree,
        })
    }

    /// Takes the next `n` variables, each held and of activity 0. It goes over all variables.
    pub fn add_vars(&mut self, n: u32) -> Result<(), OutOfMemory>
        requires { self.old.vars + n ≤ VARS }
        ensures more { OnOk result (self.new ≡ with_fresh self.old n) }
        ensures none { OnErr result (self.new ≡ self.old) }
        ensures held { OnOk result ((v : ℕ) → self.old.vars < v → v ≤ self.new.vars → IsHeld self.new v) }
        ensures idle { OnOk result ((v : ℕ) → self.old.vars < v → v ≤ self.new.vars → activity self.new v ≡ 0) }
    {
        let leaves = leaves_for(self.vars + n);
        if self.tree.len() < 2 * leaves as usize {
            let more = 2 * leaves as usize - self.tree.len();
            lengthen(&mut self.tree, more, 0)?;
        }
        let before = self.held.len();
        lengthen(&mut self.held, n as usize, true)?;
        match lengthen(&mut self.activities, n as usize, 0) {
            Ok(()) => {}
            Err(e) => {
                self.held.truncate(before);
                return Err(e);
            }
        }
        lay_out(&mut self.tree, &self.activities, &self.held, leaves);
        self.leaves = leaves;
        self.vars += n;
        Ok(())
    }

    /// Adds 1 to the activity of a variable. Where it is `HALVED_AT` already, all activities are halved first.
    pub fn bump(&mut self, v: Var)
        requires from { 1 ≤ v.0 }
        requires to { v.0 ≤ self.old.vars }
        ensures value { self.new ≡ bumped self.old v.0 }
        ensures risen { activity self.new v.0 ≡ activity (roomy self.old v.0) v.0 + 1 }
    {
        self.make_room(v.0);
        self.add_one(v.0);
    }

    /// Halves all activities where that of a variable is `HALVED_AT`.
    fn make_room(&mut self, v: u32)
        requires { v ≤ self.old.vars }
        ensures value { self.new ≡ roomy self.old v }
        ensures room { activity self.new v < HALVED_AT }
    {
        if self.activities[v as usize] < HALVED_AT {
            return;
        }
        halve(&mut self.activities);
        play_all(&mut self.tree, &self.activities, self.leaves);
    }

    /// Adds 1 to the activity of a variable, which is below `HALVED_AT`.
    fn add_one(&mut self, v: u32)
        requires from { 1 ≤ v }
        requires to { v ≤ self.old.vars }
        requires room { activity self.old v < HALVED_AT }
        ensures value { self.new ≡ raised self.old v }
        ensures risen { activity self.new v ≡ activity self.old v + 1 }
    {
        let word = leaf_word(&self.held, v);
        set_leaf(&mut self.tree, &self.activities, self.leaves, v, 0);
        self.activities[v as usize] += 1;
        set_leaf(&mut self.tree, &self.activities, self.leaves, v, word);
    }

    /// Takes a variable of greatest activity out; None where none is held.
    pub fn pop(&mut self) -> Option<Var>
        ensures greatest { MatchOption result (NoneHeld self.old) (λ v. IsGreatest self.old v.0) }
        ensures rest { MatchOption result (self.new ≡ self.old) (λ v. self.new ≡ without self.old v.0) }
    {
        let v = self.tree[1];
        if v == 0 {
            return None;
        }
        self.held[v as usize] = false;
        set_leaf(&mut self.tree, &self.activities, self.leaves, v, 0);
        Some(Var(v))
    }

    /// Leaves a variable held, once.
    pub fn put_back(&mut self, v: Var)
        requires from { 1 ≤ v.0 }
        requires to { v.0 ≤ self.old.vars }
        ensures value { self.new ≡ with_held self.old v.0 }
        ensures held { IsHeld self.new v.0 }
    {
        if self.held[v.0 as usize] {
            return;
        }
        self.held[v.0 as usize] = true;
        set_leaf(&mut self.tree, &self.activities, self.leaves, v.0, v.0);
    }
}
