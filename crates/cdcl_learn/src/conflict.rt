// The first unique implication point.
ghost use Rattle.std.specs.Prelude.{◌≡◌, ◌≤◌, ◌<◌, ◌+◌, ℕ, ◌∷◌, All, Contains, length, slice_index_or, true};
ghost use Rattle.cnf_core.specs.Clause.{AreThere, IsThere, IsNamed};
ghost use Rattle.cnf_core.specs.Lit.{literal};
ghost use Rattle.cdcl_learn.specs.Sight.{sight, clauses_in, clause_in, IsSetAbove, IsSound};
ghost use Rattle.cdcl_learn.specs.Cut.{cut_with, cut_with_all, IsSeen, IsResolving, IsStage, IsConflict, IsLearnt};
ghost use Rattle.cdcl_learn.specs.Cut.{IsBack};
ghost use Rattle.cdcl_learn.specs.Shorter.{AreMarked};

use crate::consequences::Consequences;
use crate::work::Work;
use cnf_core::{Lit, Var};
use watch_arena::{Arena, ClauseRef, Trail};

/// The variable of the literal at a place of the trail.
pub fn var_at(trail: &Trail, i: u32) -> Var
    requires { i < length trail.now.lits }
    ensures value { result.0 ≡ (slice_index_or trail.now.lits i (literal 0 true)).var }
    ensures within { result.0 ≤ trail.now.vars }
{
    trail.lit(i).var()
}

/// Adds one false literal to the working clause.
fn add(work: &mut Work, arena: &Arena, trail: &Trail, k: Lit)
    requires there { IsThere trail.now.vars k }
    requires vars { work.old.vars ≡ trail.now.vars }
    ensures { work.new ≡ cut_with (sight arena.now trail.now) work.old k }
{
    let v = k.var();
    if work.is_seen(v) {
        return;
    }
    let level = trail.level_of(v);
    if level == 0 {
        return;
    }
    if level == trail.level() {
        work.add_open(k);
    } else {
        work.add_lower(k);
    }
}

/// Adds all literals of a clause.
fn add_all(work: &mut Work, arena: &Arena, trail: &Trail, c: ClauseRef)
    requires clause { Contains arena.now.places c.0 }
    requires there { AreThere trail.now.vars (clause_in (sight arena.now trail.now) c.0) }
    requires vars { work.old.vars ≡ trail.now.vars }
    ensures value { work.new ≡ cut_with_all (sight arena.now trail.now) work.old
        (clause_in (sight arena.now trail.now) c.0) }
    ensures vars { work.new.vars ≡ work.old.vars }
{
    for i in 0..arena.len_of(c) {
        add(work, arena, trail, arena.lit_of(c, i));
    }
}

/// The last literal of the working clause before a place.
fn last_seen(work: &Work, arena: &Arena, trail: &Trail, end: u32) -> u32
    requires sound { IsSound (sight arena.now trail.now) }
    requires vars { work.now.vars ≡ trail.now.vars }
    requires ready { IsResolving (sight arena.now trail.now) work.now end }
    ensures below { result < end }
    ensures stage { IsStage (sight arena.now trail.now) work.now result }
{
    let mut i = end - 1;
    while !work.is_seen(var_at(trail, i)) {
        i -= 1;
    }
    i
}

/// Leaves the clause of the first unique implication point: the answer, and the literals of lower
/// levels.
fn resolve(work: &mut Work, arena: &Arena, trail: &Trail, clash: ClauseRef) -> Lit
    requires sound { IsSound (sight arena.now trail.now) }
    requires vars { work.old.vars ≡ trail.now.vars }
    requires clash { IsConflict (sight arena.now trail.now) clash.0 }
    ensures vars { work.new.vars ≡ work.old.vars }
    ensures learnt { IsLearnt (sight arena.now trail.now) result work.new.rest }
    ensures marks { AreMarked (sight arena.now trail.now) work.new.seen work.new.rest }
    ensures seen { All (λ k. IsSeen work.new k.var) (result ∷ work.new.rest) }
    ensures named { (v : ℕ) → IsSeen work.new v → IsNamed (clauses_in (sight arena.now trail.now)) v }
    ensures above { (v : ℕ) → IsSeen work.new v → IsSetAbove (sight arena.now trail.now) v }
{
    work.clear();
    add_all(work, arena, trail, clash);
    let mut i = last_seen(work, arena, trail, trail.len());
    while work.pending() > 1 {
        work.close();
        if let Some(c) = trail.reason(var_at(trail, i)) {
            add_all(work, arena, trail, c);
        }
        i = last_seen(work, arena, trail, i);
    }
    trail.lit(i).negated()
}

/// A learnt clause: its first literal, and the level to jump back to. Its further literals are left in
/// the working clause.
#[derive(Clone, Copy)]
pub struct Learnt {
    /// The literal of the present level.
    pub first: Lit,
    /// The latest level among the others, or 0.
    pub back: u32,
}

/// Learns from a clause all of whose literals are false: the clause of the first unique implication
/// point, without the literals that follow from others.
pub fn learn(
    work: &mut Work,
    found: &mut Consequences,
    arena: &Arena,
    trail: &Trail,
    clash: ClauseRef,
) -> Learnt
    requires sound { IsSound (sight arena.now trail.now) }
    requires vars { work.old.vars ≡ trail.now.vars }
    requires clash { IsConflict (sight arena.now trail.now) clash.0 }
    requires tables { trail.now.vars + 1 ≤ length found.old }
    ensures vars { work.new.vars ≡ work.old.vars }
    ensures tables { length found.new ≡ length found.old }
    ensures learnt { IsLearnt (sight arena.now trail.now) result.first work.new.rest }
    ensures back { IsBack (sight arena.now trail.now) work.new.rest result.back }
    ensures seen { All (λ k. IsSeen work.new k.var) (result.first ∷ work.new.rest) }
    ensures named { (v : ℕ) → IsSeen work.new v → IsNamed (clauses_in (sight arena.now trail.now)) v }
    ensures above { (v : ℕ) → IsSeen work.new v → IsSetAbove (sight arena.now trail.now) v }
{
    let first = resolve(work, arena, trail, clash);
    work.shorten(found, arena, trail);
    let back = work.put_latest_first(trail);
    Learnt { first, back }
}
