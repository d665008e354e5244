// A false literal, or a clause that is false, traced back to decisions.
ghost use Rattle.std.specs.Prelude.{◌≡◌, ◌≤◌, ◌<◌, ◌+◌, ◌∷◌, [], List, Contains, length};
ghost use Rattle.cnf_core.specs.Clause.{AreThere, IsThere};
ghost use Rattle.cnf_core.specs.Lit.{Literal, negate, has};
ghost use Rattle.cnf_core.specs.Propagation.{IsIn};
ghost use Rattle.cdcl_learn.specs.Sight.{sight, clause_in, reason_of, IsSound};
ghost use Rattle.watch_arena.specs.Arena.{AreReasoned, IsClashOf};
ghost use Rattle.cdcl_learn.specs.Analysis.{IsImpliedFalse};
ghost use Rattle.cdcl_learn.specs.Trace.{trace_with, trace_with_all, IsTracing, IsTraced};

use crate::conflict::var_at;
use crate::work::Work;
use cnf_core::Lit;
use watch_arena::{Arena, ClauseRef, Trail};

/// Sees one false literal.
fn touch(work: &mut Work, arena: &Arena, trail: &Trail, k: Lit)
    requires there { IsThere trail.now.vars k }
    requires vars { work.old.vars ≡ trail.now.vars }
    ensures { work.new ≡ trace_with (sight arena.now trail.now) work.old k }
{
    let v = k.var();
    if work.is_seen(v) {
        return;
    }
    if trail.level_of(v) == 0 {
        return;
    }
    match trail.reason(v) {
        None => work.add_lower(k),
        Some(_) => work.add_open(k),
    }
}

/// Sees all literals of a clause.
fn touch_all(work: &mut Work, arena: &Arena, trail: &Trail, c: ClauseRef)
    requires clause { Contains arena.now.places c.0 }
    requires there { AreThere trail.now.vars (clause_in (sight arena.now trail.now) c.0) }
    requires vars { work.old.vars ≡ trail.now.vars }
    ensures value { work.new ≡ trace_with_all (sight arena.now trail.now) work.old
        (clause_in (sight arena.now trail.now) c.0) }
    ensures vars { work.new.vars ≡ work.old.vars }
{
    for i in 0..arena.len_of(c) {
        touch(work, arena, trail, arena.lit_of(c, i));
    }
}

/// One place of the walk down the trail.
fn step(work: &mut Work, arena: &Arena, trail: &Trail, i: u32)
    requires sound { IsSound (sight arena.now trail.now) }
    requires vars { work.old.vars ≡ trail.now.vars }
    requires within { i < length trail.now.lits }
    ensures vars { work.new.vars ≡ work.old.vars }
    ensures tracing { (front : List Literal) → IsTracing (sight arena.now trail.now) work.old front (i + 1) →
        IsTracing (sight arena.now trail.now) work.new front i }
{
    let v = var_at(trail, i);
    if work.is_seen(v) {
        if let Some(c) = trail.reason(v) {
            touch_all(work, arena, trail, c);
        }
    }
}

/// Walks down the whole trail, from the variables that were seen first.
fn walk_down(work: &mut Work, arena: &Arena, trail: &Trail)
    requires sound { IsSound (sight arena.now trail.now) }
    requires vars { work.old.vars ≡ trail.now.vars }
    ensures vars { work.new.vars ≡ work.old.vars }
    ensures traced { (front : List Literal) → IsTracing (sight arena.now trail.now) work.old front
        (length trail.now.lits) →
        IsTraced (sight arena.now trail.now) front work.new.rest }
{
    let mut end = trail.len();
    while end > 0 {
        end -= 1;
        step(work, arena, trail, end);
    }
}

/// Walks down from a false literal that this clause made false.
fn trace(work: &mut Work, arena: &Arena, trail: &Trail, l: Lit, reason: ClauseRef)
    requires sound { IsSound (sight arena.now trail.now) }
    requires vars { work.old.vars ≡ trail.now.vars }
    requires there { IsThere trail.now.vars l }
    requires falsified { IsIn (has trail.now.lits) (negate l) }
    requires from { 1 ≤ reason.0 }
    requires reason { reason_of (sight arena.now trail.now) l ≡ reason.0 }
    ensures vars { work.new.vars ≡ work.old.vars }
    ensures traced { IsTraced (sight arena.now trail.now) (negate l ∷ []) work.new.rest }
{
    work.clear();
    work.add_open(l);
    touch_all(work, arena, trail, reason);
    walk_down(work, arena, trail);
}

/// Leaves the negations of the decided literals from which the negation of a false literal follows.
pub fn trace_back(work: &mut Work, arena: &Arena, trail: &Trail, l: Lit)
    requires reasoned { AreReasoned arena.now trail.now }
    requires vars { work.old.vars ≡ trail.now.vars }
    requires arena { arena.now.vars ≡ trail.now.vars }
    requires there { IsThere trail.now.vars l }
    requires implied { IsImpliedFalse arena.now trail.now l }
    ensures vars { work.new.vars ≡ work.old.vars }
    ensures traced { IsTraced (sight arena.now trail.now) (negate l ∷ []) work.new.rest }
{
    let v = l.var();
    if trail.level_of(v) == 0 {
        work.clear();
        return;
    }
    match trail.reason(v) {
        None => work.clear(),
        Some(c) => {
            // what the types keep
            let _clauses = arena.len_of(c);
            trace(work, arena, trail, l, c);
        }
    }
}

/// Leaves the negations of the decided literals from which it follows that a clause is false.
pub fn trace_clash(work: &mut Work, arena: &Arena, trail: &Trail, clash: ClauseRef)
    requires sound { IsSound (sight arena.now trail.now) }
    requires vars { work.old.vars ≡ trail.now.vars }
    requires clash { IsClashOf arena.now trail.now clash.0 }
    ensures vars { work.new.vars ≡ work.old.vars }
    ensures traced { IsTraced (sight arena.now trail.now) [] work.new.rest }
{
    work.clear();
    touch_all(work, arena, trail, clash);
    walk_down(work, arena, trail);
}
