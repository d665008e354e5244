// Which variables are needed, and the hints that are found by them.
ghost use Rattle.std.specs.Prelude.{◌≡◌, ◌≤◌, ◌<◌, ◌⊎◌, ◌+◌, ◌++◌, ◌∷◌, [], ℕ, List, All, Contains, length, OnOk, true};
ghost use Rattle.cnf_core.specs.Lit.{Literal};
ghost use Rattle.cnf_core.specs.Clause.{Clauses};
ghost use Rattle.watch_arena.specs.Arena.{IsClashOf, attached_at};
ghost use Rattle.log_trim.specs.Found.{AreClauses, IsFoundFromFront, GoOn, NeedsWithin, HaveReasons, is_needed};
ghost use Rattle.log_trim.specs.Found.{number_of_place, NoneNeeded, AreOnTrail};

use cnf_core::Var;
use plan_core::OutOfMemory;
use watch_arena::{Arena, ClauseRef, Trail};

/// The number of the clause at a place of the arena; 0 past the table.
fn number_of(numbers: &[u32], place: u32) -> u32
    ensures { result ≡ number_of_place numbers.now place }
{
    numbers.get(place as usize).copied().unwrap_or(0)
}

/// Whether a variable is needed. One past the table isn't.
fn is_needed(needed: &[bool], v: Var) -> bool
    ensures { result ≡ is_needed needed.now v.0 }
{
    let i = v.0 as usize;
    i < needed.len() && needed[i]
}

/// A variable is needed, if the table has it.
fn need_var(needed: &mut [bool], v: Var)
    ensures size { length needed.new ≡ length needed.old }
    ensures keeps { (x : ℕ) → is_needed needed.old x ≡ true → is_needed needed.new x ≡ true }
    ensures needed_ { v.0 < length needed.new → is_needed needed.new v.0 ≡ true }
    ensures only { (x : ℕ) → is_needed needed.new x ≡ true → (is_needed needed.old x ≡ true) ⊎ (v.0 ≡ x) }
{
    let i = v.0 as usize;
    if i < needed.len() {
        needed[i] = true;
    }
}

/// The variables of a clause are needed, those that the table has.
fn need(needed: &mut [bool], arena: &Arena, clause: ClauseRef)
    requires { Contains arena.now.places clause.0 }
    ensures { NeedsWithin (attached_at arena.now clause.0) needed.old needed.new }
{
    for i in 0..arena.len_of(clause) {
        need_var(needed, arena.lit_of(clause, i).var());
    }
}

/// No variable of the trail is needed any more.
pub(crate) fn clear(needed: &mut [bool], trail: &Trail)
    ensures size { length needed.new ≡ length needed.old }
    ensures none { AreOnTrail needed.old trail.now.lits → NoneNeeded needed.new }
{
    for i in 0..trail.len() {
        let v = trail.lit(i).var().0 as usize;
        if v < needed.len() {
            needed[v] = false;
        }
    }
}

/// Names the clause at a place, whose variables are needed then.
fn name(
    arena: &Arena,
    numbers: &[u32],
    needed: &mut [bool],
    hints: &mut Vec<u32>,
    clause: ClauseRef,
) -> Result<(), OutOfMemory>
    requires { Contains arena.now.places clause.0 }
    ensures needs { NeedsWithin (attached_at arena.now clause.0) needed.old needed.new }
    ensures hints { OnOk result (hints.new.items ≡ hints.old.items ++ number_of_place numbers.now clause.0 ∷ []) }
{
    need(needed, arena, clause);
    hints.push(number_of(numbers, clause.0))?;
    Ok(())
}

/// Names the reason of the literal at place `i` of the trail, if that is needed and has one.
fn name_reason(
    arena: &Arena,
    trail: &Trail,
    numbers: &[u32],
    needed: &mut [bool],
    hints: &mut Vec<u32>,
    i: u32,
) -> Result<(), OutOfMemory>
    requires reasons { (given : List Literal) × HaveReasons arena.now trail.now given }
    requires within { i < length trail.now.lits }
    ensures size { length needed.new ≡ length needed.old }
    ensures goes_on { OnOk result ((vars : ℕ) (all taken : Clauses) → AreClauses vars all taken arena.now numbers.now →
        GoOn vars all trail.now i needed.old needed.new hints.old.items hints.new.items) }
    ensures on_trail { OnOk result (AreOnTrail needed.old trail.now.lits → AreOnTrail needed.new trail.now.lits) }
{
    let v = trail.lit(i).var();
    if !is_needed(needed, v) {
        return Ok(());
    }
    match trail.reason(v) {
        Some(c) => {
            name(arena, numbers, needed, hints, c)?;
            Ok(())
        }
        None => Ok(()),
    }
}

/// The hints that lead from the literals without a reason to the clash, last one first.
pub(crate) fn name_all(
    arena: &Arena,
    trail: &Trail,
    numbers: &[u32],
    needed: &mut [bool],
    hints: &mut Vec<u32>,
    clash: ClauseRef,
) -> Result<(), OutOfMemory>
    requires reasons { (given : List Literal) × HaveReasons arena.now trail.now given }
    requires clash { IsClashOf arena.now trail.now clash.0 }
    requires none { hints.old.items ≡ [] }
    requires unneeded { NoneNeeded needed.old }
    ensures size { length needed.new ≡ length needed.old }
    ensures on_trail { OnOk result (AreOnTrail needed.new trail.now.lits) }
    ensures goes_on { OnOk result ((vars : ℕ) (all taken : Clauses) → AreClauses vars all taken arena.now numbers.now →
        length needed.old ≡ vars + 1 → IsFoundFromFront all vars trail.now 0 needed.new hints.new.items) }
{
    name(arena, numbers, needed, hints, clash)?;
    let mut i = trail.len();
    while i > 0 {
        i -= 1;
        name_reason(arena, trail, numbers, needed, hints, i)?;
    }
    Ok(())
}
