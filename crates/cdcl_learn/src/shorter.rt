// Literals that a learnt clause doesn't need are dropped.
ghost use Rattle.std.specs.Prelude.{◌≡◌, ◌≤◌, ◌<◌, ◌+◌, ℕ, ◌⊎◌, true, length, take, slice_index_or};
ghost use Rattle.cnf_core.specs.Clause.{AreDistinct};
ghost use Rattle.cnf_core.specs.Lit.{Literal, negate, has};
ghost use Rattle.cnf_core.specs.Propagation.{IsIn};
ghost use Rattle.cdcl_learn.specs.Sight.{sight, IsSound};
ghost use Rattle.cdcl_learn.specs.Shorter.{IsFalseBelow, IsFounded, IsRedundant, AreImplied, KeepsImplied, IsShortened};

use crate::consequences::Consequences;
use cnf_core::{Lit, Var};
use watch_arena::{Arena, Trail};

/// From how many reasons, one below the other, a literal may follow.
const DEPTH: u32 = 32;

/// Whether the variable is seen, found to follow, or of level 0.
fn is_founded(seen: &[bool], found: &Consequences, trail: &Trail, w: Var) -> bool
    requires within { w.0 ≤ trail.now.vars }
    requires size { length seen.now ≡ trail.now.vars + 1 }
    requires tables { trail.now.vars + 1 ≤ length found.now }
    ensures { result ≡ true → IsFounded seen.now found.now trail.now.levels w.0 }
{
    if seen[w.0 as usize] {
        return true;
    }
    if found.is_implied(w) {
        return true;
    }
    trail.level_of(w) == 0
}

/// Whether a literal of a lower level is of a variable that is met, or follows as well.
#[cycle(redundance)]
fn is_covered(
    seen: &[bool],
    found: &mut Consequences,
    arena: &Arena,
    trail: &Trail,
    k: Lit,
    depth: u32,
) -> bool
    requires sound { IsSound (sight arena.now trail.now) }
    requires size { length seen.now ≡ trail.now.vars + 1 }
    requires tables { trail.now.vars + 1 ≤ length found.old }
    requires falsified { IsFalseBelow (sight arena.now trail.now) k }
    requires implied { AreImplied (sight arena.now trail.now) seen.now found.old }
    ensures implied { AreImplied (sight arena.now trail.now) seen.now found.new }
    ensures keeps { KeepsImplied found.old found.new }
    ensures met { result ≡ true → IsFounded seen.now found.new trail.now.levels k.var }
{
    let v = k.var();
    if is_founded(seen, found, trail, v) {
        return true;
    }
    if depth == 0 || found.is_refused(v) {
        return false;
    }
    if is_redundant(seen, found, arena, trail, k, depth - 1) {
        found.imply(v);
        true
    } else {
        found.refuse(v);
        false
    }
}

/// Whether the literal follows from other literals of the clause. The marks are of the clause's
/// variables, and of some of the present level.
#[cycle(redundance)]
fn is_redundant(
    seen: &[bool],
    found: &mut Consequences,
    arena: &Arena,
    trail: &Trail,
    k: Lit,
    depth: u32,
) -> bool
    requires sound { IsSound (sight arena.now trail.now) }
    requires size { length seen.now ≡ trail.now.vars + 1 }
    requires tables { trail.now.vars + 1 ≤ length found.old }
    requires falsified { IsFalseBelow (sight arena.now trail.now) k }
    requires implied { AreImplied (sight arena.now trail.now) seen.now found.old }
    ensures implied { AreImplied (sight arena.now trail.now) seen.now found.new }
    ensures keeps { KeepsImplied found.old found.new }
    ensures redundant { result ≡ true → IsRedundant (sight arena.now trail.now) seen.now found.new k }
{
    let v = k.var();
    match trail.reason(v) {
        None => false,
        Some(c) => {
            for i in 0..arena.len_of(c) {
                let m = arena.lit_of(c, i);
                if m.var() != v && !is_covered(seen, found, arena, trail, m, depth) {
                    return false;
                }
            }
            true
        }
    }
}

/// Drops the literals that aren't needed from the first so many. The answer is how many are left.
pub fn keep_needed(
    rest: &mut [Lit],
    len: u32,
    seen: &[bool],
    found: &mut Consequences,
    arena: &Arena,
    trail: &Trail,
) -> u32
    requires sound { IsSound (sight arena.now trail.now) }
    requires size { length seen.now ≡ trail.now.vars + 1 }
    requires tables { trail.now.vars + 1 ≤ length found.old }
    requires within { len ≤ length rest.old }
    requires falsified { (i : ℕ) (d : Literal) → i < len → IsFalseBelow (sight arena.now trail.now)
        (slice_index_or rest.old i d) }
    requires distinct { AreDistinct (take len rest.old) }
    ensures fewer { result ≤ len }
    ensures tables { length found.new ≡ length found.old }
    ensures shortened { IsShortened (sight arena.now trail.now) seen.now (take len rest.old) (take result rest.new) }
{
    found.begin();
    let mut left = 0;
    for i in 0..len {
        let k = rest[i as usize];
        if !is_redundant(seen, found, arena, trail, k, DEPTH) {
            rest[left as usize] = k;
            left += 1;
        }
    }
    left
}
