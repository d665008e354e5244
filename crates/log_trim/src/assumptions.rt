// What is assumed while hints are found, on the trail.
ghost use Rattle.std.specs.Prelude.{◌≡◌, ◌≤◌, ◌+◌, ◌++◌, ◌∷◌, [], ℕ, All, List, length, map, true};
ghost use Rattle.cnf_core.specs.Lit.{Literal, negate, has};
ghost use Rattle.cnf_core.specs.Clause.{IsThere, AreThere, AreDistinct};
ghost use Rattle.cnf_core.specs.Propagation.{Includes};
ghost use Rattle.watch_arena.specs.Trail.{IsUnset};
ghost use Rattle.watch_arena.specs.Arena.{Attached, AreWatched, IsSameText, MayBeWatched};
ghost use Rattle.log_trim.specs.Found.{IsAtRest, IsDenying, HaveReasons, HaveNoReason, assumed};

use cnf_core::{Lit, VARS, Var};
use watch_arena::{Arena, Trail};

/// Assumes the two further variables, on an empty trail.
fn open(trail: &mut Trail, vars: u32)
    requires vars { trail.old.vars ≡ vars + 2 }
    requires limit { vars + 2 ≤ VARS }
    requires lits { trail.old.lits ≡ [] }
    requires cuts { trail.old.cuts ≡ [] }
    requires front { trail.old.front ≡ 0 }
    ensures vars { trail.new.vars ≡ trail.old.vars }
    ensures lits { trail.new.lits ≡ assumed vars [] }
    ensures cuts { trail.new.cuts ≡ 0 ∷ [] }
    ensures reasons { (a : Attached) → HaveReasons a trail.new (assumed vars []) }
    ensures watched { (a : Attached) → AreWatched a trail.old → AreWatched a trail.new }
{
    trail.decide(Lit::new(Var(vars + 1), true));
    trail.set(Lit::new(Var(vars + 2), true), None);
}

/// Assumes that literals are false, which are unset.
fn deny(trail: &mut Trail, lits: &[Lit])
    requires there { AreThere trail.old.vars lits.now }
    requires distinct { AreDistinct lits.now }
    requires unset { All (λ l. IsUnset trail.old.lits l) lits.now }
    ensures vars { trail.new.vars ≡ trail.old.vars }
    ensures lits { trail.new.lits ≡ trail.old.lits ++ map negate lits.now }
    ensures cuts { trail.new.cuts ≡ trail.old.cuts }
    ensures front { trail.new.front ≡ trail.old.front }
    ensures reasons { (a : Attached) (given : List Literal) → Includes (has given) (has (map negate lits.now)) →
        HaveReasons a trail.old given → HaveReasons a trail.new given }
    ensures bare { (ls : List Literal) → HaveNoReason trail.old ls →
        HaveNoReason trail.new (ls ++ map negate lits.now) }
    ensures watched { (a : Attached) → AreWatched a trail.old → AreWatched a trail.new }
{
    for l in lits {
        trail.set(l.negated(), None);
    }
}

/// Assumes at a further level that literals are false, which are unset; there is at least one.
fn deny_above(trail: &mut Trail, lits: &[Lit])
    requires there { AreThere trail.old.vars lits.now }
    requires distinct { AreDistinct lits.now }
    requires unset { All (λ l. IsUnset trail.old.lits l) lits.now }
    requires some { 1 ≤ length lits.now }
    requires all { trail.old.front ≡ length trail.old.lits }
    ensures vars { trail.new.vars ≡ trail.old.vars }
    ensures lits { trail.new.lits ≡ trail.old.lits ++ map negate lits.now }
    ensures cuts { trail.new.cuts ≡ trail.old.cuts ++ length trail.old.lits ∷ [] }
    ensures front { trail.new.front ≡ trail.old.front }
    ensures reasons { (a : Attached) (given : List Literal) → Includes (has given) (has (map negate lits.now)) →
        HaveReasons a trail.old given → HaveReasons a trail.new given }
    ensures bare { HaveNoReason trail.new (map negate lits.now) }
    ensures watched { (a : Attached) → AreWatched a trail.old → AreWatched a trail.new }
{
    trail.decide(lits[0].negated());
    deny(trail, &lits[1..]);
}

/// Whether all literals are unset.
fn are_unset(trail: &Trail, lits: &[Lit]) -> bool
    requires { AreThere trail.now.vars lits.now }
    ensures { result ≡ true → All (λ l. IsUnset trail.now.lits l) lits.now }
{
    for l in lits {
        if trail.value(*l).is_some() {
            return false;
        }
    }
    true
}

/// Assumes the two further variables, and that the literals of a clause are false: above what follows
/// without them where they are unset there, else anew.
pub(crate) fn assume(trail: &mut Trail, lits: &[Lit], vars: u32)
    requires idle { (a : Attached) × IsAtRest a vars trail.old }
    requires vars { trail.old.vars ≡ vars + 2 }
    requires limit { vars + 2 ≤ VARS }
    requires there { AreThere vars lits.now }
    requires distinct { AreDistinct lits.now }
    ensures { (a : Attached) → IsAtRest a vars trail.old → IsDenying a vars lits.now trail.new }
{
    if trail.level() == 1 && !lits.is_empty() && are_unset(trail, lits) {
        deny_above(trail, lits);
    } else {
        trail.undo_to(0);
        open(trail, vars);
        deny(trail, lits);
    }
}

/// Assumes besides that a literal is false, which is unset.
pub(crate) fn assume_first(trail: &mut Trail, first: Lit)
    requires there { IsThere trail.old.vars first }
    requires unset { IsUnset trail.old.lits first }
    ensures { (a : Attached) (vars : ℕ) (others : List Literal) → IsDenying a vars others trail.old →
        IsDenying a vars (first ∷ others) trail.new }
{
    trail.set(first.negated(), None);
}

/// Takes back what was assumed of a clause.
pub(crate) fn leave(trail: &mut Trail)
    requires { 1 ≤ length trail.old.cuts }
    ensures { (a : Attached) (vars : ℕ) (lits : List Literal) → IsDenying a vars lits trail.old →
        IsAtRest a vars trail.new }
{
    let level = trail.level();
    trail.undo_to(level - 1);
}

/// Begins the level of the two further variables and of what follows, if there is none. A formula that is
/// refuted by them alone leaves the trail empty.
pub(crate) fn follow(arena: &mut Arena, trail: &mut Trail, vars: u32)
    requires idle { IsAtRest arena.old vars trail.old }
    requires vars { trail.old.vars ≡ vars + 2 }
    requires limit { vars + 2 ≤ VARS }
    ensures idle { IsAtRest arena.new vars trail.new }
    ensures text { IsSameText arena.old arena.new }
{
    if trail.level() == 0 {
        open(trail, vars);
        if arena.propagate(trail).is_some() {
            trail.undo_to(0);
        }
    }
}

/// Leaves of the trail what lets the first two literals of a clause be watched: all, or nothing.
pub(crate) fn make_way(trail: &mut Trail, lits: &[Lit])
    requires idle { (a : Attached) × (vars : ℕ) × IsAtRest a vars trail.old }
    requires two { 2 ≤ length lits.now }
    requires there { AreThere trail.old.vars lits.now }
    ensures vars { trail.new.vars ≡ trail.old.vars }
    ensures idle { (a : Attached) (vars : ℕ) → IsAtRest a vars trail.old → IsAtRest a vars trail.new }
    ensures open_ { MayBeWatched trail.new lits.now }
{
    if trail.is_false(lits[0]) || trail.is_false(lits[1]) {
        trail.undo_to(0);
    }
}
