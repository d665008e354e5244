// What is asked of a line's literals.
ghost use Rattle.std.specs.Prelude.{◌≡◌, ◌≤◌, ◌<◌, true, false, All, Any, Contains, MatchOption};
ghost use Rattle.cnf_core.specs.Lit.{negate};

use crate::question::Question;
use cnf_core::Lit;

/// Whether each literal's variable is one of 1 to `vars`.
pub(crate) fn are_named(lits: &[Lit], vars: u32) -> bool
    ensures yes { result ≡ true → All (λ l. l.var ≤ vars) lits.now }
    ensures no { result ≡ false → Any (λ l. vars < l.var) lits.now }
{
    for l in lits {
        if vars < l.var().0 {
            return false;
        }
    }
    true
}

/// Whether the negation of each literal is one of the query.
fn are_negated(lits: &[Lit], query: &Question) -> bool
    ensures yes { result ≡ true → All (λ l. Contains query.now (negate l)) lits.now }
    ensures no { result ≡ false → All (λ l. Contains query.now (negate l)) lits.now → ⊥ }
{
    for l in lits {
        if !query.has(l.negated()) {
            return false;
        }
    }
    true
}

/// Whether there is a query, and each literal is the negation of one of it.
pub(crate) fn answer(query: &Option<Question>, lits: &[Lit]) -> bool
    ensures yes { result ≡ true → MatchOption query.now ⊥ (λ q. All (λ l. Contains q (negate l)) lits.now) }
    ensures no { result ≡ false → MatchOption query.now ⊥ (λ q. All (λ l. Contains q (negate l)) lits.now) → ⊥ }
{
    match query {
        None => false,
        Some(q) => are_negated(lits, q),
    }
}
