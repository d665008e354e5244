// Literals among others.
ghost use Rattle.std.specs.Prelude.{◌≡◌, true, false, All, Contains};
ghost use Rattle.cnf_core.specs.Lit.{has};

use cnf_core::Lit;

/// Whether the literal is among the others.
fn is_among(lits: &[Lit], l: Lit) -> bool
    ensures { result ≡ has lits.now l }
{
    for k in lits {
        if *k == l {
            return true;
        }
    }
    false
}

/// Whether each literal is among the others.
pub fn are_among(lits: &[Lit], others: &[Lit]) -> bool
    ensures yes { result ≡ true → All (λ l. Contains others.now l) lits.now }
    ensures no { result ≡ false → All (λ l. Contains others.now l) lits.now → ⊥ }
{
    for l in lits {
        if !is_among(others, *l) {
            return false;
        }
    }
    true
}
