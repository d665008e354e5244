// Clauses tried on a model.
use cnf_core::{ClauseNo, Formula, LAST_VAR, Lit, Truths, Var};

/// Whether a variable is true; one that the model doesn't have is false.
pub fn is_true(m: &Truths, v: u32) -> bool {
    0 < v && v <= LAST_VAR && v as usize <= m.vars() && m.holds(Lit::new(Var(v), true))
}

/// Sets a variable that the model has.
pub fn set(m: &mut Truths, v: u32, value: bool) {
    if 0 < v && v <= LAST_VAR && v as usize <= m.vars() {
        m.set(Lit::new(Var(v), value));
    }
}

/// Whether a literal of the clause is true.
fn has_true(lits: &[Lit], m: &Truths) -> bool {
    for l in lits {
        if is_true(m, l.var().0) == l.positive() {
            return true;
        }
    }
    false
}

/// Whether each clause has a true literal.
pub fn satisfies(m: &Truths, f: &Formula) -> bool {
    for c in 0..f.clauses() {
        if !has_true(f.lits_of(ClauseNo(c)), m) {
            return false;
        }
    }
    true
}
