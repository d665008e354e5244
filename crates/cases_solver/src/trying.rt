// All assignments of few variables. Bit i - 1 of an assignment is the truth of variable i.
use cnf_core::{ClauseNo, Formula, Lit, Truths, Var};

/// The most variables for which all assignments are tried.
pub const FEW: u32 = 10;

fn is_true(assignment: u32, l: Lit) -> bool {
    let v = l.var().0;
    v <= FEW && ((assignment >> (v - 1)) % 2 == 1) == l.positive()
}

fn are_true(assignment: u32, lits: &[Lit]) -> bool {
    for l in lits {
        if !is_true(assignment, *l) {
            return false;
        }
    }
    true
}

fn is_one_true(assignment: u32, lits: &[Lit]) -> bool {
    for l in lits {
        if is_true(assignment, *l) {
            return true;
        }
    }
    false
}

/// Whether the assignment satisfies the formula and makes the assumptions true.
pub fn satisfies(assignment: u32, formula: &Formula, assume: &[Lit]) -> bool {
    for c in 0..formula.clauses() {
        if !is_one_true(assignment, formula.lits_of(ClauseNo(c))) {
            return false;
        }
    }
    are_true(assignment, assume)
}

/// Whether any assignment of the first ten variables does.
pub fn is_satisfiable(formula: &Formula, assume: &[Lit]) -> bool {
    for assignment in 0..1 << FEW {
        if satisfies(assignment, formula, assume) {
            return true;
        }
    }
    false
}

/// The assignment of a model of at most ten variables.
pub fn assignment_of(model: &Truths) -> u32 {
    let mut assignment = 0;
    for i in 0..FEW {
        if (i as usize) < model.vars() && model.holds(Lit::new(Var(i + 1), true)) {
            assignment |= 1 << i;
        }
    }
    assignment
}
