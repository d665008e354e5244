//! Literals, clauses and formulas: what is satisfied, in how many words, and by which assignments.
//!
//! `Lit` is one word that contracts see as a variable and a sign. `Clause` is a list of literals of distinct
//! variables. `Formula` is a number of variables and a list of clauses within a room of words. `Truths` is a truth
//! value for each variable. `lengthen` makes a table longer, whole or not at all.
//!
//! `specs/` has the definitions. `Lit` and `Clause` have literals, distinct variables and words. `Assignment` has
//! satisfaction, and assignments that differ in a block of variables alone. `LitOrTruth` has the clause that literals
//! and truth values make. `Formula` and `Truths` have these two. `Added` says what a call that adds clauses leaves.
//! `Propagation` has the closure, reasons, falsified clauses, and clauses that follow or are new. `Trail` has the
//! table that marks a trail's literals, and how a trail grows. `laws` and `unit_laws` state what follows from them.
//!
//! `proofs/` has the lemmas that the crates above cite. `ClauseLemmas` and `GatherLemmas` are on satisfaction,
//! `StepLemmas` and `BlockLemmas` on calls that add clauses. `SettingLemmas` is on blocks of variables that are set
//! one after another. `PropagationLemmas` is on propagation, `GreatestLemmas` on the greatest variable. `TrailLemmas`
//! is on lists of distinct variables, `MarkLemmas` and `GrowthLemmas` on trails.
//!
//! Integers and sums, the drawing's formula, the log, its checker and the solver use this crate.
#![tactic(auto)]

mod clause;
mod fault;
mod formula;
mod gather;
mod laws;
mod limits;
mod literal;
mod tables;
mod truths;
mod unit_laws;

pub use clause::Clause;
pub use fault::CnfFault;
pub use formula::{ClauseNo, Formula};
pub use laws::{
    clause_says_one_is_true, distinct_literals_make_their_clause, each_clause_is_satisfied,
    negation_is_false, no_variable_twice, one_literal_is_true, other_variables_are_free,
    rising_variables_are_distinct,
};
pub use limits::{LAST_VAR, ROOM, VARS};
pub use literal::{Lit, LitOrTruth, Var};
pub use tables::lengthen;
pub use truths::Truths;
pub use unit_laws::{
    closure_adds_nothing_again, closure_is_the_least_closed_set, known_literals_add_nothing,
    more_clauses_more_closure, new_by_a_closed_set, new_includes_no_clause,
    only_sets_of_literals_count, rup_is_sound,
};
