//! Integers as variables of a formula, in order encoding: each variable says "at least k".
//!
//! `OrderInt` is a range and its variables. `new_int` makes one with the clauses that give it one number in each
//! model. `add_int` adds these clauses where the variables are there. `at_least` is the literal of a number.
//! `value_of` reads the number in a model and `put` writes it. `less_equal` and `equal` add the clauses of an order,
//! with a distance, unless one of some literals is true.
//!
//! `specs/IntVars` has a range and its variables. `specs/OrderInt` has the clauses, and `Reads`: an assignment gives
//! the integer this number. What clauses mean is said of the numbers that are read, never of single variables. `laws`
//! has what holds of `Reads`, `proofs/` the lemmas for the crates above.
//!
//! The clauses of one edge and of the whole drawing use this crate.
#![tactic(auto)]

mod integer;
mod laws;
mod orders;

pub use integer::{OrderInt, add_int, new_int};
pub use laws::{clauses_give_a_number, one_number, one_setting, other_variables_are_free};
pub use orders::{equal, less_equal};
