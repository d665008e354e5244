//! Capped sums of literals in unary: literals that say whether at least k of some inputs are true.
//!
//! `Sum::build` makes the clauses of a balanced tree over the inputs. The tree's joins add what their two sides
//! count, up to a cap. It is the totalizer of Bailleux and Boufkhad (2003). `at_least` is the literal of a number.
//! `outputs` are all of them, as inputs of a further sum. `put` sets the sum's own variables from its inputs.
//!
//! `specs/Part` has an input, the outputs of a join, and the clauses of a join. `specs/Sum` has the tree, its
//! variables and its clauses, and `count_true`. In each assignment that satisfies the clauses "at least k" is true
//! exactly where at least k inputs are. Every assignment of the inputs extends to the sum's variables, and no other
//! variable is constrained.
//!
//! The bounds of a drawing's criteria use this crate.
#![tactic(auto)]

mod joins;
mod put;
mod sum;

pub use sum::Sum;
