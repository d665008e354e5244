//! Formulas, integers, sums and the lines of edges, on what was worked out by hand.
//!
//! The crate has nothing but tests. `worked` has a few rows of each, `columns` a line column by column. `edges`
//! counts the models of an edge's clauses. `assignments` tries clauses on assignments and counts models. Which
//! clauses a call adds, stored logs show, in `cases/check`. The crate uses those of formulas and of lines, so that a
//! change of a case proves none of them again.
#![tactic(auto)]

#[cfg(test)]
mod assignments;
#[cfg(test)]
mod columns;
#[cfg(test)]
mod edges;
#[cfg(test)]
mod worked;
