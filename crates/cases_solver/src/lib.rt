//! The solver: its answers to a few clauses, and to made formulas.
//!
//! The crate has nothing but tests. `queries` asks the solver on a few clauses. `looks` counts the clauses that are
//! looked at. `last_line` is its log, which may fail; `written` has literals as numbers. `order` has the order in which
//! the heap gives variables. `made` has small formulas of drawn clauses, with queries and further clauses between them;
//! their answers are those of all assignments. `pigeons` has a formula for which many clauses are learnt. A checker
//! gets the lines of both. `case` holds a formula, a solver that has its clauses, and a checker that gets the solver's
//! lines. `checked` is that checker as a log, and `literals` makes clauses and assumptions of any literals. `trying`
//! tries all assignments, and `draws` has the numbers.
//!
//! A further run is a row of `queries`, a further formula a seed in `made`. The crate uses `cdcl_core`, so that a
//! change of a case proves nothing of the search again. It uses `refute_check` too, which shares no code with it.
#![tactic(auto)]

#[cfg(test)]
mod case;
#[cfg(test)]
mod checked;
#[cfg(test)]
mod draws;
#[cfg(test)]
mod last_line;
#[cfg(test)]
mod literals;
#[cfg(test)]
mod looks;
#[cfg(test)]
mod made;
#[cfg(test)]
mod order;
#[cfg(test)]
mod pigeons;
#[cfg(test)]
mod queries;
#[cfg(test)]
mod trying;
#[cfg(test)]
mod written;
