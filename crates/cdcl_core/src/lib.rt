//! The solver: clauses learnt from conflicts, and a log that derives.
//!
//! `Solver` keeps the clauses that it is given and those that it learns. `solve` looks for a model of them that makes
//! assumptions true, and gives what it learns to any log.
//!
//! `specs/Kept` says what a contract sees of a solver, and what its answers say. `Belongs` says which log belongs to a
//! solver, and which lines a search gives to it. `Faults` has the faults. For the crate itself, `Roots` says what is
//! kept of arena and trail, `Search` what the state of a search is, and `Rounds` what it gives to the log.
//!
//! `search` has the state, `moves` what goes along the trail, and `choices` what is decided. `given` takes clauses that
//! are given, `learning` those that are learnt. `endings` says how a search ends, `rounds` is the search, and `models`
//! its answer. `solver` is the whole as one value, and `laws` a law of its logs. This crate uses the trail and arena of
//! `watch_arena`, and `pick_heap`, `cdcl_learn` and `refute_log`. `lex_minimise`, `search_moved` and `law_core` use it.
#![tactic(auto)]

mod answer;
mod choices;
mod endings;
mod fault;
mod given;
mod laws;
mod learning;
mod lines;
mod models;
mod moves;
mod rounds;
mod search;
mod solver;

pub use answer::Answer;
pub use fault::{AddFault, SolveFault};
pub use laws::a_bound_line_changes_nothing;
pub use solver::Solver;
