//! Least values in order, with the solver: the search for a best drawing of a graph, and the log that certifies it.
//!
//! `minimise` gives the drawings' clauses to a solver and searches as `search_least` says. `front` finds the front of
//! two criteria as `trade_off` says. `minimise_with` and `front_with` do so with a solver that a caller hands in.
//! `search` makes one thing of the formula, the solver and the log; this is what is asked. `asking` turns a question
//! into assumptions and an answer into a drawing, which `together` makes smaller. `building` adds a criterion's clauses
//! and bounds, whole or not at all. `telling` gives clauses and Bound lines to the log, one after another. Another
//! search gives its formula to a solver by `add_clauses` and `tell_clauses`.
//!
//! `specs/Task` says what is searched, `specs/Told` what a solver has that got the same lines as a log. `specs/Known`
//! says when the search can be asked and which lines are known then. `specs/Search` says the same of what it keeps as
//! one value. `specs/Asking` says what a question is to the solver. `specs/Grown` says what holds between a criterion's
//! clauses in the formula and in the solver. The outcomes are those of `search_least` and `trade_off`; the clause lists
//! are those of `drawing_cnf`. `search_moved`, `law_core`, `run_draw_front` and `run_explain_redraw` use this crate.
#![tactic(auto)]

mod asking;
mod building;
mod fronting;
mod limits;
mod minimising;
mod search;
mod telling;
mod together;

pub use building::add_clauses;
pub use fronting::{front, front_with};
pub use limits::Limits;
pub use minimising::{minimise, minimise_with};
pub use search_least::{MinFault, Outcome};
pub use telling::tell_clauses;
pub use trade_off::{FrontEnd, FrontFault, FrontList, PairList};
