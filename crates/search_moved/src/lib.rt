//! The search for a drawing in which as few nodes as can be move, with the solver.
//!
//! `fewest_moved` gives the clauses of the drawings and of the count to a solver (`counting`, `telling`). It searches
//! as `search_least` says (`beginning`), first with the nodes where they were (`near`). `search` makes one thing of the
//! formula, the solver and the log. `asking` turns a question into an assumption and an answer into a drawing.
//! `counted` counts a drawing's moved nodes. `specs/Known` says what is searched and what is known when the solver is
//! asked, `specs/Search` the same of what it keeps as one value. `specs/Query` says what a question is to the solver,
//! `specs/Told` how the search ends.
//!
//! `specs/MovedFormula` has the whole clause list. Each assignment that satisfies it is a lawful drawing, and each
//! lawful drawing has one. In both, "at least j moved" is true exactly where at least j nodes did. `fewest_moved`
//! promises it, and `laws` says how large the list is. The command `redraw` uses this crate.
#![tactic(auto)]

mod asking;
mod beginning;
mod counted;
mod counting;
mod laws;
mod near;
mod search;
mod telling;

pub use beginning::fewest_moved;
pub use counted::count_moved;
pub use laws::{moved_formula_is_small, moved_formula_stands_for_drawings};
pub use search_least::Fewest;
