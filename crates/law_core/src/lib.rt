//! Why a track graph has no lawful drawing: the formula, and the search in it.
//!
//! The formula's models give the loose drawings: those that fit the graph and have the laws on the grid and on ends of
//! lines. Each further law, with its parties (`Law`), has a selecting variable, and holds where that one is true.
//! `all_laws` lists these laws in the order of the formula of lawful drawings, and `why_formula` is the formula of all
//! of them. Every model gives a loose drawing that meets each selected law. Every loose drawing, with each choice of
//! laws that it meets, has a model. `specs/Choices` is the clause list, `specs/Chosen` both directions. The laws'
//! clauses are those of `drawing_cnf`, unless the law isn't selected. A loose drawing and an explanation are
//! `search_why`'s words.
//!
//! `explain` searches in this formula for an explanation, with the solver (`beginning`). `search` makes one thing of
//! the formula, the solver and the log. `asking` turns a question into assumptions, and a refuted one into the laws
//! that the solver needed (`selecting`). `naming` gives laws their names. `specs/Known`, `specs/Query` and
//! `specs/Search` say what is searched and known, `specs/Why` what an answer says of drawings and lines. The crate uses
//! `drawing_cnf`, `lawful_check`, `search_why`, `lex_minimise` and the solver. `explain` of `run_explain_redraw` uses
//! it.
#![tactic(auto)]

mod asking;
mod beginning;
mod choices;
mod ending;
mod formula;
mod laws;
mod listing;
mod naming;
mod parties;
mod search;
mod selecting;
mod whole;

pub use beginning::explain;
pub use ending::{DrawingList, LawList, Why};
pub use formula::loose_formula;
pub use laws::{all_laws_are_listed, loose_drawings_are_joined, selectors_are_apart};
pub use listing::all_laws;
pub use parties::Law;
pub use search_why::WhyFault;
pub use whole::{WhyFormula, why_formula};
