//! The search for laws that explain why there is no lawful drawing, by repeated questions.
//!
//! A loose drawing lies on the grid with lines that join their nodes. Laws 2, 4, 5, 6 and 7 it may meet or not, each
//! for its parties. `find_laws` first asks for a loose drawing that meets all of them, which is a lawful one. Where
//! there is none, it takes one law after another away. Where the others still can't be met together, the law is left
//! out. Else a drawing that meets the others shows that the law can't be left out. `LawOracle` says what is asked and
//! what the answers are; what it knows of a log is `LogTeller` of `search_least`. So nothing here knows a solver, a
//! formula or a log. `laws` says what an explanation means.
//!
//! `specs/Explained` says what an explanation is, `specs/Task` what is searched, `specs/Asked` what a question is.
//! `specs/Narrowed` says how far a search has come, `specs/Outcome` what an outcome says. `refute_log` says how one
//! list of lines goes on through all calls, and why a search stopped. `law_core` uses this crate.
#![tactic(auto)]

mod explaining;
mod fault;
mod laws;
mod narrowing;
mod oracle;
mod outcome;
mod places;

pub use explaining::find_laws;
pub use fault::WhyFault;
pub use laws::{explanation_leaves_none_lawful, without_is_irreducible};
pub use oracle::{LawOracle, Reply};
pub use outcome::Outcome;
