//! Two searches by repeated questions: for least values in order, and for the least count of something.
//!
//! `least_values` asks for any drawing. Then it asks, for each criterion of the order, for a drawing with less, until
//! there is none; the criteria before it are held at their least values. `least_count` (`counting`) does the same for
//! one count, such as how many nodes moved. `Oracle` and `CountOracle` say what is asked, and what the answers and the
//! log's lines are. What both know of a log, and `LawOracle` of `search_why` too, is `LogTeller`. So nothing here knows
//! a solver, a formula or a file; `laws` says what follows from an outcome.
//!
//! `specs/Task` says what is searched, `specs/Asked` and `specs/Built` which lines a question and a criterion's bounds
//! add. `specs/Placed` says what comes before each line, `specs/Caps` how many bounds each criterion gets.
//! `specs/Reached` and `specs/State` say how far a search has come, `specs/Outcome` what an outcome says of drawings
//! and lines. A further fact of an outcome is a field there. For a count these are `specs/CountTask`,
//! `specs/CountAsked`, `specs/CountPlaced`, `specs/Run` and `specs/Fewest`. `lex_minimise`, `trade_off`,
//! `search_why` and `search_moved` use this crate.
#![tactic(auto)]

mod advancing;
mod counting;
mod fault;
mod fewest;
mod laws;
mod lowering;
mod oracle;
mod outcome;
mod questions;
mod searching;
mod teller;

pub use counting::least_count;
pub use fault::MinFault;
pub use fewest::Fewest;
pub use laws::{bounds_are_of_a_lawful_drawing, what_unfinished_searches_are};
pub use oracle::{Below, Built, Oracle, Reply};
pub use outcome::Outcome;
pub use questions::{Answer, CountOracle};
pub use searching::least_values;
pub use teller::LogTeller;
