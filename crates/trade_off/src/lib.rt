//! The front of two criteria: the pairs of values that no other lawful drawing's pair beats.
//!
//! A pair of numbers is on the front where some lawful drawing has them as its values of the two criteria, and no other
//! such pair is at most it in both. `find_front` finds the pairs in rising first number, by questions to the `Oracle`
//! of `search_least`. It asks for the least first number, then for the least second one with it, then for the least
//! first number where the second is smaller. So it goes on until there is none. Nothing here knows a solver, a clause
//! list or a log.
//!
//! `specs/Front` says what the front is, `specs/Least` what one run of questions says of drawings and which lines it
//! adds. `specs/Next` says which pair comes next and what holds in between. `specs/Outcome` says what the outcome says
//! of drawings and of the lines. `lex_minimise` uses this crate, which uses `search_least`.
#![tactic(auto)]

mod building;
mod collecting;
mod fault;
mod lowering;
mod outcome;
mod searching;

pub use fault::FrontFault;
pub use outcome::{FrontEnd, FrontList, PairList};
pub use searching::find_front;
