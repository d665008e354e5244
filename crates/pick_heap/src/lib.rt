//! The order in which a search decides: variables with activities, the most active first.
//!
//! `Heap` holds variables, each at most once. `pop` takes one of greatest activity out. Of equal ones it takes the
//! least number, which is tested and not promised. `specs/Heap` has what a contract sees. `specs/Tree` has the tree of
//! matches: each variable has a leaf of its own, so no table of positions is needed. `heap` has the calls, `matches`
//! the tree. The solver `cdcl_core` uses this crate.
#![tactic(auto)]

mod heap;
mod matches;

pub use heap::{HALVED_AT, Heap};
