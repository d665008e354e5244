//! Clauses learnt from conflicts.
//!
//! `Analyser` makes a clause of a conflict on a trail over an arena, and of a false literal or clause. `analyse` leaves
//! the clause of the first unique implication point without the literals that follow from others, and the level to jump
//! back to. `trace_back` leaves the decisions from which a false literal follows, and `trace_clash` those that make a
//! clause false. None of them takes memory.
//!
//! `specs/Sight` has arena and trail as one. `Cut` has the working clause, and says what a learnt clause is. `Shorter`
//! says which literals aren't needed, and `Trace` what a false literal is traced back to. `Analysis` says what a
//! contract sees of the analyser, and `Levels` which levels are closed.
//!
//! `work` has the working clause, `conflict` the walk to the first unique implication point, `shorter` the shorter
//! clause, `tracing` the walk to decisions, and `analyser` the whole as one value. `laws` says what a solver needs of a
//! learnt clause. This crate uses the trail and the arena of `watch_arena`. `cdcl_core` uses it.
#![tactic(auto)]

mod analyser;
mod conflict;
mod consequences;
mod laws;
mod shorter;
mod tables;
mod tracing;
mod work;

pub use analyser::Analyser;
pub use laws::{closed_levels_stay, learnt_clauses_are_new};
