//! The checker of logs, and whether an accepted log certifies values.
//!
//! `Checker` takes lines one by one and accepts exactly those that may come after the accepted ones: each follows by
//! unit propagation, and a learnt one is new. `specs/Log` of `refute_log` says which lines may come and which logs
//! derive, `specs/Kept` what a checker keeps and why it refuses a line. It propagates over lists of clauses by literal:
//! clauses of two and three literals are looked at whole, in the others it counts the literals that aren't false
//! (`specs/Entries`, `specs/Tables`, `specs/Settled`, `specs/Standing`). Numbers of clauses count from 0 here, in
//! `hint_log` from 1. It shares definitions and laws with the solver, and no code. `are_timely` asks what needs no
//! propagation (`specs/Timely`): which variables lines name, which query they answer.
//!
//! `none_certified` asks an accepted log for a Refuted line without literals. `first_lacking` (`lacking`) asks it for
//! the first place of an order whose value it doesn't certify, by the bounds of its Bound lines (`ToldBound::of`).
//! `specs/Lacking` defines both; `laws` says what follows. `log_check` and `log_trim` use this crate.
#![tactic(auto)]

mod adding;
mod ahead;
mod assume;
mod checker;
mod counts;
mod fault;
mod judging;
mod keeping;
mod lacking;
mod laws;
mod looks;
mod novelty;
mod places;
mod propagation;
mod question;
mod scan;
mod tables;
mod timely;
mod told_bound;
mod trail;
mod undo;

pub use checker::Checker;
pub use fault::LineFault;
pub use lacking::{first_lacking, none_certified, unreached};
pub use laws::{no_literals_certify_none, one_place_lacks_first, only_greatest_values_lack};
pub use timely::are_timely;
pub use told_bound::ToldBound;
