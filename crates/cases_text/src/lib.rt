//! Files and the definitions behind all, on what was worked out by hand.
//!
//! The crate has nothing but tests. `definitions` has the examples of the definitions by which the product is judged,
//! as theorems. `pictures` has those of a picture, as theorems too. `system` tries the system's files and output.
//! `halting` tries a read that fails on the way. `words` tries how many clauses a search may learn. Runs of the
//! program, in `cases/`, try texts that are written or read, and the other words of a command. Runs over files in
//! memory are in `cases_run`. The crate uses those of texts, so that a change of a case proves none of them again.
#![tactic(auto)]

#[cfg(test)]
mod definitions;
#[cfg(test)]
mod halting;
#[cfg(test)]
mod pictures;
#[cfg(test)]
mod system;
#[cfg(test)]
mod words;
