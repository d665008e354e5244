//! The words of the command line: which command they ask for, or which fault they have.
//!
//! `read_words` answers the command, or the one fault that counts. `specs/Arguments` says how words are cut into
//! names and options with their values. `specs/OptionValues` says which values are allowed. `specs/WordFaults` says
//! what each fault is and which one counts. `specs/Words` says which command words without a fault ask for.
//! `specs/Soundness` is what code keeps from left to right, for private contracts alone. `laws` says that words have
//! one answer.
//!
//! The crate uses `plan_core` for grids, orders and texts, and `outside_io` for numbers and the words of criteria. It
//! is made for the program.
#![tactic(auto)]

mod arguments;
mod building;
mod command;
mod fault;
mod files;
mod judging;
mod laws;
mod leftmost;
mod option_values;
mod reading;

pub use command::Command;
pub use fault::{WordFault, WordWhat};
pub use laws::{no_command_with_a_fault, one_command, one_fault};
pub use reading::read_words;
