//! Stations made from a number: files of the profile to try the program on.
//!
//! The station of a number is one main track with 1 to 15 loops in a row, each above or below it. `specs/Station`
//! says how many loops there are, where and on which side. `specs/StationText` says what the file is. `station` has
//! the numbers in code, `main_track` and `loop_track` the text of a track, and `making` the file.
//!
//! The crate uses `plan_core`, and `outside_io` for what is appended. The commands `make` and `trial` use it.
#![tactic(auto)]

mod loop_track;
mod main_track;
mod making;
mod numbered;
mod station;

pub use making::make;
