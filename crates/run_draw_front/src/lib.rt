//! What `draw`, `signals` and `front` answer to a station, and `make` and `trial` to a number.
//!
//! `drawing` searches for a station's best drawing (`BestSearch`), gives the lines of the search to a file or to the
//! trace by `search_logged` of `run_input`, and answers with the sheet. Before that, `picturing` writes the picture.
//! `signalling` does the same where each edge is long enough for its signals, and adds their text (`specs/Signalled`).
//! `trialling` makes a station and tries it. `specs/Drawn` says what `draw` answers, which sheet an outcome has, and
//! what a run may leave and tell, `specs/Pictured` its picture, `specs/Tried` what a trial answers. `laws` says how
//! searches end, that signals are apart, and that a log's file has one list of lines.
//!
//! `fronting` searches for the pairs of values of two criteria in which none has less of one without more of the other.
//! It answers with their text (`writing`). `specs/Fronted` says what is answered, `specs/FrontText` with which text.
//! `front` writes no file. `schematic_main` uses this crate.
#![tactic(auto)]

mod drawing;
mod fronting;
mod laws;
mod picturing;
mod signalling;
mod trialling;
mod writing;

pub use drawing::{Asked, draw};
pub use fronting::{FrontAsked, front};
pub use laws::{how_searches_end, one_log_in_a_file, signals_stand_apart};
pub use signalling::signals;
pub use trialling::{made, trial};
