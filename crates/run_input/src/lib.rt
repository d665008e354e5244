//! What a run answers to an input: the station of a railML file, or the line and the status of its first fault.
//!
//! Each command reads its inputs in turn and answers with a `Reply`, a status and a text, or is cut short (`Cut`).
//! `reading` reads an input. `input` takes a file's bytes to their station (its track graph and the order of its
//! edges), or to the first of their faults. `signals` does so with the places of the file's signals (`specs/Signals`).
//! `fault` makes the fault lines and has their statuses. `printing` prints a station's graph.
//!
//! `specs/Status` has the statuses and their numbers, `specs/Fault` the line of each fault. `specs/Input` says what the
//! bytes of a file are to a run, `specs/Met` what a run meets outside and how it leaves files. `specs/Answer` says what
//! is answered to an input, to a file and to a sheet, `specs/ThreeFiles` what is to three files. `specs/Reading` and
//! `specs/Reply` say what the calls of those modules give. `law` writes a law and its parties as fields of a line
//! (`specs/Law`). `laws` says that a file has one station or one fault.
//!
//! `searching` is the frame of each search whose lines may go to a file, and of that of trial (`Searching`):
//! `search_logged` gives the lines to the file that is named for them, or else to the trace. `specs/SearchLog` says
//! which lines a run gave, `specs/Written` which files are written. This crate uses those that read a station. Each
//! command's crate uses it.
#![tactic(auto)]

mod fault;
mod input;
mod law;
mod laws;
mod printing;
mod reading;
mod reply;
mod searching;
mod signals;
mod status;

pub use fault::RunFault;
pub use input::{InputRefusal, Station, station_in};
pub use law::push_law;
pub use laws::{one_fault, one_graph, one_status_to_a_number, signals_or_fault, station_or_fault};
pub use printing::print;
pub use reading::{ThreeFiles, bytes_of, read_all, signals_of, station_of};
pub use reply::{Cut, Reply, cut_of, fault_reply};
pub use searching::{Searching, search_logged};
pub use signals::{SignalStation, signals_in};
pub use status::Status;
