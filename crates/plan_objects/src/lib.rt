//! Signals along the edges: what can be wrong with a file's signals, on which edge each is, and the columns in which
//! they are drawn.
//!
//! `objects` takes the signals, the rows, the topology and the track graph of one file. It answers `Placed`, or the
//! first of seven faults. `finding` looks for them by their numbers (`checks`, `repeats`, `outside`), and `placing`
//! makes the answer of what it found. A signal's mileage comes from `positions`, its edge from `edges`. `places`
//! orders the signals of an edge and counts them. `placed` says over how many columns each edge must go, and in which
//! column of a drawing's line a signal is. `write_signals` (`writing`) appends the lines of signals on a drawing.
//!
//! `specs/Rows` says on which edge and at which mileage a signal is, `specs/Faults` what can be wrong. `specs/Places`
//! has the order along an edge. `specs/Spread` says in which columns signals are, and that none lie further apart.
//! `specs/SignalsText` says which lines are written.
//!
//! The crate uses those that read a station, the lines of a drawing, and the lines of a text. The command `signals`
//! uses it.
#![tactic(auto)]

mod checks;
mod edges;
mod fault;
mod finding;
mod laws;
mod outside;
mod placed;
mod places;
mod placing;
mod positions;
mod repeats;
mod writing;

pub use fault::{ObjectFault, SignalWhat};
pub use laws::{
    lawful_drawings_have_room, read_from_one_file, signals_are_limited, signals_lie_on_their_edges,
};
pub use placed::Placed;
pub use places::{MAX_SIGNALS, SIGNALS_OF_AN_EDGE, SignalPlace};
pub use placing::objects;
pub use writing::write_signals;
