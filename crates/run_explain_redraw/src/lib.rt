//! What `explain` answers to a station, and `redraw` to a station and a former drawing.
//!
//! `explaining` searches for laws that can't be met together, or finds that a drawing exists, and answers with their
//! text (`writing`). `specs/Explained` says what is answered, `specs/WhyText` with which text; `laws` says when a
//! drawing exists by the answer, and that files with former points have no fault. `explain` writes no file.
//!
//! `judging` reads the file, the former file and the sheet, and `former_points` finds where each node was: where the
//! node of its name is in the sheet's drawing. `redrawing` searches for a drawing in which as few nodes as can be
//! moved. It gives the lines of the search to a file or to the trace, and answers with the text (`redraw_writing`).
//! `specs/FormerPoints` says where nodes were. `specs/Redrawn`, `specs/Judged` and `specs/Answer` say what is answered
//! to a station, to bytes and to files, `specs/MovedText` with which text. `specs/Rejection` and `specs/Known` are for
//! private contracts. `schematic_main` uses this crate.
#![tactic(auto)]

mod explaining;
mod former_points;
mod judging;
mod laws;
mod redraw_writing;
mod redrawing;
mod writing;

pub use explaining::{ExplainAsked, explain};
pub use laws::{exists_where_lawful, former_or_fault};
pub use redrawing::{RedrawAsked, redraw};
