//! Mileages as text: numbers of metres with up to six digits after the point, kept in micrometres.
//!
//! `specs/Metres` says which texts are a number of metres, and which mileage each is. `specs/MetresText` has the one
//! text that a mileage is written as. `read_metres` reads by the first, `write_metres` writes the second. What is
//! written is read again, as long as it has at most nine whole digits. `specs/Reading` is how the reader cuts a text,
//! for its own clauses alone. White space is that of a document, from `railml_text`.
//!
//! The reader of a file's topology reads positions and mileages with it. The writers of the graph text and of fault
//! lines print mileages with it.
#![tactic(auto)]

mod laws;
mod reading;
mod writing;

pub use laws::{one_reading, written_is_read};
pub use reading::read_metres;
pub use writing::write_metres;

/// The micrometres in a metre.
pub(crate) const METRE: u64 = 1_000_000;
