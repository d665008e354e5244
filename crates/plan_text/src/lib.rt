//! The texts that say what a station is and how it is drawn: `plan_write` writes them, and a sheet is read.
//!
//! `read_sheet` and `read_drawing` read a sheet of either edition again, or answer the first line with a fault.
//! `laws` says that a text is that of one sheet or has one first fault. It says too that a sheet's text is never too
//! long to be read, and that what is written is read again. `specs/SheetFaults` has the faults of a sheet's lines,
//! `specs/SheetWhats` the faults' numbers and words. `specs/SheetReading` is for private contracts. The calls of
//! `plan_write` and its `specs/`, with the texts and the forms of a sheet's lines, are handed out here too.
//!
//! The crate uses `plan_write` and `outside_io`. The commands use it.
#![tactic(auto)]

mod laws;
mod mileage_text;
mod sheet_checks;
mod sheet_fault;
mod sheet_fields;
mod sheet_lines;
mod sheet_reading;

pub use laws::{one_sheet, one_sheet_fault, sheet_or_fault, sheets_are_short, written_is_read};
pub use plan_write::{
    Edition, Ending, Sheet, write_drawing, write_drawn, write_graph, write_grid, write_sheet,
    write_svg,
};
pub use sheet_fault::{SheetFault, SheetWhat};
pub use sheet_reading::{read_drawing, read_sheet};
