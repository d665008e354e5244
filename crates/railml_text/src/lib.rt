//! One item of a document: a tag, a comment, a reference, a run of characters.
//!
//! `scan` answers the item that begins at a place of the bytes, or that item's own fault. Its contract is the grammar
//! in `specs/`. `Bytes` has classes of bytes, `References` the references, `Values` the text of an attribute.
//! `Grammar` has the shapes, `Items` the table of items. `Faults` has the table of faults, as far as it speaks of one
//! item. `Cutting` cuts a file into items. `Reading`, `Plain` and `Judging` follow the code, and private contracts
//! alone cite them. `laws` says that what begins at a place, and how a file is cut, is one thing.
//!
//! The crate uses `plan_core`. `railml_read` uses it, and `rail_mileage` does for white space.
#![tactic(auto)]

mod brackets;
mod fault;
mod item;
mod judging;
pub mod laws;
mod markup;
mod miss;
mod reading;
mod references;
mod repeats;
mod runs;
mod scanning;
mod values;
mod written;

pub use fault::{ItemFault, TextWhat};
pub use item::{Attr, AttrList, Item, ItemKind};
pub use runs::{is_blank, past_blanks};
pub use scanning::scan;
