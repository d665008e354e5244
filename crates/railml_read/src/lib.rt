//! The rows of a railML document, and its signals: the elements that are selected along its paths, in file order.
//!
//! `read` goes over the document's items once, with a stack of open names. It answers the rows, or the fault of the
//! text. `read_signals` does the same and answers the signals (`specs/Signals`). Their contracts speak of a tree that
//! is never built. `specs/Tree` has elements and the tags that spell them. `specs/Contexts` and `specs/Rows` say
//! which elements of a tree are rows, `specs/Places` where an item may be. `specs/Document` says which tree the bytes
//! spell, and which fault a text has. `specs/Formed` says how the rows are formed. `specs/Progress` and
//! `specs/Passing` are what the pass keeps, for private contracts alone.
//!
//! The crate uses `railml_text`, which reads one item. The reader of a topology uses it.
#![tactic(auto)]

mod contexts;
mod document;
mod faults;
mod laws;
mod progress;
mod rows;

pub use document::{read, read_signals};
pub use faults::ReadFault;
pub use laws::{one_fault, one_tree, signals_stand_on_tracks};
pub use railml_text::TextWhat;
pub use rows::{Attrs, Elem, ElemKind, Records, SignalElem, SignalRows};
