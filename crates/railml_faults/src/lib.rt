//! What is wrong with a document's rows: the first of their faults, or that they have none.
//!
//! Thirteen things can be wrong with rows. `specs/Rows` has the words that all speak in: a row's children, ids,
//! attributes and positions. `specs/Faults` says of each of the thirteen exactly where it holds, and which texts its
//! fault has. The first by kind, and then by place, is the one that counts. `first_fault` answers it, by tables that
//! are made of the rows once. `specs/Tables` says what they hold, `specs/Telling` what the answer has. `specs/Ids` is
//! for private contracts alone.
//!
//! The crate uses `railml_read`, which gives the rows, and `rail_mileage`, which reads positions and mileages.
//! `railml_topology` builds the topology of rows without a fault.
#![tactic(auto)]

mod attributes;
mod bad_ids;
mod children;
mod courses;
mod fault;
mod finding;
mod hashes;
mod ids;
mod laws;
mod missing;
mod numbers;
mod outside;
mod parts;
mod references;
mod rows;
mod tables;
mod telling;
mod tracks;

pub use attributes::Attribute;
pub use fault::TopologyWhat;
pub use laws::one_fault;
pub use rows::{is_kind, is_of_kind, is_word};
pub use tables::{Tables, entry};
pub use telling::{Told, first_fault};
