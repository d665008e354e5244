//! Drawings of models, and models of drawings.
//!
//! `decode` reads the drawing that a model of a drawing's formula means. Each node's point comes from its two
//! integers. Each edge's line comes from the edge's heights, which `edge_shape` traces. The drawing is lawful, and
//! the only lawful one that the model means. The formula's bounds give its values. `decode_loose` reads in the same
//! way a model of the nodes' and edges' clauses alone. It answers the one drawing with laws 1 and 3 that this model
//! means, whatever other laws it has. `encode_drawing` makes a model of a lawful drawing, by `drawing_cnf`'s `put`.
//! What is decoded from that model is the drawing again.
//!
//! A model means a drawing by `drawing_cnf`'s `StandsFor`. The contracts cite this, `Tells` and `IsWhole`, and
//! `plan_core`'s `Lawful`. `specs/Decoded` says when an assignment reads a drawing in the variables of a graph on a
//! grid. The steps of reading are proved from it.
//!
//! The crate uses `drawing_cnf`. The search for least values uses it.
#![tactic(auto)]

mod decoding;
mod encoding;

pub use decoding::{decode, decode_loose};
pub use encoding::encode_drawing;
