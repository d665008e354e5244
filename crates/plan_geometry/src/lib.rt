//! Lines, drawings, and what a drawing measures.
//!
//! A `Line` is one of the eleven shapes by its type, so no other list of points can be an edge's line. A `Drawing`
//! has a point for each node and a line for each edge. `values` measures it, and `better` compares two measures along
//! an order of criteria. Contracts see a line as its list of points, and a drawing as its two lists. They speak in
//! the words of `plan_core`: `is_line`, `height`, `slope_west`, `slope_east`, `bends`, `diagonal`, `values_of`,
//! `Better`.
//!
//! The crate uses `plan_core`. The lawful checker, the formula, the texts and the commands use it.
#![tactic(auto)]

mod comparing;
mod drawing;
mod line;
mod measuring;
mod pieces;

pub use comparing::better;
pub use drawing::Drawing;
pub use line::Line;
pub use measuring::values;
