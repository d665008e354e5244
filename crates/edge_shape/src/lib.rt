//! The clauses of one drawn edge: their models are exactly the lines between its two nodes' points.
//!
//! An edge has six variables for its whole line: two end slopes and two bends. For each column there are more:
//! whether the line has it, rises or falls from it, was level by then, turns there, and its height. `specs/EdgeVars`
//! numbers them. `specs/Edge` has the clauses as rules (`specs/Rules`). `specs/ReadsLine` says what each variable
//! means, `specs/Setting` which truth values a line gives them. `add_edge` adds the clauses (`ends`, `steps`,
//! `heights`, `columns`, `whole`, joined in `edge`). `put` sets a line. `laws` says what a model's variables say.
//! `cnf_laws` uses them.
//!
//! Clauses speak of columns and laws speak of lines. Between them is the track (`specs/Track`): the heights over a
//! row of columns. Each of the eleven shapes gives a track, and each track the points of one shape (`line_laws`).
//! `specs/Columns` says what a line is at a column, and `line_columns` answers it. `tracing` makes the line of
//! heights. `specs/Joins` says which lines may join two points.
#![tactic(auto)]

mod columns;
mod edge;
mod edge_vars;
mod ends;
mod heights;
mod laws;
mod line_columns;
mod line_laws;
mod places;
mod put;
mod rules;
mod steps;
mod tracing;
mod whole;

pub use edge_vars::{EdgeVars, NodeVars, add_edge};
pub use laws::{
    accessors_read_the_line, bends_are_two_variables, diagonal_is_counted, one_line_is_read,
};
pub use line_columns::{has_inner, has_level, height_over, is_level_by, step_over};
pub use line_laws::{
    a_line_is_a_track, a_track_is_a_line, bends_by_end_slopes, diagonal_by_steps,
    heights_determine_a_line, points_and_heights_on_the_grid,
};
pub use tracing::trace;
