//! The formula of a drawing: its models are exactly the lawful drawings of a track graph.
//!
//! `encode` makes the formula of a graph on a grid, of the clauses of `cnf_laws`, whose calls and `specs/` it hands
//! on. `specs/Encoding` is a formula with its graph, order, grid and bounds. `specs/Bounds` has the clauses of the
//! criteria's bounds, `specs/Bounded` the formula with them. `criterion_bound` (`adding`) adds one behind a whole
//! formula (`specs/Whole`); `specs/Behind` says what it did. It uses `bounds` and a file for each criterion:
//! `height_bound`, `width_bound`, `sum_bounds`, `diagonal_bound`. `west_first` orders the edges of a sum. `put`,
//! `put_laws` and `put_bounds` give a lawful drawing's truth values.
//!
//! `specs/Lists` and `specs/Layout` have the same clauses and bounds as the lines of a log (`problem_of`).
//! `problem_laws` says that they cover the lawful drawings, and which variables they name. Searches and judges share
//! these, and no other code. `add_moved_count` (`counting`) adds variables "at least j nodes moved", by the nodes'
//! former points. `specs/Moved` counts moved nodes, `specs/MovedClauses` has the clauses.
#![tactic(auto)]

mod adding;
mod bounds;
mod counting;
mod diagonal_bound;
mod encoded;
mod height_bound;
mod kept_bound;
mod laws;
mod one_node;
mod problem_laws;
mod put;
mod put_bounds;
mod put_laws;
mod sum_bounds;
mod values;
mod west_first;
mod width_bound;

pub use adding::{Bounds, criterion_bound};
pub use cnf_laws::{
    add_aligned_law, add_apart_law, add_base, add_ordered_law, add_over_law, add_parted_law,
    edge_vars, node_vars,
};
pub use counting::{add_moved_count, count_matched};
pub use encoded::{Encoded, encode};
pub use laws::{
    bounds_are_small_and_named, edges_begin_from_west_to_east, no_more_in_front,
    nodes_lie_from_west_to_east, one_criterion_more, whole_is_expected,
};
pub use problem_laws::{
    drawing_lists_are_a_problem, expected_lines_cover, expected_variables_are_there,
};
pub use sum_bounds::add_sum_bound;
pub use values::greatest;
