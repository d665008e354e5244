//! The clauses of the laws of a drawing: of nodes and edges, and of each law for its parties.
//!
//! Each node has two integers, its column and its row. Their variables are in the order of the nodes from west to
//! east (`west_rank`; `node_vars`). Each edge has the variables and clauses of `edge_shape` (`edge_vars`). These give
//! the laws on the grid and on ends of lines. The laws on order, slopes, distinct points and edges above each other
//! have clauses of their own. Each has a function (`order`, `aligned`, `over`) for one node or one pair, unless one
//! of some literals is true. `one_law` has a public call for each. `add_base` has the nodes' and edges' clauses by
//! themselves. They are those of the drawings with laws 1 and 3 (`specs/Joined`). `fill` has all clauses of a graph
//! on a grid.
//!
//! `specs/Expected` is the clause list, as one definition that computes, with `Sound` and `Covers`. `specs/Stands`
//! says when an assignment means a drawing. `specs/LawClauses` has the clauses of each law, `specs/Guards` the order
//! with guards that four of them share. `specs/WithoutLeast` is the clause list without a least length.
//!
//! The crate uses `edge_shape`, `port_graph` and `track_order`. `drawing_cnf` uses it and hands its calls on.
#![tactic(auto)]

mod aligned;
mod edge_laws;
mod guards;
mod node_laws;
mod nodes;
mod one_law;
mod order;
mod over;
mod rank;
mod whole;

pub use edge_laws::{edge_vars, is_settled};
pub use guards::same;
pub use nodes::add_base;
pub use one_law::{add_aligned_law, add_apart_law, add_ordered_law, add_over_law, add_parted_law};
pub use order::yes_var;
pub use rank::node_vars;
pub use whole::fill;
