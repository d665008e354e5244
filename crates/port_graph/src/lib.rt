//! The track graph of a station: nodes, edges, ports and columns.
//!
//! A `PortGraph` has a node for each end of the railway, each joint of two tracks, each switch and each crossing. It
//! has an edge for each piece of track between two of them. `build` makes it of a topology, or answers the first
//! fault. Contracts see it as `plan_core`'s plain `Graph`, which is an `IsStationGraph` by its type: a track graph
//! within the limits, with names and mileages as a file has them.
//!
//! `specs/TopologyGraph` says what the graph of a topology is, over `Sites`, `Runs` and the side rule in `PortRule`.
//! `specs/Columns` has the columns, which are the distinct mileages of the nodes in rising order. `specs/Turned` has
//! the station seen from its other end, of which `laws` speaks.
//!
//! The crate uses `plan_core`. The track order, the lawful checker, the formula and the texts use it.
#![tactic(auto)]

mod columns;
mod counts;
mod edges;
mod fault;
mod from_topology;
mod graph;
mod joins;
mod laws;
mod listing;
mod nodes;
mod numbers;
mod order;
mod pieces;
mod ports;
mod rows;
mod runs;
mod sides;
mod sites;
mod spots;

pub use fault::GraphFault;
pub use from_topology::build;
pub use graph::PortGraph;
pub use laws::{
    columns_are_the_distinct_mileages, columns_count_from_the_other_end, hands_exchanged,
    one_graph_or_one_fault, seen_from_the_other_end,
};
pub use ports::{NodeKind, Ports};
use runs::{Join, Run, Spot};
use sites::{Meeting, Site};
