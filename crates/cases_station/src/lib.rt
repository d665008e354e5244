//! What is read of a station: items, mileages and the track graph.
//!
//! The crate has nothing but tests. `worked_graphs` has the track graphs of the definitions' examples, as theorems.
//! `metres` has mileages, and `items` the texts of attributes, which no answer to a file shows. Runs of the program,
//! in `cases/graph`, try documents with a fault, topologies and graphs. The crate uses those that read a station, so
//! that a change of a case proves none of them again.
#![tactic(auto)]

#[cfg(test)]
mod items;
#[cfg(test)]
mod metres;
#[cfg(test)]
mod worked_graphs;
