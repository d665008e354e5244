// The rows that a graph is made of.
use crate::Ports;
use plan_core::{Micro, NodeNo, Text};

/// A node. Its number is its place among the nodes.
#[derive(Drop)]
pub(crate) struct NodeRow {
    pub(crate) name: Text,
    pub(crate) mileage: Micro,
    pub(crate) ports: Ports,
}

/// An edge: the name of its track, and its nodes of smaller and of greater mileage. Its number is its
/// place among the edges.
#[derive(Drop)]
pub(crate) struct EdgeRow {
    pub(crate) track: Text,
    pub(crate) west: NodeNo,
    pub(crate) east: NodeNo,
}
