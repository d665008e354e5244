// The track graph.
ghost use Rattle.std.specs.Prelude.{◌≡◌, ◌<◌, ◌≤◌, Some, length, slice_get, IfOk};
ghost use Rattle.plan_core.specs.declared.limits.TheConstants.{MAX_NODES, MAX_EDGES};
ghost use Rattle.plan_core.specs.Graph.{node, edge, mileage, ArePortsOf};
ghost use Rattle.port_graph.specs.StationGraph.{IsStationGraph};
ghost use Rattle.port_graph.specs.Columns.{columns_of, AreColumns};
ghost use Rattle.port_graph.specs.Plain.{plain_graph, plain_ports, kind_of};

use crate::columns::number_columns;
use crate::rows::{EdgeRow, NodeRow};
use crate::{NodeKind, Ports};
use plan_core::{ColumnNo, EdgeNo, Micro, NodeNo, OutOfMemory, Text};
use std::alloc::Global;
use std::marker::Model;

/// The nodes and edges of a station, each named by its number, which counts from 0.
#[derive(Drop)]
pub struct PortGraph {
    nodes: Vec<NodeRow>,
    edges: Vec<EdgeRow>,
    columns: u16,
    numbers: Vec<ColumnNo>,
}

impl Model for PortGraph {
    ghost use Rattle.plan_core.specs.Graph.{Graph};

    ghost Value = { Graph };

    ghost use Rattle.port_graph.specs.Plain.{plain_graph};
    ghost use Rattle.port_graph.specs.Kept.{IsKeptGraph};

    ghost view = { λ g. plain_graph g.nodes.items g.edges.items };

    ghost invariant = { λ g. IsKeptGraph (plain_graph g.nodes.items g.edges.items) g.columns g.numbers.items };
}

impl PortGraph {
    /// The graph of these rows.
    pub(crate) fn from_rows(
        alloc: Global,
        nodes: Vec<NodeRow>,
        edges: Vec<EdgeRow>,
    ) -> Result<PortGraph, OutOfMemory>
        requires { IsStationGraph (plain_graph nodes.items edges.items) }
        ensures { IfOk result (λ g. g ≡ plain_graph nodes.items edges.items) }
    {
        let (columns, numbers) = number_columns(alloc, &nodes)?;
        Ok(PortGraph {
            nodes,
            edges,
            columns,
            numbers,
        })
    }

    /// The number of nodes, at most 128.
    pub fn nodes(&self) -> u16
        ensures value { result ≡ length self.now.nodes }
        ensures limit { result ≤ MAX_NODES }
        ensures station { IsStationGraph self.now }
    {
        self.nodes.len() as u16
    }

    /// The number of edges, at most 160.
    pub fn edges(&self) -> u16
        ensures value { result ≡ length self.now.edges }
        ensures limit { result ≤ MAX_EDGES }
        ensures station { IsStationGraph self.now }
    {
        self.edges.len() as u16
    }

    /// The number of columns: how many distinct mileages the nodes have.
    pub fn columns(&self) -> u16
        ensures value { result ≡ length (columns_of self.now) }
        ensures limit { result ≤ length self.now.nodes }
        ensures are_columns { AreColumns self.now (columns_of self.now) }
    {
        self.columns
    }

    /// The node of smaller mileage of an edge.
    pub fn west(&self, e: EdgeNo) -> NodeNo
        requires { e.0 < length self.now.edges }
        ensures value { result.0 ≡ (edge self.now e.0).west }
        ensures there { result.0 < length self.now.nodes }
    {
        self.edges[e.0 as usize].west
    }

    /// The node of greater mileage of an edge.
    pub fn east(&self, e: EdgeNo) -> NodeNo
        requires { e.0 < length self.now.edges }
        ensures value { result.0 ≡ (edge self.now e.0).east }
        ensures there { result.0 < length self.now.nodes }
    {
        self.edges[e.0 as usize].east
    }

    /// The name of an edge's track; of a join of two switches or crossings, the id of the
    /// connection that the file lists first.
    pub fn track(&self, e: EdgeNo) -> &Text
        requires { e.0 < length self.now.edges }
        ensures { result.now ≡ (edge self.now e.0).track }
    {
        &self.edges[e.0 as usize].track
    }

    /// The name of a node.
    pub fn name(&self, n: NodeNo) -> &Text
        requires { n.0 < length self.now.nodes }
        ensures { result.now ≡ (node self.now n.0).name }
    {
        &self.nodes[n.0 as usize].name
    }

    /// The kind of a node.
    pub fn kind(&self, n: NodeNo) -> NodeKind
        requires { n.0 < length self.now.nodes }
        ensures { result ≡ kind_of (node self.now n.0).ports }
    {
        self.nodes[n.0 as usize].ports.kind()
    }

    /// The edges at a node, each by its port.
    pub fn ports(&self, n: NodeNo) -> Ports
        requires { n.0 < length self.now.nodes }
        ensures value { plain_ports result ≡ (node self.now n.0).ports }
        ensures there { ArePortsOf self.now n.0 (plain_ports result) }
    {
        self.nodes[n.0 as usize].ports
    }

    /// The mileage of a node, in micrometres.
    pub fn mileage(&self, n: NodeNo) -> Micro
        requires { n.0 < length self.now.nodes }
        ensures { result.0 ≡ mileage self.now n.0 }
    {
        self.nodes[n.0 as usize].mileage
    }

    /// The column of a node: the place of its mileage among the columns, from 0 in the west.
    pub fn column_of(&self, n: NodeNo) -> ColumnNo
        requires { n.0 < length self.now.nodes }
        ensures place { slice_get (columns_of self.now) result.0 ≡ Some (mileage self.now n.0) }
        ensures there { result.0 < length (columns_of self.now) }
    {
        self.numbers[n.0 as usize]
    }
}
