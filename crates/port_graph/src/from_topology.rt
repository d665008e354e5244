// The track graph of a topology, or why it has none.
ghost use Rattle.std.specs.Prelude.{◌≡◌, ◌⊎◌, length, IfOk, IfErr};
ghost use Rattle.plan_core.specs.Exactly.{AnswersExactly};
ghost use Rattle.plan_core.specs.Topology.{IsResolved};
ghost use Rattle.port_graph.specs.declared.fault.GraphFault.TheVariants.{Memory};
ghost use Rattle.port_graph.specs.Runs.{edge_count, joins as all_joins};
ghost use Rattle.port_graph.specs.Sites.{sites as all_sites};
ghost use Rattle.port_graph.specs.TopologyGraph.{HasFewNodes, HasFewEdges, IsStationGraphOf, IsGraphFault};

use crate::counts::{count_nodes, count_pieces};
use crate::edges::{check_forward, edge_rows};
use crate::joins::joins;
use crate::listing::sites;
use crate::nodes::node_rows;
use crate::numbers::{Numbering, first_pieces};
use crate::order::{order_sites, runs};
use crate::{GraphFault, Join, PortGraph, Site};
use plan_core::{MAX_EDGES, MAX_NODES, OutOfMemory, Topology};
use std::alloc::Global;

/// How many edges there are, of which these are the joins.
fn count_edges(t: &Topology, joins: &[Join]) -> u32
    requires resolved { IsResolved t.now }
    requires joins { joins.now ≡ all_joins t.now }
    ensures { result ≡ edge_count t.now }
{
    count_pieces(t) + joins.len() as u32
}

/// The nodes with the edges that meet there, and the joins again.
fn numbered_sites(
    alloc: Global,
    t: &Topology,
    joins: Vec<Join>,
) -> Result<(Vec<Site>, Vec<Join>), OutOfMemory>
    requires edges { HasFewEdges t.now }
    requires joins { joins.items ≡ all_joins t.now }
    ensures sites { IfOk result (λ found. found.0.items ≡ all_sites t.now) }
    ensures joins { IfOk result (λ found. found.1.items ≡ all_joins t.now) }
{
    let firsts = first_pieces(alloc, t)?;
    let numbering = Numbering { firsts, joins };
    let sites = sites(alloc, t, &numbering)?;
    let Numbering { firsts: _, joins } = numbering;
    Ok((sites, joins))
}

/// The track graph of a topology within the limits, or its fault.
fn graph_within(alloc: Global, t: &Topology, joins: Vec<Join>) -> Result<PortGraph, GraphFault>
    requires resolved { IsResolved t.now }
    requires nodes { HasFewNodes t.now }
    requires edges { HasFewEdges t.now }
    requires joins { joins.items ≡ all_joins t.now }
    ensures graph { IfOk result (λ g. IsStationGraphOf t.now g) }
    ensures fault { IfErr result (λ fault. (fault ≡ Memory) ⊎ IsGraphFault t.now fault) }
{
    let (mut sites, joins) = numbered_sites(alloc, t, joins)?;
    let runs = runs(alloc, t, joins)?;
    check_forward(alloc, &runs)?;
    let edges = edge_rows(alloc, &sites, &runs)?;
    order_sites(&mut sites);
    let nodes = node_rows(alloc, &edges, &sites)?;
    let graph = PortGraph::from_rows(alloc, nodes, edges)?;
    Ok(graph)
}

/// The track graph of a topology, or the first fault that it has.
///
/// Nodes are numbered by the place of their element in the file, a joint by the end that is listed
/// first. Edges are numbered track by track from begin to end, and after them the joins between
/// switches and crossings by the connection that is listed first.
#[tactic(auto, using(crate::proofs::OneGraph::graph_exactly))]
pub fn build(alloc: Global, t: &Topology) -> Result<PortGraph, GraphFault>
    requires { IsResolved t.now }
    ensures { AnswersExactly result Memory (IsStationGraphOf t.now) (IsGraphFault t.now) }
{
    let nodes = count_nodes(t);
    if nodes as usize > MAX_NODES {
        return Err(GraphFault::TooManyNodes(nodes));
    }
    let joins = joins(alloc, t)?;
    let edges = count_edges(t, &joins);
    if edges as usize > MAX_EDGES {
        return Err(GraphFault::TooManyEdges(edges));
    }
    graph_within(alloc, t, joins)
}
