// The least broken law.
ghost use Rattle.std.specs.Prelude.{◌≡◌, Some, None, MatchOption};
ghost use Rattle.std.specs.Option.{option_map};
ghost use Rattle.plan_core.specs.Lawful.{HasSizeOf, Lawful};
ghost use Rattle.track_order.specs.Order.{is_above, IsOrderOf};
ghost use Rattle.lawful_check.specs.Breaks.{node_party, edge_party, law_break, IsLeastBreak};

use crate::edge_laws::{least_not_over, least_not_parted};
use crate::grid_law::{line_off_grid, node_off_grid};
use crate::law_break::{LawBreak, Party};
use crate::line_laws::{unaligned, unjoined};
use crate::node_laws::{disordered, meeting};
use plan_core::{EdgeNo, Grid, NodeNo};
use plan_geometry::Drawing;
use port_graph::PortGraph;
use track_order::TrackOrder;

/// The law broken for a node, if one was found.
fn for_node(law: u8, found: Option<NodeNo>) -> Option<LawBreak>
    ensures { result ≡ option_map (λ n. law_break law (node_party n.0) None) found }
{
    found.map(|n| LawBreak {
        law,
        first: Party::Node(n),
        second: None,
    })
}

/// The law broken for an edge, if one was found.
fn for_edge(law: u8, found: Option<EdgeNo>) -> Option<LawBreak>
    ensures { result ≡ option_map (λ e. law_break law (edge_party e.0) None) found }
{
    found.map(|e| LawBreak {
        law,
        first: Party::Edge(e),
        second: None,
    })
}

/// The law broken for two nodes, if they were found.
fn for_nodes(law: u8, found: Option<(NodeNo, NodeNo)>) -> Option<LawBreak>
    ensures { result ≡ option_map (λ p. law_break law (node_party p.0.0) (Some (node_party p.1.0))) found }
{
    found.map(|(u, v)| LawBreak {
        law,
        first: Party::Node(u),
        second: Some(Party::Node(v)),
    })
}

/// The law broken for two edges, if they were found.
fn for_edges(law: u8, found: Option<(EdgeNo, EdgeNo)>) -> Option<LawBreak>
    ensures { result ≡ option_map (λ p. law_break law (edge_party p.0.0) (Some (edge_party p.1.0))) found }
{
    found.map(|(e, f)| LawBreak {
        law,
        first: Party::Edge(e),
        second: Some(Party::Edge(f)),
    })
}

/// The least law that a drawing breaks, and by whom; none exactly where the drawing is lawful. The least is
/// by law, then by the first party, then by the second, nodes before edges.
pub fn broken(g: &PortGraph, t: &TrackOrder, grid: &Grid, d: &Drawing) -> Option<LawBreak>
    requires order { IsOrderOf g.now t.now }
    requires fitting { HasSizeOf g.now d.now }
    ensures { MatchOption result (Lawful g.now (is_above t.now) grid.now d.now)
        (λ b. IsLeastBreak g.now (is_above t.now) grid.now d.now b) }
{
    for_node(1, node_off_grid(grid, d))
        .or(for_edge(1, line_off_grid(grid, d)))
        .or(for_nodes(2, disordered(g, d)))
        .or(for_edge(3, unjoined(g, grid, d)))
        .or(for_node(4, unaligned(g, d)))
        .or(for_nodes(5, meeting(d)))
        .or(for_edges(6, least_not_over(g, t, d)))
        .or(for_edges(7, least_not_parted(g, t, d)))
}
