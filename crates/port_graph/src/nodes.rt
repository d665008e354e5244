// The nodes that sites become, or the first at which the edges don't lie as they must.
ghost use Rattle.std.specs.Prelude.{◌≡◌, ℕ, ◌<◌, ◌≤◌, ◌^◌, ◌∷◌, ◌++◌, [], Some, None, List, map, length, All, IsSome};
ghost use Rattle.std.specs.Prelude.{IfOk, IfErr, OnOk};
ghost use Rattle.plan_core.specs.declared.limits.TheConstants.{MAX_NODES};
ghost use Rattle.port_graph.specs.Plain.{plain_edge, plain_node, plain_ports};
ghost use Rattle.port_graph.specs.Sides.{edges_met};
ghost use Rattle.port_graph.specs.PortRule.{ports_of};
ghost use Rattle.port_graph.specs.TopologyGraph.{side_at};
ghost use Rattle.port_graph.specs.declared.sites.Site.{Site};
ghost use Rattle.port_graph.specs.Ordered.{node_among, nodes_among, IsMismatchOf, IsMismatchFault};

use crate::rows::{EdgeRow, NodeRow};
use crate::sides::ports_at;
use crate::{GraphFault, Ports, Site};
use plan_core::{NodeNo, OutOfMemory};
use std::alloc::Global;

/// Adds the node of a site with these ports.
fn push_node_row(
    alloc: Global,
    site: &Site,
    ports: Ports,
    rows: &mut Vec<NodeRow>,
) -> Result<(), OutOfMemory>
    ensures { OnOk result (map plain_node rows.new.items ≡ map plain_node rows.old.items ++
        record { name = site.now.id; mileage = site.now.spot.mile.0; ports = plain_ports ports } ∷ []) }
{
    let name = site.id.copied(alloc)?;
    let mileage = site.spot.mile;
    rows.push(NodeRow {
        name,
        mileage,
        ports,
    })?;
    Ok(())
}

/// The fault of a site at which the edges don't lie as they must.
fn mismatch(alloc: Global, edges: &[EdgeRow], site: &Site, node: NodeNo) -> GraphFault
    requires { ports_of (side_at (map plain_edge edges.now) node.0) site.now.meets ≡ None }
    ensures { IsMismatchOf (map plain_edge edges.now) node.0 site.now result }
{
    match site.id.copied(alloc) {
        Ok(name) => GraphFault::SideMismatch { node, name },
        Err(_) => GraphFault::Memory,
    }
}

/// Adds the node that a site becomes at this number, if the edges lie there as they must.
fn push_node(
    alloc: Global,
    edges: &[EdgeRow],
    site: &Site,
    node: NodeNo,
    rows: &mut Vec<NodeRow>,
) -> Result<(), GraphFault>
    requires { All (λ (e : ℕ). e < length edges.now) (edges_met site.now.meets) }
    ensures added { OnOk result (map Some (map plain_node rows.new.items) ≡
        map Some (map plain_node rows.old.items) ++ node_among (map plain_edge edges.now) (node.0, site.now) ∷ []) }
    ensures lies { OnOk result (IsSome (ports_of (side_at (map plain_edge edges.now) node.0) site.now.meets)) }
    ensures fault { IfErr result (λ fault. IsMismatchOf (map plain_edge edges.now) node.0 site.now fault) }
{
    match ports_at(edges, node, site.meets) {
        Some(ports) => {
            push_node_row(alloc, site, ports, rows)?;
            Ok(())
        }
        None => Err(mismatch(alloc, edges, site, node)),
    }
}

/// The nodes that sites become, which are in the order of their numbers.
pub(crate) fn node_rows(
    alloc: Global,
    edges: &[EdgeRow],
    sites: &[Site],
) -> Result<Vec<NodeRow>, GraphFault>
    requires few { length sites.now ≤ MAX_NODES }
    requires there { All (λ (s : Site). All (λ (e : ℕ). e < length edges.now) (edges_met s.meets)) sites.now }
    ensures nodes { IfOk result (λ rows. map Some (map plain_node rows.items)
        ≡ nodes_among (map plain_edge edges.now) sites.now) }
    ensures fault { IfErr result (λ fault. IsMismatchFault (map plain_edge edges.now) sites.now fault) }
{
    let mut rows = Vec::new(alloc);
    for (number, site) in sites.iter().enumerate() {
        push_node(alloc, edges, site, NodeNo(number as u16), &mut rows)?;
    }
    Ok(rows)
}
