// The nodes' integers, numbered from west to east.
ghost use Rattle.std.specs.Prelude.{◌≡◌, ◌≤◌, ◌<◌, ◌+◌, ◌*◌, ℕ, length};
ghost use Rattle.plan_core.specs.declared.limits.TheConstants.{MAX_NODES};
ghost use Rattle.plan_core.specs.Grid.{IsGrid};
ghost use Rattle.cnf_laws.specs.Stands.{NodeThere};
ghost use Rattle.cnf_laws.specs.Rank.{comes_before, one_when, west_rank};
ghost use Rattle.cnf_laws.specs.Expected.{ints_at_place, drawing_vars, edges_first};

use cnf_core::Var;
use edge_shape::NodeVars;
use order_int::OrderInt;
use plan_core::{Grid, NodeNo};
use port_graph::PortGraph;
use std::cmp::Ordering;

/// 1 where the first node comes before the second from west to east, else 0.
fn one_before(g: &PortGraph, u: u16, v: u16) -> u16
    requires u { u < length g.now.nodes }
    requires v { v < length g.now.nodes }
    ensures value { result ≡ one_when (comes_before g.now u v) }
    ensures few { result ≤ 1 }
{
    match g.mileage(NodeNo(u)).0.cmp(&g.mileage(NodeNo(v)).0) {
        Ordering::Less => 1,
        Ordering::Equal => { if u < v { 1 } else { 0 } }
        Ordering::Greater => 0,
    }
}

/// A node's place in the row from west to east: how many nodes come before it.
fn rank_of(g: &PortGraph, n: u16) -> u16
    requires { n < length g.now.nodes }
    ensures value { result ≡ west_rank g.now n }
    ensures within { result < length g.now.nodes }
{
    let end = g.nodes();
    let mut count = 0;
    for u in 0..end {
        count += one_before(g, u, n);
    }
    count
}

/// The integers at a place of that row.
fn node_vars_at(grid: &Grid, place: u16) -> NodeVars
    requires { place ≤ MAX_NODES }
    ensures x { result.x ≡ (ints_at_place grid.now place).x }
    ensures y { result.y ≡ (ints_at_place grid.now place).y }
    ensures grid { IsGrid grid.now }
{
    let high = u32::from(grid.height());
    let width = u32::from(grid.width());
    let first = 1 + u32::from(place) * (high + width);
    NodeVars {
        x: OrderInt {
            low: 0,
            high: width,
            first: Var(first + high),
        },
        y: OrderInt {
            low: 0,
            high,
            first: Var(first),
        },
    }
}

/// The integers of a node, in each formula that begins with the variables of a graph's nodes on a grid.
pub fn node_vars(g: &PortGraph, grid: &Grid, n: NodeNo) -> NodeVars
    requires { n.0 < length g.now.nodes }
    ensures x { result.x ≡ ((drawing_vars g.now grid.now).node n.0).x }
    ensures y { result.y ≡ ((drawing_vars g.now grid.now).node n.0).y }
    ensures grid { IsGrid grid.now }
    ensures there { (vars : ℕ) → edges_first g.now grid.now ≤ vars + 1 →
        NodeThere vars ((drawing_vars g.now grid.now).node n.0) }
    ensures within { 1 + west_rank g.now n.0 * (grid.now.height + grid.now.width) + grid.now.height + grid.now.width
        ≤ edges_first g.now grid.now }
{
    // what the types keep
    let _ = g.nodes();
    node_vars_at(grid, rank_of(g, n.0))
}
