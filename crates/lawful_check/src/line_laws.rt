// Laws 3 and 4: lines join their nodes, and go on through them.
ghost use Rattle.std.specs.Prelude.{◌≡◌, ◌<◌, ◌+ℤ◌, ◌↔◌, pos, length, All, IsTrue, MatchOption};
ghost use Rattle.plan_core.specs.Lawful.{HasSizeOf};
ghost use Rattle.plan_core.specs.Graph.{edges_of};
ghost use Rattle.plan_core.specs.Laws.{LineJoinsItsNodes, steepness, Diverges, slope_at, PortsAreAligned};
ghost use Rattle.plan_core.specs.Laws.{NodeIsAligned};
ghost use Rattle.port_graph.specs.Plain.{plain_ports};
ghost use Rattle.lawful_check.specs.Holding.{HoldsForAll, FailsFirst};

use plan_core::{Compass, EdgeNo, Grid, NodeNo, Side, Slope};
use plan_geometry::Drawing;
use port_graph::{PortGraph, Ports};

fn joins_its_nodes(g: &PortGraph, grid: &Grid, d: &Drawing, e: EdgeNo) -> bool
    requires fitting { HasSizeOf g.now d.now }
    requires there { e.0 < length g.now.edges }
    ensures { IsTrue result ↔ LineJoinsItsNodes g.now grid.now d.now e.0 }
{
    let (west, east) = (d.place(g.west(e)), d.place(g.east(e)));
    d.line(e).west_end() == west
        && d.line(e).east_end() == east
        && u32::from(west.x) + u32::from(grid.least()) <= u32::from(east.x)
}

/// The least edge whose line doesn't join its nodes.
pub(crate) fn unjoined(g: &PortGraph, grid: &Grid, d: &Drawing) -> Option<EdgeNo>
    requires { HasSizeOf g.now d.now }
    ensures { MatchOption result (HoldsForAll (λ e. e < length g.now.edges) (LineJoinsItsNodes g.now grid.now d.now))
        (λ e. FailsFirst (λ e. e < length g.now.edges) (LineJoinsItsNodes g.now grid.now d.now) e.0) }
{
    for e in 0..g.edges() {
        if !joins_its_nodes(g, grid, d, EdgeNo(e)) {
            return Some(EdgeNo(e));
        }
    }
    None
}

fn steepness_of(s: Slope) -> i8
    ensures { result ≡ steepness s }
{
    match s {
        Slope::Down => -1,
        Slope::Level => 0,
        Slope::Up => 1,
    }
}

fn is_one_more(s: Slope, t: Slope) -> bool
    ensures { IsTrue result ↔ steepness t ≡ steepness s +ℤ pos 1 }
{
    steepness_of(t) == steepness_of(s) + 1
}

/// Whether the diverging leg's slope is one more or one less than that of trunk and straight leg, as
/// its side asks.
fn turns_off(legs: Compass, branch: Side, s: Slope, diverging: Slope) -> bool
    ensures { IsTrue result ↔ Diverges legs branch s diverging }
{
    match (legs, branch) {
        (Compass::East, Side::Upper) | (Compass::West, Side::Lower) => is_one_more(s, diverging),
        (Compass::East, Side::Lower) | (Compass::West, Side::Upper) => is_one_more(diverging, s),
    }
}

/// The slope of the edge's line where it meets the node.
fn slope_at(g: &PortGraph, d: &Drawing, n: NodeNo, e: EdgeNo) -> Slope
    requires fitting { HasSizeOf g.now d.now }
    requires there { e.0 < length g.now.edges }
    ensures { result ≡ slope_at g.now d.now n.0 e.0 }
{
    if g.west(e) == n {
        d.line(e).slope_west()
    } else {
        d.line(e).slope_east()
    }
}

fn are_aligned(g: &PortGraph, d: &Drawing, n: NodeNo, ports: Ports) -> bool
    requires fitting { HasSizeOf g.now d.now }
    requires there { All (λ e. e < length g.now.edges) (edges_of (plain_ports ports)) }
    ensures { IsTrue result ↔ PortsAreAligned (slope_at g.now d.now n.0) (plain_ports ports) }
{
    match ports {
        Ports::End { edge, .. } => slope_at(g, d, n, edge) == Slope::Level,
        Ports::Joint { west, east } => slope_at(g, d, n, west) == slope_at(g, d, n, east),
        Ports::Switch {
            legs,
            branch,
            trunk,
            straight,
            diverging,
        } => {
            slope_at(g, d, n, straight) == slope_at(g, d, n, trunk)
                && turns_off(
                    legs,
                    branch,
                    slope_at(g, d, n, trunk),
                    slope_at(g, d, n, diverging),
                )
        }
        Ports::Crossing {
            west_upper,
            west_lower,
            east_upper,
            east_lower,
        } => {
            slope_at(g, d, n, west_lower) == slope_at(g, d, n, east_upper)
                && slope_at(g, d, n, west_upper) == slope_at(g, d, n, east_lower)
                && steepness_of(slope_at(g, d, n, west_upper))
                    < steepness_of(slope_at(g, d, n, west_lower))
        }
    }
}

fn is_aligned(g: &PortGraph, d: &Drawing, n: NodeNo) -> bool
    requires fitting { HasSizeOf g.now d.now }
    requires there { n.0 < length g.now.nodes }
    ensures { IsTrue result ↔ NodeIsAligned g.now d.now n.0 }
{
    are_aligned(g, d, n, g.ports(n))
}

/// The least node through which the lines don't go on as its kind asks.
pub(crate) fn unaligned(g: &PortGraph, d: &Drawing) -> Option<NodeNo>
    requires { HasSizeOf g.now d.now }
    ensures { MatchOption result (HoldsForAll (λ n. n < length g.now.nodes) (NodeIsAligned g.now d.now))
        (λ n. FailsFirst (λ n. n < length g.now.nodes) (NodeIsAligned g.now d.now) n.0) }
{
    for n in 0..g.nodes() {
        if !is_aligned(g, d, NodeNo(n)) {
            return Some(NodeNo(n));
        }
    }
    None
}
