// Laws 2 and 5: how two nodes lie to each other.
ghost use Rattle.std.specs.Prelude.{◌+◌, ◌<◌, ◌↔◌, length, IsTrue, MatchOption};
ghost use Rattle.plan_core.specs.Laws.{NodesAreOrdered, NodesAreApart};
ghost use Rattle.plan_core.specs.Lawful.{HasSizeOf, IsPair};
ghost use Rattle.lawful_check.specs.Holding.{HoldsToPair, HoldsForPairs, FailsFirstPair};

use plan_core::NodeNo;
use plan_geometry::Drawing;
use port_graph::PortGraph;
use std::cmp::Ordering;

fn are_ordered(g: &PortGraph, d: &Drawing, u: NodeNo, v: NodeNo) -> bool
    requires fitting { HasSizeOf g.now d.now }
    requires first { u.0 < length g.now.nodes }
    requires second { v.0 < length g.now.nodes }
    ensures { IsTrue result ↔ NodesAreOrdered g.now d.now u.0 v.0 }
{
    let (u_x, v_x) = (d.place(u).x, d.place(v).x);
    match g.mileage(u).0.cmp(&g.mileage(v).0) {
        Ordering::Less => u_x <= v_x,
        Ordering::Equal => u_x == v_x,
        Ordering::Greater => v_x <= u_x,
    }
}

/// The least node behind `u` that isn't ordered with it.
fn disordered_with(g: &PortGraph, d: &Drawing, u: u16) -> Option<u16>
    requires fitting { HasSizeOf g.now d.now }
    requires there { u < length g.now.nodes }
    requires before { HoldsToPair (IsPair (length g.now.nodes)) (NodesAreOrdered g.now d.now) u 0 }
    ensures { MatchOption result (HoldsToPair (IsPair (length g.now.nodes)) (NodesAreOrdered g.now d.now) (u + 1) 0)
        (λ v. FailsFirstPair (IsPair (length g.now.nodes)) (NodesAreOrdered g.now d.now) u v) }
{
    let count = g.nodes();
    for v in u + 1..count {
        if !are_ordered(g, d, NodeNo(u), NodeNo(v)) {
            return Some(v);
        }
    }
    None
}

/// The least two nodes whose columns aren't in the order of their mileages.
pub(crate) fn disordered(g: &PortGraph, d: &Drawing) -> Option<(NodeNo, NodeNo)>
    requires { HasSizeOf g.now d.now }
    ensures { MatchOption result (HoldsForPairs (IsPair (length g.now.nodes)) (NodesAreOrdered g.now d.now))
        (λ p. FailsFirstPair (IsPair (length g.now.nodes)) (NodesAreOrdered g.now d.now) p.0.0 p.1.0) }
{
    for u in 0..g.nodes() {
        if let Some(v) = disordered_with(g, d, u) {
            return Some((NodeNo(u), NodeNo(v)));
        }
    }
    None
}

fn are_apart(d: &Drawing, u: NodeNo, v: NodeNo) -> bool
    requires first { u.0 < length d.now.places }
    requires second { v.0 < length d.now.places }
    ensures { IsTrue result ↔ NodesAreApart d.now u.0 v.0 }
{
    d.place(u) != d.place(v)
}

/// The least node behind `u` that has its point.
fn met_with(d: &Drawing, u: u16) -> Option<u16>
    requires there { u < length d.now.places }
    requires before { HoldsToPair (IsPair (length d.now.places)) (NodesAreApart d.now) u 0 }
    ensures { MatchOption result (HoldsToPair (IsPair (length d.now.places)) (NodesAreApart d.now) (u + 1) 0)
        (λ v. FailsFirstPair (IsPair (length d.now.places)) (NodesAreApart d.now) u v) }
{
    let count = d.nodes();
    for v in u + 1..count {
        if !are_apart(d, NodeNo(u), NodeNo(v)) {
            return Some(v);
        }
    }
    None
}

/// The least two nodes that have one point.
pub(crate) fn meeting(d: &Drawing) -> Option<(NodeNo, NodeNo)>
    ensures { MatchOption result (HoldsForPairs (IsPair (length d.now.places)) (NodesAreApart d.now))
        (λ p. FailsFirstPair (IsPair (length d.now.places)) (NodesAreApart d.now) p.0.0 p.1.0) }
{
    for u in 0..d.nodes() {
        if let Some(v) = met_with(d, u) {
            return Some((NodeNo(u), NodeNo(v)));
        }
    }
    None
}
