// Laws 6 and 7: which of two lines is over the other.
ghost use Rattle.std.specs.Prelude.{◌+◌, ◌<◌, ◌↔◌, length, IsTrue, MatchOption};
ghost use Rattle.plan_core.specs.Laws.{EdgeIsOver, EdgesAreParted};
ghost use Rattle.plan_core.specs.Lawful.{HasSizeOf, IsAbovePair, IsOtherPair};
ghost use Rattle.track_order.specs.Order.{is_above, IsOrderOf};
ghost use Rattle.lawful_check.specs.Columns.{EndsIn, IsShared, IsHigherAt};
ghost use Rattle.lawful_check.specs.Holding.{HoldsToPair, HoldsForPairs, FailsFirstPair};

use plan_core::{EdgeNo, NodeNo};
use plan_geometry::Drawing;
use port_graph::PortGraph;
use track_order::TrackOrder;

/// Whether the node is an end of the edge and lies in the column.
fn ends_in(g: &PortGraph, d: &Drawing, f: EdgeNo, n: NodeNo, x: u16) -> bool
    requires fitting { HasSizeOf g.now d.now }
    requires there { f.0 < length g.now.edges }
    requires node { n.0 < length g.now.nodes }
    ensures { IsTrue result ↔ EndsIn g.now d.now f.0 n.0 x }
{
    (g.west(f) == n || g.east(f) == n) && d.place(n).x == x
}

/// Whether the column is that of a node that is an end of both edges.
fn is_shared(g: &PortGraph, d: &Drawing, e: EdgeNo, f: EdgeNo, x: u16) -> bool
    requires fitting { HasSizeOf g.now d.now }
    requires first { e.0 < length g.now.edges }
    requires second { f.0 < length g.now.edges }
    ensures { IsTrue result ↔ IsShared g.now d.now e.0 f.0 x }
{
    ends_in(g, d, f, g.west(e), x) || ends_in(g, d, f, g.east(e), x)
}

/// Whether `e` is the higher at the column, if the two are compared there.
fn is_higher_at(g: &PortGraph, d: &Drawing, e: EdgeNo, f: EdgeNo, x: u16) -> bool
    requires fitting { HasSizeOf g.now d.now }
    requires first { e.0 < length g.now.edges }
    requires second { f.0 < length g.now.edges }
    ensures { IsTrue result ↔ IsHigherAt g.now d.now e.0 f.0 x }
{
    match (d.line(e).height_at(x), d.line(f).height_at(x)) {
        (Some(upper), Some(lower)) => lower < upper || is_shared(g, d, e, f, x),
        _ => true,
    }
}

/// Whether `e` is the higher at each column that is compared.
pub fn is_over(g: &PortGraph, d: &Drawing, e: EdgeNo, f: EdgeNo) -> bool
    requires fitting { HasSizeOf g.now d.now }
    requires first { e.0 < length g.now.edges }
    requires second { f.0 < length g.now.edges }
    ensures { IsTrue result ↔ EdgeIsOver g.now d.now e.0 f.0 }
{
    let upper = d.line(e);
    for x in upper.west_end().x..=upper.east_end().x {
        if !is_higher_at(g, d, e, f, x) {
            return false;
        }
    }
    true
}

fn are_parted(g: &PortGraph, d: &Drawing, e: EdgeNo, f: EdgeNo) -> bool
    requires fitting { HasSizeOf g.now d.now }
    requires first { e.0 < length g.now.edges }
    requires second { f.0 < length g.now.edges }
    ensures { IsTrue result ↔ EdgesAreParted g.now d.now e.0 f.0 }
{
    is_over(g, d, e, f) || is_over(g, d, f, e)
}

/// The least edge that `e` is above and doesn't lie over.
fn not_over(g: &PortGraph, t: &TrackOrder, d: &Drawing, e: u16) -> Option<u16>
    requires order { IsOrderOf g.now t.now }
    requires fitting { HasSizeOf g.now d.now }
    requires there { e < length g.now.edges }
    requires before { HoldsToPair (IsAbovePair g.now (is_above t.now)) (EdgeIsOver g.now d.now) e 0 }
    ensures { MatchOption result (HoldsToPair (IsAbovePair g.now (is_above t.now)) (EdgeIsOver g.now d.now) (e + 1) 0)
        (λ f. FailsFirstPair (IsAbovePair g.now (is_above t.now)) (EdgeIsOver g.now d.now) e f) }
{
    for f in 0..g.edges() {
        if t.above(EdgeNo(e), EdgeNo(f)) && !is_over(g, d, EdgeNo(e), EdgeNo(f)) {
            return Some(f);
        }
    }
    None
}

/// The least two edges of which the first is above the second and doesn't lie over it.
pub(crate) fn least_not_over(g: &PortGraph, t: &TrackOrder, d: &Drawing) -> Option<(EdgeNo, EdgeNo)>
    requires order { IsOrderOf g.now t.now }
    requires fitting { HasSizeOf g.now d.now }
    ensures { MatchOption result (HoldsForPairs (IsAbovePair g.now (is_above t.now)) (EdgeIsOver g.now d.now))
        (λ p. FailsFirstPair (IsAbovePair g.now (is_above t.now)) (EdgeIsOver g.now d.now) p.0.0 p.1.0) }
{
    for e in 0..g.edges() {
        if let Some(f) = not_over(g, t, d, e) {
            return Some((EdgeNo(e), EdgeNo(f)));
        }
    }
    None
}

/// Whether the edges overlap and neither is above the other.
fn are_unordered(g: &PortGraph, t: &TrackOrder, e: EdgeNo, f: EdgeNo) -> bool
    requires order { IsOrderOf g.now t.now }
    requires rising { e.0 < f.0 }
    requires there { f.0 < length g.now.edges }
    ensures { IsTrue result ↔ IsOtherPair g.now (is_above t.now) e.0 f.0 }
{
    t.overlap(e, f) && !t.above(e, f) && !t.above(f, e)
}

/// The least edge behind `e` that is unordered with it and not parted from it.
fn not_parted(g: &PortGraph, t: &TrackOrder, d: &Drawing, e: u16) -> Option<u16>
    requires order { IsOrderOf g.now t.now }
    requires fitting { HasSizeOf g.now d.now }
    requires there { e < length g.now.edges }
    requires before { HoldsToPair (IsOtherPair g.now (is_above t.now)) (EdgesAreParted g.now d.now) e 0 }
    ensures { MatchOption result (HoldsToPair (IsOtherPair g.now (is_above t.now)) (EdgesAreParted g.now d.now) (e + 1)
        0)
        (λ f. FailsFirstPair (IsOtherPair g.now (is_above t.now)) (EdgesAreParted g.now d.now) e f) }
{
    let count = g.edges();
    for f in e + 1..count {
        if are_unordered(g, t, EdgeNo(e), EdgeNo(f)) && !are_parted(g, d, EdgeNo(e), EdgeNo(f)) {
            return Some(f);
        }
    }
    None
}

/// The least two edges that are unordered and not parted.
pub(crate) fn least_not_parted(
    g: &PortGraph,
    t: &TrackOrder,
    d: &Drawing,
) -> Option<(EdgeNo, EdgeNo)>
    requires order { IsOrderOf g.now t.now }
    requires fitting { HasSizeOf g.now d.now }
    ensures { MatchOption result (HoldsForPairs (IsOtherPair g.now (is_above t.now)) (EdgesAreParted g.now d.now))
        (λ p. FailsFirstPair (IsOtherPair g.now (is_above t.now)) (EdgesAreParted g.now d.now) p.0.0 p.1.0) }
{
    for e in 0..g.edges() {
        if let Some(f) = not_parted(g, t, d, e) {
            return Some((EdgeNo(e), EdgeNo(f)));
        }
    }
    None
}
