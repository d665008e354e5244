// The order of a graph's edges.
ghost use Rattle.std.specs.Prelude.{◌≡◌, ◌<◌, ◌≤◌, length};
ghost use Rattle.plan_core.specs.declared.limits.TheConstants.{MAX_EDGES};
ghost use Rattle.track_order.specs.Order.{is_above, is_overlap};
ghost use Rattle.track_order.specs.Tables.{entry, IsTable};

use plan_core::{EdgeNo, Items};
use std::marker::Model;

/// An entry for each edge.
pub(crate) type Row = Items<bool>;

/// Which of a graph's edges are above which, and which overlap.
#[derive(Drop)]
pub struct TrackOrder {
    pub(crate) edges: u16,
    pub(crate) above: Items<Row>,
    pub(crate) overlap: Items<Row>,
}

impl Model for TrackOrder {
    ghost use Rattle.track_order.specs.Order.{EdgeOrder, AreTables, edge_order};

    ghost Value = { EdgeOrder };

    ghost view = { λ o. edge_order o.edges o.above o.overlap };

    ghost invariant = { λ o. AreTables (edge_order o.edges o.above o.overlap) };
}

impl TrackOrder {
    /// The number of edges, at most 160.
    pub fn edges(&self) -> u16
        ensures value { result ≡ self.now.edges }
        ensures limit { result ≤ MAX_EDGES }
    {
        self.edges
    }

    /// Whether `e` is above `f`.
    pub fn above(&self, e: EdgeNo, f: EdgeNo) -> bool
        requires first { e.0 < self.now.edges }
        requires second { f.0 < self.now.edges }
        ensures { result ≡ is_above self.now e.0 f.0 }
    {
        entry(&self.above, e, f)
    }

    /// Whether the two edges overlap: the greater of their west mileages is below the smaller of
    /// their east mileages.
    pub fn overlap(&self, e: EdgeNo, f: EdgeNo) -> bool
        requires first { e.0 < self.now.edges }
        requires second { f.0 < self.now.edges }
        ensures { result ≡ is_overlap self.now e.0 f.0 }
    {
        entry(&self.overlap, e, f)
    }
}

/// The entry of `e`'s row at `f`.
pub(crate) fn entry(rows: &Items<Row>, e: EdgeNo, f: EdgeNo) -> bool
    requires table { IsTable (length rows.now) rows.now }
    requires first { e.0 < length rows.now }
    requires second { f.0 < length rows.now }
    ensures { result ≡ entry rows.now e.0 f.0 }
{
    *rows.get(e.0 as usize).get(f.0 as usize)
}
