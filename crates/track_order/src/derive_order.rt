// The order of a graph's edges, derived.
ghost use Rattle.plan_core.specs.Exactly.{AnswersExactly};
ghost use Rattle.track_order.specs.declared.fault.OrderFault.TheVariants.{Memory};
ghost use Rattle.track_order.specs.Order.{IsOrderOf};
ghost use Rattle.track_order.specs.Causes.{IsOrderFault};

use crate::fault::OrderFault;
use crate::order::TrackOrder;
use crate::splitting::all_splits;
use crate::tables::{above_table, first_both_ways, overlap_table};
use crate::walking::Walks;
use port_graph::PortGraph;
use std::alloc::Global;

/// The order of the graph's edges, or the least pair of edges of which each is above the other.
#[tactic(auto, using(crate::proofs::OneOrder::order_exactly))]
pub fn derive(alloc: Global, g: &PortGraph) -> Result<TrackOrder, OrderFault>
    ensures { AnswersExactly result Memory (IsOrderOf g.now) (IsOrderFault g.now) }
{
    let walks = Walks::new(alloc, g)?;
    let splits = all_splits(alloc, g, &walks)?;
    let above = above_table(alloc, g, splits.as_slice())?;
    let overlap = overlap_table(alloc, g)?;
    let edges = g.edges();
    match first_both_ways(&above, edges) {
        Some((e, f)) => Err(OrderFault::Contradicts(e, f)),
        None => Ok(TrackOrder {
            edges,
            above,
            overlap,
        }),
    }
}
