// The two tables of an order, row by row.
ghost use Rattle.std.specs.Prelude.{◌≡◌, ◌+◌, ◌<◌, ◌≤◌, ◌↔◌, ℕ, length, All, IfOk, IsTrue, MatchOption};
ghost use Rattle.std.specs.Int.{int_max, int_min};
ghost use Rattle.plan_core.specs.Graph.{edge, mileage, Overlap};
ghost use Rattle.track_order.specs.Above.{Above};
ghost use Rattle.track_order.specs.Tables.{IsTable, IsRowOf, IsTableOf};
ghost use Rattle.track_order.specs.Splits.{AreSplits, forks_before};
ghost use Rattle.track_order.specs.Searching.{IsBothWays, HasNoneBefore, IsFirstBothWays};

use crate::order::{Row, entry};
use crate::splitting::{Split, are_split};
use plan_core::{EdgeNo, Items, OutOfMemory};
use port_graph::PortGraph;
use std::alloc::Global;

/// The greater of the two edges' west mileages.
fn both_begun(g: &PortGraph, e: u16, f: u16) -> i64
    requires first { e < length g.now.edges }
    requires second { f < length g.now.edges }
    ensures { result ≡ int_max (mileage g.now (edge g.now e).west) (mileage g.now (edge g.now f).west) }
{
    let first = g.mileage(g.west(EdgeNo(e))).0;
    let second = g.mileage(g.west(EdgeNo(f))).0;
    first.max(second)
}

/// The smaller of the two edges' east mileages.
fn one_ended(g: &PortGraph, e: u16, f: u16) -> i64
    requires first { e < length g.now.edges }
    requires second { f < length g.now.edges }
    ensures { result ≡ int_min (mileage g.now (edge g.now e).east) (mileage g.now (edge g.now f).east) }
{
    let first = g.mileage(g.east(EdgeNo(e))).0;
    let second = g.mileage(g.east(EdgeNo(f))).0;
    first.min(second)
}

fn are_overlapping(g: &PortGraph, e: u16, f: u16) -> bool
    requires first { e < length g.now.edges }
    requires second { f < length g.now.edges }
    ensures { IsTrue result ↔ Overlap g.now e f }
{
    both_begun(g, e, f) < one_ended(g, e, f)
}

/// Whether `e` is above `f`: they overlap, and some fork parts them.
#[tactic(auto, using(crate::proofs::SplitLemmas::splits_fit, crate::proofs::SplitLemmas::above_by_splits))]
fn is_above(g: &PortGraph, splits: &[Split], e: u16, f: u16) -> bool
    requires splits { AreSplits g.now (forks_before g.now (length g.now.nodes)) splits.now }
    requires first { e < length g.now.edges }
    requires second { f < length g.now.edges }
    ensures { IsTrue result ↔ Above g.now e f }
{
    are_overlapping(g, e, f) && are_split(splits, e, f)
}

#[tactic(auto, using(crate::proofs::TableLemmas::row_begins, crate::proofs::TableLemmas::row_on))]
fn overlap_row(alloc: Global, g: &PortGraph, e: u16) -> Result<Row, OutOfMemory>
    requires { e < length g.now.edges }
    ensures { IfOk result (λ row. IsRowOf (length g.now.edges) (Overlap g.now e) row) }
{
    let mut row = Items::new(alloc);
    for f in 0..g.edges() {
        row.push(are_overlapping(g, e, f))?;
    }
    Ok(row)
}

#[tactic(auto, using(crate::proofs::TableLemmas::row_begins, crate::proofs::TableLemmas::row_on))]
fn above_row(alloc: Global, g: &PortGraph, splits: &[Split], e: u16) -> Result<Row, OutOfMemory>
    requires splits { AreSplits g.now (forks_before g.now (length g.now.nodes)) splits.now }
    requires there { e < length g.now.edges }
    ensures { IfOk result (λ row. IsRowOf (length g.now.edges) (Above g.now e) row) }
{
    let mut row = Items::new(alloc);
    for f in 0..g.edges() {
        row.push(is_above(g, splits, e, f))?;
    }
    Ok(row)
}

/// Which edges overlap.
#[tactic(auto, using(crate::proofs::TableLemmas::table_begins, crate::proofs::TableLemmas::table_on))]
pub(crate) fn overlap_table(alloc: Global, g: &PortGraph) -> Result<Items<Row>, OutOfMemory>
    ensures { IfOk result (λ rows. IsTableOf (length g.now.edges) (length g.now.edges) (Overlap g.now) rows) }
{
    let mut rows = Items::new(alloc);
    for e in 0..g.edges() {
        rows.push(overlap_row(alloc, g, e)?)?;
    }
    Ok(rows)
}

/// Which edges are above which.
#[tactic(auto, using(crate::proofs::TableLemmas::table_begins, crate::proofs::TableLemmas::table_on))]
pub(crate) fn above_table(
    alloc: Global,
    g: &PortGraph,
    splits: &[Split],
) -> Result<Items<Row>, OutOfMemory>
    requires { AreSplits g.now (forks_before g.now (length g.now.nodes)) splits.now }
    ensures { IfOk result (λ rows. IsTableOf (length g.now.edges) (length g.now.edges) (Above g.now) rows) }
{
    let mut rows = Items::new(alloc);
    for e in 0..g.edges() {
        rows.push(above_row(alloc, g, splits, e)?)?;
    }
    Ok(rows)
}

/// The least `f` behind `e` that the table marks with it both ways.
#[tactic(auto, using(crate::proofs::TableLemmas::none_so_far))]
fn first_with(rows: &Items<Row>, count: u16, e: u16) -> Option<u16>
    requires table { IsTable count rows.now }
    requires there { e < count }
    requires before { HasNoneBefore rows.now count e 0 }
    ensures { MatchOption result (HasNoneBefore rows.now count (e + 1) 0) (λ f. IsFirstBothWays rows.now count e f) }
{
    for f in e + 1..count {
        if entry(rows, EdgeNo(e), EdgeNo(f)) && entry(rows, EdgeNo(f), EdgeNo(e)) {
            return Some(f);
        }
    }
    None
}

/// The least pair that the table marks both ways, the smaller number first.
#[tactic(auto, using(crate::proofs::TableLemmas::none_begins, crate::proofs::TableLemmas::none_at_all))]
pub(crate) fn first_both_ways(rows: &Items<Row>, count: u16) -> Option<(EdgeNo, EdgeNo)>
    requires table { IsTable count rows.now }
    ensures { MatchOption result ((e f : ℕ) → e < f → f < count → IsBothWays rows.now e f → ⊥)
        (λ p. IsFirstBothWays rows.now count p.0.0 p.1.0) }
{
    for e in 0..count {
        if let Some(f) = first_with(rows, count, e) {
            return Some((EdgeNo(e), EdgeNo(f)));
        }
    }
    None
}
