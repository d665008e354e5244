// All laws to choose of a graph, in the order of the formula of lawful drawings.
ghost use Rattle.std.specs.Prelude.{◌≡◌, ◌<◌, ◌∷◌, [], cond, ◌||◌, not, IfOk, length, map};
ghost use Rattle.plan_core.specs.Lawful.{Ordered, Aligned, Apart};
ghost use Rattle.track_order.specs.Order.{is_above, is_overlap};
ghost use Rattle.drawing_cnf.specs.Expected.{instances_from, pairs_from, instance_pairs, below_by, pair_by};
ghost use Rattle.drawing_cnf.specs.Expected.{edge_pair, instances};
ghost use Rattle.law_core.specs.Law.{instance_of};
ghost use Rattle.law_core.specs.Listed.{ListsLaws};

use crate::parties::Law;
use plan_core::{EdgeNo, NodeNo, OutOfMemory};
use port_graph::PortGraph;
use std::alloc::Global;
use track_order::TrackOrder;

/// Law 2 for a node and each behind it.
fn list_ordered_row(laws: &mut Vec<Law>, u: u16, end: u16) -> Result<(), OutOfMemory>
    requires { u < end }
    ensures { ListsLaws result laws.old.items laws.new.items (pairs_from end (λ u v. Ordered u v ∷ []) u) }
{
    for v in u + 1..end {
        laws.push(Law::Ordered(NodeNo(u), NodeNo(v)))?;
    }
    Ok(())
}

/// Law 2 for each two nodes.
fn list_ordered(laws: &mut Vec<Law>, end: u16) -> Result<(), OutOfMemory>
    ensures { ListsLaws result laws.old.items laws.new.items (instance_pairs end (λ u v. Ordered u v ∷ [])) }
{
    for u in 0..end {
        list_ordered_row(laws, u, end)?;
    }
    Ok(())
}

/// Law 5 for a node and each behind it.
fn list_apart_row(laws: &mut Vec<Law>, u: u16, end: u16) -> Result<(), OutOfMemory>
    requires { u < end }
    ensures { ListsLaws result laws.old.items laws.new.items (pairs_from end (λ u v. Apart u v ∷ []) u) }
{
    for v in u + 1..end {
        laws.push(Law::Apart(NodeNo(u), NodeNo(v)))?;
    }
    Ok(())
}

/// Law 5 for each two nodes.
fn list_apart(laws: &mut Vec<Law>, end: u16) -> Result<(), OutOfMemory>
    ensures { ListsLaws result laws.old.items laws.new.items (instance_pairs end (λ u v. Apart u v ∷ [])) }
{
    for u in 0..end {
        list_apart_row(laws, u, end)?;
    }
    Ok(())
}

/// Law 4 for each node.
fn list_aligned(laws: &mut Vec<Law>, end: u16) -> Result<(), OutOfMemory>
    ensures { ListsLaws result laws.old.items laws.new.items (instances_from (λ n. Aligned n ∷ []) 0 end) }
{
    for n in 0..end {
        laws.push(Law::Aligned(NodeNo(n)))?;
    }
    Ok(())
}

/// A law, where it is to be listed.
fn list_where(laws: &mut Vec<Law>, yes: bool, law: Law) -> Result<(), OutOfMemory>
    ensures { ListsLaws result laws.old.items laws.new.items (cond yes (instance_of law ∷ []) []) }
{
    if yes {
        laws.push(law)?;
        return Ok(());
    }
    Ok(())
}

/// A law, unless it isn't to be listed.
fn list_unless(laws: &mut Vec<Law>, no: bool, law: Law) -> Result<(), OutOfMemory>
    ensures { ListsLaws result laws.old.items laws.new.items (cond no [] (instance_of law ∷ [])) }
{
    if no {
        return Ok(());
    }
    laws.push(law)?;
    Ok(())
}

/// One of two edges is above the other, or they don't overlap.
fn is_settled(above: bool, below: bool, overlap: bool) -> bool
    ensures { result ≡ (above || (below || not overlap)) }
{
    above || below || !overlap
}

/// Law 6 for the second edge over the first, and law 7.
fn list_below(
    laws: &mut Vec<Law>,
    above: bool,
    below: bool,
    overlap: bool,
    e: u16,
    h: u16,
) -> Result<(), OutOfMemory>
    ensures { ListsLaws result laws.old.items laws.new.items (below_by above below overlap e h) }
{
    list_where(laws, below, Law::Over(EdgeNo(h), EdgeNo(e)))?;
    list_unless(
        laws,
        is_settled(above, below, overlap),
        Law::Parted(EdgeNo(e), EdgeNo(h)),
    )?;
    Ok(())
}

/// Laws 6 and 7 for two edges, by which is above which.
fn list_pair(
    laws: &mut Vec<Law>,
    above: bool,
    below: bool,
    overlap: bool,
    e: u16,
    h: u16,
) -> Result<(), OutOfMemory>
    ensures { ListsLaws result laws.old.items laws.new.items (pair_by above below overlap e h) }
{
    list_where(laws, above, Law::Over(EdgeNo(e), EdgeNo(h)))?;
    list_below(laws, above, below, overlap, e, h)?;
    Ok(())
}

/// Laws 6 and 7 for an edge and each behind it.
fn list_edge_row(laws: &mut Vec<Law>, t: &TrackOrder, e: u16, end: u16) -> Result<(), OutOfMemory>
    requires edges { t.now.edges ≡ end }
    requires e { e < end }
    ensures { ListsLaws result laws.old.items laws.new.items
        (pairs_from end (edge_pair (is_above t.now) (is_overlap t.now)) e) }
{
    for h in e + 1..end {
        let (one, two) = (EdgeNo(e), EdgeNo(h));
        list_pair(
            laws,
            t.above(one, two),
            t.above(two, one),
            t.overlap(one, two),
            e,
            h,
        )?;
    }
    Ok(())
}

/// Laws 6 and 7 for each two edges.
fn list_edges(laws: &mut Vec<Law>, t: &TrackOrder, end: u16) -> Result<(), OutOfMemory>
    requires edges { t.now.edges ≡ end }
    ensures { ListsLaws result laws.old.items laws.new.items
        (instance_pairs end (edge_pair (is_above t.now) (is_overlap t.now))) }
{
    for e in 0..end {
        list_edge_row(laws, t, e, end)?;
    }
    Ok(())
}

/// All laws to choose of a graph, whose edges have this order.
pub fn all_laws(alloc: Global, g: &PortGraph, t: &TrackOrder) -> Result<Vec<Law>, OutOfMemory>
    requires edges { t.now.edges ≡ length g.now.edges }
    ensures { IfOk result (λ v. map instance_of v.items ≡ instances g.now (is_above t.now) (is_overlap t.now)) }
{
    let nodes = g.nodes();
    let edges = g.edges();
    let mut laws = Vec::new(alloc);
    list_ordered(&mut laws, nodes)?;
    list_aligned(&mut laws, nodes)?;
    list_apart(&mut laws, nodes)?;
    list_edges(&mut laws, t, edges)?;
    Ok(laws)
}
