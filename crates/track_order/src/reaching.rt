// The edges that are reached from one edge.
ghost use Rattle.std.specs.Prelude.{◌≡◌, ◌<◌, ◌∷◌, ◌++◌, [], ℕ, List, length, replicate, IfOk, false};
ghost use Rattle.track_order.specs.Filling.{IsBehind, IsReachRow, IsWalkOrder, IsFilling};

use crate::order::Row;
use crate::walking::{begin_of, end_of};
use plan_core::{Compass, Items, OutOfMemory};
use port_graph::PortGraph;
use std::alloc::Global;

/// So many entries, none of which is marked.
fn unmarked(alloc: Global, n: u16) -> Result<Vec<bool>, OutOfMemory>
    ensures { IfOk result (λ v. v.items ≡ replicate n false) }
{
    Ok(vec![in alloc; false; n as usize]?)
}

/// A row that is being filled: a mark for each edge, and one for each node at which a marked edge
/// ends.
#[derive(Drop)]
struct Filling {
    edges: Vec<bool>,
    nodes: Vec<bool>,
}

impl Filling {
    /// The row in which only `start` is marked.
    #[tactic(auto, using(crate::proofs::FillingLemmas::filling_begins))]
    fn new(alloc: Global, g: &PortGraph, way: Compass, start: u16) -> Result<Filling, OutOfMemory>
        requires { start < length g.now.edges }
        ensures { IfOk result (λ f. IsFilling g.now way start [] f.edges.items f.nodes.items) }
    {
        let mut edges = unmarked(alloc, g.edges())?;
        let mut nodes = unmarked(alloc, g.nodes())?;
        edges[start as usize] = true;
        nodes[end_of(g, way, start).0 as usize] = true;
        Ok(Filling { edges, nodes })
    }

    /// Goes over one more edge, which is marked where it begins at a marked node.
    #[tactic(auto, using(crate::proofs::FillingLemmas::filling_one_more))]
    fn go_over(&mut self, g: &PortGraph, way: Compass, e: u16)
        requires edge { e < length g.now.edges }
        requires edges { length self.old.edges.items ≡ length g.now.edges }
        requires nodes { length self.old.nodes.items ≡ length g.now.nodes }
        ensures { (s : ℕ) (es : List ℕ) → s < length g.now.edges → IsBehind g.now way es e →
            IsFilling g.now way s es self.old.edges.items self.old.nodes.items →
            IsFilling g.now way s (es ++ e ∷ []) self.new.edges.items self.new.nodes.items }
    {
        if self.nodes[begin_of(g, way, e).0 as usize] {
            self.edges[e as usize] = true;
            self.nodes[end_of(g, way, e).0 as usize] = true;
        }
    }
}

/// The edges that are reached from `start`, with an entry for each edge. `order` has all edges, each
/// behind those that it follows.
#[tactic(auto, using(crate::proofs::FillingLemmas::filling_ends))]
pub(crate) fn reach(
    alloc: Global,
    g: &PortGraph,
    way: Compass,
    order: &[u16],
    start: u16,
) -> Result<Row, OutOfMemory>
    requires order { IsWalkOrder g.now way order.now }
    requires start { start < length g.now.edges }
    ensures { IfOk result (λ row. IsReachRow g.now way start row) }
{
    let mut filling = Filling::new(alloc, g, way, start)?;
    for e in order {
        filling.go_over(g, way, *e);
    }
    Ok(Items::from_vec(filling.edges))
}
