// The truth values of the laws' variables: those of laws 5 and 7.
ghost use Rattle.std.specs.Prelude.{◌≡◌, ◌≢◌, ◌≤◌, ◌<◌, ℕ, ◌+◌, ◌-◌, ◌*◌, [], ◌∷◌, length, nat_le, nat_lt};
ghost use Rattle.std.specs.Ordering.{int_cmp};
ghost use Rattle.cnf_core.specs.declared.limits.TheConstants.{VARS};
ghost use Rattle.cnf_core.specs.Assignment.{SameOutside};
ghost use Rattle.cnf_core.specs.Truths.{assignment};
ghost use Rattle.plan_core.specs.Graph.{mileage};
ghost use Rattle.plan_core.specs.Laws.{NodesAreOrdered, NodesAreApart, EdgeIsOver, EdgesAreParted};
ghost use Rattle.plan_core.specs.Lawful.{Apart, IsPair, IsAbovePair, IsOtherPair, Lawful};
ghost use Rattle.track_order.specs.Order.{is_above, is_overlap, IsOrderOf};
ghost use Rattle.cnf_laws.specs.LawClauses.{apart_size, laws_size};
ghost use Rattle.cnf_laws.specs.Expected.{laws_first, pairs_from, instance_pairs, edge_pair, instances};
ghost use Rattle.drawing_cnf.specs.Puts.{IsPutTo, PutsLaws, ApartBits};

use crate::put::Subject;
use cnf_core::{Lit, Truths, Var};
use cnf_laws::is_settled;
use lawful_check::is_over;
use plan_core::{EdgeNo, Grid, NodeNo, Point};
use port_graph::PortGraph;
use std::cmp::Ordering;

/// Gives a variable this truth value, and changes no other.
pub(crate) fn put_variable(m: &mut Truths, x: u32, value: bool)
    requires from { 1 ≤ x }
    requires to { x ≤ length m.old }
    requires small { x ≤ VARS }
    ensures value { assignment m.new x ≡ value }
    ensures others { (k : ℕ) → k ≢ x → assignment m.new k ≡ assignment m.old k }
    ensures vars { length m.new ≡ length m.old }
{
    m.set(Lit::new(Var(x), value));
}

/// Law 5's two variables for the node of smaller mileage and the other.
fn put_west(p: Point, q: Point, first: u32, m: &mut Truths)
    requires from { 1 ≤ first }
    requires to { first + 1 ≤ length m.old }
    requires small { first + 1 ≤ VARS }
    ensures beside { assignment m.new first ≡ nat_le q.x p.x }
    ensures below { assignment m.new (first + 1) ≡ nat_lt p.y q.y }
    ensures same { SameOutside first 2 (assignment m.old) (assignment m.new) }
    ensures vars { length m.new ≡ length m.old }
{
    put_variable(m, first, q.x <= p.x);
    put_variable(m, first + 1, p.y < q.y);
}

/// Law 5's variables for two nodes, by how their mileages compare. The answer is the variable behind them.
fn put_apart(order: Ordering, p: Point, q: Point, first: u32, m: &mut Truths) -> u32
    requires from { 1 ≤ first }
    requires to { first + apart_size order ≤ length m.old + 1 }
    requires small { first + apart_size order ≤ VARS + 1 }
    ensures bits { ApartBits order (assignment m.new) first p q }
    ensures same { SameOutside first (apart_size order) (assignment m.old) (assignment m.new) }
    ensures next { result ≡ first + apart_size order }
    ensures vars { length m.new ≡ length m.old }
{
    match order {
        Ordering::Less => {
            put_west(p, q, first, m);
            first + 2
        }
        Ordering::Equal => {
            put_variable(m, first, p.y < q.y);
            first + 1
        }
        Ordering::Greater => {
            put_west(q, p, first, m);
            first + 2
        }
    }
}

/// How the mileages of two nodes compare.
fn compared(g: &PortGraph, u: u16, v: u16) -> Ordering
    requires u { u < length g.now.nodes }
    requires v { v < length g.now.nodes }
    ensures { result ≡ int_cmp (mileage g.now u) (mileage g.now v) }
{
    g.mileage(NodeNo(u)).0.cmp(&g.mileage(NodeNo(v)).0)
}

/// Law 5 for two nodes.
fn put_apart_pair(s: &Subject, u: u16, v: u16, first: u32, m: &mut Truths) -> u32
    requires pair { IsPair (length s.now.graph.now.nodes) u v }
    requires ordered { NodesAreOrdered s.now.graph.now s.now.drawing.now u v }
    requires apart { NodesAreApart s.now.drawing.now u v }
    requires put { IsPutTo s.now.graph.now s.now.grid.now s.now.drawing.now (assignment m.old) first }
    requires to { first + laws_size s.now.graph.now (Apart u v ∷ []) ≤ length m.old + 1 }
    requires small { first + laws_size s.now.graph.now (Apart u v ∷ []) ≤ VARS + 1 }
    ensures puts { PutsLaws s.now.graph.now s.now.grid.now (Apart u v ∷ []) first (assignment m.old)
        (assignment m.new) }
    ensures next { result ≡ first + laws_size s.now.graph.now (Apart u v ∷ []) }
    ensures vars { length m.new ≡ length m.old }
{
    let d = s.drawing;
    put_apart(
        compared(s.graph, u, v),
        d.place(NodeNo(u)),
        d.place(NodeNo(v)),
        first,
        m,
    )
}

/// Law 5 for a node and each behind it.
fn put_apart_row(s: &Subject, u: u16, first: u32, m: &mut Truths) -> u32
    requires u { u < length s.now.graph.now.nodes }
    requires ordered { (v : ℕ) → IsPair (length s.now.graph.now.nodes) u v →
        NodesAreOrdered s.now.graph.now s.now.drawing.now u v }
    requires apart { (v : ℕ) → IsPair (length s.now.graph.now.nodes) u v → NodesAreApart s.now.drawing.now u v }
    requires put { IsPutTo s.now.graph.now s.now.grid.now s.now.drawing.now (assignment m.old) first }
    requires to { first + laws_size s.now.graph.now (pairs_from (length s.now.graph.now.nodes) (λ a b. Apart a b ∷ [])
        u)
        ≤ length m.old + 1 }
    requires small { first + laws_size s.now.graph.now (pairs_from (length s.now.graph.now.nodes)
        (λ a b. Apart a b ∷ []) u)
        ≤ VARS + 1 }
    ensures puts { PutsLaws s.now.graph.now s.now.grid.now (pairs_from (length s.now.graph.now.nodes)
        (λ a b. Apart a b ∷ []) u)
        first (assignment m.old) (assignment m.new) }
    ensures next { result
        ≡ first + laws_size s.now.graph.now (pairs_from (length s.now.graph.now.nodes) (λ a b. Apart a b ∷ []) u) }
    ensures vars { length m.new ≡ length m.old }
{
    let end = s.graph.nodes();
    let mut next = first;
    for v in u + 1..end {
        next = put_apart_pair(s, u, v, next, m);
    }
    next
}

/// Law 5 for each two nodes.
fn put_apart_pairs(s: &Subject, first: u32, m: &mut Truths) -> u32
    requires ordered { (u v : ℕ) → IsPair (length s.now.graph.now.nodes) u v →
        NodesAreOrdered s.now.graph.now s.now.drawing.now u v }
    requires apart { (u v : ℕ) → IsPair (length s.now.graph.now.nodes) u v → NodesAreApart s.now.drawing.now u v }
    requires put { IsPutTo s.now.graph.now s.now.grid.now s.now.drawing.now (assignment m.old) first }
    requires to { first + laws_size s.now.graph.now (instance_pairs (length s.now.graph.now.nodes)
        (λ u v. Apart u v ∷ []))
        ≤ length m.old + 1 }
    requires small { first + laws_size s.now.graph.now (instance_pairs (length s.now.graph.now.nodes)
        (λ u v. Apart u v ∷ []))
        ≤ VARS + 1 }
    ensures puts { PutsLaws s.now.graph.now s.now.grid.now (instance_pairs (length s.now.graph.now.nodes)
        (λ u v. Apart u v ∷ []))
        first (assignment m.old) (assignment m.new) }
    ensures next { result
        ≡ first + laws_size s.now.graph.now (instance_pairs (length s.now.graph.now.nodes) (λ u v. Apart u v ∷ [])) }
    ensures vars { length m.new ≡ length m.old }
{
    let end = s.graph.nodes();
    let mut next = first;
    for u in 0..end {
        next = put_apart_row(s, u, next, m);
    }
    next
}

/// Laws 6 and 7 for two edges: law 7's variable says that the first is over the second.
fn put_edge_pair(s: &Subject, e: u16, f: u16, first: u32, m: &mut Truths) -> u32
    requires pair { IsPair (length s.now.graph.now.edges) e f }
    requires order { IsOrderOf s.now.graph.now s.now.order.now }
    requires over { (a b : ℕ) → IsAbovePair s.now.graph.now (is_above s.now.order.now) a b →
        EdgeIsOver s.now.graph.now s.now.drawing.now a b }
    requires parted { (a b : ℕ) → IsOtherPair s.now.graph.now (is_above s.now.order.now) a b →
        EdgesAreParted s.now.graph.now s.now.drawing.now a b }
    requires put { IsPutTo s.now.graph.now s.now.grid.now s.now.drawing.now (assignment m.old) first }
    requires to { first + laws_size s.now.graph.now (edge_pair (is_above s.now.order.now) (is_overlap s.now.order.now) e
        f)
        ≤ length m.old + 1 }
    requires small { first + laws_size s.now.graph.now (edge_pair (is_above s.now.order.now)
        (is_overlap s.now.order.now) e f)
        ≤ VARS + 1 }
    ensures puts { PutsLaws s.now.graph.now s.now.grid.now (edge_pair (is_above s.now.order.now)
        (is_overlap s.now.order.now) e f)
        first (assignment m.old) (assignment m.new) }
    ensures next { result
        ≡ first + laws_size s.now.graph.now (edge_pair (is_above s.now.order.now) (is_overlap s.now.order.now) e f) }
    ensures vars { length m.new ≡ length m.old }
{
    let (t, a, b) = (s.order, EdgeNo(e), EdgeNo(f));
    if is_settled(t.above(a, b), t.above(b, a), t.overlap(a, b)) {
        return first;
    }
    put_variable(m, first, is_over(s.graph, s.drawing, a, b));
    first + 1
}

/// Laws 6 and 7 for an edge and each behind it.
fn put_edge_row(s: &Subject, e: u16, first: u32, m: &mut Truths) -> u32
    requires e { e < length s.now.graph.now.edges }
    requires order { IsOrderOf s.now.graph.now s.now.order.now }
    requires over { (a b : ℕ) → IsAbovePair s.now.graph.now (is_above s.now.order.now) a b →
        EdgeIsOver s.now.graph.now s.now.drawing.now a b }
    requires parted { (a b : ℕ) → IsOtherPair s.now.graph.now (is_above s.now.order.now) a b →
        EdgesAreParted s.now.graph.now s.now.drawing.now a b }
    requires put { IsPutTo s.now.graph.now s.now.grid.now s.now.drawing.now (assignment m.old) first }
    requires to { first + laws_size s.now.graph.now
        (pairs_from (length s.now.graph.now.edges) (edge_pair (is_above s.now.order.now) (is_overlap s.now.order.now))
        e)
        ≤ length m.old + 1 }
    requires small { first + laws_size s.now.graph.now
        (pairs_from (length s.now.graph.now.edges) (edge_pair (is_above s.now.order.now) (is_overlap s.now.order.now))
        e)
        ≤ VARS + 1 }
    ensures puts { PutsLaws s.now.graph.now s.now.grid.now
        (pairs_from (length s.now.graph.now.edges) (edge_pair (is_above s.now.order.now) (is_overlap s.now.order.now))
        e) first
        (assignment m.old) (assignment m.new) }
    ensures next { result
        ≡ first + laws_size s.now.graph.now
        (pairs_from (length s.now.graph.now.edges) (edge_pair (is_above s.now.order.now) (is_overlap s.now.order.now))
        e) }
    ensures vars { length m.new ≡ length m.old }
{
    let end = s.graph.edges();
    let mut next = first;
    for f in e + 1..end {
        next = put_edge_pair(s, e, f, next, m);
    }
    next
}

/// Laws 6 and 7 for each two edges.
fn put_edge_pairs(s: &Subject, first: u32, m: &mut Truths) -> u32
    requires order { IsOrderOf s.now.graph.now s.now.order.now }
    requires over { (a b : ℕ) → IsAbovePair s.now.graph.now (is_above s.now.order.now) a b →
        EdgeIsOver s.now.graph.now s.now.drawing.now a b }
    requires parted { (a b : ℕ) → IsOtherPair s.now.graph.now (is_above s.now.order.now) a b →
        EdgesAreParted s.now.graph.now s.now.drawing.now a b }
    requires put { IsPutTo s.now.graph.now s.now.grid.now s.now.drawing.now (assignment m.old) first }
    requires to { first + laws_size s.now.graph.now
        (instance_pairs (length s.now.graph.now.edges) (edge_pair (is_above s.now.order.now)
        (is_overlap s.now.order.now)))
        ≤ length m.old + 1 }
    requires small { first + laws_size s.now.graph.now
        (instance_pairs (length s.now.graph.now.edges) (edge_pair (is_above s.now.order.now)
        (is_overlap s.now.order.now)))
        ≤ VARS + 1 }
    ensures puts { PutsLaws s.now.graph.now s.now.grid.now
        (instance_pairs (length s.now.graph.now.edges) (edge_pair (is_above s.now.order.now)
        (is_overlap s.now.order.now))) first
        (assignment m.old) (assignment m.new) }
    ensures next { result
        ≡ first + laws_size s.now.graph.now
        (instance_pairs (length s.now.graph.now.edges) (edge_pair (is_above s.now.order.now)
        (is_overlap s.now.order.now))) }
    ensures vars { length m.new ≡ length m.old }
{
    let end = s.graph.edges();
    let mut next = first;
    for e in 0..end {
        next = put_edge_row(s, e, next, m);
    }
    next
}

/// The first variable behind those of the nodes and edges.
fn laws_start(g: &PortGraph, grid: &Grid) -> u32
    ensures { result ≡ laws_first g.now grid.now }
{
    let high = u32::from(grid.height());
    let width = u32::from(grid.width());
    let size = 6 + high + width * (high + 5);
    1 + u32::from(g.nodes()) * (high + width) + u32::from(g.edges()) * size
}

/// All laws' variables.
pub(crate) fn put_laws(s: &Subject, m: &mut Truths)
    requires order { IsOrderOf s.now.graph.now s.now.order.now }
    requires lawful { Lawful s.now.graph.now (is_above s.now.order.now) s.now.grid.now s.now.drawing.now }
    requires put { IsPutTo s.now.graph.now s.now.grid.now s.now.drawing.now (assignment m.old)
        (laws_first s.now.graph.now s.now.grid.now) }
    requires to { laws_first s.now.graph.now s.now.grid.now + laws_size s.now.graph.now
        (instances s.now.graph.now (is_above s.now.order.now) (is_overlap s.now.order.now)) ≤ length m.old + 1 }
    requires small { laws_first s.now.graph.now s.now.grid.now + laws_size s.now.graph.now
        (instances s.now.graph.now (is_above s.now.order.now) (is_overlap s.now.order.now)) ≤ VARS + 1 }
    ensures puts { PutsLaws s.now.graph.now s.now.grid.now
        (instances s.now.graph.now (is_above s.now.order.now) (is_overlap s.now.order.now))
        (laws_first s.now.graph.now s.now.grid.now) (assignment m.old) (assignment m.new) }
    ensures vars { length m.new ≡ length m.old }
{
    let first = laws_start(s.graph, s.grid);
    let next = put_apart_pairs(s, first, m);
    let _ = put_edge_pairs(s, next, m);
}
