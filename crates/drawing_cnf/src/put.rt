// The truth values of a lawful drawing: those of its nodes and edges, and then those of the laws.
ghost use Rattle.std.specs.Prelude.{◌≡◌, ◌≤◌, ◌<◌, ℕ, ◌+◌, ◌*◌, ◌++◌, length, map};
ghost use Rattle.cnf_core.specs.declared.limits.TheConstants.{VARS};
ghost use Rattle.cnf_core.specs.Assignment.{SatisfiesAll, SameOutside};
ghost use Rattle.cnf_core.specs.Truths.{assignment};
ghost use Rattle.plan_core.specs.Laws.{IsOnGrid};
ghost use Rattle.plan_core.specs.Drawing.{place, line};
ghost use Rattle.plan_core.specs.Lawful.{Lawful};
ghost use Rattle.edge_shape.specs.EdgeVars.{edge_size};
ghost use Rattle.track_order.specs.Order.{is_above, is_overlap, IsOrderOf};
ghost use Rattle.cnf_laws.specs.Rank.{west_rank};
ghost use Rattle.cnf_laws.specs.Stands.{ReadsPoint, ReadsShape, ReadsDrawing, IsJoinedOnGrid, StandsFor};
ghost use Rattle.cnf_laws.specs.Expected.{drawing_vars, edges_first, edge_first, laws_first, edge_part};
ghost use Rattle.cnf_laws.specs.Expected.{base_clauses};
ghost use Rattle.cnf_laws.specs.Expected.{formula_clauses, formula_size};
ghost use Rattle.drawing_cnf.specs.Bounded.{bounds_clauses, AreBehind};
ghost use Rattle.drawing_cnf.specs.Encoding.{encoded_vars};
ghost use Rattle.drawing_cnf.specs.Kept.{bound_of, AreKept};
ghost use Rattle.drawing_cnf.specs.Whole.{bounds_last, last_with, IsWhole};
ghost use Rattle.drawing_cnf.specs.Puts.{HoldsBefore};

use crate::Encoded;
use crate::kept_bound::KeptBound;
use crate::put_bounds::put_bounds;
use crate::put_laws::put_laws;
use cnf_core::Truths;
use cnf_laws::{edge_vars, node_vars};
use plan_core::{EdgeNo, Grid, NodeNo, Point};
use plan_geometry::{Drawing, values};
use port_graph::PortGraph;
use track_order::TrackOrder;

/// What a model is to mean: a drawing of a graph, whose edges have an order, on a grid.
#[derive(Clone, Copy)]
pub(crate) struct Subject<'a> {
    pub graph: &'a PortGraph,
    pub order: &'a TrackOrder,
    pub grid: &'a Grid,
    pub drawing: &'a Drawing,
}

/// Gives a node's column and row those of a point, and changes no other variable.
fn put_node(g: &PortGraph, grid: &Grid, n: u16, p: Point, m: &mut Truths)
    requires n { n < length g.now.nodes }
    requires on_grid { IsOnGrid grid.now p }
    requires there { edges_first g.now grid.now ≤ length m.old + 1 }
    ensures reads { ReadsPoint (assignment m.new) ((drawing_vars g.now grid.now).node n) p }
    ensures same { SameOutside (1 + west_rank g.now n * (grid.now.height + grid.now.width))
        (grid.now.height + grid.now.width)
        (assignment m.old) (assignment m.new) }
    ensures vars { length m.new ≡ length m.old }
{
    let vars = node_vars(g, grid, NodeNo(n));
    vars.y.put(u32::from(p.y), m);
    vars.x.put(u32::from(p.x), m);
}

/// Gives the nodes' columns and rows those of the drawing.
fn put_nodes(g: &PortGraph, grid: &Grid, d: &Drawing, m: &mut Truths)
    requires loose { IsJoinedOnGrid g.now grid.now d.now }
    requires there { edges_first g.now grid.now ≤ length m.old + 1 }
    ensures reads { (n : ℕ) → n < length g.now.nodes →
        ReadsPoint (assignment m.new) ((drawing_vars g.now grid.now).node n) (place d.now n) }
    ensures later { (y : ℕ) → edges_first g.now grid.now ≤ y → assignment m.new y ≡ assignment m.old y }
    ensures vars { length m.new ≡ length m.old }
{
    let end = g.nodes();
    for n in 0..end {
        put_node(g, grid, n, d.place(NodeNo(n)), m);
    }
}

/// Gives an edge's variables what its line is, and changes no other variable.
fn put_edge(g: &PortGraph, grid: &Grid, d: &Drawing, e: u16, m: &mut Truths)
    requires e { e < length g.now.edges }
    requires loose { IsJoinedOnGrid g.now grid.now d.now }
    requires nodes { (n : ℕ) → n < length g.now.nodes →
        ReadsPoint (assignment m.old) ((drawing_vars g.now grid.now).node n) (place d.now n) }
    requires there { laws_first g.now grid.now ≤ length m.old + 1 }
    ensures reads { ReadsShape (assignment m.new) ((drawing_vars g.now grid.now).edge e) grid.now.width (line d.now e) }
    ensures satisfies { SatisfiesAll (assignment m.new) (edge_part g.now (drawing_vars g.now grid.now) grid.now e) }
    ensures same { SameOutside (edge_first g.now grid.now e) (edge_size grid.now.height grid.now.width)
        (assignment m.old)
        (assignment m.new) }
    ensures vars { length m.new ≡ length m.old }
{
    // what the types keep
    let _ = (g.nodes(), grid.width());
    edge_vars(g, grid, EdgeNo(e)).put(d.line(EdgeNo(e)), m);
}

/// Gives the edges' variables what their lines are.
fn put_edges(g: &PortGraph, grid: &Grid, d: &Drawing, m: &mut Truths)
    requires loose { IsJoinedOnGrid g.now grid.now d.now }
    requires nodes { (n : ℕ) → n < length g.now.nodes →
        ReadsPoint (assignment m.old) ((drawing_vars g.now grid.now).node n) (place d.now n) }
    requires there { laws_first g.now grid.now ≤ length m.old + 1 }
    ensures reads { ReadsDrawing (assignment m.new) g.now (drawing_vars g.now grid.now) grid.now.width d.now }
    ensures satisfies { SatisfiesAll (assignment m.new) (base_clauses g.now (drawing_vars g.now grid.now) grid.now) }
    ensures later { (y : ℕ) → laws_first g.now grid.now ≤ y → assignment m.new y ≡ assignment m.old y }
    ensures vars { length m.new ≡ length m.old }
{
    // what the types keep
    let _ = (g.nodes(), grid.width());
    let end = g.edges();
    for e in 0..end {
        put_edge(g, grid, d, e, m);
    }
}

/// Gives the nodes' and the edges' variables what the drawing has.
fn put_base(g: &PortGraph, grid: &Grid, d: &Drawing, m: &mut Truths)
    requires loose { IsJoinedOnGrid g.now grid.now d.now }
    requires there { laws_first g.now grid.now ≤ length m.old + 1 }
    ensures reads { ReadsDrawing (assignment m.new) g.now (drawing_vars g.now grid.now) grid.now.width d.now }
    ensures satisfies { SatisfiesAll (assignment m.new) (base_clauses g.now (drawing_vars g.now grid.now) grid.now) }
    ensures later { (y : ℕ) → laws_first g.now grid.now ≤ y → assignment m.new y ≡ assignment m.old y }
    ensures vars { length m.new ≡ length m.old }
{
    put_nodes(g, grid, d, m);
    put_edges(g, grid, d, m);
}

/// Gives all variables of the drawing's clauses what the drawing has.
fn put_drawing(s: &Subject, m: &mut Truths)
    requires order { IsOrderOf s.now.graph.now s.now.order.now }
    requires lawful { Lawful s.now.graph.now (is_above s.now.order.now) s.now.grid.now s.now.drawing.now }
    requires there { formula_size s.now.graph.now (is_above s.now.order.now) (is_overlap s.now.order.now) s.now.grid.now
        ≤ length m.old }
    requires small { formula_size s.now.graph.now (is_above s.now.order.now) (is_overlap s.now.order.now) s.now.grid.now
        ≤ VARS }
    ensures reads { ReadsDrawing (assignment m.new) s.now.graph.now (drawing_vars s.now.graph.now s.now.grid.now)
        s.now.grid.now.width s.now.drawing.now }
    ensures holds { let g = s.now.graph.now in let t = s.now.order.now in let w = s.now.grid.now in
        HoldsBefore (formula_size g (is_above t) (is_overlap t) w + 1) (assignment m.new)
        (formula_clauses g (is_above t) (is_overlap t) w) }
    ensures later { (y : ℕ) →
        formula_size s.now.graph.now (is_above s.now.order.now) (is_overlap s.now.order.now) s.now.grid.now < y →
        assignment m.new y ≡ assignment m.old y }
    ensures vars { length m.new ≡ length m.old }
{
    // what the types keep
    let _ = (s.graph.nodes(), s.grid.width());
    put_base(s.graph, s.grid, s.drawing, m);
    put_laws(s, m);
}

/// Gives all variables of the drawing's clauses and of the bounds behind them what the drawing has.
fn put_all(s: &Subject, bounds: &[KeptBound], m: &mut Truths)
    requires order { IsOrderOf s.now.graph.now s.now.order.now }
    requires lawful { Lawful s.now.graph.now (is_above s.now.order.now) s.now.grid.now s.now.drawing.now }
    requires kept { AreKept s.now.graph.now s.now.grid.now bounds.now }
    requires behind { AreBehind s.now.graph.now (drawing_vars s.now.graph.now s.now.grid.now) s.now.grid.now
        (formula_size s.now.graph.now (is_above s.now.order.now) (is_overlap s.now.order.now) s.now.grid.now)
        (map bound_of bounds.now) }
    requires there { bounds_last s.now.graph.now (drawing_vars s.now.graph.now s.now.grid.now) s.now.grid.now
        (formula_size s.now.graph.now (is_above s.now.order.now) (is_overlap s.now.order.now) s.now.grid.now)
        (map bound_of bounds.now) ≤ length m.old }
    requires small { bounds_last s.now.graph.now (drawing_vars s.now.graph.now s.now.grid.now) s.now.grid.now
        (formula_size s.now.graph.now (is_above s.now.order.now) (is_overlap s.now.order.now) s.now.grid.now)
        (map bound_of bounds.now) ≤ VARS }
    ensures stands { StandsFor (assignment m.new) s.now.graph.now (drawing_vars s.now.graph.now s.now.grid.now)
        s.now.drawing.now }
    ensures model { let g = s.now.graph.now in let t = s.now.order.now in let w = s.now.grid.now in
        SatisfiesAll (assignment m.new) (formula_clauses g (is_above t) (is_overlap t) w
        ++ bounds_clauses g (drawing_vars g w) w (map bound_of bounds.now)) }
    ensures later { (y : ℕ) → last_with s.now.graph.now s.now.order.now s.now.grid.now (map bound_of bounds.now) < y →
        assignment m.new y ≡ assignment m.old y }
    ensures vars { length m.new ≡ length m.old }
{
    // what the types keep
    let _ = (s.graph.nodes(), s.grid.width());
    put_drawing(s, m);
    put_bounds(s, bounds, &values(s.drawing), m);
}

impl<'a> Encoded<'a> {
    /// Makes `m` a model of the formula, bounds included, that means a lawful drawing. Takes no memory, and leaves
    /// variables behind the formula's as they are.
    pub fn put(&self, d: &Drawing, m: &mut Truths)
        requires whole { IsWhole self.now }
        requires lawful { Lawful self.now.graph (is_above self.now.order) self.now.grid d.now }
        requires vars { self.now.formula.vars ≤ length m.old }
        ensures model { SatisfiesAll (assignment m.new) self.now.formula.clauses }
        ensures stands { StandsFor (assignment m.new) self.now.graph (encoded_vars self.now) d.now }
        ensures later { (y : ℕ) → self.now.formula.vars < y → assignment m.new y ≡ assignment m.old y }
        ensures vars { length m.new ≡ length m.old }
    {
        // what the types keep
        let _ = self.formula.vars();
        let subject = Subject {
            graph: self.graph,
            order: self.order,
            grid: self.grid,
            drawing: d,
        };
        put_all(&subject, &self.bounds, m);
    }
}
