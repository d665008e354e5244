// The drawing of a model.
ghost use Rattle.std.specs.Prelude.{◌≡◌, ◌≤◌, ◌<◌, ℕ, ◌+◌, length, IfOk};
ghost use Rattle.plan_core.specs.Graph.{edge};
ghost use Rattle.plan_core.specs.Drawing.{Drawing as PlainDrawing, place, line};
ghost use Rattle.plan_core.specs.Lawful.{Lawful};
ghost use Rattle.plan_core.specs.Values.{values_of};
ghost use Rattle.cnf_core.specs.Assignment.{SatisfiesAll};
ghost use Rattle.cnf_core.specs.Truths.{assignment};
ghost use Rattle.order_int.specs.IntVars.{IntIsIn};
ghost use Rattle.order_int.specs.OrderInt.{int_clauses, Reads};
ghost use Rattle.edge_shape.specs.Columns.{listed_height as by_column};
ghost use Rattle.edge_shape.specs.EdgeVars.{lits_of};
ghost use Rattle.track_order.specs.Order.{is_above};
ghost use Rattle.drawing_cnf.specs.Stands.{StandsFor, ReadsDrawing, IsJoinedOnGrid};
ghost use Rattle.drawing_cnf.specs.Expected.{drawing_vars, laws_first, base_clauses};
ghost use Rattle.drawing_cnf.specs.Encoding.{encoded_vars};
ghost use Rattle.drawing_cnf.specs.Bounded.{Tells};
ghost use Rattle.drawing_cnf.specs.Whole.{IsWhole};
ghost use Rattle.model_decode.specs.Decoded.{IsRead, IsReadAs};

use arrayvec::ArrayVec;
use cnf_core::Truths;
use drawing_cnf::{Encoded, edge_vars, node_vars};
use edge_shape::{EdgeVars, NodeVars, trace};
use order_int::OrderInt;
use plan_core::{EdgeNo, Grid, NodeNo, OutOfMemory, Point};
use plan_geometry::{Drawing, Line};
use port_graph::PortGraph;
use std::alloc::Global;

/// The number of an integer of a small range in a model.
fn number_of(i: &OrderInt, m: &Truths) -> u16
    requires there { IntIsIn (length m.now) i.now }
    requires model { SatisfiesAll (assignment m.now) (int_clauses i.now) }
    requires small { i.now.high ≤ 65535 }
    ensures { Reads (assignment m.now) i.now result }
{
    i.value_of(m) as u16
}

/// The point of a node in a model.
fn point_of(vars: &NodeVars, m: &Truths) -> Point
    requires x_there { IntIsIn (length m.now) vars.now.x }
    requires x_model { SatisfiesAll (assignment m.now) (int_clauses vars.now.x) }
    requires x_small { vars.now.x.high ≤ 65535 }
    requires y_there { IntIsIn (length m.now) vars.now.y }
    requires y_model { SatisfiesAll (assignment m.now) (int_clauses vars.now.y) }
    requires y_small { vars.now.y.high ≤ 65535 }
    ensures x { Reads (assignment m.now) vars.now.x result.x }
    ensures y { Reads (assignment m.now) vars.now.y result.y }
{
    Point {
        x: number_of(&vars.x, m),
        y: number_of(&vars.y, m),
    }
}

/// The place of a node in the drawing that is read.
fn place_of(g: &PortGraph, grid: &Grid, n: u16, m: &Truths) -> Point
    requires n { n < length g.now.nodes }
    requires read { IsRead g.now grid.now (assignment m.now) }
    requires there { laws_first g.now grid.now ≤ length m.now + 1 }
    ensures { (d : PlainDrawing) → IsReadAs g.now grid.now (assignment m.now) d → result ≡ place d n }
{
    point_of(&node_vars(g, grid, NodeNo(n)), m)
}

/// The places of all nodes.
fn places_of(
    alloc: Global,
    g: &PortGraph,
    grid: &Grid,
    m: &Truths,
) -> Result<Vec<Point>, OutOfMemory>
    requires read { IsRead g.now grid.now (assignment m.now) }
    requires there { laws_first g.now grid.now ≤ length m.now + 1 }
    ensures { IfOk result
        (λ v. (d : PlainDrawing) → IsReadAs g.now grid.now (assignment m.now) d → v.items ≡ d.places) }
{
    let mut places = Vec::new(alloc);
    let end = g.nodes();
    for n in 0..end {
        places.push(place_of(g, grid, n, m))?;
    }
    Ok(places)
}

/// The heights of an edge in a model, one for each column of the grid.
fn heights_of(vars: &EdgeVars, width: u16, m: &Truths) -> ArrayVec<u16, 65>
    requires width { width ≡ vars.now.width }
    requires few { width ≤ 64 }
    requires high { vars.now.high ≤ 65535 }
    requires there { (c : ℕ) → c ≤ width → IntIsIn (length m.now) ((lits_of vars.now).height c) }
    requires model { (c : ℕ) → c ≤ width → SatisfiesAll (assignment m.now) (int_clauses ((lits_of vars.now).height c)) }
    ensures count { length result.items ≡ width + 1 }
    ensures each { (c : ℕ) → c ≤ width → Reads (assignment m.now) ((lits_of vars.now).height c)
        (by_column result.items c) }
{
    let mut heights = ArrayVec::<u16, 65>::new();
    let end = width + 1;
    for c in 0..end {
        heights.push(number_of(&vars.height(c), m));
    }
    heights
}

/// The line of an edge in the drawing that is read, between these columns.
fn line_between(g: &PortGraph, grid: &Grid, k: u16, west: u16, east: u16, m: &Truths) -> Line
    requires k { k < length g.now.edges }
    requires read { IsRead g.now grid.now (assignment m.now) }
    requires there { laws_first g.now grid.now ≤ length m.now + 1 }
    requires west { (d : PlainDrawing) → IsReadAs g.now grid.now (assignment m.now) d →
        west ≡ (place d (edge g.now k).west).x }
    requires east { (d : PlainDrawing) → IsReadAs g.now grid.now (assignment m.now) d →
        east ≡ (place d (edge g.now k).east).x }
    ensures { (d : PlainDrawing) → IsReadAs g.now grid.now (assignment m.now) d → result ≡ line d k }
{
    let width = grid.width();
    let heights = heights_of(&edge_vars(g, grid, EdgeNo(k)), width, m);
    trace(heights.as_slice(), west, east)
}

/// The line of an edge in the drawing that is read.
fn line_of(g: &PortGraph, grid: &Grid, k: u16, m: &Truths) -> Line
    requires k { k < length g.now.edges }
    requires read { IsRead g.now grid.now (assignment m.now) }
    requires there { laws_first g.now grid.now ≤ length m.now + 1 }
    ensures { (d : PlainDrawing) → IsReadAs g.now grid.now (assignment m.now) d → result ≡ line d k }
{
    let west = place_of(g, grid, g.west(EdgeNo(k)).0, m).x;
    let east = place_of(g, grid, g.east(EdgeNo(k)).0, m).x;
    line_between(g, grid, k, west, east, m)
}

/// The lines of all edges.
fn lines_of(alloc: Global, g: &PortGraph, grid: &Grid, m: &Truths) -> Result<Vec<Line>, OutOfMemory>
    requires read { IsRead g.now grid.now (assignment m.now) }
    requires there { laws_first g.now grid.now ≤ length m.now + 1 }
    ensures { IfOk result
        (λ v. (d : PlainDrawing) → IsReadAs g.now grid.now (assignment m.now) d → v.items ≡ d.lines) }
{
    let mut lines = Vec::new(alloc);
    let end = g.edges();
    for k in 0..end {
        lines.push(line_of(g, grid, k, m))?;
    }
    Ok(lines)
}

/// The drawing that is read.
fn read_drawing(
    alloc: Global,
    g: &PortGraph,
    grid: &Grid,
    m: &Truths,
) -> Result<Drawing, OutOfMemory>
    requires read { IsRead g.now grid.now (assignment m.now) }
    requires there { laws_first g.now grid.now ≤ length m.now + 1 }
    ensures { IfOk result (λ b. (d : PlainDrawing) → IsReadAs g.now grid.now (assignment m.now) d → b ≡ d) }
{
    // what the types keep
    let _ = (g.nodes(), g.edges());
    let places = places_of(alloc, g, grid, m)?;
    let lines = lines_of(alloc, g, grid, m)?;
    Drawing::new(alloc, &places, &lines)
}

/// The one drawing with laws 1 and 3 that a model of the nodes' and edges' clauses means. Of the other laws it has
/// those that the model's further clauses say.
pub fn decode_loose(
    alloc: Global,
    g: &PortGraph,
    grid: &Grid,
    m: &Truths,
) -> Result<Drawing, OutOfMemory>
    requires vars { laws_first g.now grid.now ≤ length m.now + 1 }
    requires model { SatisfiesAll (assignment m.now) (base_clauses g.now (drawing_vars g.now grid.now) grid.now) }
    ensures joined { IfOk result (λ d. IsJoinedOnGrid g.now grid.now d) }
    ensures reads { IfOk result
        (λ d. ReadsDrawing (assignment m.now) g.now (drawing_vars g.now grid.now) grid.now.width d) }
    ensures stands { IfOk result (λ d. StandsFor (assignment m.now) g.now (drawing_vars g.now grid.now) d) }
    ensures alone { IfOk result
        (λ d. (other : PlainDrawing) → IsJoinedOnGrid g.now grid.now other →
        StandsFor (assignment m.now) g.now (drawing_vars g.now grid.now) other → other ≡ d) }
{
    // what the types keep
    let _ = (g.nodes(), grid.width());
    read_drawing(alloc, g, grid, m)
}

/// The one lawful drawing that a model of the formula means. Its values are what the formula's bounds say.
pub fn decode(alloc: Global, e: &Encoded, m: &Truths) -> Result<Drawing, OutOfMemory>
    requires whole { IsWhole e.now }
    requires vars { e.now.formula.vars ≤ length m.now }
    requires model { SatisfiesAll (assignment m.now) e.now.formula.clauses }
    ensures stands { IfOk result (λ d. StandsFor (assignment m.now) e.now.graph (encoded_vars e.now) d) }
    ensures lawful { IfOk result (λ d. Lawful e.now.graph (is_above e.now.order) e.now.grid d) }
    ensures tells { IfOk result (λ d. Tells (assignment m.now) (values_of d) e.now.bounds) }
    ensures alone { IfOk result
        (λ d. (other : PlainDrawing) → Lawful e.now.graph (is_above e.now.order) e.now.grid other →
        StandsFor (assignment m.now) e.now.graph (encoded_vars e.now) other → other ≡ d) }
{
    let graph = e.graph();
    let grid = e.grid();
    // what the types keep
    let _ = (graph.nodes(), grid.width(), e.formula().vars());
    decode_loose(alloc, graph, grid, m)
}
