// The formula of a drawing.
ghost use Rattle.std.specs.Prelude.{◌≡◌, ◌≤◌, ◌<◌, ◌⊎◌, [], length, IsOk, IfOk, IsErrOf};
ghost use Rattle.cnf_core.specs.declared.limits.TheConstants.{VARS, ROOM};
ghost use Rattle.cnf_core.specs.declared.fault.CnfFault.TheVariants.{Room};
ghost use Rattle.cnf_core.specs.Clause.{words_of};
ghost use Rattle.track_order.specs.Order.{is_above, is_overlap, IsOrderOf};
ghost use Rattle.edge_shape.specs.EdgeVars.{edge_spot, lits_of};
ghost use Rattle.cnf_laws.specs.Expected.{drawing_vars, edge_first, formula_clauses, formula_size, most_words};
ghost use Rattle.cnf_laws.specs.Expected.{most_variables};
ghost use Rattle.cnf_laws.specs.Expected.{Sound, Covers};
ghost use Rattle.cnf_laws.specs.WithoutLeast.{clauses_without_least};
ghost use Rattle.drawing_cnf.specs.Encoding.{encoded_vars};
ghost use Rattle.drawing_cnf.specs.Whole.{IsWhole};

use crate::kept_bound::KeptBound;
use cnf_core::{CnfFault, Formula};
use cnf_laws::{edge_vars, fill, node_vars};
use edge_shape::{EdgeVars, NodeVars};
use plan_core::{EdgeNo, Grid, NodeNo};
use port_graph::PortGraph;
use std::alloc::Global;
use std::marker::Model;
use track_order::TrackOrder;

/// The formula of a graph, whose edges have an order, on a grid: its models mean the lawful drawings.
#[derive(Drop)]
pub struct Encoded<'a> {
    pub(crate) graph: &'a PortGraph,
    pub(crate) order: &'a TrackOrder,
    pub(crate) grid: &'a Grid,
    pub(crate) formula: Formula,
    pub(crate) bounds: Vec<KeptBound>,
}

impl<'a> Model for Encoded<'a> {
    ghost use Rattle.std.specs.Prelude.{map};
    ghost use Rattle.drawing_cnf.specs.Encoding.{Encoding, encoding};
    ghost use Rattle.drawing_cnf.specs.Kept.{bound_of, AreKept};

    ghost Value = { Encoding };

    ghost view = { λ e. encoding e.graph.now e.order.now e.grid.now e.formula (map bound_of e.bounds.items) };

    ghost invariant = { λ e. AreKept e.graph.now e.grid.now e.bounds.items };
}

impl<'a> Encoded<'a> {
    /// The graph whose drawings the models mean.
    pub fn graph(&self) -> &PortGraph
        ensures { result.now ≡ self.now.graph }
    {
        self.graph
    }

    /// The order of the graph's edges.
    pub fn order(&self) -> &TrackOrder
        ensures { result.now ≡ self.now.order }
    {
        self.order
    }

    /// The grid on which the drawings are.
    pub fn grid(&self) -> &Grid
        ensures { result.now ≡ self.now.grid }
    {
        self.grid
    }

    /// The variables and clauses.
    pub fn formula(&self) -> &Formula
        ensures { result.now ≡ self.now.formula }
    {
        &self.formula
    }

    /// A node's column and row, in which `StandsFor` reads its point.
    pub fn node(&self, n: NodeNo) -> NodeVars
        requires { n.0 < length self.now.graph.nodes }
        ensures x { result.x ≡ ((encoded_vars self.now).node n.0).x }
        ensures y { result.y ≡ ((encoded_vars self.now).node n.0).y }
    {
        node_vars(self.graph, self.grid, n)
    }

    /// The variables of an edge, in whose heights `StandsFor` reads its line.
    pub fn edge(&self, e: EdgeNo) -> EdgeVars
        requires { e.0 < length self.now.graph.edges }
        ensures lits { lits_of result ≡ (encoded_vars self.now).edge e.0 }
        ensures spot { result ≡ edge_spot (edge_first self.now.graph self.now.grid e.0) self.now.grid.height
            self.now.grid.width }
    {
        edge_vars(self.graph, self.grid, e)
    }
}

/// The formula of a graph, whose edges have this order, on a grid, with room for so many words.
///
/// `Room` comes exactly where the words or the variables are more than there may be, want of memory aside. Every
/// model means a lawful drawing, and every lawful drawing has a model. With least length 1 the clauses are those
/// without a least length.
pub fn encode<'a>(
    alloc: Global,
    g: &'a PortGraph,
    t: &'a TrackOrder,
    grid: &'a Grid,
    room: u32,
) -> Result<Encoded<'a>, CnfFault>
    requires order { IsOrderOf g.now t.now }
    requires room { room ≤ ROOM }
    ensures graph { IfOk result (λ e. e.graph ≡ g.now) }
    ensures order { IfOk result (λ e. e.order ≡ t.now) }
    ensures grid { IfOk result (λ e. e.grid ≡ grid.now) }
    ensures clauses { IfOk result (λ e. e.formula.clauses ≡ formula_clauses g.now (is_above t.now) (is_overlap t.now)
        grid.now) }
    ensures vars { IfOk result (λ e. e.formula.vars ≡ formula_size g.now (is_above t.now) (is_overlap t.now) grid.now) }
    ensures kept { IfOk result (λ e. e.formula.room ≡ room) }
    ensures bounds { IfOk result (λ e. e.bounds ≡ []) }
    ensures words_fit { IsOk result → words_of (formula_clauses g.now (is_above t.now) (is_overlap t.now) grid.now) ≤
        room }
    ensures vars_fit { IsOk result → formula_size g.now (is_above t.now) (is_overlap t.now) grid.now ≤ VARS }
    ensures full { IsErrOf result Room →
        (VARS < formula_size g.now (is_above t.now) (is_overlap t.now) grid.now)
        ⊎ (room < words_of (formula_clauses g.now (is_above t.now) (is_overlap t.now) grid.now)) }
    ensures words_bounded { words_of (formula_clauses g.now (is_above t.now) (is_overlap t.now) grid.now)
        ≤ most_words g.now grid.now }
    ensures vars_bounded { formula_size g.now (is_above t.now) (is_overlap t.now) grid.now ≤ most_variables g.now
        grid.now }
    ensures least_1 { grid.now.least ≡ 1 → formula_clauses g.now (is_above t.now) (is_overlap t.now) grid.now
        ≡ clauses_without_least g.now (is_above t.now) (is_overlap t.now) grid.now }
    ensures whole { IfOk result (λ e. IsWhole e) }
    ensures sound { Sound g.now (is_above t.now) grid.now (drawing_vars g.now grid.now)
        (formula_clauses g.now (is_above t.now) (is_overlap t.now) grid.now) }
    ensures covers { Covers g.now (is_above t.now) grid.now (drawing_vars g.now grid.now)
        (formula_clauses g.now (is_above t.now) (is_overlap t.now) grid.now) }
{
    // what the types keep
    let _ = (g.nodes(), grid.width());
    make_encoded(alloc, g, t, grid, room)
}

fn make_encoded<'a>(
    alloc: Global,
    g: &'a PortGraph,
    t: &'a TrackOrder,
    grid: &'a Grid,
    room: u32,
) -> Result<Encoded<'a>, CnfFault>
    requires edges { t.now.edges ≡ length g.now.edges }
    requires room { room ≤ ROOM }
    ensures graph { IfOk result (λ e. e.graph ≡ g.now) }
    ensures order { IfOk result (λ e. e.order ≡ t.now) }
    ensures grid { IfOk result (λ e. e.grid ≡ grid.now) }
    ensures clauses { IfOk result (λ e. e.formula.clauses ≡ formula_clauses g.now (is_above t.now) (is_overlap t.now)
        grid.now) }
    ensures vars { IfOk result (λ e. e.formula.vars ≡ formula_size g.now (is_above t.now) (is_overlap t.now) grid.now) }
    ensures kept { IfOk result (λ e. e.formula.room ≡ room) }
    ensures bounds { IfOk result (λ e. e.bounds ≡ []) }
    ensures words_fit { IsOk result → words_of (formula_clauses g.now (is_above t.now) (is_overlap t.now) grid.now) ≤
        room }
    ensures vars_fit { IsOk result → formula_size g.now (is_above t.now) (is_overlap t.now) grid.now ≤ VARS }
    ensures full { IsErrOf result Room →
        (VARS < formula_size g.now (is_above t.now) (is_overlap t.now) grid.now)
        ⊎ (room < words_of (formula_clauses g.now (is_above t.now) (is_overlap t.now) grid.now)) }
{
    let mut formula = Formula::new(alloc, room)?;
    fill(&mut formula, g, t, grid)?;
    Ok(Encoded {
        graph: g,
        order: t,
        grid,
        formula,
        bounds: Vec::new(alloc),
    })
}
