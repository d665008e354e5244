// One edge of a drawing, as variables of a formula.
ghost use Rattle.std.specs.Prelude.{◌≡◌, ◌≤◌, ◌<◌, ◌+◌, ◌*◌, length, IfOk, All};
ghost use Rattle.plan_core.specs.Grid.{IsGrid, grid_size};
ghost use Rattle.plan_core.specs.Laws.{IsOnGrid};
ghost use Rattle.cnf_core.specs.declared.limits.TheConstants.{VARS};
ghost use Rattle.cnf_core.specs.Clause.{words_of};
ghost use Rattle.cnf_core.specs.Assignment.{SameOutside};
ghost use Rattle.cnf_core.specs.Added.{AddsBlock};
ghost use Rattle.cnf_core.specs.LitOrTruth.{yes};
ghost use Rattle.cnf_core.specs.Truths.{assignment};
ghost use Rattle.order_int.specs.IntVars.{IntIsThere};
ghost use Rattle.edge_shape.specs.EdgeVars.{edge_lits, edge_size, edge_spot, lits_of, node_ints, up_at};
ghost use Rattle.edge_shape.specs.EdgeVars.{down_at};
ghost use Rattle.edge_shape.specs.EdgeVars.{bend_at, EdgeIsPlaced, IsNode};
ghost use Rattle.edge_shape.specs.Between.{spot_clauses};
ghost use Rattle.edge_shape.specs.ReadsLine.{ReadsLine};
ghost use Rattle.edge_shape.specs.Between.{HoldsBetween, ModelsAreLines, LinesAreModels};

use crate::ends::add_edge_clauses;
use crate::places::Places;
use crate::put::put_line;
use cnf_core::{CnfFault, Formula, LitOrTruth, Truths};
use order_int::OrderInt;
use plan_core::Grid;
use plan_geometry::Line;
use std::marker::Model;

/// The integers of a node: its column and its row.
#[derive(Drop)]
pub struct NodeVars {
    pub x: OrderInt,
    pub y: OrderInt,
}

/// The variables of an edge.
#[derive(Drop)]
pub struct EdgeVars {
    places: Places,
}

impl Model for EdgeVars {
    ghost use Rattle.edge_shape.specs.EdgeVars.{EdgeSpot, edge_spot, EdgeIsPlaced};

    ghost Value = { EdgeSpot };

    ghost view = { λ e. edge_spot e.places.first e.places.high e.places.width };

    ghost invariant = { λ e. EdgeIsPlaced e.places.first e.places.high e.places.width };
}

impl EdgeVars {
    /// The edge whose variables begin at this one.
    pub fn at(first: u32, grid: &Grid) -> EdgeVars
        requires from { 1 ≤ first }
        requires to { first + edge_size grid.now.height grid.now.width ≤ VARS + 1 }
        ensures { result ≡ edge_spot first grid.now.height grid.now.width }
    {
        EdgeVars {
            places: Places {
                first,
                high: u32::from(grid.height()),
                width: u32::from(grid.width()),
            },
        }
    }

    /// "The line has the column."
    pub fn in_range(&self, x: u16) -> LitOrTruth
        requires { x ≤ self.now.width }
        ensures value { result ≡ yes ((lits_of self.now).inside x) }
        ensures placed { EdgeIsPlaced self.now.first self.now.high self.now.width }
    {
        self.places.inside(u32::from(x))
    }

    /// "The line rises from the column."
    pub fn up(&self, x: u16) -> LitOrTruth
        requires { x ≤ self.now.width }
        ensures value { result ≡ up_at self.now x }
        ensures placed { EdgeIsPlaced self.now.first self.now.high self.now.width }
    {
        let c = u32::from(x);
        if c < self.places.width {
            self.places.up(c)
        } else {
            LitOrTruth::False
        }
    }

    /// "The line falls from the column."
    pub fn down(&self, x: u16) -> LitOrTruth
        requires { x ≤ self.now.width }
        ensures value { result ≡ down_at self.now x }
        ensures placed { EdgeIsPlaced self.now.first self.now.high self.now.width }
    {
        let c = u32::from(x);
        if c < self.places.width {
            self.places.down(c)
        } else {
            LitOrTruth::False
        }
    }

    /// "A point of the line other than its first and last has the column."
    pub fn bend_at(&self, x: u16) -> LitOrTruth
        requires { x ≤ self.now.width }
        ensures value { result ≡ bend_at self.now x }
        ensures placed { EdgeIsPlaced self.now.first self.now.high self.now.width }
    {
        let c = u32::from(x);
        if 0 < c && c < self.places.width {
            self.places.bend(c)
        } else {
            LitOrTruth::False
        }
    }

    /// The height of the line at the column, or at its nearer end.
    pub fn height(&self, x: u16) -> OrderInt
        requires { x ≤ self.now.width }
        ensures value { result ≡ (lits_of self.now).height x }
        ensures placed { EdgeIsPlaced self.now.first self.now.high self.now.width }
    {
        self.places.height(u32::from(x))
    }

    /// "The first piece rises."
    pub fn west_up(&self) -> LitOrTruth
        ensures value { result ≡ yes (lits_of self.now).west_up }
        ensures placed { EdgeIsPlaced self.now.first self.now.high self.now.width }
    {
        self.places.west_up()
    }

    /// "The first piece falls."
    pub fn west_down(&self) -> LitOrTruth
        ensures value { result ≡ yes (lits_of self.now).west_down }
        ensures placed { EdgeIsPlaced self.now.first self.now.high self.now.width }
    {
        self.places.west_down()
    }

    /// "The last piece rises."
    pub fn east_up(&self) -> LitOrTruth
        ensures value { result ≡ yes (lits_of self.now).east_up }
        ensures placed { EdgeIsPlaced self.now.first self.now.high self.now.width }
    {
        self.places.east_up()
    }

    /// "The last piece falls."
    pub fn east_down(&self) -> LitOrTruth
        ensures value { result ≡ yes (lits_of self.now).east_down }
        ensures placed { EdgeIsPlaced self.now.first self.now.high self.now.width }
    {
        self.places.east_down()
    }

    /// "The first piece is diagonal, and there is a level one."
    pub fn first_bend(&self) -> LitOrTruth
        ensures value { result ≡ yes (lits_of self.now).first_bend }
        ensures placed { EdgeIsPlaced self.now.first self.now.high self.now.width }
    {
        self.places.first_bend()
    }

    /// "The last piece is diagonal, and there is a level one."
    pub fn second_bend(&self) -> LitOrTruth
        ensures value { result ≡ yes (lits_of self.now).second_bend }
        ensures placed { EdgeIsPlaced self.now.first self.now.high self.now.width }
    {
        self.places.second_bend()
    }
}

impl EdgeVars {
    /// Gives the edge's variables the truth values of a line, and changes no other. Where the model
    /// gives the two nodes the ends of the line, it then satisfies the edge's clauses.
    pub fn put(&self, line: &Line, m: &mut Truths)
        requires there { self.now.first + edge_size self.now.high self.now.width ≤ length m.old + 1 }
        requires on_grid { All (IsOnGrid (grid_size self.now.width self.now.high)) line.now }
        ensures reads { ReadsLine (assignment m.new) (lits_of self.now) self.now.width line.now }
        ensures same { SameOutside self.now.first (edge_size self.now.high self.now.width) (assignment m.old)
            (assignment m.new) }
        ensures satisfies { HoldsBetween (assignment m.old) (assignment m.new) self.now line.now }
        ensures vars { length m.new ≡ length m.old }
    {
        let _points = line.points();
        put_line(&self.places, line, m);
    }
}

/// An edge's variables, and the clauses that allow exactly the lines between its two nodes' points
/// whose length is the grid's least length or more.
///
/// `Room` comes where the variables or the words pass what there may be; the formula isn't used
/// further then.
pub fn add_edge(
    f: &mut Formula,
    grid: &Grid,
    west: &NodeVars,
    east: &NodeVars,
) -> Result<EdgeVars, CnfFault>
    requires west { IsNode f.old.vars grid.now.height grid.now.width (node_ints west.now.x west.now.y) }
    requires east { IsNode f.old.vars grid.now.height grid.now.width (node_ints east.now.x east.now.y) }
    ensures edge { IfOk result (λ e. e ≡ edge_spot (f.old.vars + 1) grid.now.height grid.now.width) }
    ensures adds { let g = grid.now in AddsBlock result f.old f.new (edge_size g.height g.width)
        (spot_clauses (edge_spot (f.old.vars + 1) g.height g.width) (node_ints west.now.x west.now.y)
        (node_ints east.now.x east.now.y) g.least) 5 }
    ensures words { words_of f.new.clauses ≤ words_of f.old.clauses + 2000 *
        ((grid.now.width + 1) * (grid.now.height + 1)) }
    ensures vars { f.new.vars ≤ f.old.vars + 100 * ((grid.now.width + 1) * (grid.now.height + 1)) }
    ensures models { let g = grid.now in
        ModelsAreLines (edge_spot (f.old.vars + 1) g.height g.width) (node_ints west.now.x west.now.y)
        (node_ints east.now.x east.now.y) g.least }
    ensures lines { let g = grid.now in
        LinesAreModels (edge_spot (f.old.vars + 1) g.height g.width) (node_ints west.now.x west.now.y)
        (node_ints east.now.x east.now.y) g.least }
{
    make_edge(f, grid, west, east)
}

fn make_edge(
    f: &mut Formula,
    grid: &Grid,
    west: &NodeVars,
    east: &NodeVars,
) -> Result<EdgeVars, CnfFault>
    requires west_x { IntIsThere f.old.vars west.now.x }
    requires west_y { IntIsThere f.old.vars west.now.y }
    requires east_x { IntIsThere f.old.vars east.now.x }
    requires east_y { IntIsThere f.old.vars east.now.y }
    ensures edge { IfOk result (λ e. e ≡ edge_spot (f.old.vars + 1) grid.now.height grid.now.width) }
    ensures adds { let g = grid.now in AddsBlock result f.old f.new (edge_size g.height g.width)
        (spot_clauses (edge_spot (f.old.vars + 1) g.height g.width) (node_ints west.now.x west.now.y)
        (node_ints east.now.x east.now.y) g.least) 5 }
    ensures is_grid { IsGrid grid.now }
{
    let high = u32::from(grid.height());
    let width = u32::from(grid.width());
    let least = u32::from(grid.least());
    let first = f.new_vars(6 + high + width * (high + 5))?;
    let places = Places {
        first: first.0,
        high,
        width,
    };
    add_edge_clauses(f, &places, &west.x, &east.x, &west.y, &east.y, least)?;
    Ok(EdgeVars { places })
}
