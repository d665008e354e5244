// Law 1: all points lie on the grid.
ghost use Rattle.std.specs.Prelude.{◌≡◌, ◌<◌, ◌↔◌, true, length, All, IsTrue, MatchOption};
ghost use Rattle.plan_core.specs.Line.{is_line};
ghost use Rattle.plan_core.specs.Laws.{IsOnGrid, NodeIsOnGrid, LineIsOnGrid};
ghost use Rattle.lawful_check.specs.Holding.{HoldsForAll, FailsFirst};

use plan_core::{EdgeNo, Grid, NodeNo, Point};
use plan_geometry::{Drawing, Line};

fn is_on_grid(grid: &Grid, p: Point) -> bool
    ensures { IsTrue result ↔ IsOnGrid grid.now p }
{
    p.x <= grid.width() && p.y <= grid.height()
}

fn is_line_on_grid(grid: &Grid, line: &Line) -> bool
    ensures { IsTrue result ↔ All (IsOnGrid grid.now) line.now }
{
    for p in line.points() {
        if !is_on_grid(grid, *p) {
            return false;
        }
    }
    true
}

/// The least node that doesn't lie on the grid.
pub(crate) fn node_off_grid(grid: &Grid, d: &Drawing) -> Option<NodeNo>
    ensures { MatchOption result (HoldsForAll (λ n. n < length d.now.places) (NodeIsOnGrid grid.now d.now))
        (λ n. FailsFirst (λ n. n < length d.now.places) (NodeIsOnGrid grid.now d.now) n.0) }
{
    for n in 0..d.nodes() {
        if !is_on_grid(grid, d.place(NodeNo(n))) {
            return Some(NodeNo(n));
        }
    }
    None
}

/// The least edge whose line leaves the grid.
pub(crate) fn line_off_grid(grid: &Grid, d: &Drawing) -> Option<EdgeNo>
    ensures are_lines { All (λ l. is_line l ≡ true) d.now.lines }
    ensures first { MatchOption result (HoldsForAll (λ e. e < length d.now.lines) (LineIsOnGrid grid.now d.now))
        (λ e. FailsFirst (λ e. e < length d.now.lines) (LineIsOnGrid grid.now d.now) e.0) }
{
    for e in 0..d.edges() {
        if !is_line_on_grid(grid, d.line(EdgeNo(e))) {
            return Some(EdgeNo(e));
        }
    }
    None
}
