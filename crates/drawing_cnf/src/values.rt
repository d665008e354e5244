// The greatest value of each criterion.
ghost use Rattle.std.specs.Prelude.{◌≡◌, ◌≤◌, ℕ, Bool};
ghost use Rattle.plan_core.specs.Drawing.{Drawing};
ghost use Rattle.plan_core.specs.Lawful.{Lawful};
ghost use Rattle.plan_core.specs.Values.{values_of, value_of, limit_of};

use plan_core::{Criterion, Grid};
use port_graph::PortGraph;

/// The greatest value of a criterion that a drawing of the graph on the grid may have: the grid's height
/// or width, two bends for each edge, or the grid's width for each edge.
pub fn greatest(g: &PortGraph, grid: &Grid, c: Criterion) -> u32
    ensures value { result ≡ limit_of g.now grid.now c }
    ensures most { (above : ℕ → ℕ → Bool) (d : Drawing) → Lawful g.now above grid.now d →
        value_of (values_of d) c ≤ result }
{
    limit_for(g, grid, c)
}

fn limit_for(g: &PortGraph, grid: &Grid, c: Criterion) -> u32
    ensures { result ≡ limit_of g.now grid.now c }
{
    let edges = u32::from(g.edges());
    match c {
        Criterion::Height => u32::from(grid.height()),
        Criterion::Bends => 2 * edges,
        Criterion::Diagonal => edges * u32::from(grid.width()),
        Criterion::Width => u32::from(grid.width()),
    }
}
