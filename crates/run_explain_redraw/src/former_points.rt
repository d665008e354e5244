// Where the nodes of a graph stood.
ghost use Rattle.std.specs.Prelude.{◌≡◌, ◌<◌, length, IfOk};
ghost use Rattle.plan_core.specs.Lawful.{HasSizeOf};
ghost use Rattle.plan_core.specs.Graph.{node};
ghost use Rattle.run_explain_redraw.specs.FormerPoints.{IsPointOf, AreFormer};

use plan_core::{NodeNo, OutOfMemory, Point};
use plan_geometry::Drawing;
use port_graph::PortGraph;
use std::alloc::Global;

/// The point in the drawing of the graph's node of this name, where it has one.
fn former_point(old: &PortGraph, d: &Drawing, name: &[u8]) -> Option<Point>
    requires { HasSizeOf old.now d.now }
    ensures { IsPointOf old.now d.now name.now result }
{
    for m in 0..old.nodes() {
        if old.name(NodeNo(m)).bytes() == name {
            return Some(d.place(NodeNo(m)));
        }
    }
    None
}

/// The former point of each node of the graph `g`, by number: where the node of its name is in the drawing `d` of the
/// graph `old`. Each is looked for among all names there, which are at most 128.
pub(crate) fn former_points(
    alloc: Global,
    g: &PortGraph,
    old: &PortGraph,
    d: &Drawing,
) -> Result<Vec<Option<Point>>, OutOfMemory>
    requires { HasSizeOf old.now d.now }
    ensures { IfOk result (λ v. AreFormer g.now old.now d.now v.items) }
{
    let mut points = Vec::new(alloc);
    for n in 0..g.nodes() {
        points.push(former_point(old, d, g.name(NodeNo(n)).bytes()))?;
    }
    Ok(points)
}
