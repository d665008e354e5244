// Where a search begins: near the former points.
ghost use Rattle.std.specs.Prelude.{◌≡◌, ◌≤◌, [], length, IfOk};
ghost use Rattle.cnf_core.specs.declared.limits.TheConstants.{VARS};
ghost use Rattle.edge_shape.specs.EdgeVars.{node_ints};
ghost use Rattle.drawing_cnf.specs.Stands.{NodeThere};
ghost use Rattle.drawing_cnf.specs.Whole.{IsWhole};
ghost use Rattle.search_moved.specs.Search.{IsReadyWith};

use crate::asking::MovedKnown;
use cdcl_core::Solver;
use cnf_core::Truths;
use drawing_cnf::Encoded;
use edge_shape::NodeVars;
use plan_core::{NodeNo, OutOfMemory, Point};
use std::alloc::Global;

/// Gives a node the column and the row of the grid that are nearest to the point's.
fn put_nearest(node: &NodeVars, p: Point, m: &mut Truths)
    requires there { NodeThere (length m.old) (node_ints node.now.x node.now.y) }
    ensures vars { length m.new ≡ length m.old }
{
    node.x
        .put(u32::from(p.x).max(node.x.low).min(node.x.high), m);
    node.y
        .put(u32::from(p.y).max(node.y.low).min(node.y.high), m);
}

/// Truth values of so many variables, by which each node with a former point is there, or as near as the grid lets it.
/// All others are false.
fn former_truths(
    alloc: Global,
    encoded: &Encoded,
    former: &[Option<Point>],
    vars: u32,
) -> Result<Truths, OutOfMemory>
    requires whole { IsWhole encoded.now }
    requires bounds { encoded.now.bounds ≡ [] }
    requires same { length former.now ≡ length encoded.now.graph.nodes }
    requires there { encoded.now.formula.vars ≤ vars }
    requires limit { vars ≤ VARS }
    ensures { IfOk result (λ m. length m ≡ vars) }
{
    // what the type keeps
    let _ = encoded.grid().width();
    let mut truths = Truths::all_false(alloc, vars)?;
    let end = encoded.graph().nodes();
    for k in 0..end {
        if let Some(p) = former[k as usize] {
            put_nearest(&encoded.node(NodeNo(k)), p, &mut truths);
        }
    }
    Ok(truths)
}

/// Has the solver decide first as the nodes were. It keeps how it decided from one question to the next.
pub(crate) fn begin_near(known: &MovedKnown, solver: &mut Solver) -> Result<(), OutOfMemory>
    requires { IsReadyWith known.now solver.old }
    ensures { solver.new ≡ solver.old }
{
    let truths = former_truths(known.alloc, &known.encoded, known.former, solver.vars())?;
    solver.suggest(&truths);
    Ok(())
}
