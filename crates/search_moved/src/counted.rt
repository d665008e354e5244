// How many nodes of a drawing moved.
ghost use Rattle.std.specs.Prelude.{◌≡◌, ◌≤◌, length};
ghost use Rattle.drawing_cnf.specs.Rank.{one_when};
ghost use Rattle.drawing_cnf.specs.Moved.{is_moved};
ghost use Rattle.search_moved.specs.MovedFormula.{moved_nodes};

use plan_core::{NodeNo, Point};
use plan_geometry::Drawing;

/// 1 where there is a former point and the point is another, else 0.
fn one_if(former: Option<Point>, p: Point) -> u32
    ensures value { result ≡ one_when (is_moved former p) }
{
    match former {
        Some(q) => { if p.x == q.x && p.y == q.y { 0 } else { 1 } }
        None => 0,
    }
}

/// How many nodes with a former point have another one.
pub fn count_moved(d: &Drawing, former: &[Option<Point>]) -> u32
    requires same { length former.now ≡ length d.now.places }
    ensures { result ≡ moved_nodes former.now d.now }
{
    let mut count = 0;
    let end = d.nodes();
    for k in 0..end {
        count += one_if(former[k as usize], d.place(NodeNo(k)));
    }
    count
}
