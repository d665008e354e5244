// A drawing drawn together: without the rows and columns that no line needs.
ghost use Rattle.std.specs.Prelude.{◌≡◌, length, IfOk, IfSome, IsTrue};
ghost use Rattle.plan_core.specs.Lawful.{Lawful};
ghost use Rattle.plan_core.specs.Values.{values_of};
ghost use Rattle.track_order.specs.Order.{is_above};
ghost use Rattle.drawing_cnf.specs.Whole.{IsWhole};
ghost use Rattle.search_least.specs.Asked.{AreMet};

use drawing_cnf::Encoded;
use lawful_check::broken;
use plan_core::{OutOfMemory, Point};
use plan_geometry::{Drawing, Line, values};
use search_least::Below;
use std::alloc::Global;

/// A column or a row that is left out of a drawing: what is further east moves west by one, or what is above moves down
/// by one. Points in it stay.
#[derive(Clone, Copy)]
enum LeftOut {
    Column(u16),
    Row(u16),
}

/// Where the point is when this is left out.
fn moved(p: Point, left_out: LeftOut) -> Point {
    match left_out {
        LeftOut::Column(x) => {
            if p.x > x {
                Point { x: p.x - 1, y: p.y }
            } else {
                p
            }
        }
        LeftOut::Row(y) => {
            if p.y > y {
                Point { x: p.x, y: p.y - 1 }
            } else {
                p
            }
        }
    }
}

/// Where the points are when this is left out.
fn moved_points(
    alloc: Global,
    points: &[Point],
    left_out: LeftOut,
) -> Result<Vec<Point>, OutOfMemory>
    ensures { IfOk result (λ v. length v.items ≡ length points.now) }
{
    let mut found = Vec::with_capacity(alloc, points.len())?;
    for p in points {
        found.push(moved(*p, left_out))?;
    }
    Ok(found)
}

/// The drawing where this is left out, unless a line would be none any more.
fn without(alloc: Global, d: &Drawing, left_out: LeftOut) -> Result<Option<Drawing>, OutOfMemory>
    ensures { IfOk result (λ o. IfSome o (λ n. (length n.places ≡ length d.now.places)
        × (length n.lines ≡ length d.now.lines))) }
{
    let mut lines = Vec::with_capacity(alloc, d.lines().len())?;
    for line in d.lines() {
        match Line::new(&moved_points(alloc, line.points(), left_out)?) {
            Some(shorter) => lines.push(shorter)?,
            None => return Ok(None),
        }
    }
    let places = moved_points(alloc, d.places(), left_out)?;
    Ok(Some(Drawing::new(alloc, &places, &lines)?))
}

/// Whether a drawing has less than each limit.
fn is_below(d: &Drawing, bounds: &[Below]) -> bool
    ensures { IsTrue result → AreMet (values_of d.now) bounds.now }
{
    let measured = values(d);
    bounds
        .iter()
        .all(|bound| measured.of(bound.criterion) < bound.limit)
}

/// The drawing where this is left out; or the drawing as it is, where a line would be none any more, a law would be
/// broken or a bound missed.
fn leave_out(
    alloc: Global,
    encoded: &Encoded,
    bounds: &[Below],
    d: Drawing,
    left_out: LeftOut,
) -> Result<Drawing, OutOfMemory>
    requires whole { IsWhole encoded.now }
    requires lawful { Lawful encoded.now.graph (is_above encoded.now.order) encoded.now.grid d }
    requires met { AreMet (values_of d) bounds.now }
    ensures lawful { IfOk result (Lawful encoded.now.graph (is_above encoded.now.order) encoded.now.grid) }
    ensures met { IfOk result (λ n. AreMet (values_of n) bounds.now) }
{
    if let Some(less) = without(alloc, &d, left_out)? {
        if is_below(&less, bounds)
            && broken(encoded.graph(), encoded.order(), encoded.grid(), &less).is_none()
        {
            return Ok(less);
        }
    }
    Ok(d)
}

/// The drawing without the rows and columns that no line needs: each is left out, from the top down and from the east
/// to the west, where the drawing stays lawful and meets the bounds. So the next question often asks for far less.
pub(crate) fn drawn_together(
    alloc: Global,
    encoded: &Encoded,
    bounds: &[Below],
    d: Drawing,
) -> Result<Drawing, OutOfMemory>
    requires whole { IsWhole encoded.now }
    requires lawful { Lawful encoded.now.graph (is_above encoded.now.order) encoded.now.grid d }
    requires met { AreMet (values_of d) bounds.now }
    ensures lawful { IfOk result (Lawful encoded.now.graph (is_above encoded.now.order) encoded.now.grid) }
    ensures met { IfOk result (λ n. AreMet (values_of n) bounds.now) }
{
    let mut best = d;
    for row in (0..encoded.grid().height()).rev() {
        best = leave_out(alloc, encoded, bounds, best, LeftOut::Row(row))?;
    }
    for column in (0..encoded.grid().width()).rev() {
        best = leave_out(alloc, encoded, bounds, best, LeftOut::Column(column))?;
    }
    Ok(best)
}
