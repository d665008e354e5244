// The verdict on a drawing.
ghost use Rattle.std.specs.Prelude.{◌≡◌, IfOk, MatchOption};
ghost use Rattle.track_order.specs.Order.{is_above, IsOrderOf};
ghost use Rattle.plan_core.specs.Lawful.{HasSizeOf, Lawful};
ghost use Rattle.run_check.specs.Verdict.{lawful_line, broken_line};
ghost use Rattle.run_check.specs.Verdict.{IsBrokenAnswer, IsVerdict};

use lawful_check::{LawBreak, broken};
use outside_io::{push_number_field, push_text};
use plan_core::{Grid, OutOfMemory, Values};
use plan_geometry::{Drawing, values};
use run_input::{Reply, Station, Status, push_law};
use std::alloc::Global;

/// The line of a lawful drawing.
fn lawful_line(alloc: Global, values: Values) -> Result<Vec<u8>, OutOfMemory>
    ensures { IfOk result (λ v. v.items ≡ lawful_line values) }
{
    let mut line = Vec::from_slice(alloc, b"lawful")?;
    push_number_field(&mut line, values.height)?;
    push_number_field(&mut line, values.bends)?;
    push_number_field(&mut line, values.diagonal)?;
    push_number_field(&mut line, values.width)?;
    push_text(&mut line, b"\n")?;
    Ok(line)
}

/// The line of a broken law.
fn broken_line(alloc: Global, found: LawBreak) -> Result<Vec<u8>, OutOfMemory>
    ensures { IfOk result (λ v. v.items ≡ broken_line found) }
{
    let mut line = Vec::from_slice(alloc, b"broken law")?;
    push_law(&mut line, found)?;
    push_text(&mut line, b"\n")?;
    Ok(line)
}

/// What is answered to a drawing of a station that breaks a law: status 8 and the least law that it breaks; nothing
/// where it is lawful.
pub fn broken_reply(
    alloc: Global,
    station: &Station,
    grid: &Grid,
    drawing: &Drawing,
) -> Result<Option<Reply>, OutOfMemory>
    requires order { IsOrderOf station.now.graph station.now.order }
    requires fitting { HasSizeOf station.now.graph drawing.now }
    ensures { IfOk result (λ r. MatchOption r (Lawful station.now.graph (is_above station.now.order) grid.now
        drawing.now)
        (λ x. IsBrokenAnswer station.now.graph station.now.order grid.now drawing.now x.status x.text.items)) }
{
    match broken(&station.graph, &station.order, grid, drawing) {
        None => Ok(None),
        Some(found) => Ok(Some(Reply {
            status: Status::Broken,
            text: broken_line(alloc, found)?,
        })),
    }
}

/// The verdict on a drawing of a station: status 0 and what it measures where it is lawful, and else
/// status 8 and the least law that it breaks.
pub fn verdict(
    alloc: Global,
    station: &Station,
    grid: &Grid,
    drawing: &Drawing,
) -> Result<Reply, OutOfMemory>
    requires order { IsOrderOf station.now.graph station.now.order }
    requires fitting { HasSizeOf station.now.graph drawing.now }
    ensures { IfOk result (λ r. IsVerdict station.now.graph station.now.order grid.now drawing.now r.status
        r.text.items) }
{
    match broken_reply(alloc, station, grid, drawing)? {
        None => Ok(Reply {
            status: Status::Done,
            text: lawful_line(alloc, values(drawing))?,
        }),
        Some(reply) => Ok(reply),
    }
}
