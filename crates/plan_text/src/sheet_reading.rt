// A sheet, read.
ghost use Rattle.std.specs.Prelude.{◌≡◌, ◌≤◌, ◌+◌, ◌++◌, [], true, false, Bool, List, length, MatchOption, MatchResult};
ghost use Rattle.plan_core.specs.declared.criterion.Criterion.{Criterion};
ghost use Rattle.plan_core.specs.declared.limits.TheConstants.{MAX_NODES, MAX_EDGES};
ghost use Rattle.plan_core.specs.Order.{IsOrder};
ghost use Rattle.plan_core.specs.Graph.{Graph};
ghost use Rattle.plan_core.specs.Drawing.{drawing};
ghost use Rattle.plan_core.specs.Exactly.{AnswersExactly};
ghost use Rattle.plan_text.specs.declared.sheet_fault.SheetWhat.TheVariants.{Range};
ghost use Rattle.plan_text.specs.declared.sheet_fault.SheetFault.TheVariants.{Memory};
ghost use Rattle.plan_write.specs.SheetLine.{SheetLine, EndLine, text_of_line, IsSmallEnding, MayEnd};
ghost use Rattle.plan_core.specs.Lawful.{HasSizeOf};
ghost use Rattle.plan_write.specs.SheetText.{StatesSettled};
ghost use Rattle.plan_text.specs.SheetFaults.{TitleDue, BodyDue, EdgesDue, ValuesDue, NoneDue, node_due, edge_due};
ghost use Rattle.plan_text.specs.SheetFaults.{IsSheetText, IsDrawingOf, IsSheetFault};
ghost use Rattle.plan_text.specs.SheetReading.{IsHeadTo, IsHeadFault, ending_told, IsFaultHere, ArePlaced};
ghost use Rattle.plan_text.specs.SheetReading.{AreDrawn, ArePlacesTo, AreLinesTo, IsPictureTo, IsFaultAfterAny};
ghost use Rattle.plan_text.specs.SheetReading.{IsClosing, IsFaultAfter, IsBody, IsUndrawnEnding, IsNoUndrawnEnding};
ghost use Rattle.plan_text.specs.SheetReading.{IsUndrawnFault};

use crate::sheet_checks::{edge, edges, ending, grid, measured, node, nodes, order, title};
use crate::sheet_lines::{EndTold, end_line};
use crate::{SheetFault, SheetWhat};
use plan_core::{Grid, Order, Point};
use plan_geometry::{Drawing, Line};
use plan_write::{Edition, Ending, Sheet};
use port_graph::PortGraph;
use std::alloc::Global;

/// The edition, the grid and the order of criteria, and what follows their lines.
fn head(text: &[u8]) -> Result<(Edition, Grid, Order, &[u8]), SheetFault>
    ensures { MatchResult result
        (λ p. IsOrder p.2 × IsHeadTo text.now p.0 p.1 p.2 p.3.now) (IsHeadFault text.now) }
{
    let (edition, rest) = title(text)?;
    match grid(edition, rest) {
        Ok((grid, rest)) => match order(rest) {
            Ok((order, rest)) => Ok((edition, grid, order, rest)),
            Err(fault) => Err(fault),
        },
        Err(fault) => Err(fault),
    }
}

/// The points of the nodes, and what follows their lines.
fn places<'a>(
    alloc: Global,
    g: &PortGraph,
    edition: Edition,
    text: &'a [u8],
) -> Result<(Vec<Point>, &'a [u8]), SheetFault>
    ensures { MatchResult result (λ p. (length p.0.items ≡ length g.now.nodes) × (length p.0.items ≤ MAX_NODES)
        × ArePlaced edition g.now text.now p.0.items p.1.now)
        (IsFaultAfterAny g.now (node_due edition g.now 0) text.now 5) }
{
    let mut places = Vec::new(alloc);
    let mut rest = text;
    for n in 0..g.nodes() {
        let (place, left) = node(alloc, g, edition, n, rest, 5 + u32::from(n))?;
        places.push(place)?;
        rest = left;
    }
    Ok((places, rest))
}

/// The points of the nodes, and what follows the line of their number and theirs.
fn all_places<'a>(
    alloc: Global,
    g: &PortGraph,
    edition: Edition,
    text: &'a [u8],
) -> Result<(Vec<Point>, &'a [u8]), SheetFault>
    ensures { MatchResult result (λ p. (length p.0.items ≡ length g.now.nodes) × (length p.0.items ≤ MAX_NODES)
        × ArePlacesTo edition g.now text.now p.0.items p.1.now)
        (IsFaultAfterAny g.now (BodyDue edition true) text.now 4) }
{
    let rest = nodes(g, text)?;
    places(alloc, g, edition, rest)
}

/// The lines of the edges, and what follows the lines of the sheet.
fn lines<'a>(
    alloc: Global,
    g: &PortGraph,
    edition: Edition,
    text: &'a [u8],
) -> Result<(Vec<Line>, &'a [u8]), SheetFault>
    ensures { let h = g.now in
        MatchResult result (λ p. (length p.0.items ≡ length h.edges) × (length h.edges ≤ MAX_EDGES) × AreDrawn edition
        h text.now p.0.items p.1.now) (IsFaultAfterAny h (edge_due edition h 0) text.now (length h.nodes + 6)) }
{
    let first = u32::from(g.nodes()) + 6;
    let mut lines = Vec::new(alloc);
    let mut rest = text;
    for e in 0..g.edges() {
        let (line, left) = edge(g, edition, e, rest, first + u32::from(e))?;
        lines.push(line)?;
        rest = left;
    }
    Ok((lines, rest))
}

/// The lines of the edges, and what follows the line of their number and theirs.
fn all_lines<'a>(
    alloc: Global,
    g: &PortGraph,
    edition: Edition,
    text: &'a [u8],
) -> Result<(Vec<Line>, &'a [u8]), SheetFault>
    ensures { MatchResult result (λ p. (length p.0.items ≡ length g.now.edges) × (length p.0.items ≤ MAX_EDGES)
        × AreLinesTo edition g.now text.now p.0.items p.1.now)
        (IsFaultAfterAny g.now (EdgesDue edition) text.now (length g.now.nodes + 5)) }
{
    let rest = edges(g, text, u32::from(g.nodes()) + 5)?;
    lines(alloc, g, edition, rest)
}

/// The drawing, and what follows its points and lines.
fn picture<'a>(
    alloc: Global,
    g: &PortGraph,
    edition: Edition,
    text: &'a [u8],
) -> Result<(Drawing, &'a [u8]), SheetFault>
    ensures { MatchResult result (λ p. HasSizeOf g.now p.0 × IsPictureTo edition g.now text.now p.0 p.1.now)
        (IsFaultAfterAny g.now (BodyDue edition true) text.now 4) }
{
    let (places, rest) = all_places(alloc, g, edition, text)?;
    let (lines, rest) = all_lines(alloc, g, edition, rest)?;
    Ok((Drawing::new(alloc, &places, &lines)?, rest))
}

/// Nothing is here.
fn nothing(text: &[u8], line: u32) -> Result<(), SheetFault>
    ensures { MatchResult result (λ _. text.now ≡ []) (λ fault. (g : Graph) (before : List SheetLine) →
        IsFaultHere g before NoneDue text.now line fault) }
{
    if text.is_empty() {
        Ok(())
    } else {
        Err(SheetFault::Sheet {
            what: SheetWhat::Form,
            line,
        })
    }
}

/// The ending of a sheet with this drawing, of which the lines from the values on are here.
fn closing(g: &PortGraph, order: &Order, d: &Drawing, text: &[u8]) -> Result<Ending, SheetFault>
    ensures { MatchResult result (λ e. MayEnd true e × IsClosing g.now order.now d.now text.now e)
        (IsFaultAfter g.now order.now d.now ValuesDue text.now (length g.now.nodes + length g.now.edges + 6)) }
{
    let line = u32::from(g.nodes()) + u32::from(g.edges()) + 6;
    let rest = measured(d, text, line)?;
    let (ending, rest) = ending(order, rest, line + 1)?;
    nothing(rest, line + 2)?;
    Ok(ending)
}

/// The drawing and the ending of a sheet in this order, of which the lines from the number of nodes on
/// are here.
fn body(
    alloc: Global,
    g: &PortGraph,
    edition: Edition,
    order: &Order,
    text: &[u8],
) -> Result<(Drawing, Ending), SheetFault>
    ensures { MatchResult result (λ p. HasSizeOf g.now p.0 × MayEnd true p.1
        × IsBody edition g.now order.now text.now p.0 p.1)
        (IsFaultAfter g.now order.now (drawing [] []) (BodyDue edition true) text.now 4) }
{
    let (d, rest) = picture(alloc, g, edition, text)?;
    let ending = closing(g, order, &d, rest)?;
    Ok((d, ending))
}

/// Reads the sheet of a station with this graph, where a drawing is wanted: its grid and its drawing. The ending of a
/// sheet without a drawing isn't of the form that is wanted.
pub fn read_drawing(
    alloc: Global,
    g: &PortGraph,
    bytes: &[u8],
) -> Result<(Grid, Drawing), SheetFault>
    ensures { AnswersExactly result Memory (λ p. IsDrawingOf g.now bytes.now p.0 p.1)
        (IsSheetFault g.now true bytes.now) }
{
    let (edition, grid, order, rest) = head(bytes)?;
    let (d, _) = body(alloc, g, edition, &order, rest)?;
    Ok((grid, d))
}

/// The ending of a sheet without a drawing, and what follows its line, if it is here.
fn undrawn(text: &[u8]) -> Option<(EndTold, &[u8])>
    ensures { MatchOption result (IsNoUndrawnEnding text.now)
        (λ p. IsSmallEnding (ending_told p.0) × MayEnd false (ending_told p.0)
        × (text.now ≡ text_of_line (EndLine (ending_told p.0)) ++ p.1.now)) }
{
    match end_line(text)? {
        (EndTold::Best, _) => None,
        (told, rest) => Some((told, rest)),
    }
}

/// The ending of a sheet without a drawing that a line tells, with no criterion settled.
fn none_settled(told: EndTold) -> Result<Ending, SheetWhat>
    ensures { MatchResult result (λ e. (e ≡ ending_told told) × ((order : List Criterion) → 1 ≤ length order →
        StatesSettled order false e))
        (λ what. (what ≡ Range) × ((order : List Criterion) → StatesSettled order false (ending_told told) → ⊥)) }
{
    match told {
        EndTold::Best => Ok(Ending::Best),
        EndTold::NoDrawing => Ok(Ending::NoDrawing),
        EndTold::Conflicts(0) => Ok(Ending::Conflicts(0)),
        EndTold::Room(0) => Ok(Ending::Room(0)),
        _ => Err(SheetWhat::Range),
    }
}

/// The ending of a sheet without a drawing, of which the last line is here, or none if another line is.
fn undrawn_ending(text: &[u8]) -> Result<Option<Ending>, SheetFault>
    ensures { MatchResult result (λ o. MatchOption o (IsNoUndrawnEnding text.now)
        (λ e. MayEnd false e × IsUndrawnEnding text.now e)) (IsUndrawnFault text.now) }
{
    let Some((told, rest)) = undrawn(text) else {
        return Ok(None);
    };
    match none_settled(told) {
        Ok(ending) => {
            nothing(rest, 5)?;
            Ok(Some(ending))
        }
        Err(what) => Err(SheetFault::Sheet { what, line: 4 }),
    }
}

/// Reads the sheet of a station with this graph, with a drawing or without one.
pub fn read_sheet(alloc: Global, g: &PortGraph, bytes: &[u8]) -> Result<Sheet, SheetFault>
    ensures { AnswersExactly result Memory (IsSheetText g.now false bytes.now) (IsSheetFault g.now false bytes.now) }
{
    let (edition, grid, order, rest) = head(bytes)?;
    if let Some(ending) = undrawn_ending(rest)? {
        return Ok(Sheet {
            grid,
            order,
            found: None,
            ending,
        });
    }
    let (d, ending) = body(alloc, g, edition, &order, rest)?;
    Ok(Sheet {
        grid,
        order,
        found: Some(d),
        ending,
    })
}
