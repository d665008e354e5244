// The lines of a sheet, each read and judged where it is due.
ghost use Rattle.std.specs.Prelude.{◌≡◌, ◌<◌, ◌↔◌, true, Bool, List, length, IfOk, IsTrue, MatchOption, MatchResult};
ghost use Rattle.std.specs.Option.{option_copied};
ghost use Rattle.plan_core.specs.Grid.{IsGrid};
ghost use Rattle.plan_core.specs.Order.{IsOrder};
ghost use Rattle.plan_core.specs.Line.{is_line};
ghost use Rattle.plan_core.specs.Graph.{Graph, node, edge};
ghost use Rattle.plan_core.specs.Values.{values_of};
ghost use Rattle.plan_write.specs.SheetLine.{SheetLine, Title, GridLine, OrderLine, NodesLine, NodeLine, EdgesLine};
ghost use Rattle.plan_write.specs.SheetLine.{EdgeLine, ValuesLine, EndLine, MayEnd};
ghost use Rattle.plan_write.specs.declared.edition.Edition.{Edition as Editions};
ghost use Rattle.rail_mileage.specs.MetresText.{metres_text};
ghost use Rattle.plan_write.specs.SheetText.{StatesSettled, mileage_field, track_field};
ghost use Rattle.plan_text.specs.SheetFaults.{TitleDue, GridDue, OrderDue, BodyDue, NodeDue, EdgesDue, EdgeDue};
ghost use Rattle.plan_text.specs.SheetFaults.{ValuesDue, EndDue, order_told, drawing_told, IsOfGraph};
ghost use Rattle.plan_text.specs.SheetReading.{IsLineTo, IsEndFault, IsFaultHere, drawn_line, ending_told};

use crate::sheet_lines::{
    EdgeTold, EndTold, NodeTold, edge_line, end_line, grid_line, node_line, one_number, order_line,
    values_line,
};
use crate::{SheetFault, SheetWhat};
use outside_io::behind;
use plan_core::{EdgeNo, Grid, NodeNo, Order, OutOfMemory, Point};
use plan_geometry::{Drawing, Line, values};
use plan_write::{Edition, Ending};
use port_graph::PortGraph;
use rail_mileage::write_metres;
use std::alloc::Global;

/// The edition that the title says, and what follows it.
pub(crate) fn title(text: &[u8]) -> Result<(Edition, &[u8]), SheetFault>
    ensures { MatchResult result (λ p. IsLineTo text.now (Title p.0) p.1.now)
        (λ fault. (g : Graph) (before : List SheetLine) (needs_drawing : Bool) →
        IsFaultHere g before (TitleDue needs_drawing) text.now 1 fault) }
{
    if let Some(rest) = behind(text, b"railplan 1\n") {
        return Ok((Edition::First, rest));
    }
    match behind(text, b"railplan 2\n") {
        Some(rest) => Ok((Edition::Second, rest)),
        None => Err(SheetFault::Sheet {
            what: SheetWhat::Form,
            line: 1,
        }),
    }
}

/// The grid, and what follows its line.
pub(crate) fn grid(edition: Edition, text: &[u8]) -> Result<(Grid, &[u8]), SheetFault>
    ensures { MatchResult result (λ p. IsGrid p.0 × IsLineTo text.now (GridLine edition p.0) p.1.now)
        (λ fault. (g : Graph) (before : List SheetLine) (needs_drawing : Bool) →
        IsFaultHere g before (GridDue edition needs_drawing) text.now 2 fault) }
{
    let Some((width, height, least, rest)) = grid_line(edition, text) else {
        return Err(SheetFault::Sheet {
            what: SheetWhat::Form,
            line: 2,
        });
    };
    match Grid::with_least(width, height, least) {
        Some(grid) => Ok((grid, rest)),
        None => Err(SheetFault::Sheet {
            what: SheetWhat::Range,
            line: 2,
        }),
    }
}

/// The order of criteria, and what follows its line.
pub(crate) fn order(text: &[u8]) -> Result<(Order, &[u8]), SheetFault>
    ensures { MatchResult result (λ p. IsOrder p.0 × IsLineTo text.now (OrderLine p.0) p.1.now)
        (λ fault. (g : Graph) (before : List SheetLine) (edition : Editions) (needs : Bool) →
        IsFaultHere g before (OrderDue edition needs) text.now 3 fault) }
{
    let Some((criteria, rest)) = order_line(text) else {
        return Err(SheetFault::Sheet {
            what: SheetWhat::Form,
            line: 3,
        });
    };
    match Order::new(criteria.as_slice()) {
        Some(order) => Ok((order, rest)),
        None => Err(SheetFault::Sheet {
            what: SheetWhat::Range,
            line: 3,
        }),
    }
}

/// What follows the number of nodes.
pub(crate) fn nodes<'a>(g: &PortGraph, text: &'a [u8]) -> Result<&'a [u8], SheetFault>
    ensures { MatchResult result (λ rest. IsLineTo text.now (NodesLine (length g.now.nodes)) rest.now)
        (λ fault. (edition : Editions) (before : List SheetLine) →
        IsFaultHere g.now before (BodyDue edition true) text.now 4 fault) }
{
    let Some((count, rest)) = one_number(text, b"nodes") else {
        return Err(SheetFault::Sheet {
            what: SheetWhat::Form,
            line: 4,
        });
    };
    if count == g.nodes() {
        Ok(rest)
    } else {
        Err(SheetFault::Sheet {
            what: SheetWhat::Graph,
            line: 4,
        })
    }
}

/// The text of a node's mileage.
fn mileage_of(alloc: Global, g: &PortGraph, n: u16) -> Result<Vec<u8>, OutOfMemory>
    requires { n < length g.now.nodes }
    ensures { IfOk result (λ text. text.items ≡ metres_text (node g.now n).mileage) }
{
    let mut text = Vec::new(alloc);
    write_metres(alloc, g.mileage(NodeNo(n)), &mut text)?;
    Ok(text)
}

/// Whether this is the mileage of the node, where the edition tells it.
fn is_mileage_of(
    alloc: Global,
    g: &PortGraph,
    edition: Edition,
    n: u16,
    mileage: Option<&[u8]>,
) -> Result<bool, OutOfMemory>
    requires { n < length g.now.nodes }
    ensures { IfOk result (λ b. IsTrue b ↔ (option_copied mileage.entry ≡ mileage_field edition g.now n)) }
{
    match edition {
        Edition::First => Ok(mileage.is_none()),
        Edition::Second => match mileage {
            None => Ok(false),
            Some(field) => {
                let text = mileage_of(alloc, g, n)?;
                Ok(field == text.as_slice())
            }
        },
    }
}

/// Whether the line of a node tells the number, the name and the mileage of this one.
fn is_node(
    alloc: Global,
    g: &PortGraph,
    edition: Edition,
    n: u16,
    told: &NodeTold<'_>,
) -> Result<bool, OutOfMemory>
    requires { n < length g.now.nodes }
    ensures { IfOk result (λ b. IsTrue b ↔ IsOfGraph g.now (NodeDue edition n)
        (NodeLine told.now.number told.now.name.now told.now.place (option_copied told.now.mileage))) }
{
    let is_mileage = is_mileage_of(alloc, g, edition, n, told.mileage)?;
    Ok(told.number == n && told.name == g.name(NodeNo(n)).bytes() && is_mileage)
}

/// The point of a node, and what follows its line.
pub(crate) fn node<'a>(
    alloc: Global,
    g: &PortGraph,
    edition: Edition,
    n: u16,
    text: &'a [u8],
    line: u32,
) -> Result<(Point, &'a [u8]), SheetFault>
    requires { n < length g.now.nodes }
    ensures { MatchResult result (λ p. IsLineTo text.now (NodeLine n (node g.now n).name p.0
        (mileage_field edition g.now n)) p.1.now)
        (λ fault. (before : List SheetLine) → IsFaultHere g.now before (NodeDue edition n) text.now line fault) }
{
    let Some((told, rest)) = node_line(edition, text) else {
        return Err(SheetFault::Sheet {
            what: SheetWhat::Form,
            line,
        });
    };
    let is_its_line = is_node(alloc, g, edition, n, &told)?;
    if is_its_line {
        Ok((told.place, rest))
    } else {
        Err(SheetFault::Sheet {
            what: SheetWhat::Graph,
            line,
        })
    }
}

/// What follows the number of edges.
pub(crate) fn edges<'a>(g: &PortGraph, text: &'a [u8], line: u32) -> Result<&'a [u8], SheetFault>
    ensures { MatchResult result (λ rest. IsLineTo text.now (EdgesLine (length g.now.edges)) rest.now)
        (λ fault. (edition : Editions) (before : List SheetLine) →
        IsFaultHere g.now before (EdgesDue edition) text.now line fault) }
{
    let Some((count, rest)) = one_number(text, b"edges") else {
        return Err(SheetFault::Sheet {
            what: SheetWhat::Form,
            line,
        });
    };
    if count == g.edges() {
        Ok(rest)
    } else {
        Err(SheetFault::Sheet {
            what: SheetWhat::Graph,
            line,
        })
    }
}

/// Whether this is the track of the edge, where the edition tells it.
fn is_track_of(g: &PortGraph, edition: Edition, e: u16, track: Option<&[u8]>) -> bool
    requires { e < length g.now.edges }
    ensures { IsTrue result ↔ (option_copied track.entry ≡ track_field edition g.now e) }
{
    match edition {
        Edition::First => track.is_none(),
        Edition::Second => match track {
            None => false,
            Some(name) => name == g.track(EdgeNo(e)).bytes(),
        },
    }
}

/// Whether the line of an edge tells the number, the track and the nodes of this one.
fn is_edge(g: &PortGraph, edition: Edition, e: u16, told: &EdgeTold<'_>) -> bool
    requires { e < length g.now.edges }
    ensures { IsTrue result ↔ IsOfGraph g.now (EdgeDue edition e)
        (EdgeLine told.now.number (option_copied told.now.track) told.now.west told.now.east told.now.points.items) }
{
    let is_track = is_track_of(g, edition, e, told.track);
    told.number == e
        && is_track
        && told.west == g.west(EdgeNo(e)).0
        && told.east == g.east(EdgeNo(e)).0
}

/// The line of an edge as it is drawn, and what follows the line of the sheet.
pub(crate) fn edge<'a>(
    g: &PortGraph,
    edition: Edition,
    e: u16,
    text: &'a [u8],
    line: u32,
) -> Result<(Line, &'a [u8]), SheetFault>
    requires { e < length g.now.edges }
    ensures { MatchResult result (λ p. (is_line p.0 ≡ true) × IsLineTo text.now
        (drawn_line edition g.now e p.0) p.1.now)
        (λ fault. (before : List SheetLine) → IsFaultHere g.now before (EdgeDue edition e) text.now line fault) }
{
    let Some((told, rest)) = edge_line(edition, text) else {
        return Err(SheetFault::Sheet {
            what: SheetWhat::Form,
            line,
        });
    };
    if !is_edge(g, edition, e, &told) {
        return Err(SheetFault::Sheet {
            what: SheetWhat::Graph,
            line,
        });
    }
    match Line::new(told.points.as_slice()) {
        Some(drawn) => Ok((drawn, rest)),
        None => Err(SheetFault::Sheet {
            what: SheetWhat::Shape,
            line,
        }),
    }
}

/// What follows the values of a drawing.
pub(crate) fn measured<'a>(d: &Drawing, text: &'a [u8], line: u32) -> Result<&'a [u8], SheetFault>
    ensures { MatchResult result (λ rest. IsLineTo text.now (ValuesLine (values_of d.now)) rest.now)
        (λ fault. (g : Graph) (before : List SheetLine) → drawing_told before ≡ d.now →
        IsFaultHere g before ValuesDue text.now line fault) }
{
    let Some((told, rest)) = values_line(text) else {
        return Err(SheetFault::Sheet {
            what: SheetWhat::Form,
            line,
        });
    };
    if told == values(d) {
        Ok(rest)
    } else {
        Err(SheetFault::Sheet {
            what: SheetWhat::Values,
            line,
        })
    }
}

/// So many criteria, if they are fewer than the order has.
fn some_left(order: &Order, settled: u16) -> Option<u8>
    ensures { MatchOption result (settled < length order.now → ⊥) (λ s. (s ≡ settled) × (settled < length order.now)) }
{
    if (settled as usize) < order.len() {
        Some(settled as u8)
    } else {
        None
    }
}

/// The ending of a sheet with a drawing that a line tells.
fn drawn_ending(order: &Order, told: EndTold) -> Result<Ending, SheetWhat>
    ensures { MatchResult result (λ e. (e ≡ ending_told told) × MayEnd true e × StatesSettled order.now true e)
        (λ what. IsEndFault order.now true (ending_told told) what) }
{
    match told {
        EndTold::Best => Ok(Ending::Best),
        EndTold::NoDrawing => Err(SheetWhat::Form),
        EndTold::Conflicts(settled) => match some_left(order, settled) {
            Some(settled) => Ok(Ending::Conflicts(settled)),
            None => Err(SheetWhat::Range),
        },
        EndTold::Room(settled) => match some_left(order, settled) {
            Some(settled) => Ok(Ending::Room(settled)),
            None => Err(SheetWhat::Range),
        },
    }
}

/// The ending of a sheet with a drawing, and what follows its line.
pub(crate) fn ending<'a>(
    order: &Order,
    text: &'a [u8],
    line: u32,
) -> Result<(Ending, &'a [u8]), SheetFault>
    ensures { MatchResult result (λ p. MayEnd true p.0 × StatesSettled order.now true p.0
        × IsLineTo text.now (EndLine p.0) p.1.now) (λ f. (g : Graph) (ls : List SheetLine) → order_told ls ≡ order.now →
        IsFaultHere g ls EndDue text.now line f) }
{
    let Some((told, rest)) = end_line(text) else {
        return Err(SheetFault::Sheet {
            what: SheetWhat::Form,
            line,
        });
    };
    match drawn_ending(order, told) {
        Ok(ending) => Ok((ending, rest)),
        Err(what) => Err(SheetFault::Sheet { what, line }),
    }
}
