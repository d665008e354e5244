// The sheet, written.
ghost use Rattle.std.specs.Prelude.{◌≡◌, ◌<◌, ◌++◌, [], ◌∷◌, codes, length, flat_map, map, OnOk};
ghost use Rattle.std.specs.List.{range_with_len};
ghost use Rattle.std.specs.Fmt.{decimal};
ghost use Rattle.outside_io.specs.Contents.{Begins};
ghost use Rattle.plan_core.specs.Drawing.{place, line};
ghost use Rattle.plan_core.specs.Graph.{node, edge};
ghost use Rattle.outside_io.specs.Fields.{spaced, line_text};
ghost use Rattle.std.specs.Option.{is_some};
ghost use Rattle.outside_io.specs.Criteria.{criterion_word as word_of_criterion};
ghost use Rattle.plan_write.specs.declared.edition.Edition.TheVariants.{Second};
ghost use Rattle.plan_write.specs.SheetLine.{GridLine, OrderLine, NodesLine, EdgesLine, ValuesLine, EndLine};
ghost use Rattle.plan_write.specs.SheetLine.{coordinates, text_of_line};
ghost use Rattle.plan_core.specs.Lawful.{HasSizeOf};
ghost use Rattle.plan_write.specs.SheetText.{DrawsAll, DrawsOnGrid, StatesSettled, node_line, edge_line, node_lines};
ghost use Rattle.plan_write.specs.SheetText.{edge_lines, drawing_lines, drawn_text, found_lines, sheet_text};

use crate::line_parts::{push_count_line, push_mileage, push_named};
use crate::{Ending, Sheet};
use outside_io::{criterion_word, push_field, push_number_field, push_text};
use plan_core::{EdgeNo, Grid, NodeNo, Order, OutOfMemory, Point, Values};
use plan_geometry::{Drawing, values};
use port_graph::PortGraph;
use std::alloc::Global;

/// Appends two numbers, each after a space.
fn push_pair(a: u32, b: u32, into: &mut Vec<u8>) -> Result<(), OutOfMemory>
    ensures ok { OnOk result (into.new.items ≡ into.old.items ++ spaced (decimal a ∷ decimal b ∷ [])) }
    ensures begins { Begins into.old.items into.new.items }
{
    push_number_field(into, a)?;
    push_number_field(into, b)
}

/// Appends the line of a grid, of the second edition.
pub fn write_grid(grid: &Grid, into: &mut Vec<u8>) -> Result<(), OutOfMemory>
    ensures ok { OnOk result (into.new.items ≡ into.old.items ++ text_of_line (GridLine Second grid.now)) }
    ensures begins { Begins into.old.items into.new.items }
{
    push_text(into, b"grid")?;
    push_pair(u32::from(grid.width()), u32::from(grid.height()), into)?;
    push_number_field(into, u32::from(grid.least()))?;
    push_text(into, b"\n")
}

fn push_criteria(order: &Order, into: &mut Vec<u8>) -> Result<(), OutOfMemory>
    ensures ok { OnOk result (into.new.items ≡ into.old.items ++ spaced (map word_of_criterion order.now)) }
    ensures begins { Begins into.old.items into.new.items }
{
    for i in 0..order.len() {
        push_field(into, criterion_word(order.get(i)).as_bytes())?;
    }
    Ok(())
}

fn push_order_line(order: &Order, into: &mut Vec<u8>) -> Result<(), OutOfMemory>
    ensures ok { OnOk result (into.new.items ≡ into.old.items ++ text_of_line (OrderLine order.now)) }
    ensures begins { Begins into.old.items into.new.items }
{
    push_text(into, b"order")?;
    push_criteria(order, into)?;
    push_text(into, b"\n")
}

/// Appends the coordinates of a point, each after a space.
fn push_point(p: Point, into: &mut Vec<u8>) -> Result<(), OutOfMemory>
    ensures ok { OnOk result (into.new.items ≡ into.old.items ++ spaced (map decimal (coordinates p))) }
    ensures begins { Begins into.old.items into.new.items }
{
    push_pair(u32::from(p.x), u32::from(p.y), into)
}

fn push_points(points: &[Point], into: &mut Vec<u8>) -> Result<(), OutOfMemory>
    ensures ok { OnOk result
        (into.new.items ≡ into.old.items ++ spaced (map decimal (flat_map coordinates points.now))) }
    ensures begins { Begins into.old.items into.new.items }
{
    for p in points {
        push_point(*p, into)?;
    }
    Ok(())
}

fn push_node_line(
    alloc: Global,
    g: &PortGraph,
    d: &Drawing,
    n: u16,
    into: &mut Vec<u8>,
) -> Result<(), OutOfMemory>
    requires there { n < length g.now.nodes }
    requires placed { n < length d.now.places }
    ensures ok { OnOk result (into.new.items ≡ into.old.items ++ text_of_line (node_line Second g.now d.now n)) }
    ensures begins { Begins into.old.items into.new.items }
{
    push_named(into, b"node", n, g.name(NodeNo(n)).bytes())?;
    push_point(d.place(NodeNo(n)), into)?;
    push_mileage(alloc, into, g.mileage(NodeNo(n)))
}

/// Appends the number of an edge, its track and its nodes.
fn push_edge_head(g: &PortGraph, e: u16, into: &mut Vec<u8>) -> Result<(), OutOfMemory>
    requires { e < length g.now.edges }
    ensures ok { OnOk result (into.new.items ≡ into.old.items ++ (codes "edge"
        ++ spaced (decimal e ∷ (edge g.now e).track ∷ decimal (edge g.now e).west ∷ decimal (edge g.now e).east ∷
        []))) }
    ensures begins { Begins into.old.items into.new.items }
{
    push_named(into, b"edge", e, g.track(EdgeNo(e)).bytes())?;
    let west = g.west(EdgeNo(e)).0;
    let east = g.east(EdgeNo(e)).0;
    push_pair(u32::from(west), u32::from(east), into)
}

fn push_edge_line(g: &PortGraph, d: &Drawing, e: u16, into: &mut Vec<u8>) -> Result<(), OutOfMemory>
    requires there { e < length g.now.edges }
    requires drawn { e < length d.now.lines }
    ensures ok { OnOk result (into.new.items ≡ into.old.items ++ text_of_line (edge_line Second g.now d.now e)) }
    ensures begins { Begins into.old.items into.new.items }
{
    push_edge_head(g, e, into)?;
    push_points(d.line(EdgeNo(e)).points(), into)?;
    push_text(into, b"\n")
}

fn push_values_line(v: Values, into: &mut Vec<u8>) -> Result<(), OutOfMemory>
    ensures ok { OnOk result (into.new.items ≡ into.old.items ++ text_of_line (ValuesLine v)) }
    ensures begins { Begins into.old.items into.new.items }
{
    push_text(into, b"values")?;
    push_pair(v.height, v.bends, into)?;
    push_pair(v.diagonal, v.width, into)?;
    push_text(into, b"\n")
}

fn push_node_lines(
    alloc: Global,
    g: &PortGraph,
    d: &Drawing,
    into: &mut Vec<u8>,
) -> Result<(), OutOfMemory>
    requires { HasSizeOf g.now d.now }
    ensures ok { OnOk result
        (into.new.items ≡ into.old.items ++ flat_map text_of_line (node_lines Second g.now d.now)) }
    ensures begins { Begins into.old.items into.new.items }
{
    for n in 0..g.nodes() {
        push_node_line(alloc, g, d, n, into)?;
    }
    Ok(())
}

fn push_places(
    alloc: Global,
    g: &PortGraph,
    d: &Drawing,
    into: &mut Vec<u8>,
) -> Result<(), OutOfMemory>
    requires { HasSizeOf g.now d.now }
    ensures ok { OnOk result (into.new.items ≡ into.old.items ++ flat_map text_of_line
        (NodesLine (length g.now.nodes) ∷ node_lines Second g.now d.now)) }
    ensures begins { Begins into.old.items into.new.items }
{
    push_count_line(into, b"nodes", u32::from(g.nodes()))?;
    push_node_lines(alloc, g, d, into)
}

fn push_edge_lines(g: &PortGraph, d: &Drawing, into: &mut Vec<u8>) -> Result<(), OutOfMemory>
    requires { HasSizeOf g.now d.now }
    ensures ok { OnOk result
        (into.new.items ≡ into.old.items ++ flat_map text_of_line (edge_lines Second g.now d.now)) }
    ensures begins { Begins into.old.items into.new.items }
{
    for e in 0..g.edges() {
        push_edge_line(g, d, e, into)?;
    }
    Ok(())
}

fn push_lines(g: &PortGraph, d: &Drawing, into: &mut Vec<u8>) -> Result<(), OutOfMemory>
    requires { HasSizeOf g.now d.now }
    ensures ok { OnOk result (into.new.items ≡ into.old.items ++ flat_map text_of_line
        (EdgesLine (length g.now.edges) ∷ edge_lines Second g.now d.now)) }
    ensures begins { Begins into.old.items into.new.items }
{
    push_count_line(into, b"edges", u32::from(g.edges()))?;
    push_edge_lines(g, d, into)
}

/// Appends what a sheet tells of a drawing but for its values: the points and mileages of all nodes and the tracks
/// and lines of all edges.
pub fn write_drawn(
    alloc: Global,
    g: &PortGraph,
    d: &Drawing,
    into: &mut Vec<u8>,
) -> Result<(), OutOfMemory>
    requires { HasSizeOf g.now d.now }
    ensures ok { OnOk result (into.new.items ≡ into.old.items ++ drawn_text g.now d.now) }
    ensures begins { Begins into.old.items into.new.items }
{
    push_places(alloc, g, d, into)?;
    push_lines(g, d, into)
}

/// Appends what a sheet of the second edition tells of a drawing: the points and mileages of all nodes and the tracks
/// and lines of all edges, both by number, and what it measures.
pub fn write_drawing(
    alloc: Global,
    g: &PortGraph,
    d: &Drawing,
    into: &mut Vec<u8>,
) -> Result<(), OutOfMemory>
    requires { HasSizeOf g.now d.now }
    ensures ok { OnOk result (into.new.items ≡ into.old.items ++ flat_map text_of_line
        (drawing_lines Second g.now d.now)) }
    ensures begins { Begins into.old.items into.new.items }
{
    write_drawn(alloc, g, d, into)?;
    push_values_line(values(d), into)
}

/// Appends the drawing, where there is one.
fn push_found(
    alloc: Global,
    g: &PortGraph,
    s: &Sheet,
    into: &mut Vec<u8>,
) -> Result<(), OutOfMemory>
    requires { DrawsAll g.now s.now }
    ensures ok { OnOk result (into.new.items ≡ into.old.items ++ flat_map text_of_line
        (found_lines Second g.now s.now.found)) }
    ensures begins { Begins into.old.items into.new.items }
{
    match &s.found {
        Some(d) => write_drawing(alloc, g, d, into),
        None => Ok(()),
    }
}

fn push_settled(word: &[u8], settled: u8, into: &mut Vec<u8>) -> Result<(), OutOfMemory>
    ensures ok { OnOk result (into.new.items ≡ into.old.items ++ line_text (codes "end")
        (word.now ∷ decimal settled ∷ [])) }
    ensures begins { Begins into.old.items into.new.items }
{
    push_text(into, b"end")?;
    push_field(into, word)?;
    push_number_field(into, u32::from(settled))?;
    push_text(into, b"\n")
}

fn push_ending(ending: Ending, into: &mut Vec<u8>) -> Result<(), OutOfMemory>
    ensures ok { OnOk result (into.new.items ≡ into.old.items ++ text_of_line (EndLine ending)) }
    ensures begins { Begins into.old.items into.new.items }
{
    match ending {
        Ending::Best => push_text(into, b"end best\n"),
        Ending::NoDrawing => push_text(into, b"end none\n"),
        Ending::Conflicts(settled) => push_settled(b"conflicts", settled, into),
        Ending::Room(settled) => push_settled(b"room", settled, into),
    }
}

/// Appends the text of a sheet, of the second edition. It has the grid and the order, the points and mileages of all
/// nodes, and the tracks and lines of all edges, both by number. Then it has what the drawing measures, and how the
/// search ended.
pub fn write_sheet(
    alloc: Global,
    g: &PortGraph,
    s: &Sheet,
    into: &mut Vec<u8>,
) -> Result<(), OutOfMemory>
    requires draws_all { DrawsAll g.now s.now }
    requires on_grid { DrawsOnGrid s.now }
    requires settled { StatesSettled s.now.order (is_some s.now.found) s.now.ending }
    ensures ok { OnOk result (into.new.items ≡ into.old.items ++ sheet_text g.now s.now) }
    ensures begins { Begins into.old.items into.new.items }
{
    push_text(into, b"railplan 2\n")?;
    write_grid(&s.grid, into)?;
    push_order_line(&s.order, into)?;
    push_found(alloc, g, s, into)?;
    push_ending(s.ending, into)
}
