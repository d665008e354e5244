// The graph text, written.
ghost use Rattle.std.specs.Prelude.{◌≡◌, ◌<◌, ◌++◌, [], ◌∷◌, codes, length, flat_map, OnOk};
ghost use Rattle.std.specs.List.{range_with_len};
ghost use Rattle.std.specs.Fmt.{decimal};
ghost use Rattle.outside_io.specs.Contents.{Begins};
ghost use Rattle.plan_core.specs.Graph.{node, edge};
ghost use Rattle.port_graph.specs.Plain.{plain_ports};
ghost use Rattle.rail_mileage.specs.MetresText.{metres_text};
ghost use Rattle.track_order.specs.Order.{is_above, IsOrderOf};
ghost use Rattle.outside_io.specs.Fields.{spaced, line_text};
ghost use Rattle.plan_write.specs.GraphText.{compass_word, side_word, kind_fields, node_line, edge_line, above_line};
ghost use Rattle.plan_write.specs.GraphText.{above_lines, nodes_text, edges_text, order_text, graph_text};

use crate::line_parts::{push_count_line, push_mileage, push_named};
use outside_io::{push_field, push_number_field, push_text};
use plan_core::{Compass, EdgeNo, NodeNo, OutOfMemory, Side};
use port_graph::{PortGraph, Ports};
use std::alloc::Global;
use track_order::TrackOrder;

fn compass_word(side: Compass) -> &'static [u8]
    ensures { result.now ≡ compass_word side }
{
    match side {
        Compass::East => b"east",
        Compass::West => b"west",
    }
}

fn side_word(side: Side) -> &'static [u8]
    ensures { result.now ≡ side_word side }
{
    match side {
        Side::Upper => b"upper",
        Side::Lower => b"lower",
    }
}

fn push_switch(into: &mut Vec<u8>, legs: Compass, branch: Side) -> Result<(), OutOfMemory>
    ensures ok { OnOk result (into.new.items ≡ into.old.items ++ spaced
        (codes "switch" ∷ compass_word legs ∷ side_word branch ∷ [])) }
    ensures begins { Begins into.old.items into.new.items }
{
    push_field(into, b"switch")?;
    push_field(into, compass_word(legs))?;
    push_field(into, side_word(branch))
}

fn push_kind(into: &mut Vec<u8>, ports: Ports) -> Result<(), OutOfMemory>
    ensures ok { OnOk result (into.new.items ≡ into.old.items ++ spaced (kind_fields (plain_ports ports))) }
    ensures begins { Begins into.old.items into.new.items }
{
    match ports {
        Ports::End { .. } => push_field(into, b"end"),
        Ports::Joint { .. } => push_field(into, b"joint"),
        Ports::Switch { legs, branch, .. } => push_switch(into, legs, branch),
        Ports::Crossing { .. } => push_field(into, b"crossing"),
    }
}

fn push_node_line(
    alloc: Global,
    g: &PortGraph,
    n: u16,
    into: &mut Vec<u8>,
) -> Result<(), OutOfMemory>
    requires { n < length g.now.nodes }
    ensures ok { OnOk result (into.new.items ≡ into.old.items ++ node_line g.now n) }
    ensures begins { Begins into.old.items into.new.items }
{
    let node = NodeNo(n);
    push_named(into, b"node", n, g.name(node).bytes())?;
    push_kind(into, g.ports(node))?;
    push_mileage(alloc, into, g.mileage(node))
}

/// Appends two numbers, each after a space, and the line feed.
fn push_two(into: &mut Vec<u8>, a: u16, b: u16) -> Result<(), OutOfMemory>
    ensures ok { OnOk result (into.new.items ≡ into.old.items ++ spaced (decimal a ∷ decimal b ∷ []) ++ codes "\n") }
    ensures begins { Begins into.old.items into.new.items }
{
    push_number_field(into, u32::from(a))?;
    push_number_field(into, u32::from(b))?;
    push_text(into, b"\n")
}

fn push_edge_line(g: &PortGraph, e: u16, into: &mut Vec<u8>) -> Result<(), OutOfMemory>
    requires { e < length g.now.edges }
    ensures ok { OnOk result (into.new.items ≡ into.old.items ++ edge_line g.now e) }
    ensures begins { Begins into.old.items into.new.items }
{
    let edge = EdgeNo(e);
    push_named(into, b"edge", e, g.track(edge).bytes())?;
    push_two(into, g.west(edge).0, g.east(edge).0)
}

fn push_above_line(e: u16, f: u16, into: &mut Vec<u8>) -> Result<(), OutOfMemory>
    ensures ok { OnOk result
        (into.new.items ≡ into.old.items ++ line_text (codes "above") (decimal e ∷ decimal f ∷ [])) }
    ensures begins { Begins into.old.items into.new.items }
{
    push_text(into, b"above")?;
    push_two(into, e, f)
}

/// Appends a line where `e` is above `f`.
fn push_if_above(t: &TrackOrder, e: u16, f: u16, into: &mut Vec<u8>) -> Result<(), OutOfMemory>
    requires first { e < t.now.edges }
    requires second { f < t.now.edges }
    ensures ok { OnOk result (into.new.items ≡ into.old.items ++ above_line (is_above t.now) e f) }
    ensures begins { Begins into.old.items into.new.items }
{
    if t.above(EdgeNo(e), EdgeNo(f)) {
        push_above_line(e, f, into)
    } else {
        Ok(())
    }
}

fn push_node_lines(alloc: Global, g: &PortGraph, into: &mut Vec<u8>) -> Result<(), OutOfMemory>
    ensures ok { OnOk result (into.new.items ≡ into.old.items ++ flat_map (node_line g.now)
        (range_with_len 0 (length g.now.nodes))) }
    ensures begins { Begins into.old.items into.new.items }
{
    for n in 0..g.nodes() {
        push_node_line(alloc, g, n, into)?;
    }
    Ok(())
}

fn push_nodes(alloc: Global, g: &PortGraph, into: &mut Vec<u8>) -> Result<(), OutOfMemory>
    ensures ok { OnOk result (into.new.items ≡ into.old.items ++ nodes_text g.now) }
    ensures begins { Begins into.old.items into.new.items }
{
    push_count_line(into, b"nodes", u32::from(g.nodes()))?;
    push_node_lines(alloc, g, into)
}

fn push_edge_lines(g: &PortGraph, into: &mut Vec<u8>) -> Result<(), OutOfMemory>
    ensures ok { OnOk result (into.new.items ≡ into.old.items ++ flat_map (edge_line g.now)
        (range_with_len 0 (length g.now.edges))) }
    ensures begins { Begins into.old.items into.new.items }
{
    for e in 0..g.edges() {
        push_edge_line(g, e, into)?;
    }
    Ok(())
}

fn push_edges(g: &PortGraph, into: &mut Vec<u8>) -> Result<(), OutOfMemory>
    ensures ok { OnOk result (into.new.items ≡ into.old.items ++ edges_text g.now) }
    ensures begins { Begins into.old.items into.new.items }
{
    push_count_line(into, b"edges", u32::from(g.edges()))?;
    push_edge_lines(g, into)
}

fn push_above(t: &TrackOrder, e: u16, into: &mut Vec<u8>) -> Result<(), OutOfMemory>
    requires { e < t.now.edges }
    ensures ok { OnOk result (into.new.items ≡ into.old.items ++ above_lines (is_above t.now) t.now.edges e) }
    ensures begins { Begins into.old.items into.new.items }
{
    for f in 0..t.edges() {
        push_if_above(t, e, f, into)?;
    }
    Ok(())
}

fn push_order(t: &TrackOrder, into: &mut Vec<u8>) -> Result<(), OutOfMemory>
    ensures ok { OnOk result (into.new.items ≡ into.old.items ++ order_text (is_above t.now) t.now.edges) }
    ensures begins { Begins into.old.items into.new.items }
{
    for e in 0..t.edges() {
        push_above(t, e, into)?;
    }
    Ok(())
}

/// Appends the text of a track graph and of the order of its edges: nodes and edges by number, and a line
/// for each two edges of which the first is above the second.
pub fn write_graph(
    alloc: Global,
    g: &PortGraph,
    t: &TrackOrder,
    into: &mut Vec<u8>,
) -> Result<(), OutOfMemory>
    requires { IsOrderOf g.now t.now }
    ensures ok { OnOk result (into.new.items ≡ into.old.items ++ graph_text g.now (is_above t.now)) }
    ensures begins { Begins into.old.items into.new.items }
{
    push_text(into, b"railgraph 1\n")?;
    push_nodes(alloc, g, into)?;
    push_edges(g, into)?;
    push_order(t, into)
}
