// The picture of a drawing, written.
ghost use Rattle.std.specs.Prelude.{◌≡◌, ◌<◌, ◌-◌, ◌++◌, ◌∷◌, codes, length, flat_map, OnOk};
ghost use Rattle.std.specs.List.{range_with_len};
ghost use Rattle.outside_io.specs.Contents.{Begins};
ghost use Rattle.plan_core.specs.Lawful.{HasSizeOf};
ghost use Rattle.plan_core.specs.Values.{values_of};
ghost use Rattle.plan_write.specs.SvgText.{pixels_across, pixels_down, extent, escaped_byte, escaped, point_text};
ghost use Rattle.plan_write.specs.SvgText.{points_text, polyline, label_begin, label, picture_begin, svg_text};

use outside_io::{push_number, push_text};
use plan_core::{NodeNo, OutOfMemory, Point};
use plan_geometry::{Drawing, Line, values};
use port_graph::PortGraph;

fn pixels_across(x: u16) -> u64
    ensures { result ≡ pixels_across x }
{
    20 + 40 * u64::from(x)
}

fn pixels_down(height: u32, y: u16) -> u64
    ensures { result ≡ pixels_down height y }
{
    20 + 40 * u64::from(height.saturating_sub(u32::from(y)))
}

fn extent(n: u32) -> u64
    ensures { result ≡ extent n }
{
    40 * u64::from(n) + 40
}

fn push_escaped_byte(b: u8, into: &mut Vec<u8>) -> Result<(), OutOfMemory>
    ensures ok { OnOk result (into.new.items ≡ into.old.items ++ escaped_byte b) }
    ensures begins { Begins into.old.items into.new.items }
{
    match b {
        b'&' => push_text(into, b"&amp;"),
        b'<' => push_text(into, b"&lt;"),
        b'>' => push_text(into, b"&gt;"),
        _ => push_text(into, &[b]),
    }
}

fn push_escaped(name: &[u8], into: &mut Vec<u8>) -> Result<(), OutOfMemory>
    ensures ok { OnOk result (into.new.items ≡ into.old.items ++ escaped name.now) }
    ensures begins { Begins into.old.items into.new.items }
{
    for b in name {
        push_escaped_byte(*b, into)?;
    }
    Ok(())
}

fn push_point(height: u32, p: Point, into: &mut Vec<u8>) -> Result<(), OutOfMemory>
    ensures ok { OnOk result (into.new.items ≡ into.old.items ++ point_text height p) }
    ensures begins { Begins into.old.items into.new.items }
{
    push_number(into, pixels_across(p.x))?;
    push_text(into, b",")?;
    push_number(into, pixels_down(height, p.y))
}

fn push_further_point(height: u32, p: Point, into: &mut Vec<u8>) -> Result<(), OutOfMemory>
    ensures ok { OnOk result (into.new.items ≡ into.old.items ++ (32 ∷ point_text height p)) }
    ensures begins { Begins into.old.items into.new.items }
{
    push_text(into, b" ")?;
    push_point(height, p, into)
}

fn push_further_points(height: u32, points: &[Point], into: &mut Vec<u8>) -> Result<(), OutOfMemory>
    ensures ok { OnOk result (into.new.items ≡ into.old.items ++ flat_map (λ p. 32 ∷ point_text height p) points.now) }
    ensures begins { Begins into.old.items into.new.items }
{
    for p in points {
        push_further_point(height, *p, into)?;
    }
    Ok(())
}

fn push_points(height: u32, points: &[Point], into: &mut Vec<u8>) -> Result<(), OutOfMemory>
    ensures ok { OnOk result (into.new.items ≡ into.old.items ++ points_text height points.now) }
    ensures begins { Begins into.old.items into.new.items }
{
    match points {
        [] => Ok(()),
        [first, others @ ..] => {
            push_point(height, *first, into)?;
            push_further_points(height, others, into)
        }
    }
}

fn push_polyline(height: u32, line: &Line, into: &mut Vec<u8>) -> Result<(), OutOfMemory>
    ensures ok { OnOk result (into.new.items ≡ into.old.items ++ polyline height line.now) }
    ensures begins { Begins into.old.items into.new.items }
{
    push_text(into, b"<polyline points=\"")?;
    push_points(height, line.points(), into)?;
    push_text(into, b"\" fill=\"none\" stroke=\"black\"/>\n")
}

fn push_polylines(height: u32, lines: &[Line], into: &mut Vec<u8>) -> Result<(), OutOfMemory>
    ensures ok { OnOk result (into.new.items ≡ into.old.items ++ flat_map (polyline height) lines.now) }
    ensures begins { Begins into.old.items into.new.items }
{
    for line in lines {
        push_polyline(height, line, into)?;
    }
    Ok(())
}

fn push_label_begin(height: u32, p: Point, into: &mut Vec<u8>) -> Result<(), OutOfMemory>
    ensures ok { OnOk result (into.new.items ≡ into.old.items ++ label_begin height p) }
    ensures begins { Begins into.old.items into.new.items }
{
    push_text(into, b"<text x=\"")?;
    push_number(into, pixels_across(p.x))?;
    push_text(into, b"\" y=\"")?;
    push_number(into, pixels_down(height, p.y) - 6)?;
    push_text(into, b"\">")
}

fn push_label(
    g: &PortGraph,
    d: &Drawing,
    n: u16,
    height: u32,
    into: &mut Vec<u8>,
) -> Result<(), OutOfMemory>
    requires there { n < length g.now.nodes }
    requires placed { n < length d.now.places }
    requires high { height ≡ (values_of d.now).height }
    ensures ok { OnOk result (into.new.items ≡ into.old.items ++ label g.now d.now n) }
    ensures begins { Begins into.old.items into.new.items }
{
    push_label_begin(height, d.place(NodeNo(n)), into)?;
    push_escaped(g.name(NodeNo(n)).bytes(), into)?;
    push_text(into, b"</text>\n")
}

fn push_labels(
    g: &PortGraph,
    d: &Drawing,
    height: u32,
    into: &mut Vec<u8>,
) -> Result<(), OutOfMemory>
    requires size { HasSizeOf g.now d.now }
    requires high { height ≡ (values_of d.now).height }
    ensures ok { OnOk result (into.new.items ≡ into.old.items ++ flat_map (label g.now d.now)
        (range_with_len 0 (length g.now.nodes))) }
    ensures begins { Begins into.old.items into.new.items }
{
    for n in 0..g.nodes() {
        push_label(g, d, n, height, into)?;
    }
    Ok(())
}

fn push_picture_begin(width: u32, height: u32, into: &mut Vec<u8>) -> Result<(), OutOfMemory>
    ensures ok { OnOk result (into.new.items ≡ into.old.items ++ picture_begin width height) }
    ensures begins { Begins into.old.items into.new.items }
{
    push_text(
        into,
        b"<svg xmlns=\"http://www.w3.org/2000/svg\" viewBox=\"0 0 ",
    )?;
    push_number(into, extent(width))?;
    push_text(into, b" ")?;
    push_number(into, extent(height))?;
    push_text(into, b"\">\n")
}

/// Appends the picture of a drawing, an SVG text: the line of each edge and the name of each node, both by
/// number, 40 pixels for each column and each row.
pub fn write_svg(g: &PortGraph, d: &Drawing, into: &mut Vec<u8>) -> Result<(), OutOfMemory>
    requires { HasSizeOf g.now d.now }
    ensures ok { OnOk result (into.new.items ≡ into.old.items ++ svg_text g.now d.now) }
    ensures begins { Begins into.old.items into.new.items }
{
    let measured = values(d);
    push_picture_begin(measured.width, measured.height, into)?;
    push_polylines(measured.height, d.lines(), into)?;
    push_labels(g, d, measured.height, into)?;
    push_text(into, b"</svg>\n")
}
