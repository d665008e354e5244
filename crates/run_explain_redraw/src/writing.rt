// The text of an answer.
ghost use Rattle.std.specs.Prelude.{◌≡◌, ◌++◌, [], ◌∷◌, All, codes, flat_map, IfOk, OnOk};
ghost use Rattle.std.specs.Fmt.{decimal};
ghost use Rattle.plan_core.specs.Lawful.{HasSizeOf};
ghost use Rattle.outside_io.specs.Fields.{line_text};
ghost use Rattle.run_explain_redraw.specs.WhyText.{law_line, without_text, without_texts, laws_text};

use itoa::Buffer;
use law_core::{DrawingList, LawList};
use lawful_check::LawBreak;
use outside_io::{push_field, push_text};
use plan_core::OutOfMemory;
use plan_geometry::Drawing;
use plan_text::write_drawn;
use port_graph::PortGraph;
use run_input::push_law;
use std::alloc::Global;

/// Appends a line with a word and a number.
fn push_numbered(into: &mut Vec<u8>, word: &[u8], number: usize) -> Result<(), OutOfMemory>
    ensures { OnOk result (into.new.items ≡ into.old.items ++ line_text word.now (decimal number ∷ [])) }
{
    push_text(into, word)?;
    let mut buffer = Buffer::new();
    push_field(into, buffer.format(number).as_bytes())?;
    push_text(into, b"\n")
}

/// Appends the line of a law.
fn push_law_line(law: LawBreak, into: &mut Vec<u8>) -> Result<(), OutOfMemory>
    ensures { OnOk result (into.new.items ≡ into.old.items ++ law_line law) }
{
    push_text(into, b"law")?;
    push_law(into, law)?;
    push_text(into, b"\n")
}

/// Appends the lines of laws.
fn push_law_lines(laws: &[LawBreak], into: &mut Vec<u8>) -> Result<(), OutOfMemory>
    ensures { OnOk result (into.new.items ≡ into.old.items ++ flat_map law_line laws.now) }
{
    for law in laws {
        push_law_line(*law, into)?;
    }
    Ok(())
}

/// Appends the drawing without the law of this number.
fn push_without(
    alloc: Global,
    g: &PortGraph,
    number: usize,
    d: &Drawing,
    into: &mut Vec<u8>,
) -> Result<(), OutOfMemory>
    requires { HasSizeOf g.now d.now }
    ensures { OnOk result (into.new.items ≡ into.old.items ++ without_text g.now number d.now) }
{
    push_numbered(into, b"without", number)?;
    write_drawn(alloc, g, d, into)
}

/// Appends the drawings, each without one of the laws.
fn push_withouts(
    alloc: Global,
    g: &PortGraph,
    drawings: &[Drawing],
    into: &mut Vec<u8>,
) -> Result<(), OutOfMemory>
    requires { All (HasSizeOf g.now) drawings.now }
    ensures { OnOk result (into.new.items ≡ into.old.items ++ without_texts g.now 1 drawings.now) }
{
    let mut number = 1;
    for d in drawings {
        push_without(alloc, g, number, d, into)?;
        number += 1;
    }
    Ok(())
}

/// The text of an explanation.
pub(crate) fn text_of(
    alloc: Global,
    g: &PortGraph,
    laws: &LawList,
    without: &DrawingList,
) -> Result<Vec<u8>, OutOfMemory>
    requires { All (HasSizeOf g.now) without.now }
    ensures { IfOk result (λ text. text.items ≡ laws_text g.now laws.now without.now) }
{
    let mut text = Vec::from_slice(alloc, b"railplan-why 1\n")?;
    push_numbered(&mut text, b"laws", laws.len())?;
    push_law_lines(laws.as_slice(), &mut text)?;
    push_withouts(alloc, g, without.as_slice(), &mut text)?;
    push_text(&mut text, b"end why\n")?;
    Ok(text)
}
