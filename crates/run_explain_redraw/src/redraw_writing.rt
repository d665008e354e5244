// The text of a drawing with few moved nodes.
ghost use Rattle.std.specs.Prelude.{◌≡◌, ◌++◌, [], ◌∷◌, codes, length, IfOk, IfSome, OnOk, MatchOption, None, Some};
ghost use Rattle.std.specs.Option.{option_copied};
ghost use Rattle.outside_io.specs.Fields.{line_text};
ghost use Rattle.plan_core.specs.Lawful.{HasSizeOf};
ghost use Rattle.run_explain_redraw.specs.MovedText.{fewest_found, moved_end_word as word_of, moved_line};
ghost use Rattle.run_explain_redraw.specs.MovedText.{moved_drawing_text, moved_text};

use drawing_cnf::count_matched;
use outside_io::{push_field, push_number_field, push_text};
use plan_core::{Grid, OutOfMemory, Point};
use plan_geometry::Drawing;
use plan_text::{write_drawing, write_grid};
use port_graph::PortGraph;
use search_moved::{Fewest, count_moved};
use std::alloc::Global;

fn end_word(outcome: &Fewest) -> &'static str
    ensures { result.now ≡ word_of outcome.now }
{
    match outcome {
        Fewest::Best(_) => "best",
        Fewest::NoDrawing => "none",
        Fewest::Spent(_) => "conflicts",
        Fewest::Room(_) => "room",
    }
}

/// The drawing that a search ended with, if it found one.
fn found_by(outcome: &Fewest) -> Option<&Drawing>
    ensures { option_copied result ≡ fewest_found outcome.now }
{
    match outcome {
        Fewest::Best(best) => Some(best),
        Fewest::NoDrawing => None,
        Fewest::Spent(best) | Fewest::Room(best) => best.as_ref(),
    }
}

/// Appends the line of how many nodes moved, of how many that have a former point.
fn push_moved(d: &Drawing, former: &[Option<Point>], into: &mut Vec<u8>) -> Result<(), OutOfMemory>
    requires { length former.now ≡ length d.now.places }
    ensures { OnOk result (into.new.items ≡ into.old.items ++ moved_line former.now d.now) }
{
    // what the types keep
    let _ = d.nodes();
    push_text(into, b"moved")?;
    push_number_field(into, count_moved(d, former))?;
    push_field(into, b"of")?;
    push_number_field(into, count_matched(former))?;
    push_text(into, b"\n")
}

/// Appends what is said of the drawing, where there is one.
fn push_found(
    alloc: Global,
    g: &PortGraph,
    former: &[Option<Point>],
    found: Option<&Drawing>,
    into: &mut Vec<u8>,
) -> Result<(), OutOfMemory>
    requires same { length former.now ≡ length g.now.nodes }
    requires sized { IfSome (option_copied found) (HasSizeOf g.now) }
    ensures { OnOk result
        (into.new.items ≡ into.old.items ++ moved_drawing_text g.now former.now (option_copied found.entry)) }
{
    match found {
        Some(d) => {
            push_moved(d, former, into)?;
            write_drawing(alloc, g, d, into)
        }
        None => Ok(()),
    }
}

/// Appends the line of how the search ended.
fn push_end(outcome: &Fewest, into: &mut Vec<u8>) -> Result<(), OutOfMemory>
    ensures { OnOk result
        (into.new.items ≡ into.old.items ++ line_text (codes "end") (word_of outcome.now ∷ [])) }
{
    push_text(into, b"end")?;
    push_field(into, end_word(outcome).as_bytes())?;
    push_text(into, b"\n")
}

/// The text of a search's outcome, on this grid and with these former points of the nodes.
pub(crate) fn text_of(
    alloc: Global,
    g: &PortGraph,
    grid: &Grid,
    former: &[Option<Point>],
    outcome: &Fewest,
) -> Result<Vec<u8>, OutOfMemory>
    requires same { length former.now ≡ length g.now.nodes }
    requires sized { IfSome (fewest_found outcome.now) (HasSizeOf g.now) }
    ensures { IfOk result (λ text. text.items ≡ moved_text g.now grid.now former.now outcome.now) }
{
    let mut text = Vec::from_slice(alloc, b"railplan-moved 1\n")?;
    write_grid(grid, &mut text)?;
    push_found(alloc, g, former, found_by(outcome), &mut text)?;
    push_end(outcome, &mut text)?;
    Ok(text)
}
