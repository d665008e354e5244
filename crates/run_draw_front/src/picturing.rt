// The picture of a drawing, in a file.
ghost use Rattle.std.specs.Prelude.{◌≡◌, ◌≢◌, ◌≤◌, OnOk, OnErr, IfSome, IsErrOf, MatchOption, None, Some};
ghost use Rattle.outside_io.specs.Counts.{Rose};
ghost use Rattle.outside_io.specs.Contents.{WhereTold, Sets, MaySet};
ghost use Rattle.plan_core.specs.Lawful.{HasSizeOf};
ghost use Rattle.plan_text.specs.SvgText.{svg_text};
ghost use Rattle.run_input.specs.Met.{between, IsUnwritten, LeftSo};
ghost use Rattle.run_draw_front.specs.Pictured.{BeginsPicture, IsPictured};
ghost use Rattle.run_draw_front.specs.Drawn.{found_by};

use lex_minimise::Outcome;
use outside_io::{FileFault, Files, write_file};
use plan_core::Text;
use plan_geometry::Drawing;
use plan_text::write_svg;
use port_graph::PortGraph;
use run_input::Cut;
use std::alloc::Global;

/// Leaves the picture of a drawing under the name.
fn write_picture<F: Files>(
    alloc: Global,
    graph: &PortGraph,
    drawing: &Drawing,
    name: &Text,
    files: &mut F,
) -> Result<(), Cut>
    requires { HasSizeOf graph.now drawing.now }
    ensures ok { OnOk result (WhereTold (F.at files.old).contents (F.at files.new).contents
        (Sets name.now (svg_text graph.now
        drawing.now))) }
    ensures err { OnErr result (WhereTold (F.at files.old).contents (F.at files.new).contents (MaySet name.now (svg_text
        graph.now drawing.now))) }
    ensures later { (F.at files.old).write_faults ≤ (F.at files.new).write_faults }
    ensures cause { IsErrOf result Cut.Unwritten → Rose (F.at files.old).write_faults (F.at files.new).write_faults }
    ensures read_faults { (F.at files.new).read_faults ≡ (F.at files.old).read_faults }
    ensures reads { (F.at files.new).reads ≡ (F.at files.old).reads }
{
    let mut picture = Vec::new(alloc);
    write_svg(graph, drawing, &mut picture)?;
    match write_file(files, name.as_str(), &picture) {
        Ok(()) => Ok(()),
        Err(FileFault::Failed) => Err(Cut::Unwritten),
        Err(FileFault::Memory) => Err(Cut::Memory),
    }
}

/// The drawing that a search ended with, if it found one.
pub(crate) fn found_by(outcome: &Outcome) -> Option<&Drawing>
    ensures { MatchOption result (found_by outcome.now ≡ None) (λ d. found_by outcome.now ≡ Some d.now) }
{
    match outcome {
        Outcome::Best(best) => Some(best),
        Outcome::NoDrawing => None,
        Outcome::Spent { best, .. } | Outcome::Room { best, .. } => best.as_ref(),
    }
}

/// Leaves the picture of the drawing that a search ended with under the name, where there is a drawing.
fn write_named<F: Files>(
    alloc: Global,
    graph: &PortGraph,
    outcome: &Outcome,
    name: &Text,
    files: &mut F,
) -> Result<(), Cut>
    requires { IfSome (found_by outcome.now) (HasSizeOf graph.now) }
    ensures pictured { let met = between (F.at files.old) (F.at files.new) in
        OnOk result (IsPictured (Some name.now) met graph.now (found_by outcome.now)) }
    ensures leaves { WhereTold (F.at files.old).contents (F.at files.new).contents
        (LeftSo (λ named bytes. (Some name.now ≡ Some
        named) × BeginsPicture graph.now (found_by outcome.now) bytes)) }
    ensures later { (F.at files.old).write_faults ≤ (F.at files.new).write_faults }
    ensures cause { IsErrOf result Cut.Unwritten → Rose (F.at files.old).write_faults (F.at files.new).write_faults }
    ensures read_faults { (F.at files.new).read_faults ≡ (F.at files.old).read_faults }
    ensures reads { (F.at files.new).reads ≡ (F.at files.old).reads }
{
    match found_by(outcome) {
        Some(drawing) => write_picture(alloc, graph, drawing, name, files),
        None => Ok(()),
    }
}

/// Leaves the picture of the drawing that a search ended with, where there is a drawing and a file is named for its
/// picture.
pub fn write_found<F: Files>(
    alloc: Global,
    graph: &PortGraph,
    outcome: &Outcome,
    named: &Option<Text>,
    files: &mut F,
) -> Result<(), Cut>
    requires { IfSome (found_by outcome.now) (HasSizeOf graph.now) }
    ensures pictured { let met = between (F.at files.old) (F.at files.new) in
        OnOk result (IsPictured named.now met graph.now (found_by outcome.now)) }
    ensures leaves { WhereTold (F.at files.old).contents (F.at files.new).contents
        (LeftSo (λ name bytes. (named.now ≡ Some name) ×
        BeginsPicture graph.now (found_by outcome.now) bytes)) }
    ensures unwritten { let met = between (F.at files.old) (F.at files.new) in named.now ≡ None → IsUnwritten met }
    ensures later { (F.at files.old).write_faults ≤ (F.at files.new).write_faults }
    ensures cause { IsErrOf result Cut.Unwritten → (named.now ≢ None) × Rose (F.at files.old).write_faults (F.at
        files.new).write_faults }
    ensures read_faults { (F.at files.new).read_faults ≡ (F.at files.old).read_faults }
    ensures reads { (F.at files.new).reads ≡ (F.at files.old).reads }
{
    match named {
        Some(name) => write_named(alloc, graph, outcome, name, files),
        None => Ok(()),
    }
}
