// Laws of the sheet's text. The functions change nothing: their contracts are the laws.
ghost use Rattle.std.specs.Prelude.{◌≡◌, ◌<◌, ◌≤◌, ℕ, Bool, true, false, List, length, All, IfSome};
ghost use Rattle.std.specs.Option.{is_some};
ghost use Rattle.plan_core.specs.declared.limits.TheConstants.{MAX_FILE_BYTES};
ghost use Rattle.plan_core.specs.Line.{is_line};
ghost use Rattle.plan_core.specs.Graph.{Graph, node, edge};
ghost use Rattle.port_graph.specs.StationGraph.{IsStationGraph};
ghost use Rattle.plan_text.specs.declared.sheet_fault.SheetWhat.{SheetWhat};
ghost use Rattle.plan_write.specs.SheetLine.{IsName};
ghost use Rattle.plan_write.specs.SheetText.{Sheet as PlainSheet, DrawsAll, DrawsOnGrid, StatesSettled, sheet_text};
ghost use Rattle.plan_write.specs.SheetText.{first_sheet_text};
ghost use Rattle.plan_text.specs.SheetFaults.{HasSheetFault, IsSheetText};

use plan_core::{EdgeNo, NodeNo};
use plan_geometry::Drawing;
use plan_write::Sheet;
use port_graph::PortGraph;

/// A text that is a sheet's has no line with a fault.
pub fn sheet_or_fault()
    ensures { (g : Graph) (needs_drawing : Bool) (text : List ℕ) (s : PlainSheet) (what : SheetWhat) (line : ℕ) →
        IsSheetText g needs_drawing text s → HasSheetFault g needs_drawing text what line → ⊥ }
{}

/// A text has one first fault at most: of one kind, in one line.
pub fn one_sheet_fault()
    ensures kind { (g : Graph) (needs_drawing : Bool) (text : List ℕ) (what other : SheetWhat) (line at : ℕ) →
        HasSheetFault g needs_drawing text what line → HasSheetFault g needs_drawing text other at → what ≡ other }
    ensures line { (g : Graph) (needs_drawing : Bool) (text : List ℕ) (what other : SheetWhat) (line at : ℕ) →
        HasSheetFault g needs_drawing text what line → HasSheetFault g needs_drawing text other at → line ≡ at }
{}

/// A text is that of one sheet at most.
pub fn one_sheet()
    ensures { (g : Graph) (needs_drawing : Bool) (text : List ℕ) (a b : PlainSheet) →
        IsSheetText g needs_drawing text a → IsSheetText g needs_drawing text b → a ≡ b }
{}

/// No text of a sheet of a station is too long to be read.
pub fn sheets_are_short()
    ensures { (g : Graph) (needs_drawing : Bool) (text : List ℕ) (s : PlainSheet) → IsStationGraph g →
        IsSheetText g needs_drawing text s → length text ≤ MAX_FILE_BYTES }
{}

/// Each node has a name that is one field.
fn names(g: &PortGraph)
    ensures { (n : ℕ) → n < length g.now.nodes → IsName (node g.now n).name }
{
    for n in 0..g.nodes() {
        let _ = g.name(NodeNo(n)).bytes();
    }
}

/// Each edge has a track whose name is one field.
fn tracks(g: &PortGraph)
    ensures { (e : ℕ) → e < length g.now.edges → IsName (edge g.now e).track }
{
    for e in 0..g.edges() {
        let _ = g.track(EdgeNo(e)).bytes();
    }
}

/// Each line of the drawing, if there is one, has one of the shapes.
fn lines(found: &Option<Drawing>)
    ensures { IfSome found.now (λ d. All (λ l. is_line l ≡ true) d.lines) }
{
    if let Some(d) = found {
        let _ = d.edges();
    }
}

/// What `write_sheet` may write is read again as the same sheet. Its text, of either edition, is that of the sheet,
/// with a drawing also where one is wanted. A sheet of the first edition has least length 1. And what is written
/// isn't too long to be read.
pub fn written_is_read(g: &PortGraph, s: &Sheet)
    requires draws_all { DrawsAll g.now s.now }
    requires on_grid { DrawsOnGrid s.now }
    requires settled { StatesSettled s.now.order (is_some s.now.found) s.now.ending }
    ensures text { IsSheetText g.now false (sheet_text g.now s.now) s.now }
    ensures short { length (sheet_text g.now s.now) ≤ MAX_FILE_BYTES }
    ensures drawn { is_some s.now.found ≡ true → IsSheetText g.now true (sheet_text g.now s.now) s.now }
    ensures first { s.now.grid.least ≡ 1 → IsSheetText g.now false (first_sheet_text g.now s.now) s.now }
    ensures first_drawn { s.now.grid.least ≡ 1 → is_some s.now.found ≡ true →
        IsSheetText g.now true (first_sheet_text g.now s.now) s.now }
{
    // what the types keep
    names(g);
    tracks(g);
    lines(&s.found);
    let _ = (g.nodes(), s.order.len(), s.grid.width());
}
