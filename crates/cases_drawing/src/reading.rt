// A case's station and drawing, read from their texts, and the drawing's model.
ghost use Rattle.std.specs.Prelude.{◌≡◌, length, IfOk};
ghost use Rattle.cnf_core.specs.Assignment.{SatisfiesAll};
ghost use Rattle.cnf_core.specs.Truths.{assignment};
ghost use Rattle.track_order.specs.Order.{IsOrderOf};
ghost use Rattle.drawing_cnf.specs.Whole.{IsWhole};

use cnf_core::Truths;
use drawing_cnf::Encoded;
use lawful_check::broken;
use model_decode::encode_drawing;
use plan_core::MAX_FILE_BYTES;
use plan_geometry::Drawing;
use plan_text::read_sheet;
use port_graph::{PortGraph, build};
use railml_read::read;
use railml_topology::resolve;
use std::alloc::Global;
use std::test::Fail;
use track_order::{TrackOrder, derive};

/// The track graph of a file.
fn graph_of(alloc: Global, file: &str) -> Result<PortGraph, Fail> {
    let bytes = file.as_bytes();
    if bytes.len() > MAX_FILE_BYTES {
        return Err(Fail::new("a case's file is short"));
    }
    let rows = read(alloc, bytes)?;
    let topology = resolve(alloc, &rows)?;
    Ok(build(alloc, &topology)?)
}

/// The track graph of a file, and the order of its edges.
pub fn station_of(alloc: Global, file: &str) -> Result<(PortGraph, TrackOrder), Fail>
    ensures { IfOk result (λ s. IsOrderOf s.0 s.1) }
{
    let graph = graph_of(alloc, file)?;
    let order = derive(alloc, &graph)?;
    Ok((graph, order))
}

/// The drawing of a picture, on the widest and highest grid.
pub fn drawing_of(alloc: Global, g: &PortGraph, picture: &str) -> Result<Drawing, Fail> {
    let sheet = format!(in alloc;
        "railplan 1\ngrid 64 12\norder height bends diagonal width\n{picture}end best\n"
    )?;
    let sheet = read_sheet(alloc, g, sheet.as_bytes())?;
    Ok(sheet.found.ok_or("the sheet has a drawing")?)
}

/// A model of a drawing, which is lawful.
pub fn model_of(alloc: Global, e: &Encoded, d: &Drawing) -> Result<Truths, Fail>
    requires { IsWhole e.now }
    ensures vars { IfOk result (λ m. length m ≡ e.now.formula.vars) }
    ensures model { IfOk result (λ m. SatisfiesAll (assignment m) e.now.formula.clauses) }
{
    if d.nodes() != e.graph().nodes() || d.edges() != e.graph().edges() {
        return Err(Fail::new("the drawing is of the graph"));
    }
    match broken(e.graph(), e.order(), e.grid(), d) {
        Some(_) => Err(Fail::new("the drawing is lawful")),
        None => Ok(encode_drawing(alloc, e, d)?),
    }
}
