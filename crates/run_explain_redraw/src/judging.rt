// The three files of redraw, read and judged.
ghost use Rattle.std.specs.Prelude.{◌≡◌, ◌≤◌, ◌++◌, ℕ, List, codes, IfOk, IfErr, OnOk, OnErr};
ghost use Rattle.outside_io.specs.Contents.{WhereTold, SameFiles};
ghost use Rattle.plan_core.specs.Grid.{GridSize};
ghost use Rattle.plan_core.specs.Graph.{Graph};
ghost use Rattle.track_order.specs.Order.{EdgeOrder};
ghost use Rattle.plan_text.specs.SheetFaults.{IsDrawingOf};
ghost use Rattle.run_input.specs.Status.{IsRefused};
ghost use Rattle.run_input.specs.Fault.{fault_line, fault_status};
ghost use Rattle.run_input.specs.Input.{IsShort, HasStation};
ghost use Rattle.run_input.specs.Met.{between, HasRead, ReadsInputs, IsUnwritten};
ghost use Rattle.run_input.specs.Answer.{text_input};
ghost use Rattle.run_input.specs.ThreeFiles.{IsAnswerToThree};
ghost use Rattle.run_explain_redraw.specs.Judged.{HaveFault, HaveFormer};
ghost use Rattle.run_explain_redraw.specs.Rejection.{RejectedWith, RejectsFault};
ghost use Rattle.run_explain_redraw.specs.Answer.{HaveFormerIn};

use crate::former_points::former_points;
use outside_io::{Files, push_text};
use plan_core::{MAX_FILE_BYTES, OutOfMemory, Point, Text};
use plan_geometry::Drawing;
use plan_text::{SheetFault, read_drawing};
use run_input::{InputRefusal, Reply, RunFault, Station, fault_reply, read_all, station_in};
use std::alloc::Global;

/// A station, and where its nodes were.
#[derive(Drop)]
pub(crate) struct Known {
    pub(crate) station: Station,
    /// An entry for each node, by number: its former point, where it has one.
    pub(crate) former: Vec<Option<Point>>,
}

/// Why three files give no such station.
#[derive(Drop)]
pub(crate) enum Rejected {
    /// One of them has a fault or couldn't be read, and this is answered.
    With(Reply),
    /// Memory couldn't be had.
    Memory,
}

impl From<OutOfMemory> for Rejected {
    ghost use Rattle.std.specs.Prelude.{◌≡◌};
    ghost use Rattle.run_explain_redraw.specs.declared.judging.Rejected.TheVariants.{Memory};

    ghost from_gives = { λ _ e. e ≡ Memory };

    fn from(_: OutOfMemory) -> Self {
        Rejected::Memory
    }
}

// ---- each by itself

/// The station of the file's bytes.
fn station_from(alloc: Global, bytes: &[u8]) -> Result<Station, Rejected>
    requires { IsShort MAX_FILE_BYTES bytes.now }
    ensures station { IfOk result (λ s. HasStation bytes.now s.graph s.order) }
    ensures rejected { (old said : List ℕ) → IfErr result (RejectsFault bytes.now old said) }
    ensures refused { IfErr result (RejectedWith (λ status _. IsRefused status)) }
{
    match station_in(alloc, bytes) {
        Ok(station) => Ok(station),
        Err(InputRefusal::Fault(fault)) => Err(Rejected::With(fault_reply(alloc, fault)?)),
        Err(InputRefusal::Memory) => Err(Rejected::Memory),
    }
}

/// The answer that tells of a fault of the former file.
fn former_reply(alloc: Global, fault: RunFault) -> Result<Reply, OutOfMemory>
    ensures status_is { IfOk result (λ r. r.status ≡ fault_status fault) }
    ensures line_is { IfOk result (λ r. r.text.items ≡ codes "old " ++ fault_line fault) }
    ensures refused { IfOk result (λ r. IsRefused r.status) }
{
    let reply = fault_reply(alloc, fault)?;
    let mut text = Vec::from_slice(alloc, b"old ")?;
    push_text(&mut text, &reply.text)?;
    Ok(Reply {
        status: reply.status,
        text,
    })
}

/// The station of the former file's bytes.
fn former_station(alloc: Global, old: &[u8]) -> Result<Station, Rejected>
    requires { IsShort MAX_FILE_BYTES old.now }
    ensures station { IfOk result (λ s. HasStation old.now s.graph s.order) }
    ensures rejected { (bytes said : List ℕ) (g : Graph) (o : EdgeOrder) → HasStation bytes g o →
        IfErr result (RejectsFault bytes old.now said) }
    ensures refused { IfErr result (RejectedWith (λ status _. IsRefused status)) }
{
    match station_in(alloc, old) {
        Ok(station) => Ok(station),
        Err(InputRefusal::Fault(fault)) => Err(Rejected::With(former_reply(alloc, fault)?)),
        Err(InputRefusal::Memory) => Err(Rejected::Memory),
    }
}

/// The drawing of the sheet's bytes, as one of the former station.
fn former_drawing(alloc: Global, old: &Station, said: &[u8]) -> Result<Drawing, Rejected>
    ensures drawing { IfOk result (λ d. (grid : GridSize) × IsDrawingOf old.now.graph said.now grid d) }
    ensures rejected { (bytes former : List ℕ) (g : Graph) (o : EdgeOrder) → HasStation bytes g o →
        HasStation former old.now.graph old.now.order → IfErr result (RejectsFault bytes former said.now) }
    ensures refused { IfErr result (RejectedWith (λ status _. IsRefused status)) }
{
    match read_drawing(alloc, &old.graph, said) {
        Ok((_grid, drawing)) => Ok(drawing),
        Err(SheetFault::Sheet { what, line }) => {
            Err(Rejected::With(fault_reply(alloc, RunFault::Sheet { what, line })?))
        }
        Err(SheetFault::Memory) => Err(Rejected::Memory),
    }
}

// ---- all three

/// The station of the bytes and its former points, or the first of their faults.
fn judge(alloc: Global, bytes: &[u8], old: &[u8], said: &[u8]) -> Result<Known, Rejected>
    requires short { IsShort MAX_FILE_BYTES bytes.now }
    requires short_old { IsShort MAX_FILE_BYTES old.now }
    ensures have { IfOk result (λ k. HaveFormer bytes.now old.now said.now k.station.graph k.station.order
        k.former.items) }
    ensures rejected { IfErr result (RejectsFault bytes.now old.now said.now) }
    ensures refused { IfErr result (RejectedWith (λ status _. IsRefused status)) }
{
    let station = station_from(alloc, bytes)?;
    let before = former_station(alloc, old)?;
    let drawing = former_drawing(alloc, &before, said)?;
    let former = former_points(alloc, &station.graph, &before.graph, &drawing)?;
    Ok(Known { station, former })
}

/// The station and the former points of the three files, or what is answered where they have none.
pub(crate) fn known_of<F: Files>(
    alloc: Global,
    input: &Text,
    former: &Text,
    sheet: &Text,
    files: &mut F,
) -> Result<Known, Rejected>
    ensures have { IfOk result (λ k. HaveFormerIn input.now former.now sheet.now (F.at files.old).contents
        k.station.graph k.station.order k.former.items) }
    ensures rejected { let met = between (F.at files.old) (F.at files.new) in
        IfErr result (RejectedWith (IsAnswerToThree input.now former.now (text_input 3 sheet.now) met HaveFault)) }
    ensures refused { IfErr result (RejectedWith (λ status _. IsRefused status)) }
    ensures reads { OnOk result (HasRead (between (F.at files.old) (F.at files.new)) 3) }
    ensures reads_err { let met = between (F.at files.old) (F.at files.new) in OnErr result (ReadsInputs 3 ⊥ met) }
    ensures unwritten { let met = between (F.at files.old) (F.at files.new) in IsUnwritten met }
    ensures later { (F.at files.old).read_faults ≤ (F.at files.new).read_faults }
    ensures same { WhereTold (F.at files.old).contents (F.at files.new).contents SameFiles }
{
    match read_all(alloc, input, former, sheet, MAX_FILE_BYTES, files) {
        Ok(texts) => judge(alloc, &texts.first, &texts.second, &texts.third),
        Err(InputRefusal::Fault(fault)) => Err(Rejected::With(fault_reply(alloc, fault)?)),
        Err(InputRefusal::Memory) => Err(Rejected::Memory),
    }
}
