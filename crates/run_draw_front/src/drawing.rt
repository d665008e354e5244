// What draw answers to a station: the sheet of how its search ended. The lines of the search go to a log, and the
// picture is written. The search itself is `BestSearch`, which signals and trial share.
ghost use Rattle.std.specs.Prelude.{◌≡◌, ◌≢◌, ◌≤◌, ◌⊎◌, ◌++◌, [], ⊤, false, IfOk, OnOk, IsOkAnd, IsErrOf, None};
ghost use Rattle.std.specs.Option.{is_some};
ghost use Rattle.outside_io.specs.Counts.{Rose};
ghost use Rattle.plan_core.specs.declared.limits.TheConstants.{MAX_FILE_BYTES};
ghost use Rattle.plan_core.specs.Order.{IsOrder};
ghost use Rattle.track_order.specs.Order.{IsOrderOf};
ghost use Rattle.plan_text.specs.SheetLine.{MayEnd};
ghost use Rattle.plan_text.specs.SheetText.{sheet_text};
ghost use Rattle.plan_text.specs.SheetFaults.{IsSheetText};
ghost use Rattle.refute_log.specs.FileLog.{BeginsLog};
ghost use Rattle.run_input.specs.Status.{IsAnswered, IsRefused};
ghost use Rattle.run_input.specs.Answer.{IsFileJudged, IsAnswerToFile, HasReadStation};
ghost use Rattle.run_input.specs.Input.{IsShort};
ghost use Rattle.run_input.specs.Met.{between, ReadsInputs, IsUnwritten, HasLeft};
ghost use Rattle.refute_log.specs.ToldTo.{told_to};
ghost use Rattle.run_input.specs.SearchLog.{TellsIfNew, DerivesIfNew, IsRunLog};
ghost use Rattle.run_input.specs.Written.{AreFilesApart, file_named, FailsToWrite};
ghost use Rattle.run_draw_front.specs.Drawn.{sheet_with, sheet_of, status_of, HasSearched, IsDrawAnswer};
ghost use Rattle.run_draw_front.specs.Drawn.{HasBegunPicture};
ghost use Rattle.run_draw_front.specs.Drawn.{DrawMayLeave, files_asked, IsLeftByDraw, IsLeftOfDraw, DrawMayTell};

use crate::picturing::write_found;
use cnf_core::ROOM;
use lex_minimise::{Limits, MinFault, Outcome, minimise};
use outside_io::Files;
use plan_core::{Grid, Order, OutOfMemory, Text};
use plan_geometry::Drawing;
use plan_text::{Ending, Sheet, write_sheet, written_is_read};
use refute_log::LogSink;
use run_input::{
    Cut, InputRefusal, Reply, Searching, Station, Status, fault_reply, search_logged, station_of,
};
use std::alloc::Global;
use std::marker::Model;

/// What is asked of a drawing.
#[derive(Drop)]
pub struct Asked<'a> {
    /// The columns and rows that it may take, and the least length of its lines.
    pub grid: &'a Grid,
    /// What is to be least, the most important first.
    pub order: &'a Order,
    /// With how many learnt clauses the search gives up.
    pub budget: u32,
    /// The name of the file for a picture.
    pub svg: &'a Option<Text>,
    /// The name of the file for the search's log.
    pub log: &'a Option<Text>,
}

impl<'a> Model for Asked<'a> {
    ghost use Rattle.run_draw_front.specs.Drawn.{Job, job};

    ghost Value = { Job };

    ghost view = { λ s. job s.grid.now s.order.now s.budget s.svg.now s.log.now };
}

/// The search for a station's best drawing.
#[derive(Drop)]
pub(crate) struct BestSearch<'a> {
    pub(crate) station: &'a Station,
    /// The columns and rows that the drawing may take, and the least length of its lines.
    pub(crate) grid: &'a Grid,
    /// What is to be least, the most important first.
    pub(crate) order: &'a Order,
    /// With how many learnt clauses the search gives up.
    pub(crate) budget: u32,
}

impl<'a> Searching for BestSearch<'a> {
    ghost use Rattle.std.proofs.Common.{refl, arith};
    ghost use Rattle.track_order.specs.Order.{IsOrderOf};
    ghost use Rattle.refute_log.proofs.LogLemmas.{derives_none};
    ghost use Rattle.run_draw_front.specs.Drawn.{search_job, HasEnded, IsLeftOfDraw};

    type Found = Outcome;

    ghost ready = { λ s. IsOrderOf s.station.now.graph s.station.now.order };

    ghost ended = { λ s outcome lines. HasEnded s.station.now.graph s.station.now.order
        (search_job s.grid.now s.order.now s.budget) outcome lines };

    ghost left = { λ s lines. IsLeftOfDraw (search_job s.grid.now s.order.now s.budget) s.station.now.graph
        s.station.now.order lines };

    fn search<L: LogSink>(&self, alloc: Global, log: &mut L) -> Result<Outcome, Cut> {
        let limits = Limits {
            budget: self.budget,
            room: ROOM,
        };
        match minimise(
            alloc,
            &self.station.graph,
            &self.station.order,
            self.grid,
            self.order,
            &limits,
            log,
        ) {
            Ok(outcome) => Ok(outcome),
            Err(MinFault::Log) => Err(Cut::Unwritten),
            Err(MinFault::Memory) => Err(Cut::Memory),
        }
    }

    ghost left_none = { λ s. record {
      derives = derives_none;
      cap = λ _. 0;
      capped = λ c. omega arith;
      begins = (_, refl);
      within = omega arith;
    } };
}

/// The sheet of what was asked, with this drawing and this ending.
fn sheet_with(asked: &Asked, found: Option<Drawing>, ending: Ending) -> Sheet
    requires { MayEnd (is_some found) ending }
    ensures sheet { result ≡ sheet_with asked.now found ending }
    ensures is_order { IsOrder asked.now.order }
{
    let _ = asked.order.len();
    Sheet {
        grid: *asked.grid,
        order: asked.order.copied(),
        found,
        ending,
    }
}

/// The sheet of an outcome.
fn sheet_of(asked: &Asked, outcome: Outcome) -> Sheet
    ensures sheet { result ≡ sheet_of asked.now outcome }
    ensures is_order { IsOrder asked.now.order }
{
    match outcome {
        Outcome::Best(drawing) => sheet_with(asked, Some(drawing), Ending::Best),
        Outcome::NoDrawing => sheet_with(asked, None, Ending::NoDrawing),
        Outcome::Spent { best, settled } => sheet_with(asked, best, Ending::Conflicts(settled)),
        Outcome::Room { best, settled } => sheet_with(asked, best, Ending::Room(settled)),
    }
}

/// How the run ends after an outcome.
pub fn status_of(outcome: &Outcome) -> Status
    ensures { result ≡ status_of outcome.now }
{
    match outcome {
        Outcome::Best(_) => Status::Done,
        Outcome::NoDrawing => Status::NoDrawing,
        Outcome::Spent { .. } | Outcome::Room { .. } => Status::Unfinished,
    }
}

/// The status and the sheet of an outcome.
pub(crate) fn sheet_reply(
    alloc: Global,
    station: &Station,
    asked: &Asked,
    outcome: Outcome,
) -> Result<Reply, OutOfMemory>
    requires { HasSearched station.now.graph station.now.order asked.now (λ lines. ⊤) outcome }
    ensures status_is { IfOk result (λ r. r.status ≡ status_of outcome) }
    ensures spelled { IfOk result (λ r. r.text.items ≡ sheet_text station.now.graph (sheet_of asked.now outcome)) }
    ensures short { OnOk result (IsShort MAX_FILE_BYTES (sheet_text station.now.graph (sheet_of asked.now outcome))) }
    ensures read { OnOk result (IsSheetText station.now.graph false (sheet_text station.now.graph
        (sheet_of asked.now outcome))
        (sheet_of asked.now outcome)) }
{
    let status = status_of(&outcome);
    let sheet = sheet_of(asked, outcome);
    // what is written is read again, and isn't too long for that
    written_is_read(&station.graph, &sheet);
    let mut text = Vec::new(alloc);
    write_sheet(alloc, &station.graph, &sheet, &mut text)?;
    Ok(Reply { status, text })
}

/// The search for what is asked, its lines given to the file that is named for them or else to the trace.
pub(crate) fn search_told<F: Files, T: LogSink>(
    alloc: Global,
    station: &Station,
    asked: &Asked,
    files: &mut F,
    trace: &mut T,
) -> Result<Outcome, Cut>
    requires order { IsOrderOf station.now.graph station.now.order }
    ensures searched { let met = between (F.at files.old) (F.at files.new) in
        let told = told_to T.tells T.learnt trace.old trace.new in
        IfOk result (HasSearched station.now.graph station.now.order asked.now (IsRunLog asked.now.log met told)) }
    ensures left { TellsIfNew (IsLeftOfDraw asked.now station.now.graph station.now.order) (T.tells trace.old)
        (T.tells trace.new) }
    ensures leaves { HasLeft (between (F.at files.old) (F.at files.new))
        (λ name bytes. (asked.now.log ≡ Some name) × BeginsLog bytes) }
    ensures unwritten { let met = between (F.at files.old) (F.at files.new) in
        asked.now.log ≡ None → IsUnwritten met }
    ensures later { (F.at files.old).write_faults ≤ (F.at files.new).write_faults }
    ensures cause { let met = between (F.at files.old) (F.at files.new) in
        IsErrOf result Cut.Unwritten → FailsToWrite (file_named asked.now.log) (asked.now.log ≡ None) met (Rose
        (T.faults trace.old) (T.faults trace.new)) }
    ensures read_faults { (F.at files.new).read_faults ≡ (F.at files.old).read_faults }
    ensures reads { (F.at files.new).reads ≡ (F.at files.old).reads }
    ensures traced { T.is_later trace.old trace.new }
    ensures untold { asked.now.log ≢ None → trace.new ≡ trace.old }
{
    let search = BestSearch {
        station,
        grid: asked.grid,
        order: asked.order,
        budget: asked.budget,
    };
    search_logged(alloc, &search, asked.log, files, trace)
}

/// What `draw` answers to a station.
fn draw_station<F: Files, T: LogSink>(
    alloc: Global,
    station: &Station,
    asked: &Asked,
    files: &mut F,
    trace: &mut T,
) -> Result<Reply, Cut>
    requires order { IsOrderOf station.now.graph station.now.order }
    requires apart { AreFilesApart (file_named asked.now.log ++ file_named asked.now.svg) }
    ensures answer { let met = between (F.at files.old) (F.at files.new) in
        let told = told_to T.tells T.learnt trace.old trace.new in
        IfOk result (λ r. IsDrawAnswer asked.now met told station.now.graph station.now.order r.status r.text.items) }
    ensures read_faults { (F.at files.new).read_faults ≡ (F.at files.old).read_faults }
    ensures reads { (F.at files.new).reads ≡ (F.at files.old).reads }
    ensures unrefused { IsOkAnd result (λ r. IsRefused r.status) → ⊥ }
    ensures unwritten { let met = between (F.at files.old) (F.at files.new) in
        file_named asked.now.log ++ file_named asked.now.svg ≡ [] → IsUnwritten met }
    ensures leaves { let met = between (F.at files.old) (F.at files.new) in
        HasLeft met (DrawMayLeave asked.now (HasBegunPicture station.now.graph station.now.order asked.now
        (IsRunLog asked.now.log met (told_to T.tells T.learnt trace.old trace.new)))) }
    ensures cause { let met = between (F.at files.old) (F.at files.new) in
        IsErrOf result Cut.Unwritten → FailsToWrite (file_named asked.now.log ++ file_named asked.now.svg)
        (asked.now.log ≡ None) met (Rose (T.faults trace.old) (T.faults trace.new)) }
    ensures left { TellsIfNew (IsLeftOfDraw asked.now station.now.graph station.now.order) (T.tells trace.old)
        (T.tells trace.new) }
    ensures traced { T.is_later trace.old trace.new }
    ensures untold { asked.now.log ≢ None → trace.new ≡ trace.old }
{
    let outcome = search_told(alloc, station, asked, files, trace)?;
    write_found(alloc, &station.graph, &outcome, asked.svg, files)?;
    Ok(sheet_reply(alloc, station, asked, outcome)?)
}

/// What `draw` answers.
pub fn draw<F: Files, T: LogSink>(
    alloc: Global,
    input: &Text,
    asked: &Asked,
    files: &mut F,
    trace: &mut T,
) -> Result<Reply, Cut>
    requires apart { AreFilesApart (file_named asked.now.log ++ file_named asked.now.svg) }
    ensures answer { let met = between (F.at files.old) (F.at files.new) in
        IfOk result (λ r. IsAnswerToFile input.now met (IsFileJudged
        (IsDrawAnswer asked.now met (told_to T.tells T.learnt trace.old trace.new))) r.status r.text.items) }
    ensures reads { let met = between (F.at files.old) (F.at files.new) in
        ReadsInputs 1 (IsOkAnd result (λ r. IsAnswered r.status)) met }
    ensures unwritten { let met = between (F.at files.old) (F.at files.new) in
        IsOkAnd result (λ r. IsRefused r.status)
        ⊎ ((files_asked asked.now ≢ []) × HasReadStation input.now met → ⊥) → IsUnwritten met }
    ensures leaves { let met = between (F.at files.old) (F.at files.new) in
        HasLeft met (λ name bytes. (IsOkAnd result (λ r. IsRefused r.status) → ⊥)
        × IsLeftByDraw input.now asked.now met (told_to T.tells T.learnt trace.old trace.new) name bytes) }
    ensures cause { let met = between (F.at files.old) (F.at files.new) in
        IsErrOf result Cut.Unwritten → FailsToWrite (file_named asked.now.log ++ file_named asked.now.svg)
        (asked.now.log ≡ None) met (Rose (T.faults trace.old) (T.faults trace.new)) }
    ensures later { (F.at files.old).read_faults ≤ (F.at files.new).read_faults }
    ensures derives { DerivesIfNew (T.tells trace.old) (T.tells trace.new) }
    ensures left { let met = between (F.at files.old) (F.at files.new) in
        TellsIfNew (DrawMayTell asked.now input.now met) (T.tells trace.old) (T.tells trace.new) }
    ensures traced { T.is_later trace.old trace.new }
    ensures untold { let met = between (F.at files.old) (F.at files.new) in
        IsOkAnd result (λ r. IsRefused r.status)
        ⊎ ((asked.now.log ≡ None) × HasReadStation input.now met → ⊥) → trace.new ≡ trace.old }
{
    match station_of(alloc, input, files) {
        Ok(station) => draw_station(alloc, &station, asked, files, trace),
        Err(InputRefusal::Fault(fault)) => Ok(fault_reply(alloc, fault)?),
        Err(InputRefusal::Memory) => Err(Cut::Memory),
    }
}
