// What signals answers: what draw answers where each edge is as long at least as the one with the most signals needs,
// and the text of the signals behind the sheet of a drawing.
ghost use Rattle.std.specs.Prelude.{◌≡◌, ◌≢◌, ◌<◌, ◌≤◌, ◌⊎◌, ◌++◌, ℕ, ⊤, false, [], None, Some, length, All, IfOk};
ghost use Rattle.std.specs.Prelude.{OnOk, IfSome, IsOkAnd, IsErrOf};
ghost use Rattle.outside_io.specs.Counts.{Rose};
ghost use Rattle.plan_core.specs.declared.limits.TheConstants.{MAX_FILE_BYTES};
ghost use Rattle.plan_core.specs.Grid.{grid_with};
ghost use Rattle.track_order.specs.Order.{IsOrderOf};
ghost use Rattle.plan_text.specs.SheetText.{sheet_text};
ghost use Rattle.plan_text.specs.SheetFaults.{IsSheetText};
ghost use Rattle.plan_objects.specs.declared.places.SignalPlace.{SignalPlace as APlace};
ghost use Rattle.plan_objects.specs.Places.{need_of};
ghost use Rattle.plan_objects.specs.Spread.{HasRoomFor};
ghost use Rattle.refute_log.specs.FileLog.{BeginsLog};
ghost use Rattle.refute_log.specs.ToldTo.{told_to};
ghost use Rattle.run_input.specs.Status.{IsAnswered, IsRefused};
ghost use Rattle.run_input.specs.Answer.{IsAnswerToFile};
ghost use Rattle.run_input.specs.Input.{IsShort};
ghost use Rattle.run_input.specs.Met.{between, ReadsInputs, IsUnwritten, HasLeft};
ghost use Rattle.run_input.specs.SearchLog.{TellsIfNew, DerivesIfNew};
ghost use Rattle.run_input.specs.Written.{file_named, FailsToWrite};
ghost use Rattle.run_draw_front.specs.Drawn.{sheet_of, found_by as drawing_of, status_of as outcome_status};
ghost use Rattle.run_draw_front.specs.Drawn.{HasSearched, IsLeftOfDraw};
ghost use Rattle.run_draw_front.specs.Signalled.{job_for, signals_behind as text_behind, IsSignalled};
ghost use Rattle.run_draw_front.specs.Signalled.{IsSignalFileJudged};
ghost use Rattle.run_draw_front.specs.Signalled.{HasReadSignals, IsLeftBySignals, SignalsMayTell};

use crate::drawing::{Asked, search_told, sheet_reply};
use crate::picturing::found_by;
use lex_minimise::Outcome;
use outside_io::Files;
use plan_core::{Grid, OutOfMemory, Text};
use plan_objects::{Placed, write_signals};
use refute_log::LogSink;
use run_input::{Cut, InputRefusal, Reply, SignalStation, fault_reply, signals_of};
use std::alloc::Global;

/// The grid on which each edge goes over as many columns at least as these signals need.
fn grid_for(placed: &Placed, grid: &Grid) -> Grid
    ensures { result ≡ grid_with grid.now.width grid.now.height (need_of placed.now) }
{
    match Grid::with_least(grid.width(), grid.height(), placed.need()) {
        Some(grid) => grid,
        None => unreachable!(),
    }
}

/// The text of the signals on the drawing that a search ended with, empty without one.
fn signals_behind(
    alloc: Global,
    found: &SignalStation,
    outcome: &Outcome,
) -> Result<Vec<u8>, OutOfMemory>
    requires same { length found.now.signals ≡ length found.now.placed }
    requires room { IfSome (drawing_of outcome.now) (λ d. (i : ℕ) → i < length found.now.placed
        → HasRoomFor found.now.placed d i) }
    ensures { IfOk result (λ v. v.items ≡ text_behind found.now.signals found.now.placed (drawing_of outcome.now)) }
{
    let mut text = Vec::new(alloc);
    if let Some(drawing) = found_by(outcome) {
        write_signals(&found.signals, &found.placed, drawing, &mut text)?;
    }
    Ok(text)
}

/// The status and the sheet of an outcome, and the text of the signals behind it.
fn signal_reply(
    alloc: Global,
    found: &SignalStation,
    asked: &Asked,
    outcome: Outcome,
) -> Result<Reply, OutOfMemory>
    requires searched { HasSearched found.now.station.graph found.now.station.order asked.now (λ lines. ⊤) outcome }
    requires same { length found.now.signals ≡ length found.now.placed }
    requires room { IfSome (drawing_of outcome) (λ d. (i : ℕ) → i < length found.now.placed
        → HasRoomFor found.now.placed d i) }
    ensures status_is { IfOk result (λ r. r.status ≡ outcome_status outcome) }
    ensures spelled { IfOk result (λ r. r.text.items ≡ sheet_text found.now.station.graph (sheet_of asked.now outcome)
        ++ text_behind found.now.signals found.now.placed (drawing_of outcome)) }
    ensures short { OnOk result (IsShort MAX_FILE_BYTES (sheet_text found.now.station.graph
        (sheet_of asked.now outcome))) }
    ensures read { OnOk result (IsSheetText found.now.station.graph false
        (sheet_text found.now.station.graph (sheet_of asked.now outcome)) (sheet_of asked.now outcome)) }
{
    let behind = signals_behind(alloc, found, &outcome)?;
    let mut reply = sheet_reply(alloc, &found.station, asked, outcome)?;
    reply.text.extend_from_slice(&behind)?;
    Ok(reply)
}

/// What signals answers to a station with its signals, where what is asked has the least length that these need.
fn signal_station<F: Files, T: LogSink>(
    alloc: Global,
    found: &SignalStation,
    asked: &Asked,
    files: &mut F,
    trace: &mut T,
) -> Result<Reply, Cut>
    requires order { IsOrderOf found.now.station.graph found.now.station.order }
    requires same { length found.now.signals ≡ length found.now.placed }
    requires drawn { All (λ (p : APlace). p.edge.0 < length found.now.station.graph.edges) found.now.placed }
    requires least { job_for found.now.placed asked.now ≡ asked.now }
    requires unpictured { asked.now.svg ≡ None }
    ensures answer { let f = found.now in
        IfOk result (λ r. IsSignalled asked.now (between (F.at files.old) (F.at files.new)) (told_to T.tells T.learnt
        trace.old trace.new) f.station.graph f.station.order f.signals f.placed r.status r.text.items) }
    ensures read_faults { (F.at files.new).read_faults ≡ (F.at files.old).read_faults }
    ensures reads { (F.at files.new).reads ≡ (F.at files.old).reads }
    ensures unrefused { IsOkAnd result (λ r. IsRefused r.status) → ⊥ }
    ensures unwritten { let met = between (F.at files.old) (F.at files.new) in asked.now.log ≡ None → IsUnwritten met }
    ensures leaves { let met = between (F.at files.old) (F.at files.new) in
        HasLeft met (λ name bytes. (asked.now.log ≡ Some name) × BeginsLog bytes) }
    ensures cause { let met = between (F.at files.old) (F.at files.new) in
        IsErrOf result Cut.Unwritten → FailsToWrite (file_named asked.now.log) (asked.now.log ≡ None) met (Rose
        (T.faults trace.old) (T.faults trace.new)) }
    ensures left { let s = found.now.station in
        TellsIfNew (IsLeftOfDraw asked.now s.graph s.order) (T.tells trace.old) (T.tells trace.new) }
    ensures traced { T.is_later trace.old trace.new }
    ensures untold { asked.now.log ≢ None → trace.new ≡ trace.old }
{
    let outcome = search_told(alloc, &found.station, asked, files, trace)?;
    Ok(signal_reply(alloc, found, asked, outcome)?)
}

/// What signals answers: the least length that is asked for gives way to that which the signals need, and there is no
/// picture.
pub fn signals<F: Files, T: LogSink>(
    alloc: Global,
    input: &Text,
    asked: &Asked,
    files: &mut F,
    trace: &mut T,
) -> Result<Reply, Cut>
    requires unpictured { asked.now.svg ≡ None }
    ensures answer { let met = between (F.at files.old) (F.at files.new) in
        let told = told_to T.tells T.learnt trace.old trace.new in
        IfOk result (λ r. IsAnswerToFile input.now met (IsSignalFileJudged asked.now met told)
        r.status r.text.items) }
    ensures reads { let met = between (F.at files.old) (F.at files.new) in
        ReadsInputs 1 (IsOkAnd result (λ r. IsAnswered r.status)) met }
    ensures unwritten { let met = between (F.at files.old) (F.at files.new) in
        IsOkAnd result (λ r. IsRefused r.status)
        ⊎ ((file_named asked.now.log ≢ []) × HasReadSignals input.now met → ⊥) → IsUnwritten met }
    ensures leaves { let met = between (F.at files.old) (F.at files.new) in
        HasLeft met (λ name bytes. (IsOkAnd result (λ r. IsRefused r.status) → ⊥)
        × IsLeftBySignals input.now asked.now met name bytes) }
    ensures cause { let met = between (F.at files.old) (F.at files.new) in
        let rose = Rose (T.faults trace.old) (T.faults trace.new) in
        IsErrOf result Cut.Unwritten → FailsToWrite (file_named asked.now.log) (asked.now.log ≡ None) met rose }
    ensures later { (F.at files.old).read_faults ≤ (F.at files.new).read_faults }
    ensures derives { DerivesIfNew (T.tells trace.old) (T.tells trace.new) }
    ensures left { let met = between (F.at files.old) (F.at files.new) in
        TellsIfNew (SignalsMayTell asked.now input.now met) (T.tells trace.old) (T.tells trace.new) }
    ensures traced { T.is_later trace.old trace.new }
    ensures untold { let met = between (F.at files.old) (F.at files.new) in
        IsOkAnd result (λ r. IsRefused r.status)
        ⊎ ((asked.now.log ≡ None) × HasReadSignals input.now met → ⊥) → trace.new ≡ trace.old }
{
    match signals_of(alloc, input, files) {
        Ok(found) => {
            let grid = grid_for(&found.placed, asked.grid);
            let longer = Asked {
                grid: &grid,
                order: asked.order,
                budget: asked.budget,
                svg: asked.svg,
                log: asked.log,
            };
            signal_station(alloc, &found, &longer, files, trace)
        }
        Err(InputRefusal::Fault(fault)) => Ok(fault_reply(alloc, fault)?),
        Err(InputRefusal::Memory) => Err(Cut::Memory),
    }
}
