// What redraw answers: a search for a drawing with the fewest moved nodes, with its lines told.
ghost use Rattle.std.specs.Prelude.{◌≡◌, ◌≢◌, ◌≤◌, ◌⊎◌, [], length, None, Some, IfOk, IsOkAnd, IsErrOf};
ghost use Rattle.outside_io.specs.Counts.{Rose};
ghost use Rattle.track_order.specs.Order.{IsOrderOf};
ghost use Rattle.refute_log.specs.ToldTo.{told_to};
ghost use Rattle.refute_log.specs.FileLog.{BeginsLog};
ghost use Rattle.run_input.specs.Status.{IsAnswered, IsRefused};
ghost use Rattle.run_input.specs.Met.{between, ReadsInputs, IsUnwritten, HasLeft};
ghost use Rattle.run_input.specs.SearchLog.{TellsIfNew, DerivesIfNew, IsRunLog};
ghost use Rattle.run_input.specs.Written.{file_named, FailsToWrite};
ghost use Rattle.run_explain_redraw.specs.Redrawn.{status_of_moved};
ghost use Rattle.run_explain_redraw.specs.Known.{HasSearchedKnown, IsLeftOfKnown, IsRedrawnKnown};
ghost use Rattle.run_explain_redraw.specs.Answer.{IsRedrawAnswer, HasReadFormer, IsLeftByRedraw, RedrawMayTell};

use crate::judging::{Known, Rejected, known_of};
use crate::redraw_writing::text_of;
use cnf_core::ROOM;
use lex_minimise::{Limits, MinFault};
use outside_io::Files;
use plan_core::{Grid, Text};
use refute_log::LogSink;
use run_input::{Cut, Reply, Searching, Status, search_logged};
use search_moved::{Fewest, fewest_moved};
use std::alloc::Global;
use std::marker::Model;

/// What is asked of a drawing with the fewest moved nodes.
#[derive(Drop)]
pub struct RedrawAsked<'a> {
    /// The columns and rows that it may take, and the least length of its lines.
    pub grid: &'a Grid,
    /// With how many learnt clauses the search gives up.
    pub budget: u32,
    /// The name of the file for the search's log.
    pub log: &'a Option<Text>,
}

impl<'a> Model for RedrawAsked<'a> {
    ghost use Rattle.run_explain_redraw.specs.Redrawn.{RedrawJob, redraw_job};

    ghost Value = { RedrawJob };

    ghost view = { λ a. redraw_job a.grid.now a.budget a.log.now };
}

/// The search for the drawing with the fewest moved nodes.
#[derive(Drop)]
struct MovedSearch<'a> {
    known: &'a Known,
    /// The columns and rows that the drawing may take, and the least length of its lines.
    grid: &'a Grid,
    /// With how many learnt clauses the search gives up.
    budget: u32,
}

impl<'a> Searching for MovedSearch<'a> {
    ghost use Rattle.std.specs.Prelude.{◌≡◌, length, None};
    ghost use Rattle.std.proofs.Common.{refl, arith};
    ghost use Rattle.track_order.specs.Order.{IsOrderOf};
    ghost use Rattle.refute_log.proofs.LogLemmas.{derives_none};
    ghost use Rattle.run_explain_redraw.specs.Redrawn.{redraw_job};
    ghost use Rattle.run_explain_redraw.specs.Known.{HasEndedKnown, IsLeftOfKnown};

    type Found = Fewest;

    ghost ready = { λ s. IsOrderOf s.known.now.station.graph s.known.now.station.order
        × (length s.known.now.former.items ≡ length s.known.now.station.graph.nodes) };

    ghost ended = { λ s outcome lines. HasEndedKnown s.known.now (redraw_job s.grid.now s.budget None) outcome lines };

    ghost left = { λ s lines. IsLeftOfKnown s.known.now (redraw_job s.grid.now s.budget None) lines };

    fn search<L: LogSink>(&self, alloc: Global, log: &mut L) -> Result<Fewest, Cut> {
        let limits = Limits {
            budget: self.budget,
            room: ROOM,
        };
        match fewest_moved(
            alloc,
            &self.known.station.graph,
            &self.known.station.order,
            self.grid,
            &self.known.former,
            &limits,
            log,
        ) {
            Ok(outcome) => Ok(outcome),
            Err(MinFault::Log) => Err(Cut::Unwritten),
            Err(MinFault::Memory) => Err(Cut::Memory),
        }
    }

    ghost left_none = { λ s. record { derives = derives_none; begins = (_, refl); within = omega arith } };
}

/// The search for what is asked, its lines given to the file that is named for them or else to the trace.
fn search_told<F: Files, T: LogSink>(
    alloc: Global,
    known: &Known,
    asked: &RedrawAsked,
    files: &mut F,
    trace: &mut T,
) -> Result<Fewest, Cut>
    requires order { IsOrderOf known.now.station.graph known.now.station.order }
    requires same { length known.now.former.items ≡ length known.now.station.graph.nodes }
    ensures searched { let met = between (F.at files.old) (F.at files.new) in
        let told = told_to T.tells T.learnt trace.old trace.new in
        IfOk result (HasSearchedKnown known.now asked.now (IsRunLog asked.now.log met told)) }
    ensures left { TellsIfNew (IsLeftOfKnown known.now asked.now) (T.tells trace.old) (T.tells trace.new) }
    ensures leaves { HasLeft (between (F.at files.old) (F.at files.new))
        (λ name bytes. (asked.now.log ≡ Some name) × BeginsLog bytes) }
    ensures unwritten { asked.now.log ≡ None → IsUnwritten (between (F.at files.old) (F.at files.new)) }
    ensures cause { let met = between (F.at files.old) (F.at files.new) in
        IsErrOf result Cut.Unwritten → FailsToWrite (file_named asked.now.log) (asked.now.log ≡ None) met
        (Rose (T.faults trace.old) (T.faults trace.new)) }
    ensures read_faults { (F.at files.new).read_faults ≡ (F.at files.old).read_faults }
    ensures reads { (F.at files.new).reads ≡ (F.at files.old).reads }
    ensures traced { T.is_later trace.old trace.new }
    ensures untold { asked.now.log ≢ None → trace.new ≡ trace.old }
{
    let search = MovedSearch {
        known,
        grid: asked.grid,
        budget: asked.budget,
    };
    search_logged(alloc, &search, asked.log, files, trace)
}

/// How the run ends after an outcome.
fn status_of(outcome: &Fewest) -> Status
    ensures { result ≡ status_of_moved outcome.now }
{
    match outcome {
        Fewest::Best(_) => Status::Done,
        Fewest::NoDrawing => Status::NoDrawing,
        Fewest::Spent(_) | Fewest::Room(_) => Status::Unfinished,
    }
}

/// What `redraw` answers to a station and its former points.
fn redraw_known<F: Files, T: LogSink>(
    alloc: Global,
    known: &Known,
    asked: &RedrawAsked,
    files: &mut F,
    trace: &mut T,
) -> Result<Reply, Cut>
    requires order { IsOrderOf known.now.station.graph known.now.station.order }
    requires same { length known.now.former.items ≡ length known.now.station.graph.nodes }
    ensures answer { let met = between (F.at files.old) (F.at files.new) in
        let told = IsRunLog asked.now.log met (told_to T.tells T.learnt trace.old trace.new) in
        IfOk result (λ r. IsRedrawnKnown known.now asked.now told r.status r.text.items) }
    ensures unrefused { IsOkAnd result (λ r. IsRefused r.status) → ⊥ }
    ensures leaves { HasLeft (between (F.at files.old) (F.at files.new))
        (λ name bytes. (asked.now.log ≡ Some name) × BeginsLog bytes) }
    ensures unwritten { asked.now.log ≡ None → IsUnwritten (between (F.at files.old) (F.at files.new)) }
    ensures cause { let met = between (F.at files.old) (F.at files.new) in
        IsErrOf result Cut.Unwritten → FailsToWrite (file_named asked.now.log) (asked.now.log ≡ None) met
        (Rose (T.faults trace.old) (T.faults trace.new)) }
    ensures read_faults { (F.at files.new).read_faults ≡ (F.at files.old).read_faults }
    ensures reads { (F.at files.new).reads ≡ (F.at files.old).reads }
    ensures left { TellsIfNew (IsLeftOfKnown known.now asked.now) (T.tells trace.old) (T.tells trace.new) }
    ensures traced { T.is_later trace.old trace.new }
    ensures untold { asked.now.log ≢ None → trace.new ≡ trace.old }
{
    let outcome = search_told(alloc, known, asked, files, trace)?;
    Ok(Reply {
        status: status_of(&outcome),
        text: text_of(
            alloc,
            &known.station.graph,
            asked.grid,
            &known.former,
            &outcome,
        )?,
    })
}

/// What `redraw` answers to the three files: the railML file `input`, the former one, and the sheet of a drawing of
/// that.
pub fn redraw<F: Files, T: LogSink>(
    alloc: Global,
    input: &Text,
    former: &Text,
    sheet: &Text,
    asked: &RedrawAsked,
    files: &mut F,
    trace: &mut T,
) -> Result<Reply, Cut>
    ensures answer { let met = between (F.at files.old) (F.at files.new) in
        let told = told_to T.tells T.learnt trace.old trace.new in
        IfOk result (λ r. IsRedrawAnswer input.now former.now sheet.now asked.now met told r.status r.text.items) }
    ensures reads { let met = between (F.at files.old) (F.at files.new) in
        ReadsInputs 3 (IsOkAnd result (λ r. IsAnswered r.status)) met }
    ensures unwritten { let met = between (F.at files.old) (F.at files.new) in
        IsOkAnd result (λ r. IsRefused r.status)
        ⊎ ((file_named asked.now.log ≢ []) × HasReadFormer input.now former.now sheet.now met → ⊥) → IsUnwritten met }
    ensures leaves { let met = between (F.at files.old) (F.at files.new) in
        HasLeft met (λ name bytes. (IsOkAnd result (λ r. IsRefused r.status) → ⊥)
        × IsLeftByRedraw input.now former.now sheet.now asked.now met name bytes) }
    ensures cause { let met = between (F.at files.old) (F.at files.new) in
        IsErrOf result Cut.Unwritten → FailsToWrite (file_named asked.now.log) (asked.now.log ≡ None) met
        (Rose (T.faults trace.old) (T.faults trace.new)) }
    ensures later { (F.at files.old).read_faults ≤ (F.at files.new).read_faults }
    ensures derives { DerivesIfNew (T.tells trace.old) (T.tells trace.new) }
    ensures left { let met = between (F.at files.old) (F.at files.new) in
        TellsIfNew (RedrawMayTell input.now former.now sheet.now asked.now met) (T.tells trace.old)
        (T.tells trace.new) }
    ensures traced { T.is_later trace.old trace.new }
    ensures untold { let met = between (F.at files.old) (F.at files.new) in
        IsOkAnd result (λ r. IsRefused r.status)
        ⊎ ((asked.now.log ≡ None) × HasReadFormer input.now former.now sheet.now met → ⊥) →
        trace.new ≡ trace.old }
{
    match known_of(alloc, input, former, sheet, files) {
        Ok(known) => redraw_known(alloc, &known, asked, files, trace),
        Err(Rejected::With(reply)) => Ok(reply),
        Err(Rejected::Memory) => Err(Cut::Memory),
    }
}
