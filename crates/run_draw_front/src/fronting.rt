// What front answers: the file's station is read, the front is searched for, and its lines go to the trace.
ghost use Rattle.std.specs.Prelude.{◌≡◌, ◌≢◌, ◌≤◌, ◌⊎◌, [], IfOk, OnErr, IsOkAnd, IsErrOf};
ghost use Rattle.outside_io.specs.Contents.{WhereTold, SameFiles};
ghost use Rattle.outside_io.specs.Counts.{Rose};
ghost use Rattle.track_order.specs.Order.{IsOrderOf};
ghost use Rattle.refute_log.specs.Told.{Lines};
ghost use Rattle.refute_log.specs.ToldTo.{told_to};
ghost use Rattle.run_input.specs.Status.{IsAnswered, IsRefused};
ghost use Rattle.run_input.specs.Met.{between, ReadsInputs, IsUnwritten};
ghost use Rattle.run_input.specs.Answer.{IsFileJudged, IsAnswerToFile, HasReadStation};
ghost use Rattle.run_input.specs.SearchLog.{DerivesIfNew};
ghost use Rattle.run_draw_front.specs.Fronted.{IsFrontAnswer, status_of_front, IsLeftOfFront, FrontMayLeave};

use crate::writing::text_of;
use cnf_core::ROOM;
use lex_minimise::front as front_of;
use outside_io::Files;
use plan_core::{Criterion, Grid, Text};
use refute_log::LogSink;
use run_input::{Cut, InputRefusal, Reply, Station, Status, fault_reply, station_of};
use std::alloc::Global;
use std::marker::Model;
use trade_off::{FrontEnd, FrontFault};

/// What is asked of a front.
#[derive(Drop)]
pub struct FrontAsked<'a> {
    /// The columns and rows that a drawing may take, and the least length of its lines.
    pub grid: &'a Grid,
    /// The criterion whose values rise from pair to pair.
    pub first: Criterion,
    /// The other one.
    pub second: Criterion,
    /// With how many learnt clauses the search gives up.
    pub budget: u32,
}

impl<'a> Model for FrontAsked<'a> {
    ghost use Rattle.run_draw_front.specs.Fronted.{FrontJob, front_job};

    ghost Value = { FrontJob };

    ghost view = { λ a. front_job a.grid.now a.first a.second a.budget };
}

/// How the run ends after a search for a front.
fn status_of(ending: FrontEnd) -> Status
    ensures { result ≡ status_of_front ending }
{
    match ending {
        FrontEnd::Whole => Status::Done,
        FrontEnd::Empty => Status::NoDrawing,
        FrontEnd::Conflicts | FrontEnd::Room => Status::Unfinished,
    }
}

/// What `front` answers to a station.
fn front_station<L: LogSink>(
    alloc: Global,
    station: &Station,
    asked: &FrontAsked,
    log: &mut L,
) -> Result<Reply, Cut>
    requires order { IsOrderOf station.now.graph station.now.order }
    requires apart { asked.now.first ≢ asked.now.second }
    ensures answer { let told = told_to L.tells L.learnt log.old log.new in
        IfOk result (λ r. IsFrontAnswer asked.now told station.now.graph station.now.order r.status r.text.items) }
    ensures unrefused { IsOkAnd result (λ r. IsRefused r.status) → ⊥ }
    ensures derives { DerivesIfNew (L.tells log.old) (L.tells log.new) }
    ensures left { OnErr result (L.tells log.old [] → (lines : Lines) → L.tells log.new lines →
        IsLeftOfFront asked.now station.now.graph station.now.order lines) }
    ensures later { L.is_later log.old log.new }
    ensures cause { IsErrOf result Cut.Unwritten → Rose (L.faults log.old) (L.faults log.new) }
{
    let (a, b) = (asked.first, asked.second);
    match front_of(
        alloc,
        &station.graph,
        &station.order,
        asked.grid,
        a,
        b,
        asked.budget,
        ROOM,
        log,
    ) {
        Ok(found) => Ok(Reply {
            status: status_of(found.ending),
            text: text_of(alloc, a, b, &found.pairs, found.ending)?,
        }),
        Err(FrontFault::Log) => Err(Cut::Unwritten),
        Err(FrontFault::Memory) => Err(Cut::Memory),
    }
}

/// What `front` answers. After an error the Formula and Bound lines of a trace that had no line are the first of those
/// that are expected, or there are none, and it has no more Learnt lines than the budget allows.
pub fn front<F: Files, T: LogSink>(
    alloc: Global,
    input: &Text,
    asked: &FrontAsked,
    files: &mut F,
    trace: &mut T,
) -> Result<Reply, Cut>
    requires apart { asked.now.first ≢ asked.now.second }
    ensures answer { let met = between (F.at files.old) (F.at files.new) in
        IfOk result (λ r. IsAnswerToFile input.now met (IsFileJudged (IsFrontAnswer asked.now
        (told_to T.tells T.learnt trace.old trace.new))) r.status r.text.items) }
    ensures reads { let met = between (F.at files.old) (F.at files.new) in
        ReadsInputs 1 (IsOkAnd result (λ r. IsAnswered r.status)) met }
    ensures unwritten { let met = between (F.at files.old) (F.at files.new) in IsUnwritten met }
    ensures same { WhereTold (F.at files.old).contents (F.at files.new).contents SameFiles }
    ensures cause { IsErrOf result Cut.Unwritten → Rose (T.faults trace.old) (T.faults trace.new) }
    ensures later { (F.at files.old).read_faults ≤ (F.at files.new).read_faults }
    ensures derives { DerivesIfNew (T.tells trace.old) (T.tells trace.new) }
    ensures left { let met = between (F.at files.old) (F.at files.new) in
        OnErr result (T.tells trace.old [] → (lines : Lines) → T.tells trace.new lines →
        FrontMayLeave asked.now input.now met lines) }
    ensures traced { T.is_later trace.old trace.new }
    ensures untold { let met = between (F.at files.old) (F.at files.new) in
        IsOkAnd result (λ r. IsRefused r.status) ⊎ (HasReadStation input.now met → ⊥) → trace.new ≡ trace.old }
{
    match station_of(alloc, input, files) {
        Ok(station) => front_station(alloc, &station, asked, trace),
        Err(InputRefusal::Fault(fault)) => Ok(fault_reply(alloc, fault)?),
        Err(InputRefusal::Memory) => Err(Cut::Memory),
    }
}
