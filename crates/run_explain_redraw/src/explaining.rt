// What explain answers: the file's station is read, an explanation is searched for, and its lines are told to the
// trace.
ghost use Rattle.std.specs.Prelude.{◌≡◌, ◌≤◌, ◌⊎◌, [], IfOk, OnErr, IsOkAnd, IsErrOf};
ghost use Rattle.outside_io.specs.Contents.{WhereTold, SameFiles};
ghost use Rattle.outside_io.specs.Counts.{Rose};
ghost use Rattle.track_order.specs.Order.{IsOrderOf};
ghost use Rattle.refute_log.specs.Told.{Lines};
ghost use Rattle.refute_log.specs.ToldTo.{told_to};
ghost use Rattle.law_core.specs.Why.{IsRightWhy};
ghost use Rattle.run_input.specs.Status.{IsAnswered, IsRefused};
ghost use Rattle.run_input.specs.Met.{between, ReadsInputs, IsUnwritten};
ghost use Rattle.run_input.specs.Answer.{IsFileJudged, IsAnswerToFile, HasReadStation};
ghost use Rattle.run_input.specs.SearchLog.{DerivesIfNew};
ghost use Rattle.run_explain_redraw.specs.WhyText.{why_text};
ghost use Rattle.run_explain_redraw.specs.Explained.{IsExplainAnswer, explain_task, status_of_why};
ghost use Rattle.run_explain_redraw.specs.Explained.{IsLeftOfExplain, ExplainMayLeave};

use crate::writing::text_of;
use cnf_core::ROOM;
use law_core::{Why, WhyFault, explain as explain_graph};
use outside_io::Files;
use plan_core::{Grid, OutOfMemory, Text};
use refute_log::LogSink;
use run_input::{Cut, InputRefusal, Reply, Station, Status, fault_reply, station_of};
use std::alloc::Global;
use std::marker::Model;

/// What is asked of an explanation.
#[derive(Drop)]
pub struct ExplainAsked<'a> {
    /// The columns and rows that a drawing may take, and the least length of its lines.
    pub grid: &'a Grid,
    /// With how many learnt clauses the search gives up.
    pub budget: u32,
}

impl<'a> Model for ExplainAsked<'a> {
    ghost use Rattle.run_explain_redraw.specs.Explained.{ExplainJob, explain_job};

    ghost Value = { ExplainJob };

    ghost view = { λ a. explain_job a.grid.now a.budget };
}

/// How the run ends, and with which text.
fn reply_of(
    alloc: Global,
    station: &Station,
    asked: &ExplainAsked,
    why: &Why,
) -> Result<Reply, OutOfMemory>
    requires right { IsRightWhy (explain_task station.now.graph station.now.order asked.now) why.now }
    ensures status { IfOk result (λ r. r.status ≡ status_of_why why.now) }
    ensures text { IfOk result (λ r. r.text.items ≡ why_text station.now.graph why.now) }
{
    match why {
        Why::Exists(_) => Ok(Reply {
            status: Status::Done,
            text: Vec::from_slice(alloc, b"drawing exists\n")?,
        }),
        Why::Laws { laws, without } => Ok(Reply {
            status: Status::Done,
            text: text_of(alloc, &station.graph, laws, without)?,
        }),
        Why::Spent => Ok(Reply {
            status: Status::Unfinished,
            text: Vec::from_slice(alloc, b"why conflicts\n")?,
        }),
        Why::Room => Ok(Reply {
            status: Status::Unfinished,
            text: Vec::from_slice(alloc, b"why room\n")?,
        }),
    }
}

/// What `explain` answers to a station.
fn explain_station<L: LogSink>(
    alloc: Global,
    station: &Station,
    asked: &ExplainAsked,
    log: &mut L,
) -> Result<Reply, Cut>
    requires order { IsOrderOf station.now.graph station.now.order }
    ensures answer { let told = told_to L.tells L.learnt log.old log.new in
        IfOk result (λ r. IsExplainAnswer asked.now told station.now.graph station.now.order r.status r.text.items) }
    ensures unrefused { IsOkAnd result (λ r. IsRefused r.status) → ⊥ }
    ensures derives { DerivesIfNew (L.tells log.old) (L.tells log.new) }
    ensures left { OnErr result (L.tells log.old [] → (lines : Lines) → L.tells log.new lines →
        IsLeftOfExplain asked.now station.now.graph station.now.order lines) }
    ensures later { L.is_later log.old log.new }
    ensures cause { IsErrOf result Cut.Unwritten → Rose (L.faults log.old) (L.faults log.new) }
{
    match explain_graph(
        alloc,
        &station.graph,
        &station.order,
        asked.grid,
        asked.budget,
        ROOM,
        log,
    ) {
        Ok(why) => Ok(reply_of(alloc, station, asked, &why)?),
        Err(WhyFault::Log) => Err(Cut::Unwritten),
        Err(WhyFault::Memory) => Err(Cut::Memory),
    }
}

/// What `explain` answers. After an error the Formula lines of a trace that had no line are the first of those that
/// are expected, or there are none, and it has no more Learnt lines than the budget allows.
pub fn explain<F: Files, T: LogSink>(
    alloc: Global,
    input: &Text,
    asked: &ExplainAsked,
    files: &mut F,
    trace: &mut T,
) -> Result<Reply, Cut>
    ensures answer { let met = between (F.at files.old) (F.at files.new) in
        IfOk result (λ r. IsAnswerToFile input.now met (IsFileJudged (IsExplainAnswer asked.now
        (told_to T.tells T.learnt trace.old trace.new))) r.status r.text.items) }
    ensures reads { let met = between (F.at files.old) (F.at files.new) in
        ReadsInputs 1 (IsOkAnd result (λ r. IsAnswered r.status)) met }
    ensures unwritten { let met = between (F.at files.old) (F.at files.new) in IsUnwritten met }
    ensures same { WhereTold (F.at files.old).contents (F.at files.new).contents SameFiles }
    ensures cause { IsErrOf result Cut.Unwritten → Rose (T.faults trace.old) (T.faults trace.new) }
    ensures later { (F.at files.old).read_faults ≤ (F.at files.new).read_faults }
    ensures derives { DerivesIfNew (T.tells trace.old) (T.tells trace.new) }
    ensures left { let met = between (F.at files.old) (F.at files.new) in
        OnErr result (T.tells trace.old [] → (lines : Lines) → T.tells trace.new lines →
        ExplainMayLeave asked.now input.now met lines) }
    ensures traced { T.is_later trace.old trace.new }
    ensures untold { let met = between (F.at files.old) (F.at files.new) in
        IsOkAnd result (λ r. IsRefused r.status) ⊎ (HasReadStation input.now met → ⊥) → trace.new ≡ trace.old }
{
    match station_of(alloc, input, files) {
        Ok(station) => explain_station(alloc, &station, asked, trace),
        Err(InputRefusal::Fault(fault)) => Ok(fault_reply(alloc, fault)?),
        Err(InputRefusal::Memory) => Err(Cut::Memory),
    }
}
