// What `make` and `trial` answer: the made station of a number, and how the search for its drawing ended.
ghost use Rattle.std.specs.Prelude.{◌≡◌, ◌≤◌, ◌⊎◌, ◌++◌, [], ◌∷◌, IfOk, OnOk, IsOkAnd, IsErrOf};
ghost use Rattle.outside_io.specs.Counts.{Rose};
ghost use Rattle.plan_core.specs.declared.criterion.Criterion.TheVariants as criteria;
ghost use Rattle.plan_core.specs.Grid.{grid_size};
ghost use Rattle.outside_io.specs.Fields.{spaced};
ghost use Rattle.track_order.specs.Order.{IsOrderOf};
ghost use Rattle.refute_log.specs.ToldTo.{told_to};
ghost use Rattle.station_make.specs.StationText.{station_text};
ghost use Rattle.run_input.specs.Status.{IsRefused};
ghost use Rattle.run_input.specs.Input.{HasSomeStation};
ghost use Rattle.run_input.specs.Answer.{IsFileJudged};
ghost use Rattle.run_input.specs.SearchLog.{TellsIfNew, DerivesIfNew};
ghost use Rattle.run_draw_front.specs.Drawn.{HasSearched, IsLeftOfDraw};
ghost use Rattle.run_draw_front.specs.Tried.{IsMade, IsTried, trial_job, graph_counts, best_measures, trial_end};
ghost use Rattle.run_draw_front.specs.Tried.{trial_line, TrialMayTell};

use crate::drawing::{BestSearch, status_of};
use lex_minimise::Outcome;
use outside_io::{push_field, push_number_field, push_text};
use plan_core::{Criterion, Grid, Order, OutOfMemory};
use plan_geometry::{Drawing, values};
use port_graph::PortGraph;
use refute_log::LogSink;
use run_input::{Cut, InputRefusal, Reply, Searching, Station, Status, fault_reply, station_in};
use station_make::make;
use std::alloc::Global;

/// The number of columns and of rows that a trial's drawing may take.
const TRIAL_GRID: (u16, u16) = (64, 2);

/// With how many learnt clauses the search of a trial gives up.
const TRIAL_BUDGET: u32 = 50_000;

// ---- make

/// What `make` answers.
pub fn made(alloc: Global, n: u32) -> Result<Reply, OutOfMemory>
    ensures { IfOk result (λ r. IsMade n r.status r.text.items) }
{
    Ok(Reply {
        status: Status::Done,
        text: make(alloc, n)?,
    })
}

// ---- trial

fn trial_grid() -> Grid
    ensures { result ≡ grid_size 64 2 }
{
    match Grid::new(TRIAL_GRID.0, TRIAL_GRID.1) {
        Some(grid) => grid,
        None => unreachable!(),
    }
}

fn trial_order() -> Order
    ensures { result ≡ criteria.Height ∷ criteria.Width ∷ [] }
{
    match Order::new(&[Criterion::Height, Criterion::Width]) {
        Some(order) => order,
        None => unreachable!(),
    }
}

/// The outcome of the search for a made station's drawing, whose lines the log takes.
fn search_trial<L: LogSink>(alloc: Global, station: &Station, log: &mut L) -> Result<Outcome, Cut>
    requires order { IsOrderOf station.now.graph station.now.order }
    ensures searched { IfOk result (HasSearched station.now.graph station.now.order trial_job
        (told_to L.tells L.learnt log.old log.new)) }
    ensures left { TellsIfNew (IsLeftOfDraw trial_job station.now.graph station.now.order) (L.tells log.old)
        (L.tells log.new) }
    ensures later { L.is_later log.old log.new }
    ensures faults { L.faults log.old ≤ L.faults log.new }
    ensures cause { IsErrOf result Cut.Unwritten → Rose (L.faults log.old) (L.faults log.new) }
{
    let grid = trial_grid();
    let order = trial_order();
    let search = BestSearch {
        station,
        grid: &grid,
        order: &order,
        budget: TRIAL_BUDGET,
    };
    search.search(alloc, log)
}

/// Appends the counts of a graph.
fn push_counts(graph: &PortGraph, into: &mut Vec<u8>) -> Result<(), OutOfMemory>
    ensures { OnOk result (into.new.items ≡ into.old.items ++ spaced (graph_counts graph.now)) }
{
    push_field(into, b"nodes")?;
    push_number_field(into, u32::from(graph.nodes()))?;
    push_field(into, b"edges")?;
    push_number_field(into, u32::from(graph.edges()))
}

/// Appends the values of a best drawing.
fn push_measures(best: &Drawing, into: &mut Vec<u8>) -> Result<(), OutOfMemory>
    ensures { OnOk result (into.new.items ≡ into.old.items ++ spaced (best_measures best.now)) }
{
    let least = values(best);
    push_field(into, b"height")?;
    push_number_field(into, least.height)?;
    push_field(into, b"width")?;
    push_number_field(into, least.width)
}

/// Appends the counts of a graph and the values of its best drawing.
fn push_best(graph: &PortGraph, best: &Drawing, into: &mut Vec<u8>) -> Result<(), OutOfMemory>
    ensures { OnOk result (into.new.items ≡ into.old.items ++ trial_end graph.now (Outcome.Best best.now)) }
{
    push_counts(graph, into)?;
    push_measures(best, into)
}

/// Appends how a trial ended.
fn push_end(graph: &PortGraph, outcome: &Outcome, into: &mut Vec<u8>) -> Result<(), OutOfMemory>
    ensures { OnOk result (into.new.items ≡ into.old.items ++ trial_end graph.now outcome.now) }
{
    match outcome {
        Outcome::Best(best) => push_best(graph, best, into),
        Outcome::NoDrawing => push_field(into, b"none"),
        Outcome::Spent { .. } => push_field(into, b"conflicts"),
        Outcome::Room { .. } => push_field(into, b"room"),
    }
}

/// The line of a trial.
fn line_of_trial(
    alloc: Global,
    n: u32,
    graph: &PortGraph,
    outcome: &Outcome,
) -> Result<Vec<u8>, OutOfMemory>
    ensures { IfOk result (λ line. line.items ≡ trial_line n graph.now outcome.now) }
{
    let mut line = Vec::from_slice(alloc, b"trial")?;
    push_number_field(&mut line, n)?;
    push_end(graph, outcome, &mut line)?;
    push_text(&mut line, b"\n")?;
    Ok(line)
}

/// What `trial` answers to a made station.
fn try_station<L: LogSink>(
    alloc: Global,
    n: u32,
    station: &Station,
    log: &mut L,
) -> Result<Reply, Cut>
    requires order { IsOrderOf station.now.graph station.now.order }
    ensures answer { IfOk result (λ r. IsTried n (told_to L.tells L.learnt log.old log.new) station.now.graph
        station.now.order
        r.status r.text.items) }
    ensures left { TellsIfNew (IsLeftOfDraw trial_job station.now.graph station.now.order) (L.tells log.old)
        (L.tells log.new) }
    ensures later { L.is_later log.old log.new }
    ensures faults { L.faults log.old ≤ L.faults log.new }
    ensures cause { IsErrOf result Cut.Unwritten → Rose (L.faults log.old) (L.faults log.new) }
{
    let outcome = search_trial(alloc, station, log)?;
    Ok(Reply {
        status: status_of(&outcome),
        text: line_of_trial(alloc, n, &station.graph, &outcome)?,
    })
}

/// What `trial` answers.
pub fn trial<L: LogSink>(alloc: Global, n: u32, log: &mut L) -> Result<Reply, Cut>
    ensures answer { IfOk result (λ r. IsFileJudged (IsTried n (told_to L.tells L.learnt log.old log.new))
        (station_text n)
        r.status r.text.items) }
    ensures derives { DerivesIfNew (L.tells log.old) (L.tells log.new) }
    ensures left { TellsIfNew (TrialMayTell n) (L.tells log.old) (L.tells log.new) }
    ensures later { L.is_later log.old log.new }
    ensures cause { IsErrOf result Cut.Unwritten → Rose (L.faults log.old) (L.faults log.new) }
    ensures untold { IsOkAnd result (λ r. IsRefused r.status) ⊎ (HasSomeStation (station_text n) → ⊥) → log.new
        ≡ log.old }
{
    let file = make(alloc, n)?;
    match station_in(alloc, &file) {
        Ok(station) => try_station(alloc, n, &station, log),
        Err(InputRefusal::Fault(fault)) => Ok(fault_reply(alloc, fault)?),
        Err(InputRefusal::Memory) => Err(Cut::Memory),
    }
}
