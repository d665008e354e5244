// Searches of small stations: what the solver keeps of what is told, and rooms that are full.
ghost use Rattle.track_order.specs.Order.{IsOrderOf};

use crate::counted::CountedLog;
use crate::reading::station_of;
use crate::stations::{LOOP, ONE};
use cdcl_core::Solver;
use cnf_core::ROOM;
use lex_minimise::{Limits, Outcome, minimise, minimise_with};
use plan_core::{Criterion, Grid, Order, Values};
use plan_geometry::values;
use port_graph::PortGraph;
use std::alloc::Global;
use std::test::Fail;
use track_order::TrackOrder;

/// How a search ends: in a word, with its drawing's values, if it has one, and how many criteria it says are settled.
/// It has how many bounds came too, if any line did.
type Ending = (&'static str, Option<Values>, u8, Option<u32>);

/// What a search is asked: the columns and rows of its grid, and its room; and how it ends.
struct Search {
    shows: &'static str,
    file: &'static str,
    grid: (u16, u16),
    room: u32,
    ends: Ending,
}

const LOOP_VALUES: Option<Values> = Some(Values {
    height: 1,
    bends: 2,
    diagonal: 2,
    width: 5,
});

const ONE_VALUES: Option<Values> = Some(Values {
    height: 0,
    bends: 0,
    diagonal: 0,
    width: 1,
});

/// The words of the formula of one track on a grid of one step.
const WORDS_OF_ONE: u32 = 298;

static SEARCHES: [Search; 5] = [
    Search {
        shows: "The loop.",
        file: LOOP,
        grid: (40, 8),
        room: ROOM,
        ends: ("best", LOOP_VALUES, 0, Some(14)),
    },
    Search {
        shows: "There is no drawing of four columns.",
        file: LOOP,
        grid: (4, 8),
        room: ROOM,
        ends: ("none", None, 0, Some(0)),
    },
    Search {
        shows: "One track on a grid of one step.",
        file: ONE,
        grid: (1, 0),
        room: ROOM,
        ends: ("best", ONE_VALUES, 0, Some(3)),
    },
    Search {
        shows: "With room for its formula alone there is a drawing, and no bound is told.",
        file: ONE,
        grid: (1, 0),
        room: WORDS_OF_ONE,
        ends: ("room", ONE_VALUES, 3, Some(0)),
    },
    Search {
        shows: "Without room for the formula nothing is told.",
        file: ONE,
        grid: (40, 8),
        room: 1,
        ends: ("room", None, 0, None),
    },
];

/// The default order.
fn height_first() -> Option<Order> {
    Order::new(&[
        Criterion::Height,
        Criterion::Bends,
        Criterion::Diagonal,
        Criterion::Width,
    ])
}

/// How an outcome ends, behind the lines that came.
fn ending_of(outcome: &Outcome, log: &CountedLog) -> Ending {
    let (word, found, settled) = match outcome {
        Outcome::Best(d) => ("best", Some(d), 0),
        Outcome::NoDrawing => ("none", None, 0),
        Outcome::Spent { best, settled } => ("conflicts", best.as_ref(), *settled),
        Outcome::Room { best, settled } => ("room", best.as_ref(), *settled),
    };
    let bounds = if log.lines > 0 {
        Some(log.bounds)
    } else {
        None
    };
    match found {
        Some(d) => (word, Some(values(d)), settled, bounds),
        None => (word, None, settled, bounds),
    }
}

/// The search of a station for the best drawing, within a room. All that the solver keeps came once.
fn searched(
    alloc: Global,
    g: &PortGraph,
    t: &TrackOrder,
    grid: &Grid,
    room: u32,
) -> Result<Ending, Fail>
    requires { IsOrderOf g.now t.now }
{
    let order = height_first().ok_or("an order")?;
    let limits = Limits {
        budget: 100_000,
        room: room.min(ROOM),
    };
    let mut log = CountedLog::new();
    let mut solver = Solver::new(alloc, limits.room)?;
    let outcome = minimise_with(alloc, g, t, grid, &order, &limits, &mut solver, &mut log)?;
    if u64::from(solver.learnt()) != log.learnt || solver.words() != log.words {
        return Err(Fail::new("all that the solver keeps was told once"));
    }
    Ok(ending_of(&outcome, &log))
}

/// Whether a search ends as it is to.
fn is_as_told(alloc: Global, search: &Search) -> Result<bool, Fail> {
    let (g, t) = station_of(alloc, search.file)?;
    let grid = Grid::new(search.grid.0, search.grid.1).ok_or("a grid")?;
    Ok(searched(alloc, &g, &t, &grid, search.room)? == search.ends)
}

fn search_all(alloc: Global) -> Result<(), Fail> {
    for search in &SEARCHES {
        if !is_as_told(alloc, search)? {
            return Err(Fail::new(search.shows));
        }
    }
    Ok(())
}

#[test]
fn searches_end_and_tell_what_is_kept(rt: HostRuntime) -> Result<(), Fail> {
    search_all(rt.alloc())
}

/// A search with a solver of its own in a room of one word, which is full before any line comes.
fn search_in_one_word(alloc: Global) -> Result<(), Fail> {
    let (g, t) = station_of(alloc, ONE)?;
    let grid = Grid::new(40, 8).ok_or("a grid")?;
    let order = height_first().ok_or("an order")?;
    let limits = Limits {
        budget: 100_000,
        room: 1,
    };
    let mut log = CountedLog::new();
    let outcome = minimise(alloc, &g, &t, &grid, &order, &limits, &mut log)?;
    if ending_of(&outcome, &log) != ("room", None, 0, None) {
        return Err(Fail::new("a room of one word"));
    }
    Ok(())
}

#[test]
fn a_search_with_a_solver_of_its_own_ends_in_a_room(rt: HostRuntime) -> Result<(), Fail> {
    search_in_one_word(rt.alloc())
}
