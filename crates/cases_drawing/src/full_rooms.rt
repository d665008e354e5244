// Searches of the loop for a front, and for the fewest moved nodes, whose rooms are full on the way.
use crate::counted::CountedLog;
use crate::reading::station_of;
use crate::stations::LOOP;
use cnf_core::ROOM;
use lex_minimise::{FrontEnd, Limits, front};
use plan_core::{Criterion, Grid, Point};
use search_moved::{Fewest, fewest_moved};
use std::alloc::Global;
use std::test::Fail;

/// The grid's columns and rows and the room, and how many bounds come before it is full. None of them is a pair's.
static FRONTS: [((u16, u16), u32, u32); 2] = [((40, 8), 1, 0), ((6, 2), 9_221, 8)];

/// How many bounds the search for the front of height and width tells until its room is full; none where it ends
/// otherwise.
fn bounds_before(
    alloc: Global,
    (width, height): (u16, u16),
    room: u32,
) -> Result<Option<u32>, Fail> {
    let (g, t) = station_of(alloc, LOOP)?;
    let grid = Grid::new(width, height).ok_or("a grid")?;
    let mut log = CountedLog::new();
    let found = front(
        alloc,
        &g,
        &t,
        &grid,
        Criterion::Height,
        Criterion::Width,
        50_000,
        room.min(ROOM),
        &mut log,
    )?;
    if found.ending != FrontEnd::Room || found.pairs.len() > 0 {
        return Ok(None);
    }
    Ok(Some(log.bounds))
}

/// The grid's columns and rows, where the loop's nodes were, and the room; and whether a drawing is found before it
/// is full. Without one no line comes.
static MOVES: [((u16, u16), &[(u16, u16)], u32, bool); 2] = [
    ((40, 8), &[(0, 0), (5, 0), (1, 0), (4, 0)], 1, false),
    ((6, 2), &[(2, 2), (0, 0), (1, 0), (4, 0)], 8_908, true),
];

/// Whether the search for the fewest moved nodes has a drawing when its room is full, and whether a line came. None
/// where it ends otherwise.
fn drawn_before(
    alloc: Global,
    (width, height): (u16, u16),
    former: &[(u16, u16)],
    room: u32,
) -> Result<Option<(bool, bool)>, Fail> {
    let (g, t) = station_of(alloc, LOOP)?;
    let grid = Grid::new(width, height).ok_or("a grid")?;
    let mut points = Vec::new(alloc);
    for (x, y) in former {
        points.push(Some(Point { x: *x, y: *y }))?;
    }
    if points.len() != usize::from(g.nodes()) {
        return Err(Fail::new("a point for each node"));
    }
    let limits = Limits {
        budget: 50_000,
        room: room.min(ROOM),
    };
    let mut log = CountedLog::new();
    match fewest_moved(alloc, &g, &t, &grid, &points, &limits, &mut log)? {
        Fewest::Room(found) => Ok(Some((found.is_some(), log.lines > 0))),
        _ => Ok(None),
    }
}

fn fill_all(alloc: Global) -> Result<(), Fail> {
    for (grid, room, bounds) in &FRONTS {
        if bounds_before(alloc, *grid, *room)? != Some(*bounds) {
            return Err(Fail::new(*bounds));
        }
    }
    for (grid, former, room, drawn) in &MOVES {
        if drawn_before(alloc, *grid, former, *room)? != Some((*drawn, *drawn)) {
            return Err(Fail::new(*room));
        }
    }
    Ok(())
}

#[test]
fn a_room_is_full_on_the_way(rt: HostRuntime) -> Result<(), Fail> {
    fill_all(rt.alloc())
}
