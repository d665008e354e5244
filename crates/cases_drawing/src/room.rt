// Formulas with just enough room, and with too little; how many variables and clauses they have.
use crate::reading::station_of;
use crate::stations::{ONE, TWO};
use cnf_core::{CnfFault, Formula, ROOM, Var};
use drawing_cnf::{add_base, add_moved_count, encode};
use edge_shape::NodeVars;
use law_core::why_formula;
use order_int::OrderInt;
use plan_core::{Grid, Point};
use std::alloc::Global;
use std::test::Fail;

/// Whether the formula of a file's station on a grid of this width and height has this room.
fn has_room(
    alloc: Global,
    file: &str,
    (width, height): (u16, u16),
    room: u32,
) -> Result<bool, Fail> {
    let grid = Grid::new(width, height).ok_or("a grid")?;
    let (graph, order) = station_of(alloc, file)?;
    match encode(alloc, &graph, &order, &grid, room.min(ROOM)) {
        Ok(_) => Ok(true),
        Err(CnfFault::Room) => Ok(false),
        Err(CnfFault::Memory) => Err(Fail::new("memory for a formula")),
    }
}

/// A file, the columns and rows of the grid, and whether a room is enough. The words of one track were counted by hand.
static ROOMS: [(&str, (u16, u16), u32, bool); 4] = [
    (TWO, (40, 8), 1, false),
    (TWO, (40, 8), ROOM, true),
    (ONE, (2, 1), 649, false),
    (ONE, (2, 1), 650, true),
];

fn fill_all(alloc: Global) -> Result<(), Fail> {
    for (file, grid, room, enough) in &ROOMS {
        if has_room(alloc, file, *grid, *room)? != *enough {
            return Err(Fail::new(*room));
        }
    }
    Ok(())
}

#[test]
fn a_formula_has_room_for_its_words(rt: HostRuntime) -> Result<(), Fail> {
    fill_all(rt.alloc())
}

/// The variables, clauses and words of a formula.
fn sizes(f: &Formula) -> [u32; 3] {
    [f.vars(), f.clauses(), f.words()]
}

/// Of one track on a grid of width 2 and height 1: its formula's sizes, and those of its nodes and its edge alone,
/// without the laws.
fn of_one_track(alloc: Global) -> Result<([u32; 3], [u32; 3]), Fail> {
    let grid = Grid::new(2, 1).ok_or("a grid")?;
    let (graph, order) = station_of(alloc, ONE)?;
    let e = encode(alloc, &graph, &order, &grid, ROOM)?;
    let mut base = Formula::new(alloc, ROOM)?;
    add_base(&mut base, &graph, &grid)?;
    Ok((sizes(e.formula()), sizes(&base)))
}

/// Of the same, where its laws are there to choose: its sizes, and how many laws there are.
fn with_laws_to_choose(alloc: Global) -> Result<([u32; 3], usize), Fail> {
    let grid = Grid::new(2, 1).ok_or("a grid")?;
    let (graph, order) = station_of(alloc, ONE)?;
    let why = why_formula(alloc, &graph, &order, &grid, ROOM)?;
    Ok((sizes(&why.formula), why.laws.len()))
}

/// Of one node, whose columns go to 2 and rows to 1, and which was in the corner: the sizes with those that count
/// whether it moved, and the count's variables.
fn of_a_node_that_may_move(alloc: Global) -> Result<([u32; 3], u32), CnfFault> {
    let mut f = Formula::new(alloc, ROOM)?;
    f.new_vars(3)?;
    let y = OrderInt {
        low: 0,
        high: 1,
        first: Var(1),
    };
    let x = OrderInt {
        low: 0,
        high: 2,
        first: Var(2),
    };
    let former = [Some(Point { x: 0, y: 0 })];
    let count = add_moved_count(alloc, &mut f, &[NodeVars { x, y }], &former)?;
    Ok((sizes(&f), count))
}

/// Counted by hand. The laws 2, 4 and 5 have 2 variables, 13 clauses and 66 words. Where they are to choose there are
/// two variables and a clause for each of four laws. Each of the laws' own clauses then has one literal more, and law
/// 5 is there for nodes in any order.
fn measure_all(alloc: Global) -> Result<(), Fail> {
    if of_one_track(alloc)? != ([27, 115, 650], [25, 102, 584]) {
        return Err(Fail::new("one track"));
    }
    if with_laws_to_choose(alloc)? != ([35, 122, 708], 4) {
        return Err(Fail::new("laws to choose"));
    }
    if of_a_node_that_may_move(alloc)? != ([5, 5, 26], 1) {
        return Err(Fail::new("a node that may move"));
    }
    Ok(())
}

#[test]
fn formulas_have_their_sizes(rt: HostRuntime) -> Result<(), Fail> {
    measure_all(rt.alloc())
}
