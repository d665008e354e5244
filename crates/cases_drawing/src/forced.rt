// A model has no truth value to spare, but one for each two nodes in two columns.
use crate::pictures::{LOOP_BEST, ONE_STEP};
use crate::reading::{drawing_of, model_of, station_of};
use crate::stations::{LOOP, ONE};
use crate::trying::{is_true, satisfies, set};
use cnf_core::{Formula, ROOM, Truths};
use drawing_cnf::encode;
use plan_core::Grid;
use std::alloc::Global;
use std::test::Fail;

/// How many of the variables may have the other truth value in a model.
fn count_free(f: &Formula, m: &mut Truths) -> u32 {
    let mut count: u32 = 0;
    for v in 1..=f.vars() {
        let value = is_true(m, v);
        set(m, v, !value);
        if satisfies(m, f) {
            count = count.saturating_add(1);
        }
        set(m, v, value);
    }
    count
}

/// The same in the model of a picture's drawing, on a grid of this width and height.
fn free_in(
    alloc: Global,
    file: &str,
    picture: &str,
    (width, height): (u16, u16),
) -> Result<u32, Fail> {
    let grid = Grid::new(width, height).ok_or("a grid")?;
    let (graph, order) = station_of(alloc, file)?;
    let e = encode(alloc, &graph, &order, &grid, ROOM)?;
    let d = drawing_of(alloc, &graph, picture)?;
    let mut m = model_of(alloc, &e, &d)?;
    Ok(count_free(e.formula(), &mut m))
}

/// All but one variable for each pair of nodes in two columns, which says what of their rows.
fn are_forced(alloc: Global) -> Result<(), Fail> {
    if free_in(alloc, ONE, ONE_STEP, (2, 1))? != 1 {
        return Err(Fail::new("one track"));
    }
    if free_in(alloc, LOOP, LOOP_BEST, (5, 1))? != 6 {
        return Err(Fail::new("the loop"));
    }
    Ok(())
}

#[test]
fn a_model_is_forced_by_its_drawing(rt: HostRuntime) -> Result<(), Fail> {
    are_forced(rt.alloc())
}
