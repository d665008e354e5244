// Drawings as models of their formulas, and back.
ghost use Rattle.drawing_cnf.specs.Whole.{IsWhole};

use crate::pictures::{
    BACK_BEST, CROSS_BEST, CROSS_WIDE, LOOP_BEST, LOOP_SWAPPED, LOOP_WIDE, ONE_HIGH, ONE_LEVEL,
    ONE_STEP, SCISSORS_BEST, TWO_FALLING, TWO_RISING,
};
use crate::reading::{drawing_of, model_of, station_of};
use crate::stations::{BACK, CROSS, LOOP, ONE, SCISSORS, TWO};
use crate::trying::satisfies;
use cnf_core::ROOM;
use drawing_cnf::{Encoded, encode};
use model_decode::decode;
use plan_core::{EdgeNo, Grid, NodeNo};
use plan_geometry::Drawing;
use std::alloc::Global;
use std::test::Fail;

/// A drawing of a file's station on a grid of this width, height and least length.
struct Case {
    shows: &'static str,
    file: &'static str,
    grid: (u16, u16, u16),
    picture: &'static str,
}

/// Whether two drawings have the same points and lines.
fn is_same(a: &Drawing, b: &Drawing) -> bool {
    if a.nodes() != b.nodes() || a.edges() != b.edges() {
        return false;
    }
    for n in 0..a.nodes() {
        if n >= b.nodes() || a.place(NodeNo(n)) != b.place(NodeNo(n)) {
            return false;
        }
    }
    for e in 0..a.edges() {
        if e >= b.edges() || a.line(EdgeNo(e)).points() != b.line(EdgeNo(e)).points() {
            return false;
        }
    }
    true
}

/// Whether a drawing's model satisfies each clause, and the drawing comes back from it.
fn comes_back(alloc: Global, e: &Encoded, d: &Drawing) -> Result<bool, Fail>
    requires { IsWhole e.now }
{
    let m = model_of(alloc, e, d)?;
    let again = decode(alloc, e, &m)?;
    Ok(satisfies(&m, e.formula()) && is_same(&again, d))
}

/// The same of a case's drawing.
fn comes_back_in(alloc: Global, case: &Case) -> Result<bool, Fail> {
    let (width, height, least) = case.grid;
    let grid = Grid::with_least(width, height, least).ok_or("a grid")?;
    let (graph, order) = station_of(alloc, case.file)?;
    let d = drawing_of(alloc, &graph, case.picture)?;
    let e = encode(alloc, &graph, &order, &grid, ROOM)?;
    comes_back(alloc, &e, &d)
}

static CASES: [Case; 14] = [
    Case {
        shows: "The best drawing of the loop on the usual grid.",
        file: LOOP,
        grid: (40, 8, 1),
        picture: LOOP_BEST,
    },
    Case {
        shows: "The grid has just the loop's columns and rows.",
        file: LOOP,
        grid: (5, 1, 1),
        picture: LOOP_BEST,
    },
    Case {
        shows: "Two columns for each edge of the loop.",
        file: LOOP,
        grid: (12, 3, 2),
        picture: LOOP_WIDE,
    },
    Case {
        shows: "The main track turns off below the loop.",
        file: LOOP,
        grid: (12, 3, 1),
        picture: LOOP_SWAPPED,
    },
    Case {
        shows: "The loop is listed from east to west.",
        file: BACK,
        grid: (12, 3, 1),
        picture: BACK_BEST,
    },
    Case {
        shows: "The crossover is a diagonal of one column.",
        file: CROSS,
        grid: (12, 3, 1),
        picture: CROSS_BEST,
    },
    Case {
        shows: "The crossover is a diagonal of two columns, the least length of each edge.",
        file: CROSS,
        grid: (12, 3, 2),
        picture: CROSS_WIDE,
    },
    Case {
        shows: "The crossover is longer than the least length.",
        file: CROSS,
        grid: (6, 2, 1),
        picture: CROSS_WIDE,
    },
    Case {
        shows: "The crossovers of the scissors share a crossing.",
        file: SCISSORS,
        grid: (8, 3, 1),
        picture: SCISSORS_BEST,
    },
    Case {
        shows: "A grid of height 0.",
        file: ONE,
        grid: (12, 0, 1),
        picture: ONE_LEVEL,
    },
    Case {
        shows: "A grid of width 1 and height 0.",
        file: ONE,
        grid: (1, 0, 1),
        picture: ONE_STEP,
    },
    Case {
        shows: "A grid of width 1.",
        file: ONE,
        grid: (1, 8, 1),
        picture: ONE_HIGH,
    },
    Case {
        shows: "The second of two tracks is the upper one.",
        file: TWO,
        grid: (1, 1, 1),
        picture: TWO_RISING,
    },
    Case {
        shows: "The first of two tracks is the upper one.",
        file: TWO,
        grid: (12, 5, 1),
        picture: TWO_FALLING,
    },
];

fn all_come_back(alloc: Global) -> Result<(), Fail> {
    for case in &CASES {
        if !comes_back_in(alloc, case)? {
            return Err(Fail::new(case.shows));
        }
    }
    Ok(())
}

#[test]
fn drawings_are_models_and_come_back(rt: HostRuntime) -> Result<(), Fail> {
    all_come_back(rt.alloc())
}
