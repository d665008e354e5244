// What was worked out by hand of formulas, integers, sums and lines.
use crate::assignments::{is_true, models};
use cnf_core::{CnfFault, Formula, Lit, LitOrTruth, ROOM, Truths, Var};
use order_int::{equal, less_equal, new_int};
use plan_core::Point;
use plan_geometry::Line;
use std::alloc::Global;
use std::test::Fail;
use unary_sum::Sum;

/// A formula of three variables takes a clause of two literals in a room of 8, and behind it none of one: its words,
/// whether the second was refused, and how many clauses it has.
fn filled(alloc: Global) -> Result<(u32, bool, u32), CnfFault> {
    let mut f = Formula::new(alloc, 8)?;
    f.new_vars(3)?;
    f.add(&[Lit::new(Var(1), true), Lit::new(Var(2), true)])?;
    let words = f.words();
    let is_full = matches!(f.add(&[Lit::new(Var(3), true)]), Err(CnfFault::Room));
    Ok((words, is_full, f.clauses()))
}

/// The greatest variable that a formula may have, and whether there is none behind it.
fn last_variable(alloc: Global) -> Result<(u32, bool), CnfFault> {
    let mut f = Formula::new(alloc, 0)?;
    f.new_vars(16_777_215)?;
    let last = f.new_var()?.0;
    Ok((last, matches!(f.new_var(), Err(CnfFault::Room))))
}

fn fill(alloc: Global) -> Result<(), Fail> {
    if filled(alloc)? != (5, true, 1) {
        return Err(Fail::new("a room of 8"));
    }
    if last_variable(alloc)? != (16_777_216, true) {
        return Err(Fail::new("the greatest variable"));
    }
    Ok(())
}

#[test]
fn a_formula_takes_clauses_and_variables_up_to_its_room(rt: HostRuntime) -> Result<(), Fail> {
    fill(rt.alloc())
}

/// Whether an integer of one number has no variable, and is at least that number and not one more.
fn is_settled(alloc: Global) -> Result<bool, CnfFault> {
    let mut f = Formula::new(alloc, ROOM)?;
    let i = new_int(&mut f, 2, 2)?;
    let at_least = i.at_least(2) == LitOrTruth::True && i.at_least(3) == LitOrTruth::False;
    Ok(f.vars() == 0 && at_least)
}

/// Whether a sum of three inputs has seven variables, and a model for each setting of the inputs. Two of them are at
/// least 1 and 2 in its model.
fn is_two(alloc: Global) -> Result<bool, CnfFault> {
    let mut f = Formula::new(alloc, ROOM)?;
    f.new_vars(3)?;
    let inputs = [
        Lit::new(Var(1), true),
        Lit::new(Var(2), true),
        Lit::new(Var(3), true),
    ];
    let sum = Sum::build(alloc, &mut f, &inputs, 2)?;
    let mut counting = Truths::all_false(alloc, f.vars())?;
    if f.vars() != 7 || models(&f, &mut counting) != 8 {
        return Ok(false);
    }
    let mut m = Truths::from_bools(alloc, &[true, false, true, true, false, true, false])?;
    sum.put(&mut m);
    Ok(is_true(&m, sum.at_least(1)) && is_true(&m, sum.at_least(2)))
}

fn count(alloc: Global) -> Result<(), Fail> {
    if !is_settled(alloc)? {
        return Err(Fail::new("an integer of one number"));
    }
    if !is_two(alloc)? {
        return Err(Fail::new("two of three"));
    }
    Ok(())
}

#[test]
fn an_integer_and_a_sum_are_at_least_so_great(rt: HostRuntime) -> Result<(), Fail> {
    count(rt.alloc())
}

/// Of pairs of numbers from 0 to 3 and from 1 to 3: how many there are of which the first with `plus` is at most the
/// second. Without `plus`, how many are equal. There are as many as models.
fn pairs(alloc: Global, plus: Option<u32>) -> Result<u32, CnfFault> {
    let mut f = Formula::new(alloc, ROOM)?;
    let a = new_int(&mut f, 0, 3)?;
    let b = new_int(&mut f, 1, 3)?;
    match plus {
        Some(plus) => less_equal(&mut f, &a, &b, plus.min(4), &[])?,
        None => equal(&mut f, &a, &b, &[])?,
    }
    let mut m = Truths::all_false(alloc, f.vars())?;
    Ok(models(&f, &mut m))
}

/// What is added to the first, and how many pairs there are then; none where they are equal.
static PAIRS: [(Option<u32>, u32); 6] = [
    (Some(0), 9),
    (Some(1), 6),
    (Some(2), 3),
    (Some(3), 1),
    (Some(4), 0),
    (None, 3),
];

fn pair_all(alloc: Global) -> Result<(), Fail> {
    for (plus, count) in &PAIRS {
        if pairs(alloc, *plus)? != *count {
            return Err(Fail::new(*count));
        }
    }
    Ok(())
}

#[test]
fn an_order_has_a_model_for_each_pair_in_order(rt: HostRuntime) -> Result<(), Fail> {
    pair_all(rt.alloc())
}

static RISING: [Point; 2] = [Point { x: 0, y: 0 }, Point { x: 2, y: 2 }];

static PEAKED: [Point; 3] = [
    Point { x: 0, y: 0 },
    Point { x: 1, y: 1 },
    Point { x: 2, y: 0 },
];

static STEPPED: [Point; 4] = [
    Point { x: 0, y: 0 },
    Point { x: 1, y: 1 },
    Point { x: 2, y: 1 },
    Point { x: 4, y: 3 },
];

/// The bends and the diagonal of a line, and its height in a column, where the points are a line.
fn measured(points: &[Point], column: u16) -> Option<(u32, u32, u16)> {
    let line = Line::new(points)?;
    Some((line.bends(), line.diagonal(), line.height_at(column)?))
}

fn measure() -> Result<(), Fail> {
    if measured(&RISING, 1) != Some((0, 2, 1)) {
        return Err(Fail::new("a rising line"));
    }
    if measured(&PEAKED, 1).is_some() {
        return Err(Fail::new("a peak without a level"));
    }
    if measured(&STEPPED, 3) != Some((2, 3, 2)) {
        return Err(Fail::new("up, level and up"));
    }
    Ok(())
}

#[test]
fn a_line_has_one_of_the_shapes(_rt: HostRuntime) -> Result<(), Fail> {
    measure()
}
