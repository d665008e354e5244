// Seven pigeons in six holes: a formula without models, for which many clauses are learnt.
use crate::case::Case;
use crate::written::literal;
use cdcl_core::{AddFault, Answer};
use cnf_core::Lit;
use plan_core::OutOfMemory;
use std::alloc::Global;
use std::test::Fail;

/// The literal that says that a pigeon sits in a hole, both counted from 0, or that it doesn't.
fn sits(pigeon: u32, hole: u32, so: bool) -> Result<Lit, AddFault> {
    let before = pigeon.saturating_mul(6).saturating_add(hole);
    literal(42, before.saturating_add(1), so)
}

/// A pigeon sits in one of the holes.
fn give_pigeon(alloc: Global, case: &mut Case, pigeon: u32) -> Result<(), Fail> {
    let mut lits = Vec::new(alloc);
    for hole in 0..6 {
        lits.push(sits(pigeon, hole, true)?)?;
    }
    case.give(&lits)?;
    Ok(())
}

/// No pigeon sits where an earlier one does.
fn part(case: &mut Case, pigeon: u32) -> Result<(), Fail> {
    for earlier in 0..pigeon {
        for hole in 0..6 {
            case.give(&[sits(pigeon, hole, false)?, sits(earlier, hole, false)?])?;
        }
    }
    Ok(())
}

/// The case of the whole formula.
fn crowd(alloc: Global) -> Result<Case, Fail> {
    let mut case = Case::new(alloc, 42)?;
    for pigeon in 0..7 {
        give_pigeon(alloc, &mut case, pigeon)?;
        part(&mut case, pigeon)?;
    }
    Ok(case)
}

/// Asks within a budget: the answer, how many clauses were learnt, and whether the checker accepted a refutation.
fn ask(case: &mut Case, budget: u32) -> Result<(Option<Answer>, u32, bool), OutOfMemory> {
    let answer = case.ask_all(budget)?;
    Ok((answer, case.learnt(), case.is_refuted()))
}

/// After each 256 learnt clauses a search starts again from level 0, here three times. How many clauses it learns hangs
/// on that, on what is bumped and how it fades, and on the truth values that are tried first.
fn ask_twice(alloc: Global) -> Result<(), Fail> {
    let mut case = crowd(alloc)?;
    if ask(&mut case, 20)? != (Some(Answer::Spent), 20, false) {
        return Err(Fail::new("a budget is spent"));
    }
    if ask(&mut case, 100_000)? != (Some(Answer::Refuted), 875, true) {
        return Err(Fail::new("it is refuted by 875 learnt clauses"));
    }
    Ok(())
}

#[test]
fn seven_pigeons_dont_fit_six_holes(rt: HostRuntime) -> Result<(), Fail> {
    ask_twice(rt.alloc())
}
