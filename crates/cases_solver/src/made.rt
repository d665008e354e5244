// Small formulas of drawn clauses.
use crate::case::Case;
use crate::draws::Draws;
use crate::trying::FEW;
use crate::written::literal;
use cdcl_core::{AddFault, Answer};
use cnf_core::Lit;
use std::alloc::Global;
use std::test::Fail;

/// What the queries of all formulas came to.
#[derive(Drop)]
struct Tally {
    models: u32,
    refuted: u32,
    learnt: u32,
    wrong: u32,
}

impl Tally {
    fn count(&mut self, answer: Option<Answer>) {
        match answer {
            Some(Answer::Model) => self.models = self.models.saturating_add(1),
            Some(Answer::Refuted) => self.refuted = self.refuted.saturating_add(1),
            _ => self.wrong = self.wrong.saturating_add(1),
        }
    }
}

fn drawn(draws: &mut Draws) -> Result<Lit, AddFault> {
    let v = draws.below(FEW).saturating_add(1);
    literal(FEW, v, draws.below(2) == 0)
}

/// Adds so many clauses, of three literals or of fewer where a variable is drawn twice.
fn give(case: &mut Case, draws: &mut Draws, count: u32) -> Result<(), Fail> {
    for _ in 0..count {
        case.give(&[drawn(draws)?, drawn(draws)?, drawn(draws)?])?;
    }
    Ok(())
}

/// A formula of this seed, with four queries and further clauses between them.
fn run(case: &mut Case, seed: u32, tally: &mut Tally) -> Result<(), Fail> {
    let mut draws = Draws::of(seed);
    give(case, &mut draws, 24)?;
    for count in 0..4 {
        let lits = [drawn(&mut draws)?, drawn(&mut draws)?, drawn(&mut draws)?];
        let answer = case.ask(&lits[..count])?;
        tally.count(answer);
        give(case, &mut draws, 6)?;
    }
    tally.learnt = tally.learnt.saturating_add(case.learnt());
    Ok(())
}

/// Runs 300 formulas, whose answers are right. There are as many models, refutations and learnt clauses, or more.
fn run_all(alloc: Global) -> Result<(), Fail> {
    let mut tally = Tally {
        models: 0,
        refuted: 0,
        learnt: 0,
        wrong: 0,
    };
    for seed in 0..300 {
        let mut case = Case::new(alloc, FEW)?;
        run(&mut case, seed, &mut tally)?;
        if tally.wrong > 0 {
            return Err(Fail::new(seed));
        }
    }
    if tally.models < 300 || tally.refuted < 300 || tally.learnt < 300 {
        return Err(Fail::new("many answers of each kind"));
    }
    Ok(())
}

#[test]
fn answers_are_those_of_all_assignments(rt: HostRuntime) -> Result<(), Fail> {
    run_all(rt.alloc())
}
