// Which clauses are looked at.
use crate::last_line::LastLine;
use crate::queries::{MANY, Query, add, ask, suggest};
use cdcl_core::{AddFault, Solver};
use std::alloc::Global;
use std::test::Fail;

/// So many clauses of two neighbouring variables, from a variable on; a query behind them, where all variables are
/// suggested to be true; and how many clauses are looked at.
struct Look {
    shows: &'static str,
    from: i32,
    count: i32,
    query: Query,
    seen: u64,
}

static LOOKS: [Look; 6] = [
    Look {
        shows: "Clauses without a false watch aren't looked at.",
        from: 4,
        count: 1_000,
        query: Query {
            clauses: &[&[-2, 3], &[-1, 2]],
            assume: &[1],
            budget: 0,
        },
        seen: 2,
    },
    Look {
        shows: "One clause of a thousand is looked at.",
        from: 3,
        count: 999,
        query: Query {
            clauses: &[&[1, 2]],
            assume: &[-1],
            budget: 0,
        },
        seen: 1,
    },
    Look {
        shows: "(1 2 3) is looked at and watched elsewhere, and then sets 3.",
        from: 4,
        count: 0,
        query: Query {
            clauses: &[&[1, 2, 3]],
            assume: &[-1, -2],
            budget: 0,
        },
        seen: 2,
    },
    Look {
        shows: "(1 2) is looked at where 2 is true.",
        from: 4,
        count: 0,
        query: Query {
            clauses: &[&[1, 2]],
            assume: &[2, -1],
            budget: 0,
        },
        seen: 1,
    },
    Look {
        shows: "(2 3 -1) is watched at 2 and 3, and isn't looked at where -1 is false.",
        from: 4,
        count: 0,
        query: Query {
            clauses: &[&[2, 3, -1]],
            assume: &[1],
            budget: 0,
        },
        seen: 0,
    },
    Look {
        shows: "(-1 2) and (-1 -2) clash before (-1 3 4), which is longer and came later, is looked at.",
        from: 5,
        count: 0,
        query: Query {
            clauses: &[&[-1, 2], &[-1, -2], &[-1, 3, 4]],
            assume: &[1],
            budget: 0,
        },
        seen: 2,
    },
];

/// Adds the clauses of neighbouring variables.
fn add_neighbours(
    alloc: Global,
    solver: &mut Solver,
    log: &mut LastLine,
    look: &Look,
) -> Result<(), AddFault> {
    for i in 0..look.count {
        let v = look.from.saturating_add(i.saturating_mul(2));
        add(alloc, solver, log, &[v, v.saturating_add(1)])?;
    }
    Ok(())
}

/// How many clauses are looked at until the query is answered.
fn seen_by(alloc: Global, look: &Look) -> Result<u64, AddFault> {
    let mut log = LastLine::of(alloc, MANY);
    let mut solver = Solver::new(alloc, 10_000)?;
    solver.add_vars(2_003)?;
    suggest(alloc, &mut solver, 2_003)?;
    add_neighbours(alloc, &mut solver, &mut log, look)?;
    ask(alloc, &mut solver, &mut log, &look.query)?;
    Ok(solver.visits())
}

fn look_at_all(alloc: Global) -> Result<(), Fail> {
    for look in &LOOKS {
        if seen_by(alloc, look)? != look.seen {
            return Err(Fail::new(look.shows));
        }
    }
    Ok(())
}

#[test]
fn clauses_are_looked_at_where_a_watch_is_false(rt: HostRuntime) -> Result<(), Fail> {
    look_at_all(rt.alloc())
}
