// What hardly any run shows of a command's words: how many clauses its search may learn.
use plan_words::{Command, read_words};
use std::alloc::Global;
use std::test::Fail;

/// The budget of a command that searches; 0 of another.
fn budget_of(command: &Command) -> u32 {
    match command {
        Command::Draw { budget, .. }
        | Command::Signals { budget, .. }
        | Command::Front { budget, .. }
        | Command::Redraw { budget, .. }
        | Command::Explain { budget, .. } => *budget,
        _ => 0,
    }
}

/// The budget of the command that these words, parted by spaces, ask for.
fn budget_in(alloc: Global, words: &str) -> Result<u32, Fail> {
    let mut list = Vec::new(alloc);
    for word in words.split(' ') {
        list.push(String::from_str(alloc, word)?)?;
    }
    Ok(budget_of(&read_words(alloc, &list)?))
}

static BUDGETS: [(&str, u32); 10] = [
    ("draw a", 50_000),
    ("draw a --conflicts 200000", 200_000),
    ("signals a", 50_000),
    ("signals --conflicts 1 a", 1),
    ("front a height,width", 50_000),
    ("front a height,width --conflicts 7", 7),
    ("redraw a b s", 50_000),
    ("redraw a b --conflicts 8 s", 8),
    ("explain a", 50_000),
    ("explain a --conflicts 9", 9),
];

fn read_all(alloc: Global) -> Result<(), Fail> {
    for (words, budget) in &BUDGETS {
        if budget_in(alloc, words)? != *budget {
            return Err(Fail::new(*words));
        }
    }
    Ok(())
}

#[test]
fn a_search_may_learn_so_many_clauses(rt: HostRuntime) -> Result<(), Fail> {
    read_all(rt.alloc())
}
