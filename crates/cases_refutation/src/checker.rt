// Lines of small logs with their answers and verdicts, and a log of two long chains.
ghost use Rattle.std.specs.Prelude.{◌≤◌};

use cnf_core::{Clause, Lit, Var};
use refute_check::{Checker, LineFault};
use refute_log::{LogLine, read_line};
use std::alloc::Global;
use std::test::Fail;

/// A room. Lines that a new checker with this room gets, each with its answer. The verdicts behind them, where no
/// literal is allowed, where 1 is, and where 1 and 2 are.
struct Log {
    room: u32,
    lines: &'static [(&'static str, &'static str)],
    verdicts: [bool; 3],
}

static LOGS: [Log; 16] = [
    Log {
        room: 100,
        lines: &[
            ("f 1 2 3 0", "Accepted"),
            ("f 1 2 -3 0", "Accepted"),
            ("l 1 2 0", "Accepted"),
        ],
        verdicts: [false, false, false],
    },
    Log {
        room: 100,
        lines: &[
            ("f 1 2 3 0", "Accepted"),
            ("f 1 2 -3 0", "Accepted"),
            ("l 1 0", "NotImplied"),
            ("m", "Accepted"),
            ("b bends 1 1", "Accepted"),
        ],
        verdicts: [false, false, false],
    },
    Log {
        room: 100,
        lines: &[
            ("r 0", "WrongQuery"),
            ("f 1 2 0", "Accepted"),
            ("f 1 -2 0", "Accepted"),
            ("f -1 2 0", "Accepted"),
            ("f -1 -2 0", "Accepted"),
            ("r 0", "WrongQuery"),
            ("l 3 1 0", "NewVar"),
            ("q -1 0", "Accepted"),
            ("r 2 0", "WrongQuery"),
            ("q 0", "Accepted"),
            ("r 0", "NotImplied"),
            ("r 3 0", "NewVar"),
            ("l 1 0", "Accepted"),
            ("l 1 0", "NotNew"),
            ("r 0", "Accepted"),
            ("l 2 0", "NotNew"),
            ("q 3 0", "NewVar"),
        ],
        verdicts: [true, true, true],
    },
    Log {
        room: 100,
        lines: &[
            ("f 1 3 0", "Accepted"),
            ("f 1 4 0", "Accepted"),
            ("f 2 -3 -4 0", "Accepted"),
            ("l 2 1 0", "NotNew"),
            ("l 1 2 0", "Accepted"),
        ],
        verdicts: [false, false, false],
    },
    Log {
        room: 100,
        lines: &[
            ("q 0", "Accepted"),
            ("r 0", "NotImplied"),
            ("f 0", "Accepted"),
            ("r 0", "Accepted"),
            ("f 1 2 0", "Accepted"),
            ("l 1 0", "NotNew"),
        ],
        verdicts: [true, true, true],
    },
    Log {
        room: 100,
        lines: &[
            ("f -1 0", "Accepted"),
            ("f 2 3 0", "Accepted"),
            ("q 1 0", "Accepted"),
            ("r 0", "NotImplied"),
            ("r 1 0", "WrongQuery"),
            ("r -1 0", "Accepted"),
        ],
        verdicts: [false, false, false],
    },
    Log {
        room: 100,
        lines: &[
            ("f -1 2 0", "Accepted"),
            ("f -2 3 0", "Accepted"),
            ("f -3 4 0", "Accepted"),
            ("f -4 -1 0", "Accepted"),
            ("q 1 5 0", "NewVar"),
            ("q 1 2 0", "Accepted"),
            ("r -1 0", "Accepted"),
            ("l -1 0", "Accepted"),
            ("l 2 0", "NotImplied"),
        ],
        verdicts: [false, false, false],
    },
    Log {
        room: 12,
        lines: &[
            ("f 1 2 3 0", "Accepted"),
            ("f 1 2 3 4 0", "Room"),
            ("l 4 1 0", "NewVar"),
            ("f 1 2 -3 0", "Accepted"),
            ("l 1 2 0", "Room"),
            ("f 0", "Room"),
        ],
        verdicts: [false, false, false],
    },
    Log {
        room: 100,
        lines: &[
            ("f 16777217 0", "Room"),
            ("f 7 0", "Accepted"),
            ("q -5 0", "Accepted"),
            ("l 8 0", "NewVar"),
        ],
        verdicts: [false, false, false],
    },
    Log {
        room: 2,
        lines: &[("f 0", "Room")],
        verdicts: [false, false, false],
    },
    Log {
        room: 3,
        lines: &[("f 0", "Accepted")],
        verdicts: [false, false, false],
    },
    // The literal behind the first is false already, and yet the line is new.
    Log {
        room: 100,
        lines: &[
            ("f -1 0", "Accepted"),
            ("f 1 2 3 0", "Accepted"),
            ("f 1 2 -3 0", "Accepted"),
            ("l 2 1 0", "Accepted"),
        ],
        verdicts: [false, false, false],
    },
    // A clause of four literals is counted down twice by lines that are refused. It is counted back each time, and the
    // last line rests on it.
    Log {
        room: 100,
        lines: &[
            ("f 1 2 3 4 5 0", "Accepted"),
            ("f 1 2 3 4 -5 0", "Accepted"),
            ("f -4 6 0", "Accepted"),
            ("f -4 -6 0", "Accepted"),
            ("l 1 2 3 4 0", "Accepted"),
            ("l 1 2 0", "NotImplied"),
            ("l 3 2 0", "NotImplied"),
            ("l 1 2 3 0", "Accepted"),
        ],
        verdicts: [false, false, false],
    },
    // Only Formula lines in front of a line name variables for it.
    Log {
        room: 100,
        lines: &[
            ("f 1 2 0", "Accepted"),
            ("b height 1 3", "Accepted"),
            ("q 3 0", "NewVar"),
            ("f 2 3 0", "Accepted"),
            ("q 3 0", "Accepted"),
        ],
        verdicts: [false, false, false],
    },
    // A verdict wants a Refuted line whose literals are all allowed.
    Log {
        room: 100,
        lines: &[
            ("f 1 2 0", "Accepted"),
            ("f -1 0", "Accepted"),
            ("q -2 -1 0", "Accepted"),
            ("r 0", "NotImplied"),
            ("r 2 0", "Accepted"),
        ],
        verdicts: [false, false, true],
    },
    // A Query line and a Learnt one are none.
    Log {
        room: 100,
        lines: &[
            ("f 1 2 0", "Accepted"),
            ("f 1 -2 0", "Accepted"),
            ("f -1 2 0", "Accepted"),
            ("f -1 -2 0", "Accepted"),
            ("q 0", "Accepted"),
            ("r 0", "NotImplied"),
            ("l 1 0", "Accepted"),
        ],
        verdicts: [false, false, false],
    },
];

/// What a checker answers to the line of a text.
fn told(alloc: Global, checker: &mut Checker, text: &str) -> Result<&'static str, Fail> {
    let line = read_line(alloc, text.as_bytes(), 1)?;
    Ok(match checker.feed(&line) {
        Ok(()) => "Accepted",
        Err(LineFault::NewVar) => "NewVar",
        Err(LineFault::WrongQuery) => "WrongQuery",
        Err(LineFault::Room) => "Room",
        Err(LineFault::NotImplied) => "NotImplied",
        Err(LineFault::NotNew) => "NotNew",
        Err(LineFault::Memory) => "Memory",
    })
}

/// A checker's verdicts, as a `Log` has them.
fn verdicts_of(checker: &Checker) -> [bool; 3] {
    let one = Lit::new(Var(1), true);
    let two = Lit::new(Var(2), true);
    [
        checker.verdict(&[]),
        checker.verdict(&[one]),
        checker.verdict(&[one, two]),
    ]
}

/// Gives a new checker the lines of a log, which have their answers and verdicts.
fn play(alloc: Global, log: &Log) -> Result<(), Fail> {
    let mut checker = Checker::new(alloc, log.room.min(1_000))?;
    for (text, answer) in log.lines {
        if told(alloc, &mut checker, text)? != *answer {
            return Err(Fail::new(*text));
        }
    }
    if verdicts_of(&checker) != log.verdicts {
        return Err(Fail::new("other verdicts"));
    }
    Ok(())
}

fn play_all(alloc: Global) -> Result<(), Fail> {
    for log in &LOGS {
        play(alloc, log)?;
    }
    Ok(())
}

#[test]
fn each_line_has_its_answer_and_each_log_its_verdicts(rt: HostRuntime) -> Result<(), Fail> {
    play_all(rt.alloc())
}

/// How many links each of the two chains of the long log has.
const LINKS: u32 = 2_000;

/// The literal of a variable.
fn literal(v: u32, positive: bool) -> Lit
    requires from { 1 ≤ v }
    requires to { v ≤ 10000 }
{
    Lit::new(Var(v), positive)
}

/// Gives a Formula line: one of two literals is true where the variable 1 is false.
fn tell_either(alloc: Global, checker: &mut Checker, a: Lit, b: Lit) -> Result<(), Fail> {
    if a.var().0 == 1 || b.var().0 == 1 || a.var().0 == b.var().0 {
        return Err(Fail::new("three variables"));
    }
    let lits = [a, Lit::new(Var(1), true), b];
    checker.feed(&LogLine::Formula(Clause::new(alloc, &lits)?))?;
    Ok(())
}

/// Gives the formula of the long log: two chains of implications, whose last variables aren't both true, and twenty
/// variables that are true or start both chains.
fn tell_chains(alloc: Global, checker: &mut Checker) -> Result<(), Fail> {
    told(alloc, checker, "f -1 0")?;
    for i in 2..LINKS {
        let j = i + LINKS;
        tell_either(alloc, checker, literal(i, false), literal(i + 1, true))?;
        tell_either(alloc, checker, literal(j, false), literal(j + 1, true))?;
    }
    tell_either(
        alloc,
        checker,
        literal(LINKS, false),
        literal(2 * LINKS, false),
    )?;
    for start in 2 * LINKS + 1..2 * LINKS + 21 {
        tell_either(alloc, checker, literal(start, true), literal(2, true))?;
        tell_either(
            alloc,
            checker,
            literal(start, true),
            literal(2 + LINKS, true),
        )?;
    }
    Ok(())
}

/// Gives the long log, and that each of the twenty variables is true.
fn follow_chains(alloc: Global) -> Result<(), Fail> {
    let mut checker = Checker::new(alloc, 1_000_000)?;
    tell_chains(alloc, &mut checker)?;
    for start in 2 * LINKS + 1..2 * LINKS + 21 {
        let clause = Clause::new(alloc, &[literal(start, true)])?;
        checker.feed(&LogLine::Learnt(clause))?;
    }
    Ok(())
}

#[test]
fn long_chains_are_followed_to_their_end(rt: HostRuntime) -> Result<(), Fail> {
    follow_chains(rt.alloc())
}
