// A checker of hinted lines over the four clauses of two variables.
ghost use Rattle.std.specs.Prelude.{◌≡◌, length};
ghost use Rattle.hint_log.specs.Hint.{hints_of};

use cnf_core::{Formula, Lit, Var};
use hint_log::{HintChecker, HintFault, HintLine, read_hint};
use std::alloc::Global;
use std::test::Fail;

/// A room. Lines that a new checker with this room gets, each with the place of the hint at which it fails, if it does;
/// this is 0 where it has no room. The verdict behind them, where no literal is allowed.
struct Log {
    room: u32,
    lines: &'static [(&'static str, Option<u32>)],
    verdict: bool,
}

static LOGS: [Log; 3] = [
    // a clause with two open literals, a hint behind the one that closes, a clause that isn't there, and one that comes
    // later; a hint that is named twice
    Log {
        room: 100,
        lines: &[
            ("l 1 0 2 0", Some(1)),
            ("r 0 3 0", Some(1)),
            ("l 1 0 1 2 3 0", Some(2)),
            ("l 1 0 9 2 0", Some(1)),
            ("l 1 0 5 0", Some(1)),
            ("l 1 0 1 2 0", None),
            ("l 1 0 1 1 2 0", None),
            ("r 0 5 3 4 0", None),
        ],
        verdict: true,
    },
    // the greatest variable, which the formula lacks: a line that is refused, two that are kept, some that name those,
    // with its literal left, false, and true already, and one for which no mark may have stayed
    Log {
        room: 100,
        lines: &[
            ("l 1073741823 0 1 0", Some(1)),
            ("l 1073741823 1 0 1 2 0", None),
            ("l -1073741823 1 0 1 2 0", None),
            ("l 1 0 5 6 0", None),
            ("l 1 1073741823 0 6 5 0", None),
            ("l 1 -1073741823 0 5 6 0", None),
            ("l 2 0 6 7 0", Some(1)),
            ("r 0 7 3 4 0", None),
        ],
        verdict: true,
    },
    // four clauses of two literals have 20 words
    Log {
        room: 23,
        lines: &[("l 1 0 1 2 0", Some(0))],
        verdict: false,
    },
];

/// The checker of (1 2), (1 -2), (-1 2) and (-1 -2).
fn four_clauses(alloc: Global, room: u32) -> Result<HintChecker, Fail> {
    let mut f = Formula::new(alloc, 100)?;
    f.new_vars(2)?;
    for (x, y) in [(true, true), (true, false), (false, true), (false, false)] {
        f.add(&[Lit::new(Var(1), x), Lit::new(Var(2), y)])?;
    }
    Ok(HintChecker::new(alloc, f, room)?)
}

/// How many clauses the line names.
fn hints_in(line: &HintLine) -> usize
    ensures { result ≡ length (hints_of line.now) }
{
    match line {
        HintLine::Learnt { hints, .. } => hints.len(),
        HintLine::Refuted { hints, .. } => hints.len(),
    }
}

/// The place at which a text's line fails, as a `Log` has it.
fn place_in(alloc: Global, c: &mut HintChecker, text: &str) -> Result<Option<u32>, Fail> {
    let line = read_hint(alloc, text.as_bytes(), 1)?;
    if hints_in(&line) >= 100 {
        return Err(Fail::new("few hints"));
    }
    match c.feed(&line) {
        Ok(()) => Ok(None),
        Err(HintFault::BadHint(k)) => Ok(Some(k)),
        Err(HintFault::Room) => Ok(Some(0)),
        Err(HintFault::Memory) => Err(Fail::new("memory for a line")),
    }
}

/// Feeds a new checker the lines of a log, which have their places and their verdict.
fn play(alloc: Global, log: &Log) -> Result<(), Fail> {
    let mut c = four_clauses(alloc, log.room)?;
    for (text, place) in log.lines {
        if place_in(alloc, &mut c, text)? != *place {
            return Err(Fail::new(*text));
        }
    }
    if c.verdict(&[]) != log.verdict {
        return Err(Fail::new("another verdict"));
    }
    Ok(())
}

fn play_all(alloc: Global) -> Result<(), Fail> {
    for log in &LOGS {
        play(alloc, log)?;
    }
    Ok(())
}

#[test]
fn each_hinted_line_has_its_place_and_each_log_its_verdict(rt: HostRuntime) -> Result<(), Fail> {
    play_all(rt.alloc())
}
