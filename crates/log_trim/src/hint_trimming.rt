// Hinted lines of a log.
ghost use Rattle.std.specs.Prelude.{◌≡◌, ◌≤◌, ◌<◌, ◌+◌, ◌^◌, ◌++◌, ◌↔◌, [], ◌∷◌, ℕ, List, All, Contains, length};
ghost use Rattle.std.specs.Prelude.{IsTrue, IfOk, OnOk, MatchBool, MatchOption, flat_map};
ghost use Rattle.cnf_core.specs.Clause.{AreThere, AreDistinct};
ghost use Rattle.refute_log.specs.Log.{Derives, given};
ghost use Rattle.refute_check.specs.Timely.{AreTimely};
ghost use Rattle.log_trim.specs.Trimmed.{IsTrimmed, AreRefutedLines};
ghost use Rattle.log_trim.specs.HintRoom.{IsLineWithin};
ghost use Rattle.log_trim.specs.Hinting.{IsHinting};

use crate::finder::Finder;
use crate::shortening::shorten;
use cnf_core::{Clause, LAST_VAR, Lit, VARS};
use hint_log::{HintLine, HintList, Numbers};
use plan_core::{Items, OutOfMemory};
use refute_check::are_timely;
use refute_log::{LineList, LogLine};
use std::alloc::Global;

/// The hinted lines of a log up to a place, and what hints of further lines are found with. The clauses of the Formula
/// lines have the first numbers, wherever these lines are, and those of the Learnt lines go on from there.
#[derive(Drop)]
struct Hinting {
    finder: Finder,
    /// The number of the latest Formula line's clause, or 0.
    formula: u32,
    /// The number of the latest Learnt line's clause, or of the last Formula line's.
    learnt: u32,
    list: HintList,
}

/// The greatest variable of the literals, or 0 where there is none.
fn greatest(lits: &[Lit]) -> u32
    ensures there { AreThere result lits.now }
    ensures least { (n : ℕ) → AreThere n lits.now → result ≤ n }
    ensures limit { result ≤ LAST_VAR }
{
    let mut most = 0;
    for l in lits {
        most = l.var().0.max(most);
    }
    most
}

/// The greatest variable of the line's clause, or 0 where there is none.
fn greatest_in(line: &LogLine) -> u32
    ensures within { IsLineWithin result line.now }
    ensures least { (n : ℕ) → IsLineWithin n line.now → result ≤ n }
    ensures limit { result ≤ LAST_VAR }
{
    match line {
        LogLine::Formula(c) => greatest(c.as_slice()),
        LogLine::Learnt(c) => greatest(c.as_slice()),
        LogLine::Refuted(c) => greatest(c.as_slice()),
        _ => 0,
    }
}

/// The greatest variable of the lines' clauses, or 0 where there is none.
pub(crate) fn greatest_of(lines: &LineList) -> u32
    ensures within { All (IsLineWithin result) lines.now }
    ensures least { (n : ℕ) → All (IsLineWithin n) lines.now → result ≤ n }
    ensures limit { result ≤ LAST_VAR }
{
    let mut most = 0;
    for i in 0..lines.len() {
        most = greatest_in(lines.get(i)).max(most);
    }
    most
}

/// How many Formula lines a list has.
pub fn count_given(lines: &LineList) -> usize
    ensures { result ≡ length (flat_map given lines.now) }
{
    let mut count = 0;
    for i in 0..lines.len() {
        if let LogLine::Formula(_) = lines.get(i) {
            count += 1;
        }
    }
    count
}

/// Whether the line at a place is wanted.
fn is_wanted(wanted: &[u32], place: usize) -> bool
    ensures { IsTrue result ↔ Contains wanted.now place }
{
    wanted.iter().any(|p| *p as usize == place)
}

/// Adds the hinted line of a Learnt line.
fn add_learnt(
    alloc: Global,
    list: &mut HintList,
    lits: &[Lit],
    hints: Numbers,
) -> Result<(), OutOfMemory>
    requires { AreDistinct lits.now }
    ensures { OnOk result (list.new ≡ list.old ++ HintLine.Learnt lits.now hints ∷ []) }
{
    let lits = Clause::new(alloc, lits)?;
    list.push(HintLine::Learnt { lits, hints })
}

/// Adds the hinted line of a Refuted line.
fn add_refuted(
    alloc: Global,
    list: &mut HintList,
    lits: &[Lit],
    hints: Numbers,
) -> Result<(), OutOfMemory>
    requires { AreDistinct lits.now }
    ensures { OnOk result (list.new ≡ list.old ++ HintLine.Refuted lits.now hints ∷ []) }
{
    let lits = Clause::new(alloc, lits)?;
    list.push(HintLine::Refuted { lits, hints })
}

impl Hinting {
    /// Before the first line, where no variable is greater than `vars`.
    fn new(alloc: Global, lines: &LineList, vars: u32) -> Result<Hinting, OutOfMemory>
        requires limit { vars + 2 ≤ VARS }
        requires within { All (IsLineWithin vars) lines.now }
        requires few { length lines.now < 2 ^ 32 }
        ensures { IfOk result (λ h. (wanted : List ℕ) → IsHinting lines.now wanted 0 h) }
    {
        let finder = Finder::new(alloc, vars)?;
        let learnt = count_given(lines) as u32;
        Ok(Hinting {
            finder,
            formula: 0,
            learnt,
            list: Items::new(alloc),
        })
    }

    /// Judges the line at a place by those before it. Where it may come there its clause is taken. It is hinted if it
    /// is a Learnt line, or a Refuted line that is wanted.
    fn take(
        &mut self,
        alloc: Global,
        lines: &LineList,
        wanted: &[u32],
        i: usize,
    ) -> Result<bool, OutOfMemory>
        requires place { i < length lines.now }
        requires few { length lines.now < 2 ^ 32 }
        requires wanted { AreRefutedLines lines.now wanted.now }
        requires timely { AreTimely lines.now }
        requires hinting { IsHinting lines.now wanted.now i self.old }
        ensures { IfOk result (λ stands. MatchBool stands (IsHinting lines.now wanted.now (i + 1) self.new)
            (Derives lines.now → ⊥)) }
    {
        match lines.get(i) {
            LogLine::Formula(c) => {
                self.formula += 1;
                self.finder.add(alloc, c.as_slice(), self.formula)?;
                Ok(true)
            }
            LogLine::Learnt(c) => {
                let lits = c.as_slice();
                match self.finder.find_new(alloc, lits)? {
                    None => Ok(false),
                    Some(hints) => {
                        self.learnt += 1;
                        self.finder.add(alloc, lits, self.learnt)?;
                        add_learnt(alloc, &mut self.list, lits, hints)?;
                        Ok(true)
                    }
                }
            }
            LogLine::Refuted(c) => {
                let lits = c.as_slice();
                match self.finder.find(alloc, lits)? {
                    None => Ok(false),
                    Some(hints) => {
                        if is_wanted(wanted, i) {
                            add_refuted(alloc, &mut self.list, lits, hints)?;
                        }
                        Ok(true)
                    }
                }
            }
            LogLine::Bound { .. } => Ok(true),
            LogLine::Query(_) => Ok(true),
            LogLine::Model => Ok(true),
        }
    }
}

/// The hinted lines of a log: of the Refuted lines that are wanted, by their places in the log, counted from 0, and of
/// those Learnt lines on which they rest. None where the log doesn't derive. The clauses of the Formula lines, wherever
/// these are, are numbered first, from 1, and the kept Learnt lines go on from there. Want of memory is answered to a
/// log of more than `VARS - 2` variables, and to one whose words pass `ROOM`; there a clause of fewer than two literals
/// counts as one of two. It is answered to one of 2^32 lines too, which no text of a log has.
pub fn trim(
    alloc: Global,
    lines: &LineList,
    wanted: &[u32],
) -> Result<Option<HintList>, OutOfMemory>
    requires { AreRefutedLines lines.now wanted.now }
    ensures { IfOk result (λ r. MatchOption r (Derives lines.now → ⊥)
        (λ kept. Derives lines.now × IsTrimmed lines.now wanted.now kept)) }
{
    if !are_timely(alloc, lines)? {
        return Ok(None);
    }
    let vars = greatest_of(lines);
    if VARS - 2 < vars || lines.len() > u32::MAX as usize {
        return Err(OutOfMemory);
    }
    let mut hinting = Hinting::new(alloc, lines, vars)?;
    let given = hinting.learnt;
    for i in 0..lines.len() {
        if !hinting.take(alloc, lines, wanted, i)? {
            return Ok(None);
        }
    }
    let kept = shorten(alloc, &hinting.list, given, hinting.learnt)?;
    Ok(Some(kept))
}
