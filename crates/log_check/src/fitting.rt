// Whether lines of a log begin what is expected, and whether a checker has room for them.
ghost use Rattle.std.specs.Prelude.{◌≡◌, ◌≢◌, ◌≤◌, ◌<◌, ◌+◌, ◌++◌, [], ℕ, List, MatchBool, MatchOption, flat_map};
ghost use Rattle.plan_core.specs.declared.criterion.Criterion.{Criterion as Measured};
ghost use Rattle.cnf_core.specs.declared.limits.TheConstants.{ROOM};
ghost use Rattle.cnf_core.specs.Clause.{words_of};
ghost use Rattle.refute_log.specs.Told.{Lines};
ghost use Rattle.refute_log.specs.Log.{added, clause_line, clause_lines, BeginsLines};
ghost use Rattle.drawing_cnf.specs.Layout.{Layout};
ghost use Rattle.log_check.specs.Expectation.{expectation};
ghost use Rattle.log_check.specs.Expecting.{IsExpecting};
ghost use Rattle.log_check.specs.Awaited.{awaited_lines, IsAwaited};

use crate::accepting::is_clause_line;
use crate::awaited::{Awaited, all_awaited, behind};
use crate::expected::Expected;
use cnf_core::ROOM;
use refute_log::{LineList, LogLine};

/// What is awaited behind a line, where it is the next that is awaited, or neither a Formula nor a Bound line.
fn awaited_behind<'a>(awaited: &Awaited<'a>, line: &LogLine) -> Option<Awaited<'a>>
    requires { IsAwaited awaited.now }
    ensures { MatchOption result ((more : Lines) → awaited_lines awaited.now ≡ clause_line line.now ++ more → ⊥)
        (λ a. IsAwaited a × (awaited_lines awaited.now ≡ clause_line line.now ++ awaited_lines a)) }
{
    if is_clause_line(line) {
        behind(awaited, line)
    } else {
        Some(*awaited)
    }
}

/// Whether the Formula and Bound lines of a list begin those that are awaited.
fn begin(lines: &LineList, all: &Awaited<'_>) -> bool
    requires { IsAwaited all.now }
    ensures { let fit = BeginsLines (clause_lines lines.now) (awaited_lines all.now) in MatchBool result fit
        (fit → ⊥) }
{
    let mut awaited = *all;
    for i in 0..lines.len() {
        match awaited_behind(&awaited, lines.get(i)) {
            None => return false,
            Some(more) => awaited = more,
        }
    }
    true
}

/// Whether the Formula and Bound lines of a list begin those that are expected.
pub fn begin_expected(lines: &LineList, e: &Expected<'_>) -> bool
    requires { (y : Layout) × (order : List Measured) × (cap : Measured → ℕ)
        × IsExpecting y order cap e.now.encoded e.now.parts.items }
    ensures { (y : Layout) (order : List Measured) (cap : Measured → ℕ) → IsExpecting y order cap e.now.encoded
        e.now.parts.items → let fit = BeginsLines (clause_lines lines.now) (expectation y order cap).lines in
        MatchBool result fit (fit → ⊥) }
{
    begin(lines, &all_awaited(e.encoded.formula(), &e.parts))
}

/// What is left of the room behind a line, where its clause fits.
fn room_behind(line: &LogLine, room: usize) -> Option<usize>
    ensures { MatchOption result (room < words_of (added line.now)) (λ left. left + words_of (added line.now) ≡ room) }
{
    match line {
        LogLine::Formula(c) | LogLine::Learnt(c) => room.checked_sub(3)?.checked_sub(c.len()),
        LogLine::Bound { .. } | LogLine::Query(_) | LogLine::Refuted(_) | LogLine::Model => {
            Some(room)
        }
    }
}

/// Whether the words of the Formula and Learnt clauses of a list are within the room of a checker.
pub fn have_room(lines: &LineList) -> bool
    ensures { MatchBool result (words_of (flat_map added lines.now) ≤ ROOM)
        (ROOM < words_of (flat_map added lines.now)) }
{
    let mut room = ROOM as usize;
    for i in 0..lines.len() {
        match room_behind(lines.get(i), room) {
            None => return false,
            Some(left) => room = left,
        }
    }
    true
}

/// Whether there is a Formula or Bound line.
pub fn has_clause_line(lines: &LineList) -> bool
    ensures { MatchBool result (clause_lines lines.now ≢ []) (clause_lines lines.now ≡ []) }
{
    for i in 0..lines.len() {
        if is_clause_line(lines.get(i)) {
            return true;
        }
    }
    false
}
