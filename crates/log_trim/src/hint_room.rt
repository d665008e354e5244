// Whether there is room to find hints in a log.
ghost use Rattle.std.specs.Prelude.{◌≤◌, ◌<◌, ◌+◌, ◌≡◌, IfOk, IfErr, MatchBool, MatchOption};
ghost use Rattle.std.specs.List.{sum_by};
ghost use Rattle.cnf_core.specs.declared.limits.TheConstants.{ROOM};
ghost use Rattle.log_trim.specs.HintRoom.{line_words, AllowHints};

use crate::fault::TrimFault;
use crate::hint_trimming::greatest_of;
use cnf_core::{ROOM, VARS};
use refute_log::{LineList, LogLine};

/// What is left of the room behind a line, where its clause fits.
fn room_behind(line: &LogLine, room: usize) -> Option<usize>
    ensures { MatchOption result (room < line_words line.now) (λ left. left + line_words line.now ≡ room) }
{
    match line {
        LogLine::Formula(c) | LogLine::Learnt(c) => {
            room.checked_sub(3)?.checked_sub(c.len().max(2))
        }
        LogLine::Bound { .. } | LogLine::Query(_) | LogLine::Refuted(_) | LogLine::Model => {
            Some(room)
        }
    }
}

/// Whether the words of the lines' clauses are within the room.
fn have_words(lines: &LineList) -> bool
    ensures { MatchBool result (sum_by line_words lines.now ≤ ROOM) (ROOM < sum_by line_words lines.now) }
{
    let mut room = ROOM as usize;
    for i in 0..lines.len() {
        match room_behind(lines.get(i), room) {
            None => return false,
            Some(left) => room = left,
        }
    }
    true
}

/// Ends with `Limits` where hints aren't found in lines of so many variables or words.
pub(crate) fn check_room(lines: &LineList) -> Result<(), TrimFault>
    ensures within { IfOk result (λ _. AllowHints lines.now) }
    ensures fault { IfErr result (λ e. (e ≡ TrimFault.Limits) × (AllowHints lines.now → ⊥)) }
{
    if greatest_of(lines) <= VARS - 2 && have_words(lines) {
        Ok(())
    } else {
        Err(TrimFault::Limits)
    }
}
