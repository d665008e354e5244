// The fault that counts of a command's arguments.
ghost use Rattle.std.specs.Prelude.{◌≤◌, ◌+◌, ◌*◌, [], length, All, IfOk, IfNone, MatchOption};
ghost use Rattle.plan_words.specs.Arguments.{files_in as named_files};
ghost use Rattle.plan_words.specs.WordFaults.{AllMayStand, IsFirstRepeat, IsFaultOfArguments};
ghost use Rattle.plan_words.specs.Soundness.{StandFrom, IsNear, SoundFrom};
ghost use Rattle.plan_words.specs.Words.{AreSoundArguments};

use crate::WordWhat;
use crate::arguments::Argument;
use crate::command::CommandWord;
use crate::files::{files_in, first_repeat};
use crate::leftmost::{Found, count_names, leftmost_fault};
use plan_core::OutOfMemory;
use std::alloc::Global;

/// The position of the first file, from the left, that has the name of an earlier one, where the command writes one of
/// the two.
fn repeated_file(
    alloc: Global,
    command: CommandWord,
    arguments: &[Argument],
) -> Result<Option<u32>, OutOfMemory>
    requires { All IsNear arguments.now }
    ensures { IfOk result (λ found. MatchOption found (AllMayStand (named_files command arguments.now))
        (IsFirstRepeat (named_files command arguments.now))) }
{
    let files = files_in(alloc, command, arguments)?;
    Ok(first_repeat(&files))
}

/// The fault that counts of the arguments, behind which the position `end` is the first free one.
pub(crate) fn fault_that_counts(
    alloc: Global,
    command: CommandWord,
    arguments: &[Argument],
    end: usize,
) -> Result<Option<Found>, OutOfMemory>
    requires stand { StandFrom 2 arguments.now }
    requires near { end ≤ 2 + 2 * length arguments.now }
    ensures fault { IfOk result (λ found. MatchOption found (AreSoundArguments command arguments.now)
        (λ f. IsFaultOfArguments command arguments.now end f.what f.position)) }
    ensures sound { IfOk result (λ found. IfNone found (SoundFrom command [] arguments.now)) }
{
    if let Some(found) = leftmost_fault(command, arguments) {
        return Ok(Some(found));
    }
    if count_names(arguments) < command.name_count() {
        return Ok(Some(Found {
            what: WordWhat::MissingName,
            position: end as u32,
        }));
    }
    match repeated_file(alloc, command, arguments)? {
        Some(position) => Ok(Some(Found {
            what: WordWhat::BadValue,
            position,
        })),
        None => Ok(None),
    }
}
