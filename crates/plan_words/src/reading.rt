// The words of the command line.
ghost use Rattle.std.specs.Prelude.{◌≡◌, ◌⊎◌, ℕ, List, ◌∷◌, IfOk, IfErr};
ghost use Rattle.plan_core.specs.Exactly.{AnswersExactly};
ghost use Rattle.plan_words.specs.Arguments.{texts_of};
ghost use Rattle.plan_words.specs.WordFaults.{command_word};
ghost use Rattle.plan_words.specs.Words.{IsCommandOf, IsWordFault};

use crate::arguments::arguments_in;
use crate::building::command_of;
use crate::command::CommandWord;
use crate::judging::fault_that_counts;
use crate::{Command, WordFault, WordWhat};
use std::alloc::Global;

/// The command that its arguments ask for, or their fault.
fn read_arguments(
    alloc: Global,
    command: CommandWord,
    words: &[String],
) -> Result<Command, WordFault>
    ensures command { (first : List ℕ) → first ≡ command_word command → IfOk result
        (λ c. IsCommandOf (first ∷ texts_of words.now) c) }
    ensures fault { (first : List ℕ) → first ≡ command_word command → IfErr result
        (λ e. (e ≡ WordFault.Memory) ⊎ IsWordFault (first ∷ texts_of words.now) e) }
{
    let arguments = arguments_in(alloc, words)?;
    match fault_that_counts(alloc, command, &arguments, words.len() + 2)? {
        Some(found) => Err(WordFault::Words {
            what: found.what,
            position: found.position,
        }),
        None => Ok(command_of(alloc, command, &arguments)?),
    }
}

/// The command that the words ask for, or their fault.
fn read_line(alloc: Global, words: &[String]) -> Result<Command, WordFault>
    ensures command { IfOk result (λ c. IsCommandOf (texts_of words.now) c) }
    ensures fault { IfErr result (λ e. (e ≡ WordFault.Memory) ⊎ IsWordFault (texts_of words.now) e) }
{
    let [first, others @ ..] = words else {
        return Err(WordFault::Words {
            what: WordWhat::NoCommand,
            position: 1,
        });
    };
    match CommandWord::named(first.as_str()) {
        Some(command) => read_arguments(alloc, command, others),
        None => Err(WordFault::Words {
            what: WordWhat::UnknownCommand,
            position: 1,
        }),
    }
}

/// The command that the words ask for, or the one fault of them that counts. The words are those of the command line,
/// without the program's own name.
///
/// Positions count from 1 at the command. The leftmost fault of a name or an option counts. Where there is none, a
/// missing name counts. Where no name is missing, it counts that a file which is written has the name of another, for
/// `draw`, `signals`, `redraw` or `trim`.
pub fn read_words(alloc: Global, words: &[String]) -> Result<Command, WordFault>
    ensures { AnswersExactly result WordFault.Memory (IsCommandOf (texts_of words.now))
        (IsWordFault (texts_of words.now)) }
{
    read_line(alloc, words)
}
