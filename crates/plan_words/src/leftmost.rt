// The leftmost fault of a command's arguments.
ghost use Rattle.std.specs.Prelude.{◌≡◌, ◌<◌, ◌+◌, ◌^◌, length, Contains, MatchOption, []};
ghost use Rattle.std.specs.Bool.{MatchBool};
ghost use Rattle.plan_words.specs.declared.arguments.Argument.TheVariants.{Name, Setting};
ghost use Rattle.plan_words.specs.declared.command.CommandWord.TheVariants.{Signals, Front, Redraw};
ghost use Rattle.plan_words.specs.OptionValues.{option_word};
ghost use Rattle.plan_words.specs.Arguments.{argument_names, options_in};
ghost use Rattle.plan_words.specs.WordFaults.{TakesName, IsOptionOf, IsLeftmost};
ghost use Rattle.plan_words.specs.Soundness.{StandFrom, IsNear, IsFirstWordFault, IsSoundBehind, SoundFrom};

use crate::WordWhat;
use crate::arguments::Argument;
use crate::command::CommandWord;
use crate::option_values::{MAX_SEED, OptionWord, number_in, pair_in};
use plan_core::Text;

/// A fault, and the position of its word, counted from 1 at the command.
#[derive(Clone, Copy, Debug, PartialEq, Eq)]
pub(crate) struct Found {
    pub(crate) what: WordWhat,
    pub(crate) position: u32,
}

/// The number of names among the arguments.
pub(crate) fn count_names(arguments: &[Argument]) -> usize
    ensures { result ≡ length (argument_names arguments.now) }
{
    let mut count = 0;
    for argument in arguments {
        if let Argument::Name { .. } = argument {
            count += 1;
        }
    }
    count
}

/// Whether the option is among the arguments.
fn has_option(arguments: &[Argument], option: &str) -> bool
    ensures { MatchBool result (Contains (options_in arguments.now) option.now)
        (Contains (options_in arguments.now) option.now → ⊥) }
{
    for argument in arguments {
        if let Argument::Setting { word, .. } = argument {
            if word.as_str() == option {
                return true;
            }
        }
    }
    false
}

/// The option of `signals` that the word names, if it names one.
fn signals_option(word: &str) -> Option<OptionWord>
    ensures { MatchOption result (IsOptionOf Signals word.now → ⊥)
        (λ o. IsOptionOf Signals word.now × (word.now ≡ option_word o)) }
{
    match OptionWord::named(word) {
        Some(OptionWord::Least | OptionWord::Svg) => None,
        other => other,
    }
}

/// The option of `front`, and of `explain`, that the word names, if it names one.
fn front_option(word: &str) -> Option<OptionWord>
    ensures { MatchOption result (IsOptionOf Front word.now → ⊥)
        (λ o. IsOptionOf Front word.now × (word.now ≡ option_word o)) }
{
    match OptionWord::named(word) {
        Some(OptionWord::Criteria | OptionWord::Svg | OptionWord::Log) => None,
        other => other,
    }
}

/// The option of `redraw` that the word names, if it names one.
fn redraw_option(word: &str) -> Option<OptionWord>
    ensures { MatchOption result (IsOptionOf Redraw word.now → ⊥)
        (λ o. IsOptionOf Redraw word.now × (word.now ≡ option_word o)) }
{
    match OptionWord::named(word) {
        Some(OptionWord::Criteria | OptionWord::Svg) => None,
        other => other,
    }
}

/// The option of the command that the word names, if it names one.
fn option_of(command: CommandWord, word: &str) -> Option<OptionWord>
    ensures { MatchOption result (IsOptionOf command word.now → ⊥)
        (λ o. IsOptionOf command word.now × (word.now ≡ option_word o)) }
{
    match command {
        CommandWord::Draw => OptionWord::named(word),
        CommandWord::Signals => signals_option(word),
        CommandWord::Front | CommandWord::Explain => front_option(word),
        CommandWord::Redraw => redraw_option(word),
        CommandWord::Verify
        | CommandWord::Check
        | CommandWord::Graph
        | CommandWord::Make
        | CommandWord::Trial
        | CommandWord::Trim
        | CommandWord::Recheck => None,
    }
}

/// Whether `front` takes the name behind so many others.
fn front_takes(place: usize, name: &str) -> bool
    ensures { MatchBool result (TakesName Front place name.now) (TakesName Front place name.now → ⊥) }
{
    if place == 0 {
        !name.is_empty()
    } else {
        pair_in(name).is_some()
    }
}

/// Whether the command takes the name behind so many others.
fn takes_name(command: CommandWord, place: usize, name: &str) -> bool
    ensures { MatchBool result (TakesName command place name.now) (TakesName command place name.now → ⊥) }
{
    match command {
        CommandWord::Make | CommandWord::Trial => number_in(name, 0, MAX_SEED).is_some(),
        CommandWord::Front => front_takes(place, name),
        CommandWord::Draw
        | CommandWord::Verify
        | CommandWord::Check
        | CommandWord::Graph
        | CommandWord::Signals
        | CommandWord::Redraw
        | CommandWord::Explain
        | CommandWord::Trim
        | CommandWord::Recheck => !name.is_empty(),
    }
}

/// The fault of a name behind other arguments, if it has one.
fn name_fault(command: CommandWord, before: &[Argument], position: u32, name: &str) -> Option<Found>
    ensures { MatchOption result (IsSoundBehind command before.now (Name position name.now))
        (λ found. IsFirstWordFault command before.now (Name position name.now) found.what found.position) }
{
    let place = count_names(before);
    if command.name_count() <= place {
        return Some(Found {
            what: WordWhat::ExtraWord,
            position,
        });
    }
    if !takes_name(command, place, name) {
        return Some(Found {
            what: WordWhat::BadValue,
            position,
        });
    }
    None
}

/// The first fault of an option behind other arguments, if it has one.
fn setting_fault(
    command: CommandWord,
    before: &[Argument],
    position: u32,
    word: &str,
    value: &Option<Text>,
) -> Option<Found>
    requires { position + 1 < 2 ^ 32 }
    ensures { MatchOption result (IsSoundBehind command before.now (Setting position word.now value.now))
        (λ found. IsFirstWordFault command before.now (Setting position word.now value.now) found.what found.position) }
{
    let Some(option) = option_of(command, word) else {
        return Some(Found {
            what: WordWhat::UnknownOption,
            position,
        });
    };
    if has_option(before, word) {
        return Some(Found {
            what: WordWhat::RepeatedOption,
            position,
        });
    }
    let Some(text) = value else {
        return Some(Found {
            what: WordWhat::BadValue,
            position,
        });
    };
    if !option.takes(text.as_str()) {
        return Some(Found {
            what: WordWhat::BadValue,
            position: position + 1,
        });
    }
    None
}

/// The first fault of an argument behind others, if it has one.
fn fault_of(command: CommandWord, before: &[Argument], argument: &Argument) -> Option<Found>
    requires { IsNear argument.now }
    ensures { MatchOption result (IsSoundBehind command before.now argument.now)
        (λ found. IsFirstWordFault command before.now argument.now found.what found.position) }
{
    match argument {
        Argument::Name { position, word } => {
            name_fault(command, before, *position as u32, word.as_str())
        }
        Argument::Setting {
            position,
            word,
            value,
        } => setting_fault(command, before, *position as u32, word.as_str(), value),
    }
}

/// The leftmost fault of the arguments, if they have one. Each argument is looked at with those
/// before it, which are at most ten where they have no fault.
pub(crate) fn leftmost_fault(command: CommandWord, arguments: &[Argument]) -> Option<Found>
    requires { StandFrom 2 arguments.now }
    ensures { MatchOption result (SoundFrom command [] arguments.now)
        (λ found. IsLeftmost command arguments.now found.what found.position) }
{
    for (i, argument) in arguments.iter().enumerate() {
        if let Some(found) = fault_of(command, &arguments[..i], argument) {
            return Some(found);
        }
    }
    None
}
