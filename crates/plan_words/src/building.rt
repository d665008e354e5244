// The command that sound arguments ask for.
ghost use Rattle.std.specs.Prelude.{◌≡◌, ◌≤◌, ◌<◌, ◌⊎◌, ℕ, List, [], ◌∷◌, length, slice_get, Some, IfOk, MatchOption};
ghost use Rattle.std.specs.Prelude.{⊤};
ghost use Rattle.std.specs.Option.{option_copied};
ghost use Rattle.plan_words.specs.declared.command.CommandWord.TheVariants as words;
ghost use Rattle.plan_words.specs.declared.option_values.OptionWord.TheVariants as options;
ghost use Rattle.outside_io.specs.Numbers.{IsNumberIn};
ghost use Rattle.plan_words.specs.OptionValues.{IsWidth, IsHeight, IsLeastLength, IsBudget, IsSeed, IsOrderText};
ghost use Rattle.plan_words.specs.Arguments.{argument_names};
ghost use Rattle.plan_words.specs.WordFaults.{name_count};
ghost use Rattle.plan_words.specs.Soundness.{SoundFrom, AreTaken};
ghost use Rattle.plan_words.specs.Words.{default_order, IsChosen, given_for, IsDrawCommand, command_kind, HasParts};

use crate::Command;
use crate::arguments::Argument;
use crate::command::CommandWord;
use crate::option_values::{MAX_SEED, OptionWord, number_in, order_in, pair_in};
use plan_core::{
    Criterion, Grid, MAX_BUDGET, MAX_HEIGHT, MAX_LEAST, MAX_WIDTH, Order, OutOfMemory, Text,
};
use std::alloc::Global;

const DEFAULT_WIDTH: u32 = 40;

const DEFAULT_HEIGHT: u32 = 8;

const DEFAULT_LEAST: u32 = 1;

const DEFAULT_BUDGET: u32 = 50_000;

const DEFAULT_ORDER: [Criterion; 4] = [
    Criterion::Height,
    Criterion::Bends,
    Criterion::Diagonal,
    Criterion::Width,
];

/// The name at a place among the names, counted from 0.
fn name_at(arguments: &[Argument], place: usize) -> &Text
    requires { place < length (argument_names arguments.now) }
    ensures { slice_get (argument_names arguments.now) place ≡ Some result.now }
{
    let mut left = place;
    for argument in arguments {
        if let Argument::Name { word, .. } = argument {
            if left == 0 {
                return word;
            }
            left -= 1;
        }
    }
    unreachable!()
}

/// A copy of the name at a place among the names, counted from 0.
fn name_copy(alloc: Global, arguments: &[Argument], place: usize) -> Result<Text, OutOfMemory>
    requires { place < length (argument_names arguments.now) }
    ensures { IfOk result (λ name. slice_get (argument_names arguments.now) place ≡ Some name) }
{
    name_at(arguments, place).copied(alloc)
}

/// The value that the option was given, if it was.
fn value_given(arguments: &[Argument], option: OptionWord) -> Option<&Text>
    ensures { option_copied result ≡ given_for option arguments.now }
{
    for argument in arguments {
        if let Argument::Setting { word, value, .. } = argument {
            if word.as_str() == option.word() {
                return value.as_ref();
            }
        }
    }
    None
}

/// The number that the option was given, or the default.
fn number_given(
    arguments: &[Argument],
    option: OptionWord,
    low: u32,
    high: u32,
    default: u32,
) -> u32
    requires { MatchOption (given_for option arguments.now) ⊤ (λ text. (n : ℕ) × IsNumberIn low high text n) }
    ensures { IsChosen (given_for option arguments.now) (IsNumberIn low high) default result }
{
    match value_given(arguments, option) {
        Some(text) => match number_in(text.as_str(), low, high) {
            Some(number) => number,
            None => unreachable!(),
        },
        None => default,
    }
}

/// The grid that the options give, or parts of the default in their place.
fn grid_given(arguments: &[Argument]) -> Grid
    requires { AreTaken arguments.now }
    ensures width { IsChosen (given_for options.Width arguments.now) IsWidth 40 result.width }
    ensures height { IsChosen (given_for options.Height arguments.now) IsHeight 8 result.height }
    ensures least { IsChosen (given_for options.Least arguments.now) IsLeastLength 1 result.least }
{
    let width = number_given(
        arguments,
        OptionWord::Width,
        1,
        u32::from(MAX_WIDTH),
        DEFAULT_WIDTH,
    );
    let height = number_given(
        arguments,
        OptionWord::Height,
        0,
        u32::from(MAX_HEIGHT),
        DEFAULT_HEIGHT,
    );
    let least = number_given(
        arguments,
        OptionWord::Least,
        1,
        u32::from(MAX_LEAST),
        DEFAULT_LEAST,
    );
    match Grid::with_least(width as u16, height as u16, least as u16) {
        Some(grid) => grid,
        None => unreachable!(),
    }
}

fn usual_order() -> Order
    ensures { result ≡ default_order }
{
    match Order::new(&DEFAULT_ORDER) {
        Some(order) => order,
        None => unreachable!(),
    }
}

/// The order that the option gives, or the default.
fn order_given(arguments: &[Argument]) -> Order
    requires { AreTaken arguments.now }
    ensures { IsChosen (given_for options.Criteria arguments.now) IsOrderText default_order result }
{
    match value_given(arguments, OptionWord::Criteria) {
        Some(text) => match order_in(text.as_str()) {
            Some(order) => order,
            None => unreachable!(),
        },
        None => usual_order(),
    }
}

/// A copy of the file's name that the option was given, if it was.
fn file_given(
    alloc: Global,
    arguments: &[Argument],
    option: OptionWord,
) -> Result<Option<Text>, OutOfMemory>
    ensures { IfOk result (λ name. name ≡ given_for option arguments.now) }
{
    match value_given(arguments, option) {
        Some(name) => Ok(Some(name.copied(alloc)?)),
        None => Ok(None),
    }
}

fn draw_of(alloc: Global, arguments: &[Argument]) -> Result<Command, OutOfMemory>
    requires sound { SoundFrom words.Draw [] arguments.now }
    requires enough { 1 ≤ length (argument_names arguments.now) }
    ensures word { IfOk result (λ c. command_kind c ≡ words.Draw) }
    ensures parts { IfOk result (λ c. HasParts arguments.now c) }
{
    Ok(Command::Draw {
        input: name_copy(alloc, arguments, 0)?,
        grid: grid_given(arguments),
        order: order_given(arguments),
        budget: number_given(
            arguments,
            OptionWord::Conflicts,
            1,
            MAX_BUDGET,
            DEFAULT_BUDGET,
        ),
        svg: file_given(alloc, arguments, OptionWord::Svg)?,
        log: file_given(alloc, arguments, OptionWord::Log)?,
    })
}

fn signals_of(alloc: Global, arguments: &[Argument]) -> Result<Command, OutOfMemory>
    requires sound { SoundFrom words.Signals [] arguments.now }
    requires enough { 1 ≤ length (argument_names arguments.now) }
    ensures word { IfOk result (λ c. command_kind c ≡ words.Signals) }
    ensures parts { IfOk result (λ c. HasParts arguments.now c) }
{
    Ok(Command::Signals {
        input: name_copy(alloc, arguments, 0)?,
        grid: grid_given(arguments),
        order: order_given(arguments),
        budget: number_given(
            arguments,
            OptionWord::Conflicts,
            1,
            MAX_BUDGET,
            DEFAULT_BUDGET,
        ),
        log: file_given(alloc, arguments, OptionWord::Log)?,
    })
}

fn front_of(alloc: Global, arguments: &[Argument]) -> Result<Command, OutOfMemory>
    requires sound { SoundFrom words.Front [] arguments.now }
    requires enough { 2 ≤ length (argument_names arguments.now) }
    ensures word { IfOk result (λ c. command_kind c ≡ words.Front) }
    ensures parts { IfOk result (λ c. HasParts arguments.now c) }
{
    let Some((first, second)) = pair_in(name_at(arguments, 1).as_str()) else {
        unreachable!()
    };
    Ok(Command::Front {
        input: name_copy(alloc, arguments, 0)?,
        first,
        second,
        grid: grid_given(arguments),
        budget: number_given(
            arguments,
            OptionWord::Conflicts,
            1,
            MAX_BUDGET,
            DEFAULT_BUDGET,
        ),
    })
}

fn redraw_of(alloc: Global, arguments: &[Argument]) -> Result<Command, OutOfMemory>
    requires sound { SoundFrom words.Redraw [] arguments.now }
    requires enough { 3 ≤ length (argument_names arguments.now) }
    ensures word { IfOk result (λ c. command_kind c ≡ words.Redraw) }
    ensures parts { IfOk result (λ c. HasParts arguments.now c) }
{
    Ok(Command::Redraw {
        input: name_copy(alloc, arguments, 0)?,
        former: name_copy(alloc, arguments, 1)?,
        sheet: name_copy(alloc, arguments, 2)?,
        grid: grid_given(arguments),
        budget: number_given(
            arguments,
            OptionWord::Conflicts,
            1,
            MAX_BUDGET,
            DEFAULT_BUDGET,
        ),
        log: file_given(alloc, arguments, OptionWord::Log)?,
    })
}

fn explain_of(alloc: Global, arguments: &[Argument]) -> Result<Command, OutOfMemory>
    requires sound { SoundFrom words.Explain [] arguments.now }
    requires enough { 1 ≤ length (argument_names arguments.now) }
    ensures word { IfOk result (λ c. command_kind c ≡ words.Explain) }
    ensures parts { IfOk result (λ c. HasParts arguments.now c) }
{
    Ok(Command::Explain {
        input: name_copy(alloc, arguments, 0)?,
        grid: grid_given(arguments),
        budget: number_given(
            arguments,
            OptionWord::Conflicts,
            1,
            MAX_BUDGET,
            DEFAULT_BUDGET,
        ),
    })
}

fn trim_of(alloc: Global, arguments: &[Argument]) -> Result<Command, OutOfMemory>
    requires sound { SoundFrom words.Trim [] arguments.now }
    requires enough { 4 ≤ length (argument_names arguments.now) }
    ensures word { IfOk result (λ c. command_kind c ≡ words.Trim) }
    ensures parts { IfOk result (λ c. HasParts arguments.now c) }
{
    Ok(Command::Trim {
        input: name_copy(alloc, arguments, 0)?,
        sheet: name_copy(alloc, arguments, 1)?,
        log: name_copy(alloc, arguments, 2)?,
        hints: name_copy(alloc, arguments, 3)?,
    })
}

fn recheck_of(alloc: Global, arguments: &[Argument]) -> Result<Command, OutOfMemory>
    requires sound { SoundFrom words.Recheck [] arguments.now }
    requires enough { 3 ≤ length (argument_names arguments.now) }
    ensures word { IfOk result (λ c. command_kind c ≡ words.Recheck) }
    ensures parts { IfOk result (λ c. HasParts arguments.now c) }
{
    Ok(Command::Recheck {
        input: name_copy(alloc, arguments, 0)?,
        sheet: name_copy(alloc, arguments, 1)?,
        hints: name_copy(alloc, arguments, 2)?,
    })
}

/// The number that `make` or `trial` has as its name.
fn seed_of(arguments: &[Argument]) -> u32
    requires sound { SoundFrom words.Make [] arguments.now ⊎ SoundFrom words.Trial [] arguments.now }
    requires enough { 1 ≤ length (argument_names arguments.now) }
    ensures { (name : List ℕ) × (argument_names arguments.now ≡ name ∷ []) × IsSeed name result }
{
    match number_in(name_at(arguments, 0).as_str(), 0, MAX_SEED) {
        Some(number) => number,
        None => unreachable!(),
    }
}

/// The command that the arguments ask for.
pub(crate) fn command_of(
    alloc: Global,
    command: CommandWord,
    arguments: &[Argument],
) -> Result<Command, OutOfMemory>
    requires sound { SoundFrom command [] arguments.now }
    requires enough { name_count command ≤ length (argument_names arguments.now) }
    ensures word { IfOk result (λ c. command_kind c ≡ command) }
    ensures parts { IfOk result (λ c. HasParts arguments.now c) }
{
    match command {
        CommandWord::Draw => draw_of(alloc, arguments),
        CommandWord::Verify => Ok(Command::Verify {
            input: name_copy(alloc, arguments, 0)?,
            sheet: name_copy(alloc, arguments, 1)?,
        }),
        CommandWord::Check => Ok(Command::Check {
            input: name_copy(alloc, arguments, 0)?,
            sheet: name_copy(alloc, arguments, 1)?,
            log: name_copy(alloc, arguments, 2)?,
        }),
        CommandWord::Graph => Ok(Command::Graph {
            input: name_copy(alloc, arguments, 0)?,
        }),
        CommandWord::Make => Ok(Command::Make {
            n: seed_of(arguments),
        }),
        CommandWord::Trial => Ok(Command::Trial {
            n: seed_of(arguments),
        }),
        CommandWord::Signals => signals_of(alloc, arguments),
        CommandWord::Front => front_of(alloc, arguments),
        CommandWord::Redraw => redraw_of(alloc, arguments),
        CommandWord::Explain => explain_of(alloc, arguments),
        CommandWord::Trim => trim_of(alloc, arguments),
        CommandWord::Recheck => recheck_of(alloc, arguments),
    }
}
