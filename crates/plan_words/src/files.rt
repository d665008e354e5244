// The words that name files.
ghost use Rattle.std.specs.Prelude.{◌≡◌, All, IfOk, MatchOption, option_to_list};
ghost use Rattle.std.specs.Bool.{MatchBool};
ghost use Rattle.plan_words.specs.Arguments.{takes_file as option_takes_file, file_of as named_file};
ghost use Rattle.plan_words.specs.Arguments.{writes_at, files_in as named_files};
ghost use Rattle.plan_words.specs.WordFaults.{Clash, MayBothStand, HasClash, AllMayStand, IsFirstRepeat};
ghost use Rattle.plan_words.specs.Soundness.{IsNear};

use crate::arguments::Argument;
use crate::command::CommandWord;
use plan_core::{OutOfMemory, Text};
use std::alloc::Global;

/// A word that names a file, and where it is, counted from 1 at the command.
#[derive(Drop)]
pub(crate) struct FileWord {
    pub(crate) position: u32,
    pub(crate) name: Text,
    /// Whether the command writes the file; else it reads it.
    pub(crate) written: bool,
}

fn takes_file(option: &str) -> bool
    ensures { result ≡ option_takes_file option.now }
{
    option == "--svg" || option == "--log"
}

/// Whether the command writes the file of a name at this position.
fn writes_name(command: CommandWord, position: usize) -> bool
    ensures { result ≡ writes_at command position }
{
    match command {
        CommandWord::Trim => position == 5,
        CommandWord::Draw
        | CommandWord::Verify
        | CommandWord::Check
        | CommandWord::Graph
        | CommandWord::Make
        | CommandWord::Trial
        | CommandWord::Signals
        | CommandWord::Front
        | CommandWord::Redraw
        | CommandWord::Explain
        | CommandWord::Recheck => false,
    }
}

/// The word of the command's argument that names a file, if it has one.
fn file_of(
    alloc: Global,
    command: CommandWord,
    argument: &Argument,
) -> Result<Option<FileWord>, OutOfMemory>
    requires { IsNear argument.now }
    ensures { IfOk result (λ file. option_to_list file ≡ named_file command argument.now) }
{
    match argument {
        Argument::Name { position, word } => Ok(Some(FileWord {
            position: *position as u32,
            name: word.copied(alloc)?,
            written: writes_name(command, *position),
        })),
        Argument::Setting {
            position,
            word,
            value: Some(value),
        } if takes_file(word.as_str()) => Ok(Some(FileWord {
            position: *position as u32 + 1,
            name: value.copied(alloc)?,
            written: true,
        })),
        Argument::Setting { .. } => Ok(None),
    }
}

/// The words of the command that name files.
pub(crate) fn files_in(
    alloc: Global,
    command: CommandWord,
    arguments: &[Argument],
) -> Result<Vec<FileWord>, OutOfMemory>
    requires { All IsNear arguments.now }
    ensures { IfOk result (λ files. files.items ≡ named_files command arguments.now) }
{
    let mut files = Vec::new(alloc);
    for argument in arguments {
        if let Some(file) = file_of(alloc, command, argument)? {
            files.push(file)?;
        }
    }
    Ok(files)
}

/// Whether the command writes one of the two files, and both have one name.
fn clash(a: &FileWord, b: &FileWord) -> bool
    ensures { MatchBool result (Clash a.now b.now) (MayBothStand a.now b.now) }
{
    (a.written || b.written) && a.name.as_str() == b.name.as_str()
}

/// Whether one of the earlier files clashes with the file.
fn has_clash(earlier: &[FileWord], file: &FileWord) -> bool
    ensures { MatchBool result (HasClash earlier.now file.now) (All (λ e. MayBothStand e file.now) earlier.now) }
{
    for other in earlier {
        if clash(other, file) {
            return true;
        }
    }
    false
}

/// The position of the first file, from the left, that clashes with an earlier one.
pub(crate) fn first_repeat(files: &[FileWord]) -> Option<u32>
    ensures { MatchOption result (AllMayStand files.now) (IsFirstRepeat files.now) }
{
    for (i, file) in files.iter().enumerate() {
        if has_clash(&files[..i], file) {
            return Some(file.position);
        }
    }
    None
}
