// The words behind the command, cut into names and options with their values.
ghost use Rattle.std.specs.Prelude.{◌≡◌, IfOk, string_bytes, drop};
ghost use Rattle.plan_words.specs.Arguments.{is_option as begins_option, texts_of, first_word, arguments_from};

use plan_core::{OutOfMemory, Text};
use std::alloc::Global;

/// What follows the command. Each position is that of a word, counted from 1 at the command.
#[derive(Drop)]
pub(crate) enum Argument {
    /// A name.
    Name {
        position: usize,
        word: Text,
    },
    /// An option, with the word behind it as its value, if there is one.
    Setting {
        position: usize,
        word: Text,
        value: Option<Text>,
    },
}

fn is_option(word: &str) -> bool
    ensures { result ≡ begins_option word.now }
{
    word.starts_with("--")
}

fn copy_of(alloc: Global, word: &String) -> Result<Text, OutOfMemory>
    ensures { IfOk result (λ text. text ≡ string_bytes word.now) }
{
    Ok(Text::from_string(String::from_str(alloc, word.as_str())?))
}

/// A copy of the word in front, if there is one, and the words behind it.
fn split_value(alloc: Global, words: &[String]) -> Result<(Option<Text>, &[String]), OutOfMemory>
    ensures value { IfOk result (λ split. split.0 ≡ first_word (texts_of words.now)) }
    ensures behind { IfOk result (λ split. split.1.now ≡ drop 1 words.now) }
{
    match words {
        [] => Ok((None, words)),
        [value, behind @ ..] => Ok((Some(copy_of(alloc, value)?), behind)),
    }
}

/// The names and options of the words, the first of which is at position 2.
pub(crate) fn arguments_in(alloc: Global, words: &[String]) -> Result<Vec<Argument>, OutOfMemory>
    ensures { IfOk result (λ list. list.items ≡ arguments_from 2 (texts_of words.now)) }
{
    let mut list = Vec::new(alloc);
    let mut rest = words;
    let mut position = 2;
    while let [front, behind @ ..] = rest {
        let word = copy_of(alloc, front)?;
        if is_option(front.as_str()) {
            let (value, others) = split_value(alloc, behind)?;
            list.push(Argument::Setting {
                position,
                word,
                value,
            })?;
            position += 2;
            rest = others;
        } else {
            list.push(Argument::Name { position, word })?;
            position += 1;
            rest = behind;
        }
    }
    Ok(list)
}
