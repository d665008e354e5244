// Names, values, attributes and tags, read from left to right.
ghost use Rattle.std.specs.Prelude.{◌≡◌, map};
ghost use Rattle.railml_text.specs.Reading.{Returns, AnswersReading, word_at as word_of, name_at as name_of};
ghost use Rattle.railml_text.specs.Reading.{quoted_at as quoted, attr_at as attr, end_tag_at as end_tag};
ghost use Rattle.railml_text.specs.Reading.{closing_at as closing_of, step_at as step, step_of, written_of, Tail};

use crate::miss::{Miss, Stop};
use crate::runs::{begins_blank, begins_name, past_blanks, split_name, split_value};
use crate::written::{Closing, TagStep, WrittenAttr};
use std::alloc::Global;

/// What follows the word at the front.
pub(crate) fn word_at<'a>(bytes: &'a [u8], word: &[u8]) -> Result<&'a [u8], Miss>
    ensures { Returns (λ x. (tt, x.now)) result (word_of word.now bytes.now) }
{
    let mut rest = bytes;
    let mut left = word;
    while let [c, word_tail @ ..] = left {
        match rest {
            [] => return Err(Miss::Cut),
            [b, tail @ ..] => {
                if *b != *c {
                    return Err(Miss::Bad);
                }
                rest = tail;
                left = word_tail;
            }
        }
    }
    Ok(rest)
}

pub(crate) fn name_at(bytes: &[u8]) -> Result<(&[u8], &[u8]), Miss>
    ensures { Returns (λ x. (x.0.now, x.1.now)) result (name_of bytes.now) }
{
    match bytes {
        [] => Err(Miss::Cut),
        [b, ..] => {
            if !begins_name(*b) {
                return Err(Miss::Bad);
            }
            let (name, rest) = split_name(bytes);
            if rest.is_empty() {
                return Err(Miss::Cut);
            }
            Ok((name, rest))
        }
    }
}

/// The value between two quotes, and what follows the second.
fn quoted_at(bytes: &[u8]) -> Result<(&[u8], &[u8]), Miss>
    ensures { Returns (λ x. (x.0.now, x.1.now)) result (quoted bytes.now) }
{
    match bytes {
        [] => Err(Miss::Cut),
        [quote, tail @ ..] => {
            if *quote != b'"' && *quote != b'\'' {
                return Err(Miss::Bad);
            }
            match split_value(tail, *quote) {
                (_, []) => Err(Miss::Cut),
                (value, [b, rest @ ..]) => {
                    if *b == *quote {
                        Ok((value, rest))
                    } else {
                        Err(Miss::Bad)
                    }
                }
            }
        }
    }
}

#[tactic(auto, unfolding(crate::specs::Reading::attr_at, crate::specs::Reading::equals_at))]
pub(crate) fn attr_at(bytes: &[u8]) -> Result<(WrittenAttr, &[u8]), Miss>
    ensures { Returns (λ x. (written_of x.0, x.1.now)) result (attr bytes.now) }
{
    let (name, rest) = name_at(bytes)?;
    let rest = word_at(past_blanks(rest), b"=")?;
    let (value, rest) = quoted_at(past_blanks(rest))?;
    Ok((WrittenAttr { name, value }, rest))
}

/// The name of an end tag, after its `</`, and what follows its `>`.
#[tactic(auto, unfolding(crate::specs::Reading::end_tag_at))]
pub(crate) fn end_tag_at(bytes: &[u8]) -> Result<(&[u8], &[u8]), Miss>
    ensures { Returns (λ x. (x.0.now, x.1.now)) result (end_tag bytes.now) }
{
    let (name, rest) = name_at(bytes)?;
    let rest = word_at(past_blanks(rest), b">")?;
    Ok((name, rest))
}

/// Whether the closing at the front is `/>`, and what follows it.
fn closing_at(bytes: &[u8], closing: Closing) -> Result<(bool, &[u8]), Miss>
    ensures { Returns (λ x. (x.0, x.1.now)) result (closing_of closing bytes.now) }
{
    match closing {
        Closing::Declaration => Ok((false, word_at(bytes, b"?>")?)),
        Closing::Tag => match bytes {
            [] => Err(Miss::Cut),
            [b'>', rest @ ..] => Ok((false, rest)),
            [b'/', rest @ ..] => Ok((true, word_at(rest, b">")?)),
            _ => Err(Miss::Bad),
        },
    }
}

/// The next attribute or the closing, after white space.
#[tactic(auto, unfolding(crate::specs::Reading::step_at))]
fn step_at(bytes: &[u8], closing: Closing) -> Result<(TagStep, &[u8]), Miss>
    ensures { Returns (λ x. (step_of x.0, x.1.now)) result (step closing bytes.now) }
{
    let spaced = begins_blank(bytes);
    let rest = past_blanks(bytes);
    match rest {
        [] => Err(Miss::Cut),
        [b, ..] => {
            if !begins_name(*b) {
                let (empty, rest) = closing_at(rest, closing)?;
                return Ok((TagStep::Ends { empty }, rest));
            }
            if !spaced {
                return Err(Miss::Bad);
            }
            let (attr, rest) = attr_at(rest)?;
            Ok((TagStep::Attribute(attr), rest))
        }
    }
}

/// The attributes, whether the closing is `/>`, and what follows it.
pub(crate) fn tail_at(
    alloc: Global,
    bytes: &[u8],
    closing: Closing,
) -> Result<(Vec<WrittenAttr>, bool, &[u8]), Stop>
    ensures { AnswersReading (λ x. ((map written_of x.0.items, x.1), x.2.now)) result (Tail closing bytes.now) }
{
    let mut attrs = Vec::new(alloc);
    let mut rest = bytes;
    loop {
        match step_at(rest, closing) {
            Ok((TagStep::Attribute(attr), after)) => {
                attrs.push(attr)?;
                rest = after;
            }
            Ok((TagStep::Ends { empty }, after)) => return Ok((attrs, empty, after)),
            Err(miss) => return Err(Stop::Miss(miss)),
        }
    }
}
