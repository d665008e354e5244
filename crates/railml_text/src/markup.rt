// What stands after a `<`.
ghost use Rattle.std.specs.Prelude.{◌≡◌, true, false, drop, MatchOption};
ghost use Rattle.railml_text.specs.Reading.{Returns, AnswersReading, comment_at as comment_of, cdata_at as cdata_of};
ghost use Rattle.railml_text.specs.Reading.{bang_at as bang_of, goes_on_xml, DeclarationRead, QuestionRead, StartRead};
ghost use Rattle.railml_text.specs.Reading.{MarkupRead, found_of, item};
ghost use Rattle.railml_text.specs.Items.{comment, cdata};

use crate::brackets::{past_three, past_two};
use crate::miss::{Miss, Stop};
use crate::reading::{attr_at, end_tag_at, name_at, tail_at, word_at};
use crate::runs::{begins_blank, past_blanks};
use crate::written::{Closing, Markup};
use std::alloc::Global;

/// What follows a comment, after its `<!-`.
#[tactic(auto, unfolding(crate::specs::Reading::comment_at))]
fn comment_at(bytes: &[u8]) -> Result<&[u8], Miss>
    ensures { Returns (λ x. (item comment, x.now)) result (comment_of bytes.now) }
{
    let rest = word_at(bytes, b"-")?;
    match past_three(rest, b'-', b'-', b'>') {
        Some(after) => Ok(after),
        None => Err(Miss::Cut),
    }
}

/// What follows a CDATA item, after its `<![`.
#[tactic(auto, unfolding(crate::specs::Reading::cdata_at))]
fn cdata_at(bytes: &[u8]) -> Result<&[u8], Miss>
    ensures { Returns (λ x. (item cdata, x.now)) result (cdata_of bytes.now) }
{
    let rest = word_at(bytes, b"CDATA[")?;
    match past_three(rest, b']', b']', b'>') {
        Some(after) => Ok(after),
        None => Err(Miss::Cut),
    }
}

/// A comment, a CDATA item or the beginning of a document type declaration, after its `<!`.
#[tactic(auto, unfolding(crate::specs::Reading::doctype_at))]
fn bang_at(bytes: &[u8]) -> Result<(Markup, &[u8]), Miss>
    ensures { Returns (λ x. (found_of x.0, x.1.now)) result (bang_of bytes.now) }
{
    match bytes {
        [] => Err(Miss::Cut),
        [b'-', rest @ ..] => Ok((Markup::Comment, comment_at(rest)?)),
        [b'[', rest @ ..] => Ok((Markup::Cdata, cdata_at(rest)?)),
        [b'D', rest @ ..] => Ok((Markup::Doctype, word_at(rest, b"OCTYPE")?)),
        _ => Err(Miss::Bad),
    }
}

/// What follows `xml` where white space does.
fn xml_at(bytes: &[u8]) -> Option<&[u8]>
    ensures xml { MatchOption result (goes_on_xml bytes.now ≡ false) (λ _. goes_on_xml bytes.now ≡ true) }
    ensures rest { MatchOption result (goes_on_xml bytes.now ≡ false) (λ rest. rest.now ≡ drop 3 bytes.now) }
{
    match word_at(bytes, b"xml") {
        Ok(rest) => { if begins_blank(rest) { Some(rest) } else { None } }
        Err(_) => None,
    }
}

/// The declaration, after its `<?xml`.
fn declaration_at(alloc: Global, bytes: &[u8]) -> Result<(Markup, &[u8]), Stop>
    ensures { AnswersReading (λ x. (found_of x.0, x.1.now)) result (DeclarationRead bytes.now) }
{
    match attr_at(past_blanks(bytes)) {
        Ok((first, rest)) => {
            let (mut attrs, _, rest) = tail_at(alloc, rest, Closing::Declaration)?;
            attrs.insert(0, first)?;
            Ok((Markup::Declaration { attrs }, rest))
        }
        Err(miss) => Err(Stop::Miss(miss)),
    }
}

/// The declaration, which is looked for where `first` is true, or an instruction, after its `<?`.
#[tactic(auto, unfolding(crate::specs::Reading::instruction_at))]
fn question_at(alloc: Global, bytes: &[u8], first: bool) -> Result<(Markup, &[u8]), Stop>
    ensures { AnswersReading (λ x. (found_of x.0, x.1.now)) result (QuestionRead first bytes.now) }
{
    if first {
        if let Some(rest) = xml_at(bytes) {
            return declaration_at(alloc, rest);
        }
    }
    match past_two(bytes, b'?', b'>') {
        Some(rest) => Ok((Markup::Instruction, rest)),
        None => Err(Stop::Miss(Miss::Cut)),
    }
}

/// A start tag, after its `<`.
fn start_tag_at(alloc: Global, bytes: &[u8]) -> Result<(Markup, &[u8]), Stop>
    ensures { AnswersReading (λ x. (found_of x.0, x.1.now)) result (StartRead bytes.now) }
{
    match name_at(bytes) {
        Ok((name, rest)) => {
            let (attrs, empty, rest) = tail_at(alloc, rest, Closing::Tag)?;
            Ok((Markup::StartTag { name, attrs, empty }, rest))
        }
        Err(miss) => Err(Stop::Miss(miss)),
    }
}

/// What the markup behind a `<` is, and what follows it.
#[tactic(auto, unfolding(crate::specs::Reading::closing_tag_at))]
pub(crate) fn markup_at(alloc: Global, bytes: &[u8], first: bool) -> Result<(Markup, &[u8]), Stop>
    ensures { AnswersReading (λ x. (found_of x.0, x.1.now)) result (MarkupRead first bytes.now) }
{
    match bytes {
        [] => Err(Stop::Miss(Miss::Cut)),
        [b'?', tail @ ..] => question_at(alloc, tail, first),
        [b'/', tail @ ..] => match end_tag_at(tail) {
            Ok((name, rest)) => Ok((Markup::EndTag { name }, rest)),
            Err(miss) => Err(Stop::Miss(miss)),
        },
        [b'!', tail @ ..] => match bang_at(tail) {
            Ok(found) => Ok(found),
            Err(miss) => Err(Stop::Miss(miss)),
        },
        _ => start_tag_at(alloc, bytes),
    }
}
