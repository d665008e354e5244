// The text of an attribute.
ghost use Rattle.std.specs.Prelude.{◌≡◌, ◌++◌, option_map, IfOk, IfErr, OnOk, IsUtf8};
ghost use Rattle.std.specs.List.{list_all};
ghost use Rattle.railml_text.specs.Values.{IsValueText};
ghost use Rattle.railml_text.specs.Reading.{piece_at as piece, past_line_feed as past_feed, bytes_of, IsValueFault};
ghost use Rattle.railml_text.specs.Plain.{is_plain as plain_byte};

use crate::references::reference_at;
use crate::{ItemFault, TextWhat};
use plan_core::Text;
use std::alloc::{AllocError, Global};

/// What a piece of a value means.
#[derive(Clone, Copy, Debug)]
enum Meaning {
    Byte(u8),
    Space,
    Character(char),
}

/// What follows the line feed at the front, if there is one.
fn past_line_feed(bytes: &[u8]) -> &[u8]
    ensures { result.now ≡ past_feed bytes.now }
{
    match bytes {
        [b'\n', rest @ ..] => rest,
        _ => bytes,
    }
}

/// What the first piece of a value means, and what follows it. `None` where the bytes are none, or begin with an `&`
/// that begins no reference.
fn piece_at(bytes: &[u8]) -> Option<(Meaning, &[u8])>
    ensures { option_map (λ x. (bytes_of x.0, x.1.now)) result ≡ piece bytes.now }
{
    match bytes {
        [] => None,
        [b'&', ..] => match reference_at(bytes) {
            Some((character, after)) => Some((Meaning::Character(character), after)),
            None => None,
        },
        [b'\r', tail @ ..] => Some((Meaning::Space, past_line_feed(tail))),
        [b'\t' | b'\n', tail @ ..] => Some((Meaning::Space, tail)),
        [b, tail @ ..] => Some((Meaning::Byte(*b), tail)),
    }
}

/// Adds what a piece means.
fn push(text: &mut Vec<u8>, meaning: Meaning) -> Result<(), AllocError>
    ensures { OnOk result (text.new.items ≡ text.old.items ++ bytes_of meaning) }
{
    match meaning {
        Meaning::Byte(b) => text.push(b)?,
        Meaning::Space => text.push(b' ')?,
        Meaning::Character(character) => {
            let mut bytes = [0; 4];
            text.extend_from_slice(character.encode_utf8(&mut bytes).as_bytes())?;
        }
    }
    Ok(())
}

/// Whether a byte means itself wherever it is in a value: no reference, no tab and no line end begins with it.
fn is_plain(b: u8) -> bool
    ensures { result ≡ plain_byte b }
{
    b != b'&' && b != b'\t' && b != b'\n' && b != b'\r'
}

fn are_plain(value: &[u8]) -> bool
    ensures { result ≡ list_all plain_byte value.now }
{
    value.iter().all(|b| is_plain(*b))
}

/// The text of a value, piece by piece.
fn text_of_pieces(alloc: Global, value: &[u8]) -> Result<Text, ItemFault>
    requires { IsUtf8 value.now }
    ensures text { IfOk result (λ text. IsValueText value.now text) }
    ensures fault { IfErr result (λ e. IsValueFault value.now e) }
{
    let mut text = Vec::new(alloc);
    let mut rest = value;
    while !rest.is_empty() {
        match piece_at(rest) {
            Some((meaning, after)) => {
                push(&mut text, meaning)?;
                rest = after;
            }
            None => return Err(ItemFault::Item(TextWhat::Entity)),
        }
    }
    Ok(Text::from_bytes(alloc, &text)?)
}

/// The text of an attribute with this value, or Entity where an `&` of the value begins no reference. Most
/// values are their own text, which is copied whole.
pub(crate) fn text_of(alloc: Global, value: &[u8]) -> Result<Text, ItemFault>
    requires { IsUtf8 value.now }
    ensures text { IfOk result (λ text. IsValueText value.now text) }
    ensures fault { IfErr result (λ e. IsValueFault value.now e) }
{
    if are_plain(value) {
        return Ok(Text::from_bytes(alloc, value)?);
    }
    text_of_pieces(alloc, value)
}
