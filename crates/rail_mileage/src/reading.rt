// A number of metres, read from left to right.
ghost use Rattle.std.specs.Prelude.{◌≡◌, ◌≤◌, ◌<◌, ◌+◌, ◌*◌, ◌^◌, Some, Option, length, IfSome, ℤ, unsigned_abs};
ghost use Rattle.std.specs.List.{list_all};
ghost use Rattle.std.specs.Char.{is_ascii_digit as digit};
ghost use Rattle.std.specs.Str.Parse.{digits_value};
ghost use Rattle.railml_text.specs.Bytes.{is_blank as blank, AllOfClass, front, past};
ghost use Rattle.rail_mileage.specs.Metres.{MetresParts, IsMetres, micrometres, signed as with_sign, is_minus};
ghost use Rattle.rail_mileage.specs.Metres.{fraction_digits, mileage_told};
ghost use Rattle.rail_mileage.specs.MetresText.{metres_text};
ghost use Rattle.rail_mileage.specs.Reading.{sign_at, past_sign, fraction_at, past_fraction, parts_of, reading_of};

use crate::METRE;
use plan_core::Micro;
use railml_text::{is_blank, past_blanks};

fn are_blanks(text: &[u8]) -> bool
    ensures { result ≡ list_all blank text.now }
{
    text.iter().all(|b| is_blank(*b))
}

/// What follows the digits at the front.
fn past_digits(text: &[u8]) -> &[u8]
    ensures { result.now ≡ past digit text.now }
{
    let mut rest = text;
    while let [b, tail @ ..] = rest {
        if !b.is_ascii_digit() {
            return rest;
        }
        rest = tail;
    }
    rest
}

/// The digits at the front, and what follows them.
#[tactic(auto, using(crate::proofs::PartsLemmas::front_and_past))]
fn split_digits(text: &[u8]) -> (&[u8], &[u8])
    ensures digits { result.0.now ≡ front digit text.now }
    ensures are_digits { AllOfClass digit result.0.now }
    ensures rest { result.1.now ≡ past digit text.now }
{
    let rest = past_digits(text);
    (&text[..text.len() - rest.len()], rest)
}

/// Whether a minus is at the front, and what follows the sign, if any.
fn split_sign(text: &[u8]) -> (bool, &[u8])
    ensures sign { result.0 ≡ is_minus (sign_at text.now) }
    ensures rest { result.1.now ≡ past_sign text.now }
{
    match text {
        [b'+', rest @ ..] => (false, rest),
        [b'-', rest @ ..] => (true, rest),
        _ => (false, text),
    }
}

/// The digits after a point at the front, if there is one, and what follows them.
fn split_fraction(text: &[u8]) -> (&[u8], &[u8])
    ensures digits { result.0.now ≡ fraction_digits (fraction_at text.now) }
    ensures are_digits { AllOfClass digit result.0.now }
    ensures rest { result.1.now ≡ past_fraction text.now }
{
    match text {
        [b'.', rest @ ..] => split_digits(rest),
        _ => (&[], text),
    }
}

/// The number that at most nine digits write.
fn number_of(digits: &[u8]) -> u64
    requires are_digits { AllOfClass digit digits.now }
    requires few { length digits.now ≤ 9 }
    ensures value { result ≡ digits_value 10 digits.now }
    ensures short { result < 10 ^ length digits.now }
{
    let mut number = 0;
    for digit in digits {
        number = number * 10 + (*digit - b'0') as u64;
    }
    number
}

/// Micrometres of whole metres and of digits after the point.
fn size_in(whole: &[u8], fraction: &[u8]) -> u64
    requires whole_digits { AllOfClass digit whole.now }
    requires fraction_digits { AllOfClass digit fraction.now }
    requires whole_limit { length whole.now ≤ 9 }
    requires fraction_limit { length fraction.now ≤ 6 }
    ensures value { result ≡ micrometres whole.now fraction.now }
    ensures short { result < 10 ^ 15 }
{
    let unit = 10u64.pow(6 - fraction.len() as u32);
    number_of(whole) * METRE + number_of(fraction) * unit
}

/// A size with its sign.
fn signed(negative: bool, size: u64) -> i64
    requires { size < 10 ^ 15 }
    ensures { result ≡ with_sign negative size }
{
    let size = size as i64;
    if negative { -size } else { size }
}

/// The mileage that the text's parts are, if they are those of a number.
fn read_parts(text: &[u8]) -> Option<Micro>
    ensures { result ≡ reading_of (parts_of text.now) }
{
    let (negative, rest) = split_sign(past_blanks(text));
    let (whole, rest) = split_digits(rest);
    let (fraction, rest) = split_fraction(rest);
    if !are_blanks(rest) {
        return None;
    }
    if whole.len() > 9 || fraction.len() > 6 || whole.len() + fraction.len() == 0 {
        return None;
    }
    Some(Micro(signed(negative, size_in(whole, fraction))))
}

/// The mileage in micrometres that a text gives in metres, or `None` exactly where the text is no number of metres.
/// Such a number may have white space around it, and a sign. It has up to nine digits, and then it may have a point
/// with up to six digits. It has at least one digit in all. Reading takes no memory.
pub fn read_metres(text: &[u8]) -> Option<Micro>
    ensures reads { (parts : MetresParts) → IsMetres text.now parts → result ≡ Some (mileage_told parts) }
    ensures only { IfSome result (λ m. (parts : MetresParts) × IsMetres text.now parts × (m ≡ mileage_told parts)) }
    // What `write_metres` writes below ten whole digits is read as the same mileage.
    ensures written { (z : ℤ) → unsigned_abs z < 10 ^ 15 → text.now ≡ metres_text z → result ≡ Some (record { 0 = z }) }
{
    read_parts(text)
}
