// References, from their `&` on.
ghost use Rattle.std.specs.Prelude.{◌≡◌, ◌≤◌, length, option_map};
ghost use Rattle.std.specs.Char.{digit_value, is_digit as digit};
ghost use Rattle.std.specs.Str.Parse.{AllDigits, digits_value};
ghost use Rattle.railml_text.specs.References.{named_references};
ghost use Rattle.railml_text.specs.Bytes.{front, past};
ghost use Rattle.railml_text.specs.Reading.{find_named, number_at as number, by_number_at as by_number};
ghost use Rattle.railml_text.specs.Reading.{reference_at as reference};

use crate::reading::word_at;

/// The value of a digit or a letter, from 0 to 35, or 36 for another byte.
fn digit_of(b: u8) -> u32
    ensures { result ≡ digit_value b }
{
    match char::from(b).to_digit(36) {
        Some(value) => value,
        None => 36,
    }
}

/// What follows the digits at the front.
fn past_digits(bytes: &[u8], base: u32) -> &[u8]
    ensures { result.now ≡ past (λ b. digit b base) bytes.now }
{
    let mut rest = bytes;
    while let [b, tail @ ..] = rest {
        if base <= digit_of(*b) {
            return rest;
        }
        rest = tail;
    }
    rest
}

/// The digits at the front, and what follows them.
#[tactic(auto, using(crate::proofs::RunLemmas::take_front, crate::proofs::RunLemmas::past_no_longer))]
fn split_digits(bytes: &[u8], base: u32) -> (&[u8], &[u8])
    ensures front { result.0.now ≡ front (λ b. digit b base) bytes.now }
    ensures past { result.1.now ≡ past (λ b. digit b base) bytes.now }
{
    let rest = past_digits(bytes, base);
    (&bytes[..bytes.len() - rest.len()], rest)
}

/// The number that digits write.
fn number_of(digits: &[u8], base: u32) -> u32
    requires base { base ≤ 16 }
    requires few { length digits.now ≤ 8 }
    requires each { AllDigits base digits.now }
    ensures { result ≡ digits_value base digits.now }
{
    let mut number = 0;
    for d in digits {
        number = number * base + digit_of(*d);
    }
    number
}

/// The character whose number is at the front, and what follows its `;`.
fn number_at(bytes: &[u8], base: u32) -> Option<(char, &[u8])>
    requires { base ≤ 16 }
    ensures { option_map (λ x. (x.0, x.1.now)) result ≡ number base bytes.now }
{
    let (digits, rest) = split_digits(bytes, base);
    if digits.is_empty() || 8 < digits.len() {
        return None;
    }
    let number = number_of(digits, base);
    match rest {
        [b';', after @ ..] => {
            if number == 0 {
                return None;
            }
            match char::from_u32(number) {
                Some(character) => Some((character, after)),
                None => None,
            }
        }
        _ => None,
    }
}

/// The character whose name is at the front, and what follows its `;`.
fn named_at(bytes: &[u8]) -> Option<(char, &[u8])>
    ensures { option_map (λ x. (x.0, x.1.now)) result ≡ find_named named_references bytes.now }
{
    if let Ok(rest) = word_at(bytes, b"&lt;") {
        return Some(('<', rest));
    }
    if let Ok(rest) = word_at(bytes, b"&gt;") {
        return Some(('>', rest));
    }
    if let Ok(rest) = word_at(bytes, b"&amp;") {
        return Some(('&', rest));
    }
    if let Ok(rest) = word_at(bytes, b"&apos;") {
        return Some(('\'', rest));
    }
    match word_at(bytes, b"&quot;") {
        Ok(rest) => Some(('"', rest)),
        Err(_) => None,
    }
}

#[tactic(auto, unfolding(crate::specs::Reading::by_number_at))]
fn by_number_at(bytes: &[u8]) -> Option<(char, &[u8])>
    ensures { option_map (λ x. (x.0, x.1.now)) result ≡ by_number bytes.now }
{
    if let Ok(digits) = word_at(bytes, b"&#x") {
        return number_at(digits, 16);
    }
    match word_at(bytes, b"&#") {
        Ok(digits) => number_at(digits, 10),
        Err(_) => None,
    }
}

/// The character that the reference at the front means, and what follows it.
#[tactic(auto, unfolding(crate::specs::Reading::reference_at))]
pub(crate) fn reference_at(bytes: &[u8]) -> Option<(char, &[u8])>
    ensures { option_map (λ x. (x.0, x.1.now)) result ≡ reference bytes.now }
{
    match named_at(bytes) {
        Some(found) => Some(found),
        None => by_number_at(bytes),
    }
}
