// Numbers in fields, by their canonical decimals.
ghost use Rattle.std.specs.Prelude.{◌≡◌, ◌≤◌, ◌<◌, ◌+◌, ◌-◌, ◌*◌, ◌^◌, ◌++◌, ◌∷◌, ◌↔◌, ℕ, IsTrue, OnOk, MatchOption};
ghost use Rattle.std.specs.Int.{IsInRange};
ghost use Rattle.std.specs.Fmt.{decimal};
ghost use Rattle.outside_io.specs.Contents.{Begins};
ghost use Rattle.outside_io.specs.Numbers.{IsNumberIn, BeginsCanonical};

use crate::{push_field, push_text};
use itoa::Buffer;
use plan_core::OutOfMemory;

/// The greatest number that a sheet tells, and the greatest value of which a log's Bound line speaks.
pub const MAX_NUMBER: u32 = 65_535;

/// Whether a digit is in front, and a 0 only where nothing follows it.
fn begins_canonical(field: &[u8]) -> bool
    ensures { IsTrue result ↔ BeginsCanonical field.now }
{
    match field {
        [b'0', behind @ ..] => behind.is_empty(),
        [first, ..] => b'1' <= *first && *first <= b'9',
        [] => false,
    }
}

/// The number of the digits of `number` and of one more behind them, if it is a digit, and the number fits.
fn with_digit(number: u64, digit: u8) -> Option<u64>
    ensures { MatchOption result (IsInRange 48 57 digit → 2 ^ 64 ≤ number * 10 + (digit - 48))
        (λ n. IsInRange 48 57 digit × (n ≡ number * 10 + (digit - 48))) }
{
    if !digit.is_ascii_digit() {
        return None;
    }
    let tens = number.checked_mul(10)?;
    tens.checked_add(u64::from(digit - b'0'))
}

/// The number that the field is the decimal of, if it is one that fits.
fn value_of(field: &[u8]) -> Option<u64>
    requires { BeginsCanonical field.now }
    ensures { MatchOption result ((n : ℕ) → n < 2 ^ 64 → field.now ≡ decimal n → ⊥)
        (λ n. (n < 2 ^ 64) × (field.now ≡ decimal n)) }
{
    let mut number = 0;
    for digit in field {
        number = with_digit(number, *digit)?;
    }
    Some(number)
}

/// The number that the field is the decimal of, without a sign and without a zero in front, if it is one
/// from `least` to `greatest`.
pub fn read_long_number(field: &[u8], least: u64, greatest: u64) -> Option<u64>
    ensures { MatchOption result ((n : ℕ) → IsNumberIn least greatest field.now n → ⊥)
        (IsNumberIn least greatest field.now) }
{
    if !begins_canonical(field) {
        return None;
    }
    let number = value_of(field)?;
    if least <= number && number <= greatest {
        Some(number)
    } else {
        None
    }
}

/// The number of 32 bits whose decimal the field is, if it is one from `least` to `greatest`. It has no sign and no
/// zero in front.
pub fn read_number(field: &[u8], least: u32, greatest: u32) -> Option<u32>
    ensures { MatchOption result ((n : ℕ) → IsNumberIn least greatest field.now n → ⊥)
        (IsNumberIn least greatest field.now) }
{
    match read_long_number(field, u64::from(least), u64::from(greatest)) {
        Some(number) => Some(number as u32),
        None => None,
    }
}

/// Appends a number. Where memory couldn't be had, `into` begins with what it held.
pub fn push_number(into: &mut Vec<u8>, n: u64) -> Result<(), OutOfMemory>
    ensures ok { OnOk result (into.new.items ≡ into.old.items ++ decimal n) }
    ensures begins { Begins into.old.items into.new.items }
{
    let mut digits = Buffer::new();
    push_text(into, digits.format(n).as_bytes())
}

/// Appends a space and a number. Where memory couldn't be had, `into` begins with what it held.
pub fn push_number_field(into: &mut Vec<u8>, n: u32) -> Result<(), OutOfMemory>
    ensures ok { OnOk result (into.new.items ≡ into.old.items ++ (32 ∷ decimal n)) }
    ensures begins { Begins into.old.items into.new.items }
{
    let mut digits = Buffer::new();
    push_field(into, digits.format(n).as_bytes())
}

/// Appends a space and a place in a file, in bytes from 0. Where memory couldn't be had, `into` begins
/// with what it held.
pub fn push_place_field(into: &mut Vec<u8>, at: usize) -> Result<(), OutOfMemory>
    ensures ok { OnOk result (into.new.items ≡ into.old.items ++ (32 ∷ decimal at)) }
    ensures begins { Begins into.old.items into.new.items }
{
    let mut digits = Buffer::new();
    push_field(into, digits.format(at).as_bytes())
}
