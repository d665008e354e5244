// A mileage's field, judged by its form.
ghost use Rattle.std.specs.Prelude.{◌↔◌, IsTrue};
ghost use Rattle.plan_write.specs.SheetLine.{AreDigits, IsWholeMetres, IsFraction, IsSize, IsMileageText};

use outside_io::{behind, read_long_number};
use plan_write::MAX_METRES;

fn are_digits(text: &[u8]) -> bool
    ensures { IsTrue result ↔ AreDigits text.now }
{
    text.iter().all(|b| b.is_ascii_digit())
}

/// Whether the text is the canonical decimal of so many metres as a sheet may tell.
fn is_whole(text: &[u8]) -> bool
    ensures { IsTrue result ↔ IsWholeMetres text.now }
{
    read_long_number(text, 0, MAX_METRES).is_some()
}

fn is_fraction(text: &[u8]) -> bool
    ensures { IsTrue result ↔ IsFraction text.now }
{
    text.len() == 6 && are_digits(text)
}

/// Whether the text is whole metres, a point and six digits.
fn is_size(text: &[u8]) -> bool
    ensures { IsTrue result ↔ IsSize text.now }
{
    if text.len() < 7 {
        return false;
    }
    let (whole, rest) = text.split_at(text.len() - 7);
    let Some(fraction) = behind(rest, b".") else {
        return false;
    };
    if !is_whole(whole) {
        return false;
    }
    is_fraction(fraction)
}

/// Whether the field is a mileage by its form: a size, with `-` in front or nothing.
pub(crate) fn is_mileage(field: &[u8]) -> bool
    ensures { IsTrue result ↔ IsMileageText field.now }
{
    match behind(field, b"-") {
        Some(size) => is_size(size),
        None => is_size(field),
    }
}
