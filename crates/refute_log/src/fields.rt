// The fields of a line's text.
ghost use Rattle.std.specs.Prelude.{◌≡◌, ◌≢◌, ◌≤◌, ◌++◌, ◌↔◌, ℕ, codes, decimal, List, IsTrue, MatchOption};
ghost use Rattle.std.specs.Char.{IsAsciiDigit};
ghost use Rattle.std.specs.List.{AllByRecursion};
ghost use Rattle.cnf_core.specs.Clause.{IsThere};
ghost use Rattle.refute_log.specs.Lines.{literal_sign, literal_text};
ghost use Rattle.refute_log.specs.LineForm.{IsNumber, IsLiteral};
ghost use Rattle.outside_io.specs.Numbers.{IsNumberIn, IsNumberField};

use cnf_core::{LAST_VAR, Lit, Var};

/// Whether the field has no `-` in front, and what follows the `-`.
fn split_sign(field: &[u8]) -> (bool, &[u8])
    ensures spelled { field.now ≡ literal_sign result.0 ++ result.1.now }
    ensures positive { IsTrue result.0 → (rest : List ℕ) → field.now ≢ codes "-" ++ rest }
{
    match field {
        [b'-', digits @ ..] => (false, digits),
        _ => (true, field),
    }
}

fn are_digits(field: &[u8]) -> bool
    ensures { IsTrue result ↔ AllByRecursion IsAsciiDigit field.now }
{
    field.iter().all(|b| b.is_ascii_digit())
}

/// Whether the field is an optional `-` and one or more digits.
pub fn is_number(field: &[u8]) -> bool
    ensures { IsTrue result ↔ IsNumber field.now }
{
    let (_, digits) = split_sign(field);
    !digits.is_empty() && are_digits(digits)
}

/// The number from 1 to the greatest that the field is the canonical decimal of, if it is one.
pub(crate) fn read_number(field: &[u8], greatest: u32) -> Option<u32>
    ensures { MatchOption result (IsNumberField 1 greatest field.now → ⊥) (IsNumberIn 1 greatest field.now) }
{
    outside_io::read_number(field, 1, greatest)
}

/// The literal that the field is the text of, if it is one.
pub fn read_literal(field: &[u8]) -> Option<Lit>
    ensures { MatchOption result (IsLiteral field.now → ⊥) (λ l. IsThere LAST_VAR l × (field.now ≡ literal_text l)) }
{
    let (positive, digits) = split_sign(field);
    let variable = read_number(digits, LAST_VAR)?;
    Some(Lit::new(Var(variable), positive))
}
