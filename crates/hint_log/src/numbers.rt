// The numbers of a line's hints.
ghost use Rattle.std.specs.Prelude.{◌≡◌, ◌↔◌, codes, IsTrue, IfOk, IfErr, MatchBool, MatchOption};
ghost use Rattle.cnf_core.specs.declared.limits.TheConstants.{LAST_VAR};
ghost use Rattle.outside_io.specs.Numbers.{IsNumberField};
ghost use Rattle.hint_log.specs.HintFaults.{IsHintWhere};
ghost use Rattle.hint_log.specs.Parts.{AddsNumber, HasHintNumbers, HasWrongNumbers, LacksNumbers, IsFormFor};

use crate::{HintTextFault, HintsWhat, Numbers};
use cnf_core::LAST_VAR;
use outside_io::{cut_field, read_number};
use plan_core::Items;
use refute_log::is_number;
use std::alloc::{AllocError, Global};

/// Appends the number that the field is, and says whether it is one.
fn add_number(numbers: &mut Vec<u32>, field: &[u8]) -> Result<bool, AllocError>
    ensures { IfOk result (λ right. MatchBool right (AddsNumber numbers.old.items numbers.new.items field.now)
        (IsNumberField 1 LAST_VAR field.now → ⊥)) }
{
    match read_number(field, 1, LAST_VAR) {
        Some(number) => {
            numbers.push(number)?;
            Ok(true)
        }
        None => Ok(false),
    }
}

/// Whether nothing is left but the last field.
fn is_end(text: &[u8]) -> bool
    ensures { IsTrue result ↔ (text.now ≡ codes "0") }
{
    matches!(text, [b'0'])
}

/// The numbers of the text behind a line's literals, which ends with the field `0`; none where one of them isn't right.
pub(crate) fn read_numbers(
    alloc: Global,
    text: &[u8],
    line: u32,
) -> Result<Option<Numbers>, HintTextFault>
    ensures numbers { IfOk result (λ r. MatchOption r (HasWrongNumbers text.now) (HasHintNumbers text.now)) }
    ensures fault { IfErr result (IsHintWhere (IsFormFor (LacksNumbers text.now)) line) }
{
    let mut numbers = Vec::new(alloc);
    let mut right = true;
    let mut rest = text;
    while let Some((field, after)) = cut_field(rest) {
        if !is_number(field) {
            return Err(HintTextFault::Hints {
                what: HintsWhat::Form,
                line,
            });
        }
        if !add_number(&mut numbers, field)? {
            right = false;
        }
        rest = after;
    }
    if !is_end(rest) {
        return Err(HintTextFault::Hints {
            what: HintsWhat::Form,
            line,
        });
    }
    if !right {
        return Ok(None);
    }
    if numbers.is_empty() {
        return Err(HintTextFault::Hints {
            what: HintsWhat::Form,
            line,
        });
    }
    Ok(Some(Items::from_vec(numbers)))
}
