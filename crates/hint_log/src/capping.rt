// The caps of a text.
ghost use Rattle.std.specs.Prelude.{◌≡◌, ◌↔◌, IsTrue, Contains, IfOk, IfErr, MatchOption};
ghost use Rattle.std.specs.List.{AllByRecursion};
ghost use Rattle.plan_core.specs.Values.{value_of};
ghost use Rattle.refute_log.specs.LineForm.{IsNumber};
ghost use Rattle.hint_log.specs.Caps.{CapsForm, caps_fields, IsOfCapsForm, HasRightCaps, AreInRange, HasCapsFault};
ghost use Rattle.hint_log.specs.Caps.{AreCapsOf, IsFitCap};
ghost use Rattle.hint_log.specs.Parts.{caps_form, AreCapsIn};

use crate::HintsWhat;
use outside_io::{MAX_NUMBER, behind, cut_field, read_number};
use plan_core::{Criterion, Order, Values};
use refute_log::is_number;

/// The fields of the four caps.
#[derive(Clone, Copy)]
struct Fields<'a> {
    height: &'a [u8],
    bends: &'a [u8],
    diagonal: &'a [u8],
    width: &'a [u8],
}

/// Whether each field is an optional `-` and one or more digits.
fn are_numbers(fields: &Fields<'_>) -> bool
    ensures { IsTrue result ↔ AllByRecursion IsNumber (caps_fields (caps_form fields.now)) }
{
    is_number(fields.height)
        && is_number(fields.bends)
        && is_number(fields.diagonal)
        && is_number(fields.width)
}

/// The four fields behind the line's word.
fn split_caps(text: &[u8]) -> Option<Fields<'_>>
    ensures { MatchOption result ((form : CapsForm) → IsOfCapsForm text.now form → ⊥)
        (λ f. IsOfCapsForm text.now (caps_form f)) }
{
    let rest = behind(text, b"caps ")?;
    let (height, more) = cut_field(rest)?;
    let (bends, later) = cut_field(more)?;
    let (diagonal, width) = cut_field(later)?;
    let fields = Fields {
        height,
        bends,
        diagonal,
        width,
    };
    if are_numbers(&fields) {
        Some(fields)
    } else {
        None
    }
}

/// The caps that the fields are the canonical decimals of.
fn caps_in(fields: &Fields<'_>) -> Option<Values>
    ensures { MatchOption result (HasRightCaps (caps_form fields.now) → ⊥) (AreCapsIn (caps_form fields.now)) }
{
    let height = read_number(fields.height, 0, MAX_NUMBER)?;
    let bends = read_number(fields.bends, 0, MAX_NUMBER)?;
    let diagonal = read_number(fields.diagonal, 0, MAX_NUMBER)?;
    let width = read_number(fields.width, 0, MAX_NUMBER)?;
    Some(Values {
        height,
        bends,
        diagonal,
        width,
    })
}

/// Whether the order has the criterion.
fn has(order: &Order, c: Criterion) -> bool
    ensures { IsTrue result ↔ Contains order.now c }
{
    for i in 0..order.len() {
        if order.get(i) == c {
            return true;
        }
    }
    false
}

/// Whether a criterion's cap is in range.
fn is_in_range(caps: &Values, greatest: &Values, order: &Order, c: Criterion) -> bool
    ensures { IsTrue result ↔ IsFitCap (value_of greatest.now) order.now caps.now c }
{
    caps.of(c) <= greatest.of(c) && (caps.of(c) == 0 || has(order, c))
}

/// Whether no cap is above the greatest value of its criterion, nor positive for one that the order hasn't.
pub fn are_in_range(caps: &Values, greatest: &Values, order: &Order) -> bool
    ensures { IsTrue result ↔ AreInRange (value_of greatest.now) order.now caps.now }
{
    is_in_range(caps, greatest, order, Criterion::Height)
        && is_in_range(caps, greatest, order, Criterion::Bends)
        && is_in_range(caps, greatest, order, Criterion::Diagonal)
        && is_in_range(caps, greatest, order, Criterion::Width)
}

/// The caps whose line this text is, without its line feed, or the text's first fault: `Form` comes before `Number`,
/// and `Number` before `Range`.
pub fn read_caps(text: &[u8], greatest: &Values, order: &Order) -> Result<Values, HintsWhat>
    ensures caps { IfOk result (AreCapsOf (value_of greatest.now) order.now text.now) }
    ensures fault { IfErr result (HasCapsFault (value_of greatest.now) order.now text.now) }
{
    let Some(fields) = split_caps(text) else {
        return Err(HintsWhat::Form);
    };
    let Some(caps) = caps_in(&fields) else {
        return Err(HintsWhat::Number);
    };
    if !are_in_range(&caps, greatest, order) {
        return Err(HintsWhat::Range);
    }
    Ok(caps)
}
