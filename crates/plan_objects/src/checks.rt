// Faults that a signal has by its own attributes, or by those of earlier signals.
ghost use Rattle.std.specs.Prelude.{◌≡◌, ◌<◌, IsTrue, ◌↔◌, length, chars, IfSome, IsSome};
ghost use Rattle.std.specs.Option.{option_copied, is_some};
ghost use Rattle.railml_faults.specs.Faults.{IsNoNumber};
ghost use Rattle.plan_objects.specs.Rows.{id_of as id_or_empty};
ghost use Rattle.plan_objects.specs.Faults.{first_lacking as lacking, HasBadId, RepeatsId, HasNoNumber};
ghost use Rattle.plan_core.specs.Searching.{FindsFirst};

use plan_core::{Text, is_id};
use rail_mileage::read_metres;
use railml_read::SignalElem;

/// A signal's id, empty where it has none.
pub(crate) fn id_of(signal: &SignalElem) -> &str
    ensures { result.now ≡ id_or_empty signal.now }
{
    match &signal.id {
        Some(id) => id.as_str(),
        None => "",
    }
}

/// The name of the first of the attributes `id` and `pos` that a signal lacks, if it lacks one.
pub(crate) fn first_lacking(signal: &SignalElem) -> Option<&'static str>
    ensures { option_copied result ≡ lacking signal.now }
{
    if signal.id.is_none() {
        Some("id")
    } else if signal.pos.is_none() {
        Some("pos")
    } else {
        None
    }
}

/// The first signal that lacks an attribute.
pub(crate) fn first_missing(signals: &[SignalElem]) -> Option<usize>
    ensures { FindsFirst (λ _ signal. IsSome (lacking signal)) signals.now result }
{
    for (i, signal) in signals.iter().enumerate() {
        if first_lacking(signal).is_some() {
            return Some(i);
        }
    }
    None
}

/// Whether a signal has an id that none may have.
fn has_bad_id(signal: &SignalElem) -> bool
    ensures { IsTrue result ↔ HasBadId signal.now }
{
    match &signal.id {
        Some(id) => !is_id(id.as_str()),
        None => false,
    }
}

/// The first signal whose id none may have.
pub(crate) fn first_bad_id(signals: &[SignalElem]) -> Option<usize>
    ensures { FindsFirst (λ _ signal. HasBadId signal) signals.now result }
{
    for (i, signal) in signals.iter().enumerate() {
        if has_bad_id(signal) {
            return Some(i);
        }
    }
    None
}

/// Whether a text is there and is no number of metres.
fn is_no_number(text: &Option<Text>) -> bool
    ensures { IsTrue result ↔ IsNoNumber text.now }
{
    match text {
        Some(text) => read_metres(text.bytes()).is_none(),
        None => false,
    }
}

/// Whether a signal has a position or a mileage that is no number.
fn has_no_number(signal: &SignalElem) -> bool
    ensures { IsTrue result ↔ HasNoNumber signal.now }
{
    is_no_number(&signal.pos) || is_no_number(&signal.abs_pos)
}

/// The first signal with a position or a mileage that is no number.
pub(crate) fn first_bad_number(signals: &[SignalElem]) -> Option<usize>
    ensures { FindsFirst (λ _ signal. HasNoNumber signal) signals.now result }
{
    for (i, signal) in signals.iter().enumerate() {
        if has_no_number(signal) {
            return Some(i);
        }
    }
    None
}
