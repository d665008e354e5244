// Ids that an earlier signal has. There are at most 512 signals where this is looked for, so each is compared with
// each.
ghost use Rattle.std.specs.Prelude.{◌≡◌, ◌<◌, ◌≤◌, IsTrue, ◌↔◌, length, List, ℕ, Some};
ghost use Rattle.plan_objects.specs.Faults.{RepeatsId};
ghost use Rattle.plan_core.specs.Searching.{FindsFirst, IsFirst};

use railml_read::SignalElem;

/// Whether both signals have an id, and it is one.
fn have_one_id(a: &SignalElem, b: &SignalElem) -> bool
    ensures { IsTrue result ↔ ((id : List ℕ) × (a.now.id ≡ Some id) × (b.now.id ≡ Some id)) }
{
    match (&a.id, &b.id) {
        (Some(a), Some(b)) => a.as_str() == b.as_str(),
        _ => false,
    }
}

/// Whether an earlier signal has the id of signal `i`.
fn is_repeated(signals: &[SignalElem], i: usize) -> bool
    requires { i < length signals.now }
    ensures { IsTrue result ↔ ((id : List ℕ) × RepeatsId signals.now i id) }
{
    for j in 0..i {
        if have_one_id(&signals[j], &signals[i]) {
            return true;
        }
    }
    false
}

/// The first signal whose id an earlier one has.
pub(crate) fn first_repeated(signals: &[SignalElem]) -> Option<usize>
    ensures { FindsFirst (λ i _. (id : List ℕ) × RepeatsId signals.now i id) signals.now result }
{
    for i in 0..signals.len() {
        if is_repeated(signals, i) {
            return Some(i);
        }
    }
    None
}
