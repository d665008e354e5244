// Options and the values that they take.
ghost use Rattle.std.specs.Prelude.{◌≡◌, ◌≢◌, ◌≤◌, ℕ, List, [], ◌∷◌, length, MatchOption};
ghost use Rattle.std.specs.Bool.{MatchBool};
ghost use Rattle.plan_core.specs.declared.criterion.Criterion.{Criterion as Measure};
ghost use Rattle.outside_io.specs.Numbers.{IsNumberIn};
ghost use Rattle.plan_words.specs.OptionValues.{option_word, criteria_text, IsOrderText, IsPairText, Takes};

use arrayvec::ArrayVec;
use outside_io::{read_criterion, read_number};
use plan_core::{Criterion, MAX_BUDGET, MAX_HEIGHT, MAX_LEAST, MAX_WIDTH, Order};

/// The greatest number that a station is made from.
pub(crate) const MAX_SEED: u32 = 4_294_967_295;

/// A word that names an option.
#[derive(Clone, Copy, Debug, PartialEq, Eq)]
pub(crate) enum OptionWord {
    Width,
    Height,
    Least,
    Criteria,
    Conflicts,
    Svg,
    Log,
}

impl OptionWord {
    /// The option that the word names, if it names one.
    pub(crate) fn named(word: &str) -> Option<OptionWord>
        ensures { MatchOption result ((o : OptionWord) → word.now ≢ option_word o) (λ o. word.now ≡ option_word o) }
    {
        match word {
            "--width" => Some(OptionWord::Width),
            "--height" => Some(OptionWord::Height),
            "--least" => Some(OptionWord::Least),
            "--order" => Some(OptionWord::Criteria),
            "--conflicts" => Some(OptionWord::Conflicts),
            "--svg" => Some(OptionWord::Svg),
            "--log" => Some(OptionWord::Log),
            _ => None,
        }
    }

    /// The option's word.
    pub(crate) fn word(self) -> &'static str
        ensures { result.now ≡ option_word self }
    {
        match self {
            OptionWord::Width => "--width",
            OptionWord::Height => "--height",
            OptionWord::Least => "--least",
            OptionWord::Criteria => "--order",
            OptionWord::Conflicts => "--conflicts",
            OptionWord::Svg => "--svg",
            OptionWord::Log => "--log",
        }
    }
}

/// The number that the text writes, if it writes one within the limits.
pub(crate) fn number_in(text: &str, low: u32, high: u32) -> Option<u32>
    ensures { MatchOption result ((n : ℕ) → IsNumberIn low high text.now n → ⊥) (IsNumberIn low high text.now) }
{
    read_number(text.as_bytes(), low, high)
}

/// The criteria whose words the text has between its commas, if they are at most four.
fn criteria_in(text: &str) -> Option<ArrayVec<Criterion, 4>>
    ensures { MatchOption result ((list : List Measure) → 1 ≤ length list → length list ≤ 4 →
        text.now ≢ criteria_text list) (λ list. text.now ≡ criteria_text list.items) }
{
    let mut list = ArrayVec::new();
    for word in text.split(',') {
        let Some(criterion) = read_criterion(word.as_bytes()) else {
            return None;
        };
        if list.is_full() {
            return None;
        }
        list.push(criterion);
    }
    Some(list)
}

/// The order that the text writes, if it writes one.
pub(crate) fn order_in(text: &str) -> Option<Order>
    ensures { MatchOption result ((order : List Measure) → IsOrderText text.now order → ⊥) (IsOrderText text.now) }
{
    match criteria_in(text) {
        Some(list) => Order::new(&list),
        None => None,
    }
}

/// The two criteria of the list, if it has two that differ.
fn pair_of(list: &[Criterion]) -> Option<(Criterion, Criterion)>
    ensures { MatchOption result ((a b : Measure) → a ≢ b → list.now ≢ a ∷ b ∷ [])
        (λ pair. (pair.0 ≢ pair.1) × (list.now ≡ pair.0 ∷ pair.1 ∷ [])) }
{
    if list.len() != 2 {
        return None;
    }
    let first = list[0];
    let second = list[1];
    if first == second {
        return None;
    }
    Some((first, second))
}

/// The two criteria that the text writes, if it writes two that differ.
pub(crate) fn pair_in(text: &str) -> Option<(Criterion, Criterion)>
    ensures { MatchOption result ((a b : Measure) → IsPairText text.now a b → ⊥)
        (λ pair. IsPairText text.now pair.0 pair.1) }
{
    match criteria_in(text) {
        Some(list) => pair_of(&list),
        None => None,
    }
}

impl OptionWord {
    /// Whether the option takes the value.
    pub(crate) fn takes(self, value: &str) -> bool
        ensures { MatchBool result (Takes self value.now) (Takes self value.now → ⊥) }
    {
        match self {
            OptionWord::Width => number_in(value, 1, u32::from(MAX_WIDTH)).is_some(),
            OptionWord::Height => number_in(value, 0, u32::from(MAX_HEIGHT)).is_some(),
            OptionWord::Least => number_in(value, 1, u32::from(MAX_LEAST)).is_some(),
            OptionWord::Criteria => order_in(value).is_some(),
            OptionWord::Conflicts => number_in(value, 1, MAX_BUDGET).is_some(),
            OptionWord::Svg | OptionWord::Log => !value.is_empty(),
        }
    }
}
