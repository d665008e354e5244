// The fields of a sheet's lines, read.
ghost use Rattle.std.specs.Prelude.{◌≡◌, ◌≢◌, ◌≤◌, ◌++◌, ◌∷◌, ℕ, List, map, length, MatchOption};
ghost use Rattle.std.specs.Fmt.{decimal};
ghost use Rattle.plan_core.specs.declared.criterion.Criterion.{Criterion as Measure};
ghost use Rattle.plan_core.specs.declared.point.Point.{Point as Told};
ghost use Rattle.outside_io.specs.Criteria.{criterion_word};
ghost use Rattle.outside_io.specs.Fields.{spaced};
ghost use Rattle.plan_write.specs.SheetLine.{IsSmall, AreSmall};
ghost use Rattle.plan_text.specs.SheetReading.{IsFieldAt, IsNumberAt, IsNameAt, IsPointAt};

use arrayvec::ArrayVec;
use outside_io::{MAX_NUMBER, behind, front_field, read_criterion, read_number};
use plan_core::{Criterion, Point};

/// The field in front of the text, after one space, and what follows it, if a space is in front.
pub(crate) fn next_field(text: &[u8]) -> Option<(&[u8], &[u8])>
    ensures { MatchOption result ((rest : List ℕ) → text.now ≢ 32 ∷ rest) (λ p. IsFieldAt text.now p.0.now p.1.now) }
{
    let rest = behind(text, b" ")?;
    Some(front_field(rest))
}

/// The number that the field is the canonical decimal of, if it is one of at most 65,535.
fn number_of(field: &[u8]) -> Option<u16>
    ensures { MatchOption result ((n : ℕ) → IsSmall n → field.now ≢ decimal n)
        (λ n. IsSmall n × (field.now ≡ decimal n)) }
{
    let number = read_number(field, 0, MAX_NUMBER)?;
    Some(number as u16)
}

/// The number in front of the text, after one space, and what follows it, if one is in front.
pub(crate) fn next_number(text: &[u8]) -> Option<(u16, &[u8])>
    ensures { MatchOption result ((n : ℕ) (rest : List ℕ) → IsNumberAt text.now n rest → ⊥)
        (λ p. IsNumberAt text.now p.0 p.1.now) }
{
    let (field, rest) = next_field(text)?;
    let number = number_of(field)?;
    Some((number, rest))
}

/// The name in front of the text, after one space, and what follows it, if one is in front.
pub(crate) fn next_name(text: &[u8]) -> Option<(&[u8], &[u8])>
    ensures { MatchOption result ((name rest : List ℕ) → IsNameAt text.now name rest → ⊥)
        (λ p. IsNameAt text.now p.0.now p.1.now) }
{
    let (name, rest) = next_field(text)?;
    if name.is_empty() {
        return None;
    }
    Some((name, rest))
}

/// The point whose coordinates are in front of the text, each after one space, and what follows them, if two numbers
/// are in front.
pub(crate) fn next_point(text: &[u8]) -> Option<(Point, &[u8])>
    ensures { MatchOption result ((p : Told) (rest : List ℕ) → IsPointAt text.now p rest → ⊥)
        (λ p. IsPointAt text.now p.0 p.1.now) }
{
    let (x, rest) = next_number(text)?;
    let (y, rest) = next_number(rest)?;
    Some((Point { x, y }, rest))
}

/// The numbers up to the line feed, each after one space, and what follows it, if there are no more than eleven.
pub(crate) fn numbers(text: &[u8]) -> Option<(ArrayVec<u16, 11>, &[u8])>
    ensures { MatchOption result ((ns rest : List ℕ) → AreSmall ns → length ns ≤ 11 → text.now ≢ spaced (map decimal ns)
        ++ (10 ∷ rest))
        (λ p. AreSmall p.0.items × (text.now ≡ spaced (map decimal p.0.items) ++ (10 ∷ p.1.now))) }
{
    let mut numbers = ArrayVec::new();
    let mut rest = text;
    while let Some(after) = behind(rest, b" ") {
        let (field, left) = front_field(after);
        let number = number_of(field)?;
        if numbers.is_full() {
            return None;
        }
        numbers.push(number);
        rest = left;
    }
    let left = behind(rest, b"\n")?;
    Some((numbers, left))
}

/// The criteria up to the line feed, each after one space, and what follows it, if there are no more than four.
pub(crate) fn criteria(text: &[u8]) -> Option<(ArrayVec<Criterion, 4>, &[u8])>
    ensures { MatchOption result ((cs : List Measure) (rest : List ℕ) → length cs ≤ 4 →
        text.now ≢ spaced (map criterion_word cs) ++ (10 ∷ rest))
        (λ p. text.now ≡ spaced (map criterion_word p.0.items) ++ (10 ∷ p.1.now)) }
{
    let mut criteria = ArrayVec::new();
    let mut rest = text;
    while let Some(after) = behind(rest, b" ") {
        let (word, left) = front_field(after);
        let criterion = read_criterion(word)?;
        if criteria.is_full() {
            return None;
        }
        criteria.push(criterion);
        rest = left;
    }
    let left = behind(rest, b"\n")?;
    Some((criteria, left))
}
