// The lines of a sheet, read by their form.
ghost use Rattle.std.specs.Prelude.{◌≡◌, ◌≢◌, ◌≤◌, ◌++◌, ◌∷◌, [], ℕ, Bool, List, map, length, flat_map, MatchOption};
ghost use Rattle.std.specs.Fmt.{decimal};
ghost use Rattle.std.specs.Option.{option_copied};
ghost use Rattle.std.specs.declared.option.Option.{Option};
ghost use Rattle.plan_core.specs.declared.point.Point.{Point as Told};
ghost use Rattle.plan_core.specs.Grid.{GridSize, grid_with};
ghost use Rattle.outside_io.specs.Fields.{line_text};
ghost use Rattle.plan_write.specs.declared.edition.Edition.{Edition as Editions};
ghost use Rattle.plan_write.specs.declared.ending.Ending.{Ending};
ghost use Rattle.plan_write.specs.SheetLine.{SheetLine, GridLine, OrderLine, NodeLine, EdgeLine, ValuesLine, EndLine};
ghost use Rattle.plan_write.specs.SheetLine.{grid_numbers, coordinates, text_of_line, IsSmall, AreSmall};
ghost use Rattle.plan_write.specs.SheetLine.{IsMileageText, StandsForLeast, IsBetween, HasForm, IsSmallEnding};
ghost use Rattle.plan_text.specs.SheetFaults.{GridDue, OrderDue, NodeDue, EdgeDue, ValuesDue, IsToldIn, BeginsWithLine};
ghost use Rattle.plan_text.specs.SheetFaults.{IsMisformed};
ghost use Rattle.plan_text.specs.SheetReading.{IsNamedAt, IsNumberedAt, IsNodeEnd, IsLineTo, ending_told};

use crate::mileage_text::is_mileage;
use crate::sheet_fields::{criteria, next_field, next_name, next_number, next_point, numbers};
use arrayvec::ArrayVec;
use outside_io::behind;
use plan_core::{Criterion, Point, Values};
use plan_write::Edition;

/// What a node's line tells; the mileage in the second edition alone.
#[derive(Clone, Copy)]
pub(crate) struct NodeTold<'a> {
    pub number: u16,
    pub name: &'a [u8],
    pub place: Point,
    pub mileage: Option<&'a [u8]>,
}

/// What an edge's line tells; the track in the second edition alone.
#[derive(Drop)]
pub(crate) struct EdgeTold<'a> {
    pub number: u16,
    pub track: Option<&'a [u8]>,
    pub west: u16,
    pub east: u16,
    pub points: ArrayVec<Point, 4>,
}

/// The ending that a line tells.
#[derive(Clone, Copy)]
pub(crate) enum EndTold {
    Best,
    NoDrawing,
    Conflicts(u16),
    Room(u16),
}

/// The numbers of a line that begins so, and what follows the line.
fn numbered<'a>(text: &'a [u8], front: &[u8]) -> Option<(ArrayVec<u16, 11>, &'a [u8])>
    ensures { MatchOption result ((ns rest : List ℕ) → AreSmall ns → length ns ≤ 11 →
        text.now ≢ line_text front.now (map decimal ns) ++ rest)
        (λ p. AreSmall p.0.items × (text.now ≡ line_text front.now (map decimal p.0.items) ++ p.1.now)) }
{
    numbers(behind(text, front)?)
}

fn only_one(numbers: &[u16]) -> Option<u16>
    ensures { MatchOption result ((x : ℕ) → numbers.now ≢ x ∷ []) (λ x. numbers.now ≡ x ∷ []) }
{
    match numbers {
        [x] => Some(*x),
        _ => None,
    }
}

fn only_two(numbers: &[u16]) -> Option<(u16, u16)>
    ensures { MatchOption result ((x y : ℕ) → numbers.now ≢ x ∷ y ∷ []) (λ p. numbers.now ≡ p.0 ∷ p.1 ∷ []) }
{
    match numbers {
        [x, y] => Some((*x, *y)),
        _ => None,
    }
}

fn only_three(numbers: &[u16]) -> Option<(u16, u16, u16)>
    ensures { MatchOption result ((x y z : ℕ) → numbers.now ≢ x ∷ y ∷ z ∷ [])
        (λ p. numbers.now ≡ p.0 ∷ p.1 ∷ p.2 ∷ []) }
{
    match numbers {
        [x, y, z] => Some((*x, *y, *z)),
        _ => None,
    }
}

fn only_four(numbers: &[u16]) -> Option<[u16; 4]>
    ensures { MatchOption result ((x y z w : ℕ) → numbers.now ≢ x ∷ y ∷ z ∷ w ∷ []) (λ p. numbers.now ≡ p) }
{
    match numbers {
        [x, y, z, w] => Some([*x, *y, *z, *w]),
        _ => None,
    }
}

/// The first two numbers, and what follows.
fn first_two(numbers: &[u16]) -> Option<(u16, u16, &[u16])>
    ensures { MatchOption result ((x y : ℕ) (rest : List ℕ) → numbers.now ≢ x ∷ y ∷ rest)
        (λ p. numbers.now ≡ p.0 ∷ p.1 ∷ p.2.now) }
{
    match numbers {
        [x, y, rest @ ..] => Some((*x, *y, rest)),
        _ => None,
    }
}

/// The one number of a line that begins so, and what follows the line.
pub(crate) fn one_number<'a>(text: &'a [u8], front: &[u8]) -> Option<(u16, &'a [u8])>
    ensures { MatchOption result ((n : ℕ) (rest : List ℕ) → IsSmall n → text.now ≢ line_text front.now (decimal n ∷ [])
        ++ rest)
        (λ p. IsSmall p.0 × (text.now ≡ line_text front.now (decimal p.0 ∷ []) ++ p.1.now)) }
{
    let (numbers, rest) = numbered(text, front)?;
    let n = only_one(numbers.as_slice())?;
    Some((n, rest))
}

/// The width, height and least length of the grid that these numbers of its line tell.
fn grid_of(edition: Edition, numbers: &[u16]) -> Option<(u16, u16, u16)>
    ensures { MatchOption result ((grid : GridSize) → numbers.now ≢ grid_numbers edition grid)
        (λ p. (numbers.now ≡ grid_numbers edition (grid_with p.0 p.1 p.2))
        × StandsForLeast edition (grid_with p.0 p.1 p.2)) }
{
    match edition {
        Edition::First => {
            let (width, height) = only_two(numbers)?;
            Some((width, height, 1))
        }
        Edition::Second => only_three(numbers),
    }
}

/// The width, height and least length that the line of the grid says, and what follows it.
pub(crate) fn grid_line(edition: Edition, text: &[u8]) -> Option<(u16, u16, u16, &[u8])>
    ensures { MatchOption result ((needs_drawing : Bool) →
        IsMisformed (GridDue edition needs_drawing) text.now)
        (λ p. IsLineTo text.now (GridLine edition (grid_with p.0 p.1 p.2)) p.3.now) }
{
    let (numbers, rest) = numbered(text, b"grid")?;
    let (width, height, least) = grid_of(edition, numbers.as_slice())?;
    Some((width, height, least, rest))
}

/// The criteria that the line of the order says, and what follows it.
pub(crate) fn order_line(text: &[u8]) -> Option<(ArrayVec<Criterion, 4>, &[u8])>
    ensures { MatchOption result ((edition : Editions) (needs_drawing : Bool) →
        IsMisformed (OrderDue edition needs_drawing) text.now)
        (λ p. IsBetween 1 4 (length p.0.items) × (text.now ≡ text_of_line (OrderLine p.0.items) ++ p.1.now)) }
{
    let (criteria, rest) = criteria(behind(text, b"order")?)?;
    if criteria.is_empty() {
        return None;
    }
    Some((criteria, rest))
}

/// The number and the name behind this word, and what follows them.
fn named<'a>(text: &'a [u8], word: &[u8]) -> Option<(u16, &'a [u8], &'a [u8])>
    ensures { MatchOption result ((n : ℕ) (name rest : List ℕ) → IsNamedAt text.now word.now n name rest → ⊥)
        (λ p. IsNamedAt text.now word.now p.0 p.1.now p.2.now) }
{
    let rest = behind(text, word)?;
    let (number, rest) = next_number(rest)?;
    let (name, rest) = next_name(rest)?;
    Some((number, name, rest))
}

/// The mileage up to the line feed, after one space, and what follows it.
fn mileage_end(text: &[u8]) -> Option<(&[u8], &[u8])>
    ensures { MatchOption result ((mileage rest : List ℕ) → IsMileageText mileage → text.now ≢ 32
        ∷ (mileage ++ 10 ∷ rest))
        (λ p. IsMileageText p.0.now × (text.now ≡ 32 ∷ (p.0.now ++ 10 ∷ p.1.now))) }
{
    let (mileage, rest) = next_field(text)?;
    if !is_mileage(mileage) {
        return None;
    }
    let rest = behind(rest, b"\n")?;
    Some((mileage, rest))
}

/// The mileage at the end of a node's line, if the edition has it, and what follows the line.
fn node_end(edition: Edition, text: &[u8]) -> Option<(Option<&[u8]>, &[u8])>
    ensures { MatchOption result ((mileage : Option (List ℕ)) (rest : List ℕ) →
        IsNodeEnd edition text.now mileage rest → ⊥)
        (λ p. IsNodeEnd edition text.now (option_copied p.0) p.1.now) }
{
    match edition {
        Edition::First => {
            let rest = behind(text, b"\n")?;
            Some((None, rest))
        }
        Edition::Second => {
            let (mileage, rest) = mileage_end(text)?;
            Some((Some(mileage), rest))
        }
    }
}

/// What the line of a node says, and what follows it.
pub(crate) fn node_line(edition: Edition, text: &[u8]) -> Option<(NodeTold<'_>, &[u8])>
    ensures { MatchOption result ((n : ℕ) → IsMisformed (NodeDue edition n) text.now)
        (λ p. IsToldIn edition (option_copied p.0.mileage) × IsLineTo text.now
        (NodeLine p.0.number p.0.name.now p.0.place (option_copied p.0.mileage)) p.1.now) }
{
    let (number, name, rest) = named(text, b"node")?;
    let (place, rest) = next_point(rest)?;
    let (mileage, rest) = node_end(edition, rest)?;
    let told = NodeTold {
        number,
        name,
        place,
        mileage,
    };
    Some((told, rest))
}

/// The points of these coordinates, if they are two to four.
fn points_of(numbers: &[u16]) -> Option<ArrayVec<Point, 4>>
    ensures { MatchOption result ((ps : List Told) → IsBetween 2 4 (length ps) → numbers.now ≢ flat_map coordinates ps)
        (λ ps. IsBetween 2 4 (length ps.items) × (numbers.now ≡ flat_map coordinates ps.items)) }
{
    let mut points = ArrayVec::new();
    let mut rest = numbers;
    while let Some((x, y, left)) = first_two(rest) {
        if points.is_full() {
            return None;
        }
        points.push(Point { x, y });
        rest = left;
    }
    if !rest.is_empty() {
        return None;
    }
    if points.len() < 2 {
        return None;
    }
    Some(points)
}

/// The number of an edge and its track, if the edition has it, and what follows them.
fn numbered_edge(edition: Edition, text: &[u8]) -> Option<(u16, Option<&[u8]>, &[u8])>
    ensures { MatchOption result ((n : ℕ) (track : Option (List ℕ)) (rest : List ℕ) →
        IsNumberedAt edition text.now n track rest → ⊥)
        (λ p. IsNumberedAt edition text.now p.0 (option_copied p.1) p.2.now) }
{
    match edition {
        Edition::First => {
            let rest = behind(text, b"edge")?;
            let (number, rest) = next_number(rest)?;
            Some((number, None, rest))
        }
        Edition::Second => {
            let (number, track, rest) = named(text, b"edge")?;
            Some((number, Some(track), rest))
        }
    }
}

/// What the line of an edge says, and what follows it.
pub(crate) fn edge_line(edition: Edition, text: &[u8]) -> Option<(EdgeTold<'_>, &[u8])>
    ensures { MatchOption result ((e : ℕ) → IsMisformed (EdgeDue edition e) text.now)
        (λ p. let track = option_copied p.0.track in IsToldIn edition track
        × IsLineTo text.now (EdgeLine p.0.number track p.0.west p.0.east p.0.points.items) p.1.now) }
{
    let (number, track, rest) = numbered_edge(edition, text)?;
    let (numbers, rest) = numbers(rest)?;
    let (west, east, coordinates) = first_two(numbers.as_slice())?;
    let points = points_of(coordinates)?;
    let told = EdgeTold {
        number,
        track,
        west,
        east,
        points,
    };
    Some((told, rest))
}

/// What the line of the values says, and what follows it.
pub(crate) fn values_line(text: &[u8]) -> Option<(Values, &[u8])>
    ensures { MatchOption result ((line : SheetLine) → BeginsWithLine ValuesDue text.now line → ⊥)
        (λ p. HasForm (ValuesLine p.0) × (text.now ≡ text_of_line (ValuesLine p.0) ++ p.1.now)) }
{
    let (numbers, rest) = numbered(text, b"values")?;
    let [height, bends, diagonal, width] = only_four(numbers.as_slice())?;
    let values = Values {
        height: u32::from(height),
        bends: u32::from(bends),
        diagonal: u32::from(diagonal),
        width: u32::from(width),
    };
    Some((values, rest))
}

/// The ending that the last line says, and what follows it.
pub(crate) fn end_line(text: &[u8]) -> Option<(EndTold, &[u8])>
    ensures { MatchOption result ((e : Ending) (rest : List ℕ) → IsSmallEnding e → text.now ≢ text_of_line (EndLine e)
        ++ rest)
        (λ p. IsSmallEnding (ending_told p.0) × (text.now ≡ text_of_line (EndLine (ending_told p.0)) ++ p.1.now)) }
{
    if let Some(rest) = behind(text, b"end best\n") {
        return Some((EndTold::Best, rest));
    }
    if let Some(rest) = behind(text, b"end none\n") {
        return Some((EndTold::NoDrawing, rest));
    }
    if let Some((settled, rest)) = one_number(text, b"end conflicts") {
        return Some((EndTold::Conflicts(settled), rest));
    }
    let (settled, rest) = one_number(text, b"end room")?;
    Some((EndTold::Room(settled), rest))
}
