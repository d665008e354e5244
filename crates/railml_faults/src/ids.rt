// Ids that are numbered.
ghost use Rattle.std.specs.Prelude.{◌≡◌, true, false, OnOk, length, IfOk, Some, None, if◌then◌else◌};
ghost use Rattle.std.specs.Option.{option_copied, option_or};
ghost use Rattle.railml_read.specs.Formed.{AreFormed};
ghost use Rattle.railml_faults.specs.Rows.{id_of as id_or_empty};
ghost use Rattle.railml_faults.specs.Faults.{Repeats};
ghost use Rattle.railml_faults.specs.Ids.{number_in, KeepsNumber, AddsId, IsKnownId, IsNewId, own_id as id_of_row};
ghost use Rattle.railml_faults.specs.Ids.{reference_of as reference, next_number as number_after, KeepsIds};
ghost use Rattle.plan_core.specs.Searching.{FindsFirst};

use crate::hashes::IdHashes;
use crate::rows::{bears_id, is_kind};
use indexmap::IndexMap;
use plan_core::OutOfMemory;
use railml_read::{Elem, ElemKind};
use std::alloc::Global;

/// Numbers of rows by their ids: for each id a row that bears it, a connection where one does.
pub(crate) type IdNumbers<'a> = IndexMap<&'a str, u32, IdHashes>;

/// All rows by their ids, and the first row whose id an earlier row bears.
#[derive(Drop)]
pub(crate) struct Ids<'a> {
    pub(crate) numbers: IdNumbers<'a>,
    pub(crate) repeated: Option<usize>,
}

/// The number that an id is kept with.
pub(crate) fn number_of(numbers: &IdNumbers<'_>, id: &str) -> Option<u32>
    ensures { result ≡ number_in numbers.now id.now }
{
    numbers.get(id).copied()
}

/// Keeps an id with a number.
fn keep<'a>(numbers: &mut IdNumbers<'a>, id: &'a str, number: u32) -> Result<(), OutOfMemory>
    ensures { OnOk result (KeepsNumber numbers.old numbers.new id.now number) }
{
    let _ = numbers.insert(id, number)?;
    Ok(())
}

/// A row's id, if it has one that counts.
pub(crate) fn own_id(row: &Elem) -> Option<&str>
    ensures { option_copied result ≡ id_of_row row.now }
{
    match &row.attrs.id {
        Some(id) if bears_id(row.kind) => Some(id.as_str()),
        _ => None,
    }
}

/// A row's id, empty where it has none.
pub(crate) fn id_of(row: &Elem) -> &str
    ensures { result.now ≡ id_or_empty row.now }
{
    match &row.attrs.id {
        Some(id) => id.as_str(),
        None => "",
    }
}

/// The name that a connection refers to, if it has a reference.
pub(crate) fn reference_of(row: &Elem) -> Option<&str>
    ensures { option_copied result ≡ reference row.now }
{
    match &row.attrs.reference {
        Some(name) if is_kind(row.kind, ElemKind::Connection) => Some(name.as_str()),
        _ => None,
    }
}

/// The number that a row's id is kept with once the row is seen: a connection's own, and of another row the one that
/// the id had, if it had one.
fn next_number(row: &Elem, had: Option<u32>, number: u32) -> u32
    ensures { result ≡ number_after row.now had number }
{
    match had {
        Some(had) if !is_kind(row.kind, ElemKind::Connection) => had,
        _ => number,
    }
}

/// Keeps a row's own id, and answers whether it was kept already.
fn keep_own<'a>(
    numbers: &mut IdNumbers<'a>,
    row: &'a Elem,
    number: u32,
) -> Result<bool, OutOfMemory>
    ensures again { IfOk result (λ again. again ≡ true → IsKnownId numbers.old (id_of_row row.now)) }
    ensures first { IfOk result (λ again. again ≡ false → IsNewId numbers.old (id_of_row row.now)) }
    ensures added { OnOk result (AddsId numbers.old numbers.new row.now number (id_of_row row.now)) }
{
    match own_id(row) {
        Some(id) => {
            let had = number_of(numbers, id);
            keep(numbers, id, next_number(row, had, number))?;
            Ok(had.is_some())
        }
        None => Ok(false),
    }
}

/// The row that was found before, or this one where it bears an id again.
fn first_again(found: Option<usize>, again: bool, i: usize) -> Option<usize>
    ensures { result ≡ option_or found (if again then Some i else None) }
{
    found.or(again.then_some(i))
}

/// The rows by their ids, which are numbered in one pass.
pub(crate) fn number_ids(alloc: Global, rows: &[Elem]) -> Result<Ids<'_>, OutOfMemory>
    requires { AreFormed rows.now }
    ensures numbers { IfOk result (λ ids. KeepsIds rows.now (length rows.now) ids.numbers) }
    ensures repeated { IfOk result (λ ids. FindsFirst (λ i _. Repeats rows.now i) rows.now ids.repeated) }
{
    let mut numbers = IdNumbers::with_hasher(alloc, IdHashes::of(rows));
    let mut repeated = None;
    for (i, row) in rows.iter().enumerate() {
        let again = keep_own(&mut numbers, row, i as u32)?;
        repeated = first_again(repeated, again, i);
    }
    Ok(Ids { numbers, repeated })
}
