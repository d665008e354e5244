// What connections refer to.
ghost use Rattle.std.specs.Prelude.{◌≡◌, ◌&&◌, IsTrue, ◌↔◌, Some, IfOk, length};
ghost use Rattle.std.specs.Option.{is_some, is_none, option_and_then};
ghost use Rattle.railml_faults.specs.Rows.{id_of as id_or_empty};
ghost use Rattle.railml_faults.specs.Ids.{connection_in, reference_of as reference, KeepsIds};
ghost use Rattle.railml_faults.specs.Faults.{RefersToNone, IsNotReferredBack, RefersToItself, AreIdsDistinct};
ghost use Rattle.plan_core.specs.Searching.{FindsFirst};
ghost use Rattle.railml_faults.specs.Tables.{HasTargets, IsNotAnswered};

use crate::ids::{IdNumbers, id_of, number_of, reference_of};
use crate::rows::{is_kind, is_of_kind, is_word};
use plan_core::OutOfMemory;
use railml_read::{Elem, ElemKind};
use std::alloc::Global;

/// The number of the connection of this name, if there is one.
fn connection_named(rows: &[Elem], numbers: &IdNumbers<'_>, name: &str) -> Option<u32>
    ensures { result ≡ connection_in rows.now numbers.now name.now }
{
    match number_of(numbers, name) {
        Some(number) if is_of_kind(rows, number, ElemKind::Connection) => Some(number),
        _ => None,
    }
}

/// The number of the connection that a row refers to, if it refers to one.
fn target_of(rows: &[Elem], numbers: &IdNumbers<'_>, row: &Elem) -> Option<u32>
    ensures { result ≡ option_and_then (connection_in rows.now numbers.now) (reference row.now) }
{
    match reference_of(row) {
        Some(name) => connection_named(rows, numbers, name),
        None => None,
    }
}

/// The number of a connection that each row refers to, if it refers to one.
pub(crate) fn targets(
    alloc: Global,
    rows: &[Elem],
    numbers: &IdNumbers<'_>,
) -> Result<Vec<Option<u32>>, OutOfMemory>
    requires { KeepsIds rows.now (length rows.now) numbers.now }
    ensures { IfOk result (λ table. HasTargets rows.now table.items) }
{
    let mut table = Vec::new(alloc);
    for row in rows {
        table.push(target_of(rows, numbers, row))?;
    }
    Ok(table)
}

/// Whether a row refers to what is no connection's id. The target is the connection that it refers to, or none.
fn is_unknown(row: &Elem, target: Option<u32>) -> bool
    ensures { result ≡ (is_some (reference row.now) && is_none target) }
{
    reference_of(row).is_some() && target.is_none()
}

/// The first connection that refers to what no connection is named.
pub(crate) fn first_unknown_ref(rows: &[Elem], targets: &[Option<u32>]) -> Option<usize>
    requires { HasTargets rows.now targets.now }
    ensures { FindsFirst (λ _ row. RefersToNone rows.now row) rows.now result }
{
    for (i, row) in rows.iter().enumerate() {
        if is_unknown(row, targets[i]) {
            return Some(i);
        }
    }
    None
}

/// Whether a row refers to another, by that one's id.
fn refers_to(row: &Elem, other: &Elem) -> bool
    ensures { IsTrue result ↔ (row.now.attrs.reference ≡ Some (id_or_empty other.now)) }
{
    is_word(&row.attrs.reference, id_of(other))
}

/// Whether the row that a row refers to doesn't refer back to it.
fn is_not_answered(rows: &[Elem], row: &Elem, target: Option<u32>) -> bool
    ensures { IsTrue result ↔ IsNotAnswered rows.now row.now target }
{
    match target {
        Some(target) => match rows.get(target as usize) {
            Some(other) => !refers_to(other, row),
            None => false,
        },
        None => false,
    }
}

/// The first connection that refers to one which doesn't refer back to it.
pub(crate) fn first_not_mutual(rows: &[Elem], targets: &[Option<u32>]) -> Option<usize>
    requires targets { HasTargets rows.now targets.now }
    requires distinct { AreIdsDistinct rows.now }
    ensures { FindsFirst (λ _ row. (name : _) × IsNotReferredBack rows.now row name) rows.now result }
{
    for (i, row) in rows.iter().enumerate() {
        if is_not_answered(rows, row, targets[i]) {
            return Some(i);
        }
    }
    None
}

/// Whether a connection refers to itself.
fn is_self_ref(row: &Elem) -> bool
    ensures { IsTrue result ↔ RefersToItself row.now }
{
    is_kind(row.kind, ElemKind::Connection) && refers_to(row, row)
}

/// The first connection that refers to itself.
pub(crate) fn first_self_ref(rows: &[Elem]) -> Option<usize>
    ensures { FindsFirst (λ _ row. RefersToItself row) rows.now result }
{
    for (i, row) in rows.iter().enumerate() {
        if is_self_ref(row) {
            return Some(i);
        }
    }
    None
}
