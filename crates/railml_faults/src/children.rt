// The children of rows.
ghost use Rattle.std.specs.Prelude.{◌≡◌, ◌<◌, ℕ, [], IfOk, OnOk, Some, slice_get, vec_len, filter};
ghost use Rattle.railml_read.specs.Formed.{AreFormed};
ghost use Rattle.railml_faults.specs.Rows.{is_of_kind as of_kind};
ghost use Rattle.railml_faults.specs.Tables.{only_of, only_pair_of, HasOnlyChildren, ListsChildren, AddsChild};

use crate::rows::is_of_kind;
use plan_core::OutOfMemory;
use railml_read::{Elem, ElemKind};
use std::alloc::Global;

/// So many empty lists.
fn empty_lists(alloc: Global, count: usize) -> Result<Vec<Vec<u32>>, OutOfMemory>
    ensures len { IfOk result (λ table. vec_len table ≡ count) }
    ensures empty { IfOk result (λ table. (i : ℕ) (list : _) → slice_get table.items i ≡ Some list → list.items ≡ []) }
{
    let mut table = Vec::new(alloc);
    for _ in 0..count {
        table.push(Vec::new(alloc))?;
    }
    Ok(table)
}

/// Adds a child to the list of its parent.
fn add_child(table: &mut Vec<Vec<u32>>, parent: usize, child: u32) -> Result<(), OutOfMemory>
    requires { parent < vec_len table.old }
    ensures len { vec_len table.new ≡ vec_len table.old }
    ensures added { OnOk result (AddsChild table.old.items table.new.items parent child) }
{
    table[parent].push(child)?;
    Ok(())
}

/// The children of each row, in file order.
pub(crate) fn all_children(alloc: Global, rows: &[Elem]) -> Result<Vec<Vec<u32>>, OutOfMemory>
    requires { AreFormed rows.now }
    ensures { IfOk result (λ table. ListsChildren rows.now table.items) }
{
    let mut table = empty_lists(alloc, rows.len())?;
    for (i, row) in rows.iter().enumerate() {
        if let Some(parent) = row.parent {
            add_child(&mut table, parent as usize, i as u32)?;
        }
    }
    Ok(table)
}

/// The only one of these rows that is of a kind, if there is just one.
pub(crate) fn only_of_kind(rows: &[Elem], numbers: &[u32], kind: ElemKind) -> Option<u32>
    ensures { result ≡ only_of (filter (of_kind rows.now kind) numbers.now) }
{
    let mut found = None;
    for number in numbers {
        if is_of_kind(rows, *number, kind) {
            if found.is_some() {
                return None;
            }
            found = Some(*number);
        }
    }
    found
}

/// The only two of these rows that are of a kind, if there are just two.
pub(crate) fn two_of_kind(rows: &[Elem], numbers: &[u32], kind: ElemKind) -> Option<(u32, u32)>
    ensures { result ≡ only_pair_of (filter (of_kind rows.now kind) numbers.now) }
{
    for (i, number) in numbers.iter().enumerate() {
        if is_of_kind(rows, *number, kind) {
            let other = only_of_kind(rows, &numbers[i + 1..], kind)?;
            return Some((*number, other));
        }
    }
    None
}

/// The only child of a kind of each row that has just one.
pub(crate) fn only_children(
    alloc: Global,
    rows: &[Elem],
    children: &[Vec<u32>],
    kind: ElemKind,
) -> Result<Vec<Option<u32>>, OutOfMemory>
    requires { ListsChildren rows.now children.now }
    ensures { IfOk result (λ table. HasOnlyChildren rows.now kind table.items) }
{
    let mut table = Vec::new(alloc);
    for list in children {
        table.push(only_of_kind(rows, list, kind))?;
    }
    Ok(table)
}
