// Elements that lie outside of their track.
ghost use Rattle.std.specs.Prelude.{◌≡◌, IsTrue, ◌↔◌, IfOk};
ghost use Rattle.railml_read.specs.Formed.{AreFormed};
ghost use Rattle.railml_faults.specs.Faults.{LiesOutside};
ghost use Rattle.plan_core.specs.Searching.{FindsFirst};
ghost use Rattle.railml_faults.specs.Tables.{IsPositionOf, HasPositions, IsLess, AreTablesOf, entry_in, beside_in};
ghost use Rattle.railml_faults.specs.Tables.{IsBeforeBeginBy, IsBehindEndBy, LiesOutsideBy};

use crate::tables::{Tables, entry};
use plan_core::{Micro, OutOfMemory};
use rail_mileage::read_metres;
use railml_read::{Elem, ElemKind};
use std::alloc::Global;

/// A row's position, if its `pos` is a number.
fn read_position(row: &Elem) -> Option<Micro>
    ensures { IsPositionOf row.now result }
{
    match &row.attrs.pos {
        Some(text) => read_metres(text.bytes()),
        None => None,
    }
}

/// The position of each row whose `pos` is a number.
pub(crate) fn positions(alloc: Global, rows: &[Elem]) -> Result<Vec<Option<Micro>>, OutOfMemory>
    ensures { IfOk result (λ table. HasPositions rows.now table.items) }
{
    let mut table = Vec::new(alloc);
    for row in rows {
        table.push(read_position(row))?;
    }
    Ok(table)
}

/// Whether both positions are there, and the first is less.
fn is_less(a: Option<Micro>, b: Option<Micro>) -> bool
    ensures { IsTrue result ↔ IsLess a b }
{
    match (a, b) {
        (Some(a), Some(b)) => a.0 < b.0,
        _ => false,
    }
}

/// The position of the row of this number, if it has one.
fn position_at(positions: &[Option<Micro>], number: usize) -> Option<Micro>
    ensures { result ≡ entry_in positions.now number }
{
    match positions.get(number) {
        Some(position) => *position,
        None => None,
    }
}

/// The position of the only begin or the only end beside a row, whichever the table has.
fn position_beside(only: &[Option<u32>], positions: &[Option<Micro>], row: &Elem) -> Option<Micro>
    ensures { result ≡ beside_in only.now positions.now row.now }
{
    let topology = row.parent?;
    let number = entry(only, topology as usize)?;
    position_at(positions, number as usize)
}

/// Whether a row lies before the begin beside it.
fn is_before_begin(tables: &Tables, i: usize, row: &Elem) -> bool
    ensures { IsTrue result ↔ IsBeforeBeginBy tables.now i row.now }
{
    let begin = position_beside(&tables.begins, &tables.positions, row);
    is_less(position_at(&tables.positions, i), begin)
}

/// Whether a row lies behind the end beside it.
fn is_behind_end(tables: &Tables, i: usize, row: &Elem) -> bool
    ensures { IsTrue result ↔ IsBehindEndBy tables.now i row.now }
{
    let end = position_beside(&tables.ends, &tables.positions, row);
    is_less(end, position_at(&tables.positions, i))
}

/// Whether a row is an end, a switch or a crossing, and lies outside of its track.
fn lies_outside(tables: &Tables, i: usize, row: &Elem) -> bool
    ensures { IsTrue result ↔ LiesOutsideBy tables.now i row.now row.now.kind }
{
    match row.kind {
        ElemKind::End => is_before_begin(tables, i, row),
        ElemKind::Switch | ElemKind::Crossing => {
            is_before_begin(tables, i, row) || is_behind_end(tables, i, row)
        }
        _ => false,
    }
}

/// The first row that lies outside of its track.
pub(crate) fn first_outside(rows: &[Elem], tables: &Tables) -> Option<usize>
    requires formed { AreFormed rows.now }
    requires tables { AreTablesOf rows.now tables.now }
    ensures { FindsFirst (λ _ row. LiesOutside rows.now row row.kind) rows.now result }
{
    for (i, row) in rows.iter().enumerate() {
        if lies_outside(tables, i, row) {
            return Some(i);
        }
    }
    None
}
