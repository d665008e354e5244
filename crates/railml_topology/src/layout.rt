// Which rows the tracks of a document consist of.
ghost use Rattle.std.specs.Prelude.{◌≡◌, true, ℕ, IfOk, Some};
ghost use Rattle.railml_read.specs.declared.rows.ElemKind.TheVariants.{Track};
ghost use Rattle.railml_faults.specs.Rows.{is_of_kind as of_kind};
ghost use Rattle.railml_faults.specs.Tables.{entry_in, AreTablesOf};
ghost use Rattle.railml_topology.specs.Resolved.{IsLayout, AreLayouts};
ghost use Rattle.railml_topology.specs.Sound.{AreSoundRows};

use crate::order::inner_rows;
use plan_core::{Items, OutOfMemory};
use railml_faults::{Tables, entry, is_kind};
use railml_read::{Elem, ElemKind};
use std::alloc::Global;

/// The rows of a track, each by its number: the track, its topology with its begin and its end, and its
/// switches and crossings, by position and then in file order.
#[derive(Drop)]
pub(crate) struct Layout {
    pub(crate) track: u32,
    pub(crate) topology: u32,
    pub(crate) begin: u32,
    pub(crate) end: u32,
    pub(crate) inner: Items<u32>,
}

/// An entry that is there.
pub(crate) fn sure_entry(table: &[Option<u32>], i: u32) -> u32
    requires there { (k : ℕ) × (entry_in table.now i ≡ Some k) }
    ensures { entry_in table.now i ≡ Some result }
{
    match entry(table, i as usize) {
        Some(k) => k,
        None => unreachable!(),
    }
}

/// The rows of a track.
fn layout_of(
    alloc: Global,
    rows: &[Elem],
    tables: &Tables,
    track: u32,
) -> Result<Layout, OutOfMemory>
    requires sound { AreSoundRows rows.now }
    requires tables { AreTablesOf rows.now tables.now }
    requires a_track { of_kind rows.now Track track ≡ true }
    ensures track { IfOk result (λ l. l.track ≡ track) }
    ensures laid { IfOk result (λ l. IsLayout rows.now l) }
{
    let topology = sure_entry(&tables.topologies, track);
    let begin = sure_entry(&tables.begins, topology);
    let end = sure_entry(&tables.ends, topology);
    let inner = inner_rows(alloc, rows, &tables.children, topology)?;
    Ok(Layout {
        track,
        topology,
        begin,
        end,
        inner,
    })
}

/// The rows of each track, in file order.
pub(crate) fn layouts(
    alloc: Global,
    rows: &[Elem],
    tables: &Tables,
) -> Result<Vec<Layout>, OutOfMemory>
    requires sound { AreSoundRows rows.now }
    requires tables { AreTablesOf rows.now tables.now }
    ensures { IfOk result (λ list. AreLayouts rows.now list.items) }
{
    let mut list = Vec::new(alloc);
    for (i, row) in rows.iter().enumerate() {
        if is_kind(row.kind, ElemKind::Track) {
            list.push(layout_of(alloc, rows, tables, i as u32)?)?;
        }
    }
    Ok(list)
}
