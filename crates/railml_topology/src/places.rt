// Where the connections of rows are.
ghost use Rattle.std.specs.Prelude.{◌≡◌, ◌<◌, ◌^◌, ℕ, true, All, IfOk, find, Some, length};
ghost use Rattle.railml_read.specs.declared.rows.ElemKind.TheVariants.{Switch, Crossing};
ghost use Rattle.railml_faults.specs.Rows.{is_of_kind as of_kind};
ghost use Rattle.railml_faults.specs.Tables.{entry_in, AreTablesOf};
ghost use Rattle.railml_topology.specs.Resolved.{way_word as word_of_way, IsBranchOf, IsWayOf, IsLayout, AreLayouts};
ghost use Rattle.railml_topology.specs.Plans.{is_inner as passes_inner};
ghost use Rattle.railml_topology.specs.Places.{goes_by, Adds, IsOnInner, IsOnFirst, IsOnTrack, HasPlaces};
ghost use Rattle.railml_topology.specs.Sound.{AreSoundRows};

use crate::layout::{Layout, sure_entry};
use plan_core::{OutOfMemory, Part, Place};
use railml_faults::{Tables, entry, is_of_kind, is_word};
use railml_read::{Elem, ElemKind};
use std::alloc::Global;

/// The word for an outgoing connection, or for an incoming one.
fn way_word(outgoing: bool) -> &'static str
    ensures { result.now ≡ word_of_way outgoing }
{
    if outgoing { "outgoing" } else { "incoming" }
}

/// Whether a row is a connection whose orientation is this word.
fn goes(rows: &[Elem], number: u32, word: &str) -> bool
    ensures { result ≡ goes_by rows.now word.now number }
{
    match rows.get(number as usize) {
        Some(row) => row.kind == ElemKind::Connection && is_word(&row.attrs.orientation, word),
        None => false,
    }
}

/// The connection of a switch.
pub(crate) fn branch_of(rows: &[Elem], tables: &Tables, switch: u32) -> u32
    requires sound { AreSoundRows rows.now }
    requires tables { AreTablesOf rows.now tables.now }
    requires a_switch { of_kind rows.now Switch switch ≡ true }
    ensures { IsBranchOf rows.now switch result }
{
    sure_entry(&tables.connections, switch)
}

/// The first of these rows that is a connection with this word as its orientation.
fn first_going(rows: &[Elem], numbers: &[u32], word: &str) -> Option<u32>
    ensures { result ≡ find (goes_by rows.now word.now) numbers.now }
{
    numbers
        .iter()
        .copied()
        .find(|number| goes(rows, *number, word))
}

/// The connection of a crossing that goes this way.
pub(crate) fn way_of(rows: &[Elem], tables: &Tables, crossing: u32, outgoing: bool) -> u32
    requires sound { AreSoundRows rows.now }
    requires tables { AreTablesOf rows.now tables.now }
    requires a_crossing { of_kind rows.now Crossing crossing ≡ true }
    ensures { IsWayOf rows.now crossing outgoing result }
{
    let children = &tables.children[crossing as usize];
    match first_going(rows, children, way_word(outgoing)) {
        Some(number) => number,
        None => unreachable!(),
    }
}

/// Keeps the place of a row.
fn put(table: &mut Vec<Option<Place>>, row: u32, place: Place)
    requires { row < length table.old.items }
    ensures { Adds (λ i p. (i ≡ row) × (p ≡ place)) table.old.items table.new.items }
{
    table[row as usize] = Some(place);
}

/// Keeps the places of the connections of a switch or a crossing, which has this row and this number
/// among those of its track.
fn put_inner(
    rows: &[Elem],
    tables: &Tables,
    track: u16,
    number: u32,
    inner: u32,
    table: &mut Vec<Option<Place>>,
)
    requires sound { AreSoundRows rows.now }
    requires tables { AreTablesOf rows.now tables.now }
    requires an_inner { passes_inner rows.now inner ≡ true }
    requires whole { length table.old.items ≡ length rows.now }
    ensures { Adds (IsOnInner rows.now track number inner) table.old.items table.new.items }
{
    if is_of_kind(rows, inner, ElemKind::Switch) {
        put_switch(rows, tables, track, number, inner, table);
    } else {
        put_crossing(rows, tables, track, number, inner, table);
    }
}

/// Keeps the place of a switch's connection.
fn put_switch(
    rows: &[Elem],
    tables: &Tables,
    track: u16,
    number: u32,
    inner: u32,
    table: &mut Vec<Option<Place>>,
)
    requires sound { AreSoundRows rows.now }
    requires tables { AreTablesOf rows.now tables.now }
    requires a_switch { of_kind rows.now Switch inner ≡ true }
    requires whole { length table.old.items ≡ length rows.now }
    ensures { Adds (IsOnInner rows.now track number inner) table.old.items table.new.items }
{
    let part = Part::Branch(number);
    put(table, branch_of(rows, tables, inner), Place { track, part });
}

/// Keeps the places of a crossing's connections.
fn put_crossing(
    rows: &[Elem],
    tables: &Tables,
    track: u16,
    number: u32,
    inner: u32,
    table: &mut Vec<Option<Place>>,
)
    requires sound { AreSoundRows rows.now }
    requires tables { AreTablesOf rows.now tables.now }
    requires a_crossing { of_kind rows.now Crossing inner ≡ true }
    requires whole { length table.old.items ≡ length rows.now }
    ensures { Adds (IsOnInner rows.now track number inner) table.old.items table.new.items }
{
    let part = Part::Incoming(number);
    put(
        table,
        way_of(rows, tables, inner, false),
        Place { track, part },
    );
    let part = Part::Outgoing(number);
    put(
        table,
        way_of(rows, tables, inner, true),
        Place { track, part },
    );
}

/// Keeps the places of the connections of switches and crossings of a track.
fn put_all_inner(
    rows: &[Elem],
    tables: &Tables,
    track: u16,
    inner: &[u32],
    table: &mut Vec<Option<Place>>,
)
    requires sound { AreSoundRows rows.now }
    requires tables { AreTablesOf rows.now tables.now }
    requires all_inner { All (λ i. passes_inner rows.now i ≡ true) inner.now }
    requires few { length inner.now < 2 ^ 32 }
    requires whole { length table.old.items ≡ length rows.now }
    ensures { Adds (IsOnFirst rows.now track inner.now (length inner.now)) table.old.items table.new.items }
{
    for (number, row) in inner.iter().enumerate() {
        put_inner(rows, tables, track, number as u32, *row, table);
    }
}

/// Keeps the place of the connection of a begin or an end, if it has one.
fn put_end(connections: &[Option<u32>], holder: u32, place: Place, table: &mut Vec<Option<Place>>)
    requires { (i : ℕ) → entry_in connections.now holder ≡ Some i → i < length table.old.items }
    ensures { Adds (λ i p. (entry_in connections.now holder ≡ Some i) × (p ≡ place)) table.old.items table.new.items }
{
    if let Some(connection) = entry(connections, holder as usize) {
        put(table, connection, place);
    }
}

/// Keeps the places of the connections of a track.
fn put_track(
    rows: &[Elem],
    tables: &Tables,
    track: u16,
    layout: &Layout,
    table: &mut Vec<Option<Place>>,
)
    requires sound { AreSoundRows rows.now }
    requires tables { AreTablesOf rows.now tables.now }
    requires laid { IsLayout rows.now layout.now }
    requires whole { length table.old.items ≡ length rows.now }
    ensures { Adds (IsOnTrack rows.now track layout.now) table.old.items table.new.items }
{
    let part = Part::Begin;
    put_end(
        &tables.connections,
        layout.begin,
        Place { track, part },
        table,
    );
    let part = Part::End;
    put_end(
        &tables.connections,
        layout.end,
        Place { track, part },
        table,
    );
    put_all_inner(rows, tables, track, layout.inner.as_slice(), table);
}

/// The place of each row that is a connection.
pub(crate) fn places_of(
    alloc: Global,
    rows: &[Elem],
    tables: &Tables,
    layouts: &[Layout],
) -> Result<Vec<Option<Place>>, OutOfMemory>
    requires sound { AreSoundRows rows.now }
    requires tables { AreTablesOf rows.now tables.now }
    requires layouts { AreLayouts rows.now layouts.now }
    ensures { IfOk result (λ table. HasPlaces rows.now layouts.now table.items) }
{
    let mut table = vec![in alloc; None; rows.len()]?;
    for (track, layout) in layouts.iter().enumerate() {
        put_track(rows, tables, track as u16, layout, &mut table);
    }
    Ok(table)
}
