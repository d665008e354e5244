// What a topology is built from, and its connections.
ghost use Rattle.std.specs.Prelude.{◌≡◌, ◌<◌, true, ℕ, List, IfOk, Some, length, slice_get};
ghost use Rattle.railml_read.specs.declared.rows.ElemKind.TheVariants.{Connection};
ghost use Rattle.railml_faults.specs.Rows.{is_of_kind as of_kind};
ghost use Rattle.railml_topology.specs.Resolved.{IsAtPlace, IsConnOf, IsJoinedAs};
ghost use Rattle.railml_topology.specs.Sites.{IsReadySite, IsEither};

use crate::layout::{Layout, sure_entry};
use plan_core::{Conn, OutOfMemory, Place, Text};
use railml_faults::{Tables, entry};
use railml_read::Elem;
use std::alloc::Global;

/// What a topology is built from: the rows, what is kept of them, the rows of each track, and the places
/// of connections.
#[derive(Clone, Copy)]
pub(crate) struct Site<'a> {
    pub(crate) rows: &'a [Elem],
    pub(crate) tables: &'a Tables,
    pub(crate) layouts: &'a [Layout],
    pub(crate) places: &'a [Option<Place>],
}

/// The row of this number.
pub(crate) fn row_at<'a>(rows: &'a [Elem], number: u32) -> &'a Elem
    requires { number < length rows.now }
    ensures { slice_get rows.now number ≡ Some result.now }
{
    &rows[number as usize]
}

/// A copy of a text that is there.
pub(crate) fn copied(alloc: Global, text: &Option<Text>) -> Result<Text, OutOfMemory>
    requires { (t : List ℕ) × (text.now ≡ Some t) }
    ensures { IfOk result (λ t. text.now ≡ Some t) }
{
    match text {
        Some(text) => text.copied(alloc),
        None => unreachable!(),
    }
}

/// The place of a connection.
fn place_of(site: &Site<'_>, number: u32) -> Place
    requires ready { IsReadySite site.now }
    requires a_connection { of_kind site.now.rows.now Connection number ≡ true }
    ensures { IsAtPlace site.now.rows.now site.now.layouts.now number result }
{
    match site.places[number as usize] {
        Some(place) => place,
        None => unreachable!(),
    }
}

/// The connection of a row, which leads to the place of the one that it refers to.
pub(crate) fn conn_of(alloc: Global, site: &Site<'_>, number: u32) -> Result<Conn, OutOfMemory>
    requires ready { IsReadySite site.now }
    requires a_connection { of_kind site.now.rows.now Connection number ≡ true }
    ensures { IfOk result (λ c. IsConnOf site.now.rows.now site.now.layouts.now number c) }
{
    let row = row_at(site.rows, number);
    let to = place_of(site, sure_entry(&site.tables.targets, number));
    let id = copied(alloc, &row.attrs.id)?;
    Ok(Conn { id, at: row.at, to })
}

/// The connection of a begin or an end, if it has one.
pub(crate) fn joined_at(
    alloc: Global,
    site: &Site<'_>,
    number: u32,
) -> Result<Option<Conn>, OutOfMemory>
    requires ready { IsReadySite site.now }
    requires an_end { IsEither site.now.rows.now number }
    ensures { IfOk result (λ joined. IsJoinedAs site.now.rows.now site.now.layouts.now number joined) }
{
    match entry(&site.tables.connections, number as usize) {
        Some(connection) => Ok(Some(conn_of(alloc, site, connection)?)),
        None => Ok(None),
    }
}
