// Parts that tracks, begins, ends, switches and crossings lack, or have too many of.
ghost use Rattle.std.specs.Prelude.{◌<◌, IsTrue, ◌↔◌, length, vec_len};
ghost use Rattle.railml_faults.specs.Faults.{AreOrientedAlike, HasItsParts, LacksItsParts};
ghost use Rattle.plan_core.specs.Searching.{FindsFirst};
ghost use Rattle.railml_faults.specs.Tables.{AreTablesOf, IsWholeBy, IsListAt, HasTwoWaysAmong, AreSameWords};

use crate::children::two_of_kind;
use crate::tables::{Tables, entry};
use plan_core::Text;
use railml_read::{Elem, ElemKind};

/// Whether a track has one topology, with one begin and one end.
fn is_whole_track(tables: &Tables, i: usize) -> bool
    ensures { IsTrue result ↔ IsWholeBy tables.now i }
{
    match entry(&tables.topologies, i) {
        Some(topology) => {
            let topology = topology as usize;
            entry(&tables.begins, topology).is_some() && entry(&tables.ends, topology).is_some()
        }
        None => false,
    }
}

/// The children of the row of this number.
fn children_of(tables: &Tables, i: usize) -> &[u32]
    requires { i < vec_len tables.now.children }
    ensures { IsListAt tables.now.children.items i result.now }
{
    &tables.children[i]
}

/// Whether two texts are there and are one.
fn is_same_word(a: &Option<Text>, b: &Option<Text>) -> bool
    ensures { IsTrue result ↔ AreSameWords a.now b.now }
{
    match (a, b) {
        (Some(a), Some(b)) => a.as_str() == b.as_str(),
        _ => false,
    }
}

/// Whether the orientations of the rows of two numbers are one word.
fn are_oriented_alike(rows: &[Elem], one: u32, other: u32) -> bool
    ensures { IsTrue result ↔ AreOrientedAlike rows.now one other }
{
    match (rows.get(one as usize), rows.get(other as usize)) {
        (Some(one), Some(other)) => is_same_word(&one.attrs.orientation, &other.attrs.orientation),
        _ => false,
    }
}

/// Whether there are just two connections among these, and their orientations aren't one word.
fn has_two_ways_among(rows: &[Elem], list: &[u32]) -> bool
    ensures { IsTrue result ↔ HasTwoWaysAmong rows.now list.now }
{
    match two_of_kind(rows, list, ElemKind::Connection) {
        Some((one, other)) => !are_oriented_alike(rows, one, other),
        None => false,
    }
}

/// Whether the element of this number has the parts that its kind asks for.
fn has_its_parts(rows: &[Elem], tables: &Tables, i: usize, kind: ElemKind) -> bool
    requires tables { AreTablesOf rows.now tables.now }
    requires within { i < length rows.now }
    ensures { IsTrue result ↔ HasItsParts rows.now i kind }
{
    match kind {
        ElemKind::Track => is_whole_track(tables, i),
        ElemKind::Begin | ElemKind::End => children_of(tables, i).len() == 1,
        ElemKind::Switch => entry(&tables.connections, i).is_some(),
        ElemKind::Crossing => has_two_ways_among(rows, children_of(tables, i)),
        ElemKind::Topology
        | ElemKind::Connection
        | ElemKind::OpenEnd
        | ElemKind::BufferStop
        | ElemKind::MacroNode => true,
    }
}

/// The first row that lacks one of its parts or has one too many.
pub(crate) fn first_without_parts(rows: &[Elem], tables: &Tables) -> Option<usize>
    requires { AreTablesOf rows.now tables.now }
    ensures { FindsFirst (λ i row. LacksItsParts rows.now i row) rows.now result }
{
    for (i, row) in rows.iter().enumerate() {
        if !has_its_parts(rows, tables, i, row.kind) {
            return Some(i);
        }
    }
    None
}
