// The first fault of rows, as it is told.
ghost use Rattle.std.specs.Prelude.{◌≡◌, IfOk, MatchOption};
ghost use Rattle.railml_read.specs.Formed.{AreFormed};
ghost use Rattle.railml_faults.specs.Faults.{HasNoFault};
ghost use Rattle.railml_faults.specs.Tables.{AreTablesOf};
ghost use Rattle.railml_faults.specs.Telling.{first_told, IsSecond, IsFindingOf, IsToldOf, IsFirstTold};
ghost use Rattle.railml_faults.specs.Telling.{TellsNoTracks};

use crate::TopologyWhat;
use crate::finding::{Finding, first_finding};
use crate::ids::id_of;
use crate::missing::{first_lacking, name_of};
use crate::numbers::bad_number;
use crate::tables::Tables;
use crate::tracks::track_at;
use plan_core::{OutOfMemory, Text};
use railml_read::Elem;
use std::alloc::Global;

/// A fault with its place and its texts. `at` is the byte of the start tag that has the fault, 0 where there is no
/// track. The texts are those of the fault's kind, empty where the kind has none.
#[derive(Drop)]
pub struct Told {
    pub what: TopologyWhat,
    pub at: usize,
    pub first: Text,
    pub second: Text,
}

/// The first text of a row's fault.
fn first_text<'a>(rows: &[Elem], row: &'a Elem, what: TopologyWhat) -> &'a str
    ensures { result.now ≡ first_told rows.now row.now what }
{
    match what {
        TopologyWhat::NoTracks | TopologyWhat::TooMany | TopologyWhat::Id => "",
        TopologyWhat::Missing => match first_lacking(rows, row) {
            Some(attribute) => name_of(attribute),
            None => "",
        },
        _ => id_of(row),
    }
}

/// The second text of a row's fault.
fn second_text(row: &Elem, what: TopologyWhat) -> &str
    ensures { IsSecond row.now what result.now }
{
    match what {
        TopologyWhat::Number => match bad_number(row) {
            Some(attribute) => name_of(attribute),
            None => "",
        },
        TopologyWhat::NotMutual => match &row.attrs.reference {
            Some(name) => name.as_str(),
            None => "",
        },
        _ => "",
    }
}

/// A copy of a text.
fn copy(alloc: Global, text: &str) -> Result<Text, OutOfMemory>
    ensures { IfOk result (λ copy. copy ≡ text.now) }
{
    Ok(Text::from_string(String::from_str(alloc, text)?))
}

/// A fault that was found, with its place and its texts.
fn tell(alloc: Global, rows: &[Elem], found: Finding) -> Result<Told, OutOfMemory>
    requires { IsFindingOf rows.now found }
    ensures { IfOk result (λ told. IsToldOf rows.now found told) }
{
    let row = &rows[found.row];
    let first = copy(alloc, first_text(rows, row, found.what))?;
    let second = copy(alloc, second_text(row, found.what))?;
    Ok(Told {
        what: found.what,
        at: row.at,
        first,
        second,
    })
}

/// The fault where there is no track.
fn no_tracks(alloc: Global) -> Result<Told, OutOfMemory>
    ensures { IfOk result TellsNoTracks }
{
    Ok(Told {
        what: TopologyWhat::NoTracks,
        at: 0,
        first: copy(alloc, "")?,
        second: copy(alloc, "")?,
    })
}

/// The first fault that rows have, by its number and then by its place, or none exactly where they have
/// none. The tables are those of the rows, which `Tables::new` makes.
pub fn first_fault(
    alloc: Global,
    rows: &[Elem],
    tables: &Tables,
) -> Result<Option<Told>, OutOfMemory>
    requires formed { AreFormed rows.now }
    requires tables { AreTablesOf rows.now tables.now }
    ensures { IfOk result (λ fault. MatchOption fault (HasNoFault rows.now) (IsFirstTold rows.now)) }
{
    if track_at(rows, 0).is_none() {
        return Ok(Some(no_tracks(alloc)?));
    }
    match first_finding(rows, tables) {
        Some(found) => Ok(Some(tell(alloc, rows, found)?)),
        None => Ok(None),
    }
}
