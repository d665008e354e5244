// Which fault rows have, by its number and then by its place.
ghost use Rattle.railml_read.specs.Formed.{AreFormed};
ghost use Rattle.railml_faults.specs.Faults.{number_of};
ghost use Rattle.plan_core.specs.Searching.{FindsFirst};
ghost use Rattle.railml_faults.specs.Tables.{AreTablesOf};
ghost use Rattle.railml_faults.specs.Telling.{HasKind, HasNoneBelow, FindsLowest};

use crate::TopologyWhat;
use crate::bad_ids::first_bad_id;
use crate::courses::{first_bad_course, first_bad_orientation};
use crate::missing::first_missing;
use crate::numbers::first_bad_number;
use crate::outside::first_outside;
use crate::parts::first_without_parts;
use crate::references::{first_not_mutual, first_self_ref, first_unknown_ref};
use crate::tables::Tables;
use crate::tracks::track_at;
use plan_core::MAX_TRACKS;
use railml_read::Elem;

/// The faults in the order of their numbers, in which they are looked for.
const IN_ORDER: [TopologyWhat; 13] = [
    TopologyWhat::NoTracks,
    TopologyWhat::TooMany,
    TopologyWhat::Missing,
    TopologyWhat::Id,
    TopologyWhat::RepeatedId,
    TopologyWhat::Number,
    TopologyWhat::UnknownRef,
    TopologyWhat::NotMutual,
    TopologyWhat::SelfRef,
    TopologyWhat::EndKind,
    TopologyWhat::Course,
    TopologyWhat::Orientation,
    TopologyWhat::OutsideTrack,
];

/// A fault, and the number of the row that has it.
#[derive(Clone, Copy, Debug, PartialEq, Eq)]
pub(crate) struct Finding {
    pub(crate) what: TopologyWhat,
    pub(crate) row: usize,
}

/// The first row that has a fault of this kind, where no row has one of a kind before it. That there is no track is a
/// fault of no row.
fn first_with(rows: &[Elem], tables: &Tables, what: TopologyWhat) -> Option<usize>
    requires formed { AreFormed rows.now }
    requires tables { AreTablesOf rows.now tables.now }
    requires lower { HasNoneBelow rows.now (number_of what) }
    ensures { FindsFirst (HasKind rows.now what) rows.now result }
{
    match what {
        TopologyWhat::NoTracks => None,
        TopologyWhat::TooMany => track_at(rows, MAX_TRACKS),
        TopologyWhat::Missing => first_missing(rows),
        TopologyWhat::Id => first_bad_id(rows),
        TopologyWhat::RepeatedId => tables.repeated,
        TopologyWhat::Number => first_bad_number(rows),
        TopologyWhat::UnknownRef => first_unknown_ref(rows, &tables.targets),
        TopologyWhat::NotMutual => first_not_mutual(rows, &tables.targets),
        TopologyWhat::SelfRef => first_self_ref(rows),
        TopologyWhat::EndKind => first_without_parts(rows, tables),
        TopologyWhat::Course => first_bad_course(rows),
        TopologyWhat::Orientation => first_bad_orientation(rows),
        TopologyWhat::OutsideTrack => first_outside(rows, tables),
    }
}

/// The first fault of a row.
pub(crate) fn first_finding(rows: &[Elem], tables: &Tables) -> Option<Finding>
    requires formed { AreFormed rows.now }
    requires tables { AreTablesOf rows.now tables.now }
    ensures { FindsLowest rows.now result }
{
    for what in IN_ORDER {
        if let Some(row) = first_with(rows, tables, what) {
            return Some(Finding { what, row });
        }
    }
    None
}
