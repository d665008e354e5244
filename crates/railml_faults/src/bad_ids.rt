// Ids that no element may have.
ghost use Rattle.std.specs.Prelude.{IsTrue, ◌↔◌};
ghost use Rattle.railml_faults.specs.Faults.{HasBadId};
ghost use Rattle.plan_core.specs.Searching.{FindsFirst};

use crate::rows::bears_id;
use plan_core::is_id;
use railml_read::Elem;

/// Whether a row has an id that counts and that none may have.
fn has_bad_id(row: &Elem) -> bool
    ensures { IsTrue result ↔ HasBadId row.now }
{
    match &row.attrs.id {
        Some(id) => bears_id(row.kind) && !is_id(id.as_str()),
        None => false,
    }
}

/// The first row whose id none may have.
pub(crate) fn first_bad_id(rows: &[Elem]) -> Option<usize>
    ensures { FindsFirst (λ _ row. HasBadId row) rows.now result }
{
    for (i, row) in rows.iter().enumerate() {
        if has_bad_id(row) {
            return Some(i);
        }
    }
    None
}
