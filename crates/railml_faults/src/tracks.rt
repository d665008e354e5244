// How many tracks there are.
ghost use Rattle.std.specs.Prelude.{◌≡◌, slice_get};
ghost use Rattle.railml_faults.specs.Rows.{track_rows};

use crate::rows::is_kind;
use railml_read::{Elem, ElemKind};

/// The row of the track with this number, counted from 0, if there are so many.
pub(crate) fn track_at(rows: &[Elem], number: usize) -> Option<usize>
    ensures { result ≡ slice_get (track_rows rows.now) number }
{
    let mut left = number;
    for (i, row) in rows.iter().enumerate() {
        if is_kind(row.kind, ElemKind::Track) {
            if left == 0 {
                return Some(i);
            }
            left -= 1;
        }
    }
    None
}
