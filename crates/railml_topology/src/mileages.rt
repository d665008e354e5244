// The mileages of elements of a track.
ghost use Rattle.railml_topology.specs.Resolved.{HasMileage};
ghost use Rattle.railml_topology.specs.Sites.{HasNumbers, IsStart};

use crate::order::{metres_in, position_of};
use plan_core::Micro;
use railml_read::Elem;

/// The mileage of an element of a track with this begin: its own, or as far from the begin's as its
/// position is from the begin's.
pub(crate) fn mileage_of(begin: &Elem, row: &Elem) -> Micro
    requires start { IsStart begin.now }
    requires numbers { HasNumbers row.now }
    ensures { HasMileage begin.now row.now result.0 }
{
    if row.attrs.abs_pos.is_some() {
        return Micro(metres_in(&row.attrs.abs_pos));
    }
    Micro(metres_in(&begin.attrs.abs_pos) + position_of(row) - position_of(begin))
}
