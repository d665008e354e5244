// Signals that lie outside of their track.
ghost use Rattle.std.specs.Prelude.{◌≡◌, IsTrue, ◌↔◌};
ghost use Rattle.plan_objects.specs.Faults.{LiesOutside};
ghost use Rattle.plan_objects.specs.Telling.{StandsOn, AllStand};
ghost use Rattle.plan_core.specs.Searching.{FindsFirst};

use crate::positions::{metres_in, position_at};
use plan_core::Topology;
use railml_read::{Elem, SignalElem};

/// Whether a signal lies before its track's begin or behind its end.
fn lies_outside(rows: &[Elem], t: &Topology, signal: &SignalElem) -> bool
    requires { StandsOn rows.now t.now signal.now }
    ensures { IsTrue result ↔ LiesOutside rows.now t.now signal.now }
{
    let track = t.tracks.get(signal.track as usize);
    let here = metres_in(&signal.pos).0;
    let begin = position_at(rows, track.begin.at).0;
    let end = position_at(rows, track.end.at).0;
    here < begin || end < here
}

/// The first signal that lies outside of its track.
pub(crate) fn first_outside(signals: &[SignalElem], rows: &[Elem], t: &Topology) -> Option<usize>
    requires { AllStand rows.now t.now signals.now }
    ensures { FindsFirst (λ _ signal. LiesOutside rows.now t.now signal) signals.now result }
{
    for (i, signal) in signals.iter().enumerate() {
        if lies_outside(rows, t, signal) {
            return Some(i);
        }
    }
    None
}
