// The pieces into which nodes cut the tracks.
ghost use Rattle.std.specs.Prelude.{◌≡◌, ℕ, ◌<◌, ◌∷◌, ◌++◌, [], map, length, OnOk, IfOk};
ghost use Rattle.port_graph.specs.Spots.{inner_spot as spot_of_inner, leads_to as node_of};
ghost use Rattle.port_graph.specs.Runs.{runs_between, track_pieces as pieces_on, pieces_of_tracks as all_pieces};

use crate::spots::{inner_spot, leads_to};
use crate::{Run, Spot};
use plan_core::{OutOfMemory, Text, Topology, Track};
use std::alloc::Global;

/// Adds a run of this name between two nodes.
fn push_run(
    alloc: Global,
    name: &Text,
    from: Spot,
    to: Spot,
    runs: &mut Vec<Run>,
) -> Result<(), OutOfMemory>
    ensures { OnOk result (runs.new.items ≡ runs.old.items ++ record { track = name.now; from = from; to = to } ∷ []) }
{
    let track = name.copied(alloc)?;
    runs.push(Run { track, from, to })?;
    Ok(())
}

/// Adds the pieces of a track, from its begin to its end.
fn push_track_pieces(
    alloc: Global,
    t: &Topology,
    track: &Track,
    runs: &mut Vec<Run>,
) -> Result<(), OutOfMemory>
    ensures { OnOk result (runs.new.items ≡ runs.old.items ++ pieces_on t.now track.now) }
{
    let mut from = leads_to(t, &track.begin);
    for inner in track.inner.as_slice() {
        let to = inner_spot(inner);
        push_run(alloc, &track.id, from, to, runs)?;
        from = to;
    }
    let to = leads_to(t, &track.end);
    push_run(alloc, &track.id, from, to, runs)
}

/// The pieces track by track, each from begin to end.
pub(crate) fn pieces(alloc: Global, t: &Topology) -> Result<Vec<Run>, OutOfMemory>
    ensures { IfOk result (λ runs. runs.items ≡ all_pieces t.now) }
{
    let mut runs = Vec::new(alloc);
    for track in t.tracks.as_slice() {
        push_track_pieces(alloc, t, track, &mut runs)?;
    }
    Ok(runs)
}
