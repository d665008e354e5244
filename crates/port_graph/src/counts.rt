// How many nodes and edges a topology has.
ghost use Rattle.std.specs.Prelude.{◌≡◌, ◌+◌, ◌<◌, ◌≤◌, ◌^◌, length, sum_by};
ghost use Rattle.plan_core.specs.Topology.{elements};
ghost use Rattle.port_graph.specs.Counts.{end_count as count_of_end, node_count as count_of_nodes};
ghost use Rattle.port_graph.specs.Runs.{piece_count};
ghost use Rattle.port_graph.specs.Sites.{sites};

use crate::spots::has_node;
use plan_core::{End, Topology, Track};

/// How many nodes of its own a track's end has.
fn end_count(t: &Topology, end: &End) -> u32
    ensures { result ≡ count_of_end t.now end.now }
{
    if has_node(t, end) { 1 } else { 0 }
}

/// How many nodes a track has.
fn node_count(t: &Topology, track: &Track) -> u32
    requires { count_of_nodes t.now track.now < 2 ^ 32 }
    ensures { result ≡ count_of_nodes t.now track.now }
{
    end_count(t, &track.begin) + (track.inner.len() as u32 + end_count(t, &track.end))
}

/// How many nodes there are.
#[tactic(auto, using(crate::proofs::FromFile::sites_count, crate::proofs::FromFile::sites_few))]
pub(crate) fn count_nodes(t: &Topology) -> u32
    requires { length (elements t.now) < 2 ^ 32 }
    ensures { result ≡ length (sites t.now) }
{
    let mut total = 0;
    for track in t.tracks.as_slice() {
        total += node_count(t, track);
    }
    total
}

/// How many pieces there are.
pub(crate) fn count_pieces(t: &Topology) -> u32
    requires { sum_by piece_count t.now.tracks < 2 ^ 32 }
    ensures { result ≡ sum_by piece_count t.now.tracks }
{
    let mut total = 0;
    for track in t.tracks.as_slice() {
        total += track.inner.len() as u32 + 1;
    }
    total
}
