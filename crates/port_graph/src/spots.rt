// Where the nodes of a topology stand, and to which of them the ends of its tracks lead.
ghost use Rattle.std.specs.Prelude.{◌≡◌, ℕ, ◌<◌, ◌^◌, length};
ghost use Rattle.port_graph.specs.Spots.{end_spot as spot_of_end, inner_spot as spot_of_inner, spot_at as spot_there};
ghost use Rattle.port_graph.specs.Spots.{is_track_end as names_track_end, has_node as is_a_node, leads_to as node_of};
ghost use Rattle.port_graph.specs.Spots.{spot_on as spot_on_track, joined_spot as spot_joined};

use crate::Spot;
use plan_core::{End, Inner, Part, Place, Topology, Track};

/// Where a track's end is.
pub(crate) fn end_spot(end: &End) -> Spot
    ensures { result ≡ spot_of_end end.now }
{
    Spot {
        at: end.at,
        mile: end.mile,
    }
}

/// Where a switch or a crossing is.
pub(crate) fn inner_spot(inner: &Inner) -> Spot
    ensures { result ≡ spot_of_inner inner.now }
{
    Spot {
        at: inner.at,
        mile: inner.mile,
    }
}

/// Whether a part of a track is one of its ends.
pub(crate) fn is_track_end(part: Part) -> bool
    ensures { result ≡ names_track_end part }
{
    matches!(part, Part::Begin | Part::End)
}

/// Where the track's end, the switch or the crossing at a place is.
pub(crate) fn spot_at(t: &Topology, place: Place) -> Option<Spot>
    ensures { result ≡ spot_there t.now place }
{
    match t.tracks.as_slice().get(place.track as usize) {
        Some(track) => spot_on(track, place.part),
        None => None,
    }
}

/// Where the track's end, the switch or the crossing at a part of a track is.
fn spot_on(track: &Track, part: Part) -> Option<Spot>
    ensures { result ≡ spot_on_track track.now part }
{
    match part {
        Part::Begin => Some(end_spot(&track.begin)),
        Part::End => Some(end_spot(&track.end)),
        Part::Branch(i) | Part::Incoming(i) | Part::Outgoing(i) => {
            match track.inner.as_slice().get(i as usize) {
                Some(inner) => Some(inner_spot(inner)),
                None => None,
            }
        }
    }
}

/// The spot that an end is joined to, if it is joined.
fn joined_spot(t: &Topology, end: &End) -> Option<Spot>
    ensures { result ≡ spot_joined t.now end.now }
{
    match &end.joined {
        Some(conn) => spot_at(t, conn.to),
        None => None,
    }
}

/// Whether a track's end has a node of its own.
pub(crate) fn has_node(t: &Topology, end: &End) -> bool
    ensures { result ≡ is_a_node t.now end.now }
{
    match &end.joined {
        None => true,
        Some(conn) => {
            is_track_end(conn.to.part)
                && match spot_at(t, conn.to) {
                    Some(other) => end.at < other.at,
                    None => false,
                }
        }
    }
}

/// The node to which a track's end leads.
pub(crate) fn leads_to(t: &Topology, end: &End) -> Spot
    ensures { result ≡ node_of t.now end.now }
{
    if has_node(t, end) {
        end_spot(end)
    } else {
        joined_spot(t, end).unwrap_or(end_spot(end))
    }
}
