// The nodes of a topology, track by track.
ghost use Rattle.std.specs.Prelude.{◌≡◌, ◌+◌, ◌<◌, ◌≤◌, ◌++◌, Some, length, slice_get, OnOk, IfOk};
ghost use Rattle.plan_core.specs.declared.limits.TheConstants.{MAX_EDGES};
ghost use Rattle.port_graph.specs.Runs.{piece_number as number_of_piece};
ghost use Rattle.port_graph.specs.Sites.{end_meeting as meeting_of_end, end_sites as sites_of_end};
ghost use Rattle.port_graph.specs.Sites.{inner_meeting as meeting_of_inner, inner_site as site_of_inner};
ghost use Rattle.port_graph.specs.Sites.{inner_sites as sites_of_inner, track_sites as sites_on, sites as all_sites};
ghost use Rattle.port_graph.specs.Numbering.{IsNumbering};

use crate::numbers::{Numbering, edge_beyond, last_piece, piece_number};
use crate::spots::{end_spot, has_node, inner_spot};
use crate::{Meeting, Site};
use plan_core::{EdgeNo, End, Inner, InnerKind, OutOfMemory, Topology, Track};
use std::alloc::Global;

/// What meets at the node of a track's end with this edge.
fn end_meeting(t: &Topology, numbering: &Numbering, end: &End, own: EdgeNo) -> Meeting
    requires { IsNumbering t.now numbering.now }
    ensures { result ≡ meeting_of_end t.now own.0 end.now.joined }
{
    match &end.joined {
        None => Meeting::End { edge: own },
        Some(conn) => Meeting::Joint {
            first: own,
            other: edge_beyond(t, numbering, conn),
        },
    }
}

/// Adds the node of a track's end with this edge, if it has one of its own.
fn push_end_site(
    alloc: Global,
    t: &Topology,
    numbering: &Numbering,
    end: &End,
    own: EdgeNo,
    sites: &mut Vec<Site>,
) -> Result<(), OutOfMemory>
    requires { IsNumbering t.now numbering.now }
    ensures { OnOk result (sites.new.items ≡ sites.old.items ++ sites_of_end t.now end.now own.0) }
{
    if has_node(t, end) {
        let id = end.id.copied(alloc)?;
        let meets = end_meeting(t, numbering, end, own);
        let spot = end_spot(end);
        sites.push(Site { id, spot, meets })?;
    }
    Ok(())
}

/// What meets at a switch or crossing between two pieces of its track.
fn inner_meeting(
    t: &Topology,
    numbering: &Numbering,
    before: EdgeNo,
    after: EdgeNo,
    what: &InnerKind,
) -> Meeting
    requires { IsNumbering t.now numbering.now }
    ensures { result ≡ meeting_of_inner t.now before.0 after.0 what.now }
{
    match what {
        InnerKind::Switch {
            outgoing,
            hand,
            track_diverges,
            conn,
        } => Meeting::Switch {
            outgoing: *outgoing,
            hand: *hand,
            track_diverges: *track_diverges,
            before,
            after,
            branch: edge_beyond(t, numbering, conn),
        },
        InnerKind::Crossing {
            hand,
            incoming,
            outgoing,
        } => Meeting::Crossing {
            hand: *hand,
            before,
            after,
            incoming: edge_beyond(t, numbering, incoming),
            outgoing: edge_beyond(t, numbering, outgoing),
        },
    }
}

/// The node of a track's switch or crossing; the track and its place there are counted from 0.
fn inner_site(
    alloc: Global,
    t: &Topology,
    numbering: &Numbering,
    track: usize,
    place: usize,
    inner: &Inner,
) -> Result<Site, OutOfMemory>
    requires numbering { IsNumbering t.now numbering.now }
    requires few { number_of_piece t.now track (place + 1) ≤ MAX_EDGES }
    ensures { IfOk result (λ site. site ≡ site_of_inner t.now track place inner.now) }
{
    let id = inner.id.copied(alloc)?;
    let before = piece_number(t, numbering, track, place);
    let after = piece_number(t, numbering, track, place + 1);
    let meets = inner_meeting(t, numbering, before, after, &inner.what);
    let spot = inner_spot(inner);
    Ok(Site { id, spot, meets })
}

/// Adds the nodes of a track's switches and crossings.
fn push_inner_sites(
    alloc: Global,
    t: &Topology,
    numbering: &Numbering,
    number: usize,
    track: &Track,
    sites: &mut Vec<Site>,
) -> Result<(), OutOfMemory>
    requires numbering { IsNumbering t.now numbering.now }
    requires there { slice_get t.now.tracks number ≡ Some track.now }
    ensures { OnOk result (sites.new.items ≡ sites.old.items ++ sites_of_inner t.now number track.now) }
{
    for (place, inner) in track.inner.as_slice().iter().enumerate() {
        let site = inner_site(alloc, t, numbering, number, place, inner)?;
        sites.push(site)?;
    }
    Ok(())
}

/// Adds the nodes of a track of this number.
fn push_track_sites(
    alloc: Global,
    t: &Topology,
    numbering: &Numbering,
    number: usize,
    track: &Track,
    sites: &mut Vec<Site>,
) -> Result<(), OutOfMemory>
    requires numbering { IsNumbering t.now numbering.now }
    requires there { slice_get t.now.tracks number ≡ Some track.now }
    ensures { OnOk result (sites.new.items ≡ sites.old.items ++ sites_on t.now number track.now) }
{
    let first = piece_number(t, numbering, number, 0);
    push_end_site(alloc, t, numbering, &track.begin, first, sites)?;
    push_inner_sites(alloc, t, numbering, number, track, sites)?;
    let last = last_piece(t, numbering, number);
    push_end_site(alloc, t, numbering, &track.end, last, sites)
}

/// The nodes, track by track.
pub(crate) fn sites(
    alloc: Global,
    t: &Topology,
    numbering: &Numbering,
) -> Result<Vec<Site>, OutOfMemory>
    requires { IsNumbering t.now numbering.now }
    ensures { IfOk result (λ sites. sites.items ≡ all_sites t.now) }
{
    let mut sites = Vec::new(alloc);
    for (number, track) in t.tracks.as_slice().iter().enumerate() {
        push_track_sites(alloc, t, numbering, number, track, &mut sites)?;
    }
    Ok(sites)
}
