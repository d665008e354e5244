// The joins between switches and crossings.
ghost use Rattle.std.specs.Prelude.{◌≡◌, true, ◌∷◌, ◌++◌, [], OnOk, IfOk};
ghost use Rattle.std.specs.Option.{option_map};
ghost use Rattle.plan_core.specs.Topology.{connection, connection_of};
ghost use Rattle.port_graph.specs.Spots.{inner_spot as spot_of_inner};
ghost use Rattle.port_graph.specs.Runs.{joined_at as place_joined, begins_join as is_first, begun_join};
ghost use Rattle.port_graph.specs.Runs.{inner_joins as joins_of, track_joins as joins_on, joins as all_joins};

use crate::spots::{inner_spot, is_track_end, spot_at};
use crate::{Join, Run};
use plan_core::{Conn, Inner, InnerKind, OutOfMemory, Part, Place, Topology, Track};
use std::alloc::Global;

/// The connection at a part of a track, if there is one.
fn connection_on(track: &Track, part: Part) -> Option<&Conn>
    ensures { option_map (λ c. c.now) result ≡ connection_of track.now part }
{
    match part {
        Part::Begin => track.begin.joined.as_ref(),
        Part::End => track.end.joined.as_ref(),
        Part::Branch(i) => match &track.inner.as_slice().get(i as usize)?.what {
            InnerKind::Switch { conn, .. } => Some(conn),
            InnerKind::Crossing { .. } => None,
        },
        Part::Incoming(i) => match &track.inner.as_slice().get(i as usize)?.what {
            InnerKind::Switch { .. } => None,
            InnerKind::Crossing { incoming, .. } => Some(incoming),
        },
        Part::Outgoing(i) => match &track.inner.as_slice().get(i as usize)?.what {
            InnerKind::Switch { .. } => None,
            InnerKind::Crossing { outgoing, .. } => Some(outgoing),
        },
    }
}

/// The file place of the connection to which a connection leads.
pub(crate) fn joined_at(t: &Topology, conn: &Conn) -> usize
    ensures { result ≡ place_joined t.now conn.now }
{
    match t.tracks.as_slice().get(conn.to.track as usize) {
        Some(track) => match connection_on(track, conn.to.part) {
            Some(other) => other.at,
            None => conn.at,
        },
        None => conn.at,
    }
}

/// Whether a connection begins a join.
fn begins_join(t: &Topology, conn: &Conn) -> bool
    ensures { result ≡ is_first t.now conn.now }
{
    !is_track_end(conn.to.part) && conn.at < joined_at(t, conn)
}

/// The join that a connection of a switch or crossing begins.
fn join_from(alloc: Global, t: &Topology, inner: &Inner, conn: &Conn) -> Result<Join, OutOfMemory>
    requires { is_first t.now conn.now ≡ true }
    ensures { IfOk result (λ j. begun_join t.now inner.now conn.now ≡ j ∷ []) }
{
    let from = inner_spot(inner);
    let to = spot_at(t, conn.to).unwrap_or(from);
    let track = conn.id.copied(alloc)?;
    let run = Run { track, from, to };
    Ok(Join { at: conn.at, run })
}

/// Adds the join that a connection of a switch or crossing begins, if it does.
fn push_join(
    alloc: Global,
    t: &Topology,
    inner: &Inner,
    conn: &Conn,
    joins: &mut Vec<Join>,
) -> Result<(), OutOfMemory>
    ensures { OnOk result (joins.new.items ≡ joins.old.items ++ begun_join t.now inner.now conn.now) }
{
    if begins_join(t, conn) {
        let join = join_from(alloc, t, inner, conn)?;
        joins.push(join)?;
    }
    Ok(())
}

/// Adds the joins that begin at a switch or crossing.
fn push_inner_joins(
    alloc: Global,
    t: &Topology,
    inner: &Inner,
    joins: &mut Vec<Join>,
) -> Result<(), OutOfMemory>
    ensures { OnOk result (joins.new.items ≡ joins.old.items ++ joins_of t.now inner.now) }
{
    match &inner.what {
        InnerKind::Switch { conn, .. } => push_join(alloc, t, inner, conn, joins),
        InnerKind::Crossing {
            incoming,
            outgoing,
            ..
        } => {
            push_join(alloc, t, inner, incoming, joins)?;
            push_join(alloc, t, inner, outgoing, joins)
        }
    }
}

/// Adds the joins that begin on a track.
fn push_track_joins(
    alloc: Global,
    t: &Topology,
    track: &Track,
    joins: &mut Vec<Join>,
) -> Result<(), OutOfMemory>
    ensures { OnOk result (joins.new.items ≡ joins.old.items ++ joins_on t.now track.now) }
{
    for inner in track.inner.as_slice() {
        push_inner_joins(alloc, t, inner, joins)?;
    }
    Ok(())
}

/// The joins, each by the connection that is listed first.
pub(crate) fn joins(alloc: Global, t: &Topology) -> Result<Vec<Join>, OutOfMemory>
    ensures { IfOk result (λ joins. joins.items ≡ all_joins t.now) }
{
    let mut joins = Vec::new(alloc);
    for track in t.tracks.as_slice() {
        push_track_joins(alloc, t, track, &mut joins)?;
    }
    Ok(joins)
}
