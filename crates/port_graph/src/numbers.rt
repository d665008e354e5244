// The numbers of edges: the pieces track by track, and after them the joins in file order.
ghost use Rattle.std.specs.Prelude.{◌≡◌, ◌+◌, ◌<◌, ◌≤◌, ◌^◌, ℕ, IfOk, List, length, slice_index, sum_by, vec_len};
ghost use Rattle.plan_core.specs.declared.limits.TheConstants.{MAX_EDGES};
ghost use Rattle.port_graph.specs.Runs.{piece_count, piece_number as number_of_piece, last_piece as number_of_last};
ghost use Rattle.port_graph.specs.Runs.{join_number as number_of_join, join_of_connection as number_of_join_along};
ghost use Rattle.port_graph.specs.Runs.{edge_count, edge_beyond as edge_there, joins as all_joins};
ghost use Rattle.port_graph.specs.Sites.{edge_no};
ghost use Rattle.port_graph.specs.Numbering.{IsNumbering};

use crate::Join;
use crate::joins::joined_at;
use plan_core::{Conn, EdgeNo, OutOfMemory, Part, Topology};
use std::alloc::Global;

/// What the numbers of edges are read from: the number of each track's first piece and that of all
/// pieces, and the joins.
#[derive(Drop)]
pub(crate) struct Numbering {
    pub(crate) firsts: Vec<u16>,
    pub(crate) joins: Vec<Join>,
}

/// The number of each track's first piece, and that of all pieces.
pub(crate) fn first_pieces(alloc: Global, t: &Topology) -> Result<Vec<u16>, OutOfMemory>
    requires { sum_by piece_count t.now.tracks ≤ MAX_EDGES }
    ensures count { IfOk result (λ firsts. vec_len firsts ≡ length t.now.tracks + 1) }
    ensures each { IfOk result (λ firsts. (k : ℕ) → k ≤ length t.now.tracks →
        slice_index firsts.items k ≡ number_of_piece t.now k 0) }
{
    let mut firsts = Vec::new(alloc);
    let mut next = 0;
    for track in t.tracks.as_slice() {
        firsts.push(next)?;
        next += track.inner.len() as u16 + 1;
    }
    firsts.push(next)?;
    Ok(firsts)
}

/// The number of a piece of a track, both counted from 0.
pub(crate) fn piece_number(
    t: &Topology,
    numbering: &Numbering,
    track: usize,
    piece: usize,
) -> EdgeNo
    requires numbering { IsNumbering t.now numbering.now }
    requires few { number_of_piece t.now track piece ≤ MAX_EDGES }
    ensures { result ≡ edge_no (number_of_piece t.now track piece) }
{
    let track = track.min(t.tracks.len());
    EdgeNo(numbering.firsts[track] + piece as u16)
}

/// The number of a track's last piece.
pub(crate) fn last_piece(t: &Topology, numbering: &Numbering, track: usize) -> EdgeNo
    requires { IsNumbering t.now numbering.now }
    ensures { result ≡ edge_no (number_of_last t.now track) }
{
    let last = match t.tracks.as_slice().get(track) {
        Some(track) => track.inner.len(),
        None => 0,
    };
    piece_number(t, numbering, track, last)
}

/// The number of the join whose first connection is at this place of the file.
fn join_number(t: &Topology, numbering: &Numbering, at: usize) -> EdgeNo
    requires { IsNumbering t.now numbering.now }
    ensures { result ≡ edge_no (number_of_join t.now at) }
{
    let pieces = numbering.firsts[t.tracks.len()];
    let before = numbering.joins.iter().filter(|join| join.at < at).count();
    EdgeNo(pieces + before as u16)
}

/// The number of the join that a connection begins or ends.
fn join_along(t: &Topology, numbering: &Numbering, conn: &Conn) -> EdgeNo
    requires { IsNumbering t.now numbering.now }
    ensures { result ≡ edge_no (number_of_join_along t.now conn.now) }
{
    join_number(t, numbering, conn.at.min(joined_at(t, conn)))
}

/// The edge along which a connection leads away.
pub(crate) fn edge_beyond(t: &Topology, numbering: &Numbering, conn: &Conn) -> EdgeNo
    requires { IsNumbering t.now numbering.now }
    ensures { result ≡ edge_no (edge_there t.now conn.now) }
{
    let track = conn.to.track as usize;
    match conn.to.part {
        Part::Begin => piece_number(t, numbering, track, 0),
        Part::End => last_piece(t, numbering, track),
        Part::Branch(_) | Part::Incoming(_) | Part::Outgoing(_) => {
            join_along(t, numbering, conn)
        }
    }
}
