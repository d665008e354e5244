// Which ports the edges have that meet at a node.
ghost use Rattle.std.specs.Prelude.{◌≡◌, ℕ, ◌<◌, length, map, All, if◌then◌else◌};
ghost use Rattle.std.specs.Option.{option_map};
ghost use Rattle.port_graph.specs.Plain.{plain_ports, plain_edge};
ghost use Rattle.port_graph.specs.Sides.{edges_met};
ghost use Rattle.port_graph.specs.PortRule.{ports_of, joint_ports, side_of_hand, switch_ports, paths_crossed};
ghost use Rattle.port_graph.specs.PortRule.{crossing_ports};
ghost use Rattle.port_graph.specs.TopologyGraph.{side_at};

use crate::rows::EdgeRow;
use crate::{Meeting, Ports};
use plan_core::{Compass, EdgeNo, Hand, NodeNo, Side};

/// The ports of the edges that meet at node `n`, or `None` exactly where they don't lie on the sides
/// that the node asks for.
pub(crate) fn ports_at(edges: &[EdgeRow], n: NodeNo, meets: Meeting) -> Option<Ports>
    requires { All (λ (e : ℕ). e < length edges.now) (edges_met meets) }
    ensures { option_map plain_ports result ≡ ports_of (side_at (map plain_edge edges.now) n.0) meets }
{
    match meets {
        Meeting::End { edge } => Some(Ports::End {
            edge,
            side: side_of(edges, n, edge),
        }),
        Meeting::Joint { first, other } => ports_of_joint(
            first,
            other,
            side_of(edges, n, first),
            side_of(edges, n, other),
        ),
        Meeting::Switch {
            outgoing,
            hand,
            track_diverges,
            before,
            after,
            branch,
        } => {
            let legs = trunk_and_legs(outgoing, track_diverges, before, after, branch);
            ports_of_switch(
                hand,
                legs,
                side_of(edges, n, legs.trunk),
                side_of(edges, n, legs.straight),
                side_of(edges, n, legs.diverging),
            )
        }
        Meeting::Crossing {
            hand,
            before,
            after,
            incoming,
            outgoing,
        } => {
            let paths = Paths {
                before,
                after,
                incoming,
                outgoing,
            };
            ports_of_crossing(
                hand,
                paths,
                (side_of(edges, n, before), side_of(edges, n, after)),
                (side_of(edges, n, incoming), side_of(edges, n, outgoing)),
            )
        }
    }
}

/// The side of node `n` on which an edge lies that meets it.
fn side_of(edges: &[EdgeRow], n: NodeNo, e: EdgeNo) -> Compass
    requires { e.0 < length edges.now }
    ensures { result ≡ side_at (map plain_edge edges.now) n.0 e.0 }
{
    if edges[e.0 as usize].west == n {
        Compass::East
    } else {
        Compass::West
    }
}

/// The ports of a joint, whose edges lie on these sides.
fn ports_of_joint(
    first: EdgeNo,
    other: EdgeNo,
    first_side: Compass,
    other_side: Compass,
) -> Option<Ports>
    ensures { option_map plain_ports result ≡ joint_ports first.0 other.0 first_side other_side }
{
    match (first_side, other_side) {
        (Compass::West, Compass::East) => Some(Ports::Joint {
            west: first,
            east: other,
        }),
        (Compass::East, Compass::West) => Some(Ports::Joint {
            west: other,
            east: first,
        }),
        _ => None,
    }
}

/// The edges of a switch.
#[derive(Clone, Copy)]
struct Legs {
    trunk: EdgeNo,
    straight: EdgeNo,
    diverging: EdgeNo,
}

/// A switch's trunk is the piece before it where its branch is outgoing, else the one after it. Of the other piece
/// and the branch one is the straight leg, the other the diverging one.
fn trunk_and_legs(
    outgoing: bool,
    track_diverges: bool,
    before: EdgeNo,
    after: EdgeNo,
    branch: EdgeNo,
) -> Legs
    ensures trunk { result.trunk.0 ≡ (if outgoing then before.0 else after.0) }
    ensures straight { result.straight.0 ≡ (if track_diverges then branch.0 else
        (if outgoing then after.0 else before.0)) }
    ensures diverging { result.diverging.0 ≡ (if track_diverges then (if outgoing then after.0 else before.0) else
        branch.0) }
{
    let (trunk, leg) = if outgoing {
        (before, after)
    } else {
        (after, before)
    };
    if track_diverges {
        Legs {
            trunk,
            straight: branch,
            diverging: leg,
        }
    } else {
        Legs {
            trunk,
            straight: leg,
            diverging: branch,
        }
    }
}

/// The side to which a hand points at a switch whose legs lie east or west of it.
fn hand_side(legs: Compass, hand: Hand) -> Side
    ensures { result ≡ side_of_hand legs hand }
{
    match (legs, hand) {
        (Compass::East, Hand::Left) | (Compass::West, Hand::Right) => Side::Upper,
        (Compass::East, Hand::Right) | (Compass::West, Hand::Left) => Side::Lower,
    }
}

/// The ports of a switch, whose edges lie on these sides.
fn ports_of_switch(
    hand: Hand,
    legs: Legs,
    trunk: Compass,
    straight: Compass,
    diverging: Compass,
) -> Option<Ports>
    ensures { option_map plain_ports result ≡ switch_ports hand legs.trunk.0 legs.straight.0 legs.diverging.0 trunk
        straight diverging }
{
    match (trunk, straight, diverging) {
        (Compass::West, Compass::East, Compass::East)
        | (Compass::East, Compass::West, Compass::West) => Some(Ports::Switch {
            legs: straight,
            branch: hand_side(straight, hand),
            trunk: legs.trunk,
            straight: legs.straight,
            diverging: legs.diverging,
        }),
        _ => None,
    }
}

/// The edges of a crossing.
#[derive(Clone, Copy)]
struct Paths {
    before: EdgeNo,
    after: EdgeNo,
    incoming: EdgeNo,
    outgoing: EdgeNo,
}

/// The ports of a crossing. `own` are the sides of the pieces before and after it, `other` those of
/// the incoming and the outgoing edge.
fn ports_of_crossing(
    hand: Hand,
    paths: Paths,
    own: (Compass, Compass),
    other: (Compass, Compass),
) -> Option<Ports>
    ensures { option_map plain_ports result ≡ crossing_ports hand paths.before.0 paths.after.0 paths.incoming.0
        paths.outgoing.0 own.0 own.1 other.0 other.1 }
{
    match (own, other) {
        ((Compass::West, Compass::East), (Compass::West, Compass::East)) => Some(crossed_paths(
            hand,
            (paths.before, paths.after),
            (paths.incoming, paths.outgoing),
        )),
        ((Compass::East, Compass::West), (Compass::East, Compass::West)) => Some(crossed_paths(
            hand,
            (paths.after, paths.before),
            (paths.outgoing, paths.incoming),
        )),
        _ => None,
    }
}

/// The ports of a crossing, given the west and the east edge of each of its paths.
fn crossed_paths(hand: Hand, own: (EdgeNo, EdgeNo), other: (EdgeNo, EdgeNo)) -> Ports
    ensures { plain_ports result ≡ paths_crossed hand own.0.0 own.1.0 other.0.0 other.1.0 }
{
    let (rising, falling) = match hand {
        Hand::Left => (other, own),
        Hand::Right => (own, other),
    };
    Ports::Crossing {
        west_upper: falling.0,
        west_lower: rising.0,
        east_upper: rising.1,
        east_lower: falling.1,
    }
}
