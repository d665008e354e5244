// The ports of a node, and its kind.

use plan_core::{Compass, EdgeNo, Side};

/// The edges that meet at a node, each by its port there. An end's `side` is where its edge lies. A
/// switch's `legs` is where both its legs lie, and `branch` the side of its diverging leg, also where
/// that leg is the switch's own track. At a crossing one path joins `west_lower` and `east_upper`,
/// the other `west_upper` and `east_lower`.
#[derive(Clone, Copy, Debug, PartialEq, Eq)]
pub enum Ports {
    End {
        edge: EdgeNo,
        side: Compass,
    },
    Joint {
        west: EdgeNo,
        east: EdgeNo,
    },
    Switch {
        legs: Compass,
        branch: Side,
        trunk: EdgeNo,
        straight: EdgeNo,
        diverging: EdgeNo,
    },
    Crossing {
        west_upper: EdgeNo,
        west_lower: EdgeNo,
        east_upper: EdgeNo,
        east_lower: EdgeNo,
    },
}

/// What a node is. A switch's `legs` is where its legs lie, and `branch` the side of the diverging
/// one.
#[derive(Clone, Copy, Debug, PartialEq, Eq)]
pub enum NodeKind {
    End,
    Joint,
    Switch { legs: Compass, branch: Side },
    Crossing,
}

impl Ports {
    ghost use Rattle.std.specs.Prelude.{◌≡◌};
    ghost use Rattle.port_graph.specs.Plain.{plain_ports, kind_of};

    /// The kind of a node with these ports.
    pub(crate) fn kind(self) -> NodeKind
        ensures { result ≡ kind_of (plain_ports self) }
    {
        match self {
            Ports::End { .. } => NodeKind::End,
            Ports::Joint { .. } => NodeKind::Joint,
            Ports::Switch { legs, branch, .. } => NodeKind::Switch { legs, branch },
            Ports::Crossing { .. } => NodeKind::Crossing,
        }
    }
}
