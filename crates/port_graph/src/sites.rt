// Nodes as a topology has them: what they are made of, and which edges meet there.
use crate::Spot;
use plan_core::{EdgeNo, Hand, Text};

/// A node to be: its element's id, where it is, and what meets there.
#[derive(Drop)]
pub(crate) struct Site {
    pub(crate) id: Text,
    pub(crate) spot: Spot,
    pub(crate) meets: Meeting,
}

/// The edges that meet at a node, as the file tells them apart. `before` and `after` are the pieces of
/// the node's own track, in the track's direction. At a switch `hand` is that of the diverging leg.
#[derive(Clone, Copy)]
pub(crate) enum Meeting {
    /// An end of the railway.
    End {
        edge: EdgeNo,
    },
    /// Two track ends joined to each other; `first` is the edge of the one listed first.
    Joint {
        first: EdgeNo,
        other: EdgeNo,
    },
    /// A switch. `outgoing` says that the branch leaves towards the track's end, `track_diverges` that
    /// the track takes the diverging leg and the branch the straight one.
    Switch {
        outgoing: bool,
        hand: Hand,
        track_diverges: bool,
        before: EdgeNo,
        after: EdgeNo,
        branch: EdgeNo,
    },
    /// A crossing. `hand` is that to which the outgoing edge leaves the track.
    Crossing {
        hand: Hand,
        before: EdgeNo,
        after: EdgeNo,
        incoming: EdgeNo,
        outgoing: EdgeNo,
    },
}
