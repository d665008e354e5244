// Runs of track from one node to another, as a topology has them.
use plan_core::{Micro, Text};

/// Where a node is: the byte of its element's start tag in the file, by which nodes are numbered, and its mileage.
#[derive(Clone, Copy)]
pub(crate) struct Spot {
    pub(crate) at: usize,
    pub(crate) mile: Micro,
}

/// Track from one node to another, which is to be an edge: the edge's track name, and the nodes in the
/// direction of the track, or of the join.
#[derive(Drop)]
pub(crate) struct Run {
    pub(crate) track: Text,
    pub(crate) from: Spot,
    pub(crate) to: Spot,
}

/// The run of a join between two connections of switches or crossings, with the file place of the one
/// that is listed first.
#[derive(Drop)]
pub(crate) struct Join {
    pub(crate) at: usize,
    pub(crate) run: Run,
}
