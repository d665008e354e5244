// Why a topology has no track graph.
ghost use Rattle.std.specs.Prelude.{◌≡◌};
ghost use Rattle.port_graph.specs.TopologyGraph.{number_of, word_of};

use plan_core::{EdgeNo, Micro, NodeNo, OutOfMemory, Text};
use thiserror::Error;

/// Why a topology has no track graph: the first of these, in this order.
#[derive(Debug, Drop, Error)]
pub enum GraphFault {
    /// There are more than 128 nodes; the number is how many.
    #[error("too many nodes")]
    TooManyNodes(u32),
    /// There are more than 160 edges; the number is how many.
    #[error("too many edges")]
    TooManyEdges(u32),
    /// Both nodes of an edge have this mileage. It is the first such edge.
    #[error("an edge between nodes of one mileage")]
    NotForward {
        edge: EdgeNo,
        track: Text,
        mileage: Micro,
    },
    /// The edges at a node don't lie on the sides that its kind asks for. It is the first such node.
    #[error("edges on the wrong sides of a node")]
    SideMismatch {
        node: NodeNo,
        name: Text,
    },
    /// Memory couldn't be had.
    #[error("out of memory")]
    Memory,
}

impl GraphFault {
    /// The number by which a fault line tells the fault; want of memory has no line, and 0.
    pub fn number(&self) -> u8
        ensures { result ≡ number_of self.now }
    {
        match self {
            GraphFault::TooManyNodes(_) => 1,
            GraphFault::TooManyEdges(_) => 2,
            GraphFault::NotForward { .. } => 3,
            GraphFault::SideMismatch { .. } => 4,
            GraphFault::Memory => 0,
        }
    }

    /// The word by which a fault line tells the fault; want of memory has none.
    pub fn word(&self) -> &'static str
        ensures { result.now ≡ word_of self.now }
    {
        match self {
            GraphFault::TooManyNodes(_) => "TooManyNodes",
            GraphFault::TooManyEdges(_) => "TooManyEdges",
            GraphFault::NotForward { .. } => "NotForward",
            GraphFault::SideMismatch { .. } => "SideMismatch",
            GraphFault::Memory => "",
        }
    }
}

impl From<OutOfMemory> for GraphFault {
    ghost use Rattle.std.specs.Prelude.{◌≡◌};
    ghost use Rattle.port_graph.specs.declared.fault.GraphFault.TheVariants.{Memory};

    ghost from_gives = { λ _ fault. fault ≡ Memory };

    fn from(_: OutOfMemory) -> Self {
        GraphFault::Memory
    }
}
