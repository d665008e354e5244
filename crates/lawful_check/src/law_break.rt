// A broken law, with its parties.
use plan_core::{EdgeNo, NodeNo};

/// A node or an edge of which a law speaks.
#[derive(Clone, Copy, Debug, PartialEq, Eq)]
pub enum Party {
    /// A node, by its number in the graph.
    Node(NodeNo),
    /// An edge, by its number in the graph.
    Edge(EdgeNo),
}

/// A law that is broken, 1 to 7, and by whom. Laws 1, 3 and 4 have one party: law 1 a node or an edge, law 3 an edge,
/// law 4 a node. Laws 2 and 5 have two nodes and law 7 two edges, the smaller first. Law 6 has the edge that must be
/// above, and then the other.
#[derive(Clone, Copy, Debug, PartialEq, Eq)]
pub struct LawBreak {
    /// The number of the law.
    pub law: u8,
    /// The party that it is broken for, or the first of two.
    pub first: Party,
    /// The other of two.
    pub second: Option<Party>,
}
