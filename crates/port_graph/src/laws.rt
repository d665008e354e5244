// Laws of track graphs. The functions do nothing: their contracts are the laws.
ghost use Rattle.std.specs.Prelude.{◌≡◌, ℕ, ◌<◌, ◌-◌, Some, ℤ, neg_ℤ, List, length, map, reverse, slice_get};
ghost use Rattle.std.specs.Ordering.{nat_cmp, int_cmp};
ghost use Rattle.plan_core.specs.declared.topology.Topology.{Topology as ATopology};
ghost use Rattle.plan_core.specs.Topology.{IsResolved};
ghost use Rattle.plan_core.specs.Graph.{Graph, mileage};
ghost use Rattle.port_graph.specs.declared.fault.GraphFault.{GraphFault as AFault};
ghost use Rattle.port_graph.specs.StationGraph.{IsStationGraph};
ghost use Rattle.port_graph.specs.Columns.{columns_of, AreColumns};
ghost use Rattle.port_graph.specs.TopologyGraph.{IsGraphOf, IsStationGraphOf, IsGraphFault};
ghost use Rattle.port_graph.specs.Mirrored.{mirrored_topology, mirrored_graph};
ghost use Rattle.port_graph.specs.Turned.{turned_topology, turned_graph, turned_fault};

/// A topology has at most one track graph. One that has a graph has no fault, and of the others each
/// has one fault at most.
pub fn one_graph_or_one_fault()
    ensures graph { (t : ATopology) (g h : Graph) → IsResolved t → IsGraphOf t g → IsGraphOf t h → g ≡ h }
    ensures no_fault { (t : ATopology) (g : Graph) (fault : AFault) → IsResolved t → IsStationGraphOf t g →
        IsGraphFault t fault → ⊥ }
    ensures fault { (t : ATopology) (e f : AFault) → IsResolved t → IsGraphFault t e → IsGraphFault t f → e ≡ f }
{}

/// The columns of a graph are the one list that rises and has just the mileages of its nodes. The columns of two
/// nodes compare as their mileages do.
pub fn columns_are_the_distinct_mileages()
    ensures are { (g : Graph) → AreColumns g (columns_of g) }
    ensures only { (g : Graph) (columns : List ℤ) → AreColumns g columns → columns ≡ columns_of g }
    ensures order { (g : Graph) (m n i j : ℕ) → slice_get (columns_of g) i ≡ Some (mileage g m) →
        slice_get (columns_of g) j ≡ Some (mileage g n) → nat_cmp i j ≡ int_cmp (mileage g m) (mileage g n) }
{}

/// With every mileage negated a topology is that of the same station seen from its other end. Its
/// graph is the graph seen from the other end: east and west are exchanged everywhere, and so are
/// upper and lower; mileages are negated; numbers, names and tracks are as they were. Its fault is
/// the same fault, at the negated mileage. Seen twice so, a station is as it was.
pub fn seen_from_the_other_end()
    ensures topology { (t : ATopology) → IsResolved t → IsResolved (turned_topology t) }
    ensures graph { (t : ATopology) (g : Graph) → IsResolved t → IsStationGraph g → IsGraphOf t g →
        IsGraphOf (turned_topology t) (turned_graph g) }
    ensures fault { (t : ATopology) (fault : AFault) → IsResolved t → IsGraphFault t fault →
        IsGraphFault (turned_topology t) (turned_fault fault) }
    ensures station { (g : Graph) → IsStationGraph g → IsStationGraph (turned_graph g) }
    ensures topology_twice { (t : ATopology) → turned_topology (turned_topology t) ≡ t }
    ensures graph_twice { (g : Graph) → turned_graph (turned_graph g) ≡ g }
{}

/// Seen from the other end the columns count from that end: their mileages are the negated ones in
/// the opposite order, and a node has the column opposite to its own.
pub fn columns_count_from_the_other_end()
    ensures columns { (g : Graph) → columns_of (turned_graph g) ≡ reverse (map neg_ℤ (columns_of g)) }
    ensures node { (g : Graph) (n i : ℕ) → n < length g.nodes → slice_get (columns_of g) i ≡ Some (mileage g n) →
        slice_get (columns_of (turned_graph g)) (length (columns_of g) - 1 - i) ≡ Some (mileage (turned_graph g) n) }
{}

/// With every hand exchanged and mileages kept, a topology's graph has upper and lower exchanged, and no more; and its
/// fault is the same. With every hand exchanged twice, a station is as it was.
pub fn hands_exchanged()
    ensures topology { (t : ATopology) → IsResolved t → IsResolved (mirrored_topology t) }
    ensures graph { (t : ATopology) (g : Graph) → IsStationGraphOf t g →
        IsStationGraphOf (mirrored_topology t) (mirrored_graph g) }
    ensures fault { (t : ATopology) (fault : AFault) → IsGraphFault t fault → IsGraphFault (mirrored_topology t) fault }
    ensures topology_twice { (t : ATopology) → mirrored_topology (mirrored_topology t) ≡ t }
    ensures graph_twice { (g : Graph) → mirrored_graph (mirrored_graph g) ≡ g }
{}
