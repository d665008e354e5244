// Examples of the definitions as theorems. The functions have no code: what they ensure speaks of the
// topologies that are written out in specs/.
ghost use Rattle.std.specs.Prelude.{[], ◌∷◌, ◌++◌, codes};
ghost use Rattle.plan_core.specs.Topology.{IsResolved};
ghost use Rattle.plan_core.specs.Examples.{one_graph, loop_graph, back_graph, cross_graph, two_graph};
ghost use Rattle.plan_core.specs.Examples.{scissors_graph, station_graph};
ghost use Rattle.cases_station.specs.Names.{scissors_nodes, scissors_tracks, station_nodes, station_tracks};
ghost use Rattle.port_graph.specs.TopologyGraph.{IsGraphOf, IsGraphFault, HasFewNodes, HasFewEdges};
ghost use Rattle.port_graph.specs.declared.fault.GraphFault.TheVariants.{TooManyNodes, TooManyEdges, NotForward};
ghost use Rattle.port_graph.specs.declared.fault.GraphFault.TheVariants.{SideMismatch};
ghost use Rattle.port_graph.specs.Examples.{with_names, one_topology, loop_topology, back_topology, cross_topology};
ghost use Rattle.port_graph.specs.Examples.{two_topology, scissors_topology, station_topology, joint_topology};
ghost use Rattle.port_graph.specs.Examples.{joint_graph, left_topology, left_graph, bent_topology, bent_graph};
ghost use Rattle.port_graph.specs.Examples.{ring_topology, backing_topology, at_mile, topology, open_tracks};
ghost use Rattle.port_graph.specs.Examples.{tracks_with_loops};

// Each of these is a topology as a file gives it, and has the graph that was worked out by hand.
fn worked_graphs()
    ensures one_track { IsResolved one_topology × IsGraphOf one_topology
        (with_names (codes "mb" ∷ codes "me" ∷ []) (codes "m" ∷ []) one_graph) }
    ensures a_loop { IsResolved loop_topology × IsGraphOf loop_topology
        (with_names (codes "mb" ∷ codes "me" ∷ codes "s1" ∷ codes "s2" ∷ [])
        (codes "m" ∷ codes "m" ∷ codes "m" ∷ codes "l" ∷ []) loop_graph) }
    ensures a_loop_listed_backwards { IsResolved back_topology × IsGraphOf back_topology
        (with_names (codes "mb" ∷ codes "me" ∷ codes "s1" ∷ codes "s2" ∷ [])
        (codes "m" ∷ codes "m" ∷ codes "m" ∷ codes "l" ∷ []) back_graph) }
    ensures a_crossover { IsResolved cross_topology × IsGraphOf cross_topology
        (with_names (codes "pb" ∷ codes "pe" ∷ codes "a" ∷ codes "qb" ∷ codes "qe" ∷ codes "b" ∷ [])
        (codes "p" ∷ codes "p" ∷ codes "q" ∷ codes "q" ∷ codes "x" ∷ []) cross_graph) }
    ensures two_tracks { IsResolved two_topology × IsGraphOf two_topology
        (with_names (codes "ab" ∷ codes "ae" ∷ codes "bb" ∷ codes "be" ∷ []) (codes "a" ∷ codes "b" ∷ []) two_graph) }
    ensures scissors { IsResolved scissors_topology × IsGraphOf scissors_topology
        (with_names scissors_nodes scissors_tracks scissors_graph) }
    ensures a_station { IsResolved station_topology × IsGraphOf station_topology
        (with_names station_nodes station_tracks station_graph) }
    ensures a_crossing_to_the_left { IsResolved left_topology × IsGraphOf left_topology left_graph }
    ensures a_loop_that_goes_straight { IsResolved bent_topology × IsGraphOf bent_topology bent_graph }
    ensures a_joint { IsResolved joint_topology × IsGraphOf joint_topology joint_graph }
{}

// None of these has a graph: a track joined to itself, and a crossing whose outgoing connection leads back.
fn worked_faults()
    ensures a_ring { IsResolved ring_topology × IsGraphFault ring_topology
        (NotForward (record { 0 = 0 }) (codes "o") (at_mile 0)) }
    ensures an_outgoing_edge_on_the_wrong_side { IsResolved backing_topology
        × IsGraphFault backing_topology (SideMismatch (record { 0 = 8 }) (codes "k")) }
{}

// How many nodes and edges there may be: 128 and 160, and no more. Two tracks joined end to end have three nodes.
fn limits()
    ensures as_many_nodes_as_may_be { HasFewNodes (topology (open_tracks 64 100)) }
    ensures one_node_more { IsGraphFault (topology (joint_topology.tracks ++ open_tracks 63 100)) (TooManyNodes 129) }
    ensures as_many_edges_as_may_be { HasFewNodes (topology (tracks_with_loops 53))
        × HasFewEdges (topology (tracks_with_loops 53)) }
    ensures one_edge_more { IsGraphFault (topology (tracks_with_loops 53 ++ open_tracks 1 100)) (TooManyEdges 161) }
{}

#[test]
fn the_examples_are_as_the_definitions_say(_rt: HostRuntime) {
    worked_graphs();
    worked_faults();
    limits();
}
