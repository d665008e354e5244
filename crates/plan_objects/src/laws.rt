// What holds of the definitions alone.
ghost use Rattle.std.specs.Prelude.{◌≡◌, ℕ, ◌<◌, ◌≤◌, Bool, List, length};
ghost use Rattle.plan_core.specs.Grid.{GridSize};
ghost use Rattle.plan_core.specs.Graph.{Graph};
ghost use Rattle.plan_core.specs.Drawing.{Drawing as PlainDrawing};
ghost use Rattle.plan_core.specs.Lawful.{Lawful};
ghost use Rattle.plan_core.specs.declared.topology.Topology.{Topology as ATopology};
ghost use Rattle.plan_core.specs.Topology.{IsResolved};
ghost use Rattle.railml_read.specs.declared.rows.Elem.{Elem as AnElem};
ghost use Rattle.railml_read.specs.declared.rows.SignalElem.{SignalElem as ASignal};
ghost use Rattle.railml_read.specs.Document.{GivesRows};
ghost use Rattle.railml_read.specs.Formed.{AreFormed};
ghost use Rattle.railml_read.specs.Signals.{GivesSignals, AreRising};
ghost use Rattle.railml_topology.specs.Answers.{ResolvesTo};
ghost use Rattle.plan_objects.specs.Answers.{AreOfOneFile};
ghost use Rattle.plan_objects.specs.declared.places.TheConstants.{MAX_SIGNALS, SIGNALS_OF_AN_EDGE};
ghost use Rattle.plan_objects.specs.declared.places.SignalPlace.{SignalPlace as APlace};
ghost use Rattle.plan_objects.specs.Places.{edge_at, need_of};
ghost use Rattle.plan_objects.specs.Rows.{Station as AStation, IsPlaceOf};
ghost use Rattle.plan_objects.specs.Along.{IsAlong, LiesOnItsEdge};
ghost use Rattle.plan_objects.specs.Spread.{HasRoomFor};
ghost use Rattle.port_graph.specs.TopologyGraph.{IsStationGraphOf};

/// A lawful drawing on a grid of which each edge goes over as many columns as its signals need has room for each
/// signal.
pub fn lawful_drawings_have_room()
    ensures { (signals : List APlace) (g : Graph) (above : ℕ → ℕ → Bool) (grid : GridSize) (d : PlainDrawing) (i : ℕ) →
        Lawful g above grid d → need_of signals ≤ grid.least → edge_at signals i < length g.edges →
        HasRoomFor signals d i }
{}

/// What is read of one file, and the topology that is resolved from it, are of one file.
pub fn read_from_one_file()
    ensures { (bytes : List ℕ) (rows : List AnElem) (t : ATopology) (s : List ASignal) →
        GivesRows bytes rows → AreFormed rows → ResolvesTo rows t → IsResolved t → GivesSignals bytes s →
        AreRising s → AreOfOneFile rows t s }
{}

/// Mileages rise or fall along a track throughout. So a signal whose mileage lies between those of the nodes to which
/// its track's two ends lead is between the two nodes of its edge.
pub fn signals_lie_on_their_edges()
    ensures { (s : AStation) (signal : ASignal) (p : APlace) → IsResolved s.topology →
        IsStationGraphOf s.topology s.graph → (is : IsPlaceOf s signal p) →
        IsAlong s.topology is.track p.mile.0 → LiesOnItsEdge s.graph p }
{}

/// A file has at most 512 signals, and an edge 15.
pub fn signals_are_limited()
    ensures of_a_file { MAX_SIGNALS ≡ 512 }
    ensures of_an_edge { SIGNALS_OF_AN_EDGE ≡ 15 }
{}
