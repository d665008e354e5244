// The bytes of a railML file with their signals: the station that they are and the places of its signals, or the first
// fault of the file or of its signals.
ghost use Rattle.std.specs.Prelude.{◌<◌, ◌≤◌, ℕ, List, length, All, IfOk, IfErr};
ghost use Rattle.railml_read.specs.Signals.{GivesSignals, AreRising};
ghost use Rattle.port_graph.specs.TopologyGraph.{IsStationGraphOf};
ghost use Rattle.track_order.specs.Order.{EdgeOrder, IsOrderOf};
ghost use Rattle.plan_objects.specs.declared.places.SignalPlace.{SignalPlace as APlace};
ghost use Rattle.plan_objects.specs.Rows.{station};
ghost use Rattle.plan_objects.specs.Answers.{AreOfOneFile, ArePlaced};
ghost use Rattle.run_input.specs.Input.{HasStation, IsRefusal};
ghost use Rattle.run_input.specs.Signals.{AreSignalsBeside, HasSignalStation, IsSignalRefusal};

use crate::fault::RunFault;
use crate::input::{InputRefusal, Station, graph_from, order_from, rows_in, topology_from};
use plan_core::{MAX_FILE_BYTES, Topology};
use plan_objects::{ObjectFault, Placed, objects};
use port_graph::PortGraph;
use railml_read::{ReadFault, Records, SignalRows, read_signals};
use std::alloc::Global;

/// The signals of bytes that aren't too many, or the fault of their text.
fn signal_rows_in(alloc: Global, bytes: &[u8]) -> Result<SignalRows, InputRefusal>
    requires { length bytes.now ≤ MAX_FILE_BYTES }
    ensures signals { IfOk result (λ signals. GivesSignals bytes.now signals) }
    ensures rising { IfOk result (λ signals. AreRising signals) }
    ensures refusal { IfErr result (λ r. IsRefusal bytes.now r) }
{
    match read_signals(alloc, bytes) {
        Ok(signals) => Ok(signals),
        Err(ReadFault::Text { what, at }) => Err(InputRefusal::Fault(RunFault::Text { what, at })),
        Err(ReadFault::Memory) => Err(InputRefusal::Memory),
    }
}

/// The places of a file's signals along its track graph, or their first fault.
fn placed_on(
    alloc: Global,
    signals: &SignalRows,
    rows: &Records,
    topology: &Topology,
    graph: &PortGraph,
) -> Result<Placed, InputRefusal>
    requires file { AreOfOneFile rows.now topology.now signals.now }
    requires graph { IsStationGraphOf topology.now graph.now }
    ensures placed { IfOk result (λ p. ArePlaced (station rows.now topology.now graph.now) signals.now p) }
    ensures drawn { IfOk result (λ p. All (λ (s : APlace). s.edge.0 < length graph.now.edges) p) }
    ensures refusal { (bytes : List ℕ) (o : EdgeOrder) → HasStation bytes graph.now o
        → AreSignalsBeside bytes (station rows.now topology.now graph.now) signals.now
        → IfErr result (λ r. IsSignalRefusal bytes r) }
{
    match objects(alloc, signals, rows, topology, graph) {
        Ok(placed) => Ok(placed),
        Err(ObjectFault::Signal { what, at, first }) => {
            Err(InputRefusal::Fault(RunFault::Signal { what, at, first }))
        }
        Err(ObjectFault::Memory) => Err(InputRefusal::Memory),
    }
}

/// A station, its signals, and their places along it.
#[derive(Drop)]
pub struct SignalStation {
    pub station: Station,
    pub signals: SignalRows,
    pub placed: Placed,
}

/// The station and the signals of bytes that aren't too many, or the first of their faults: one of the file's before
/// one of the signals'. The rows and the topology are kept until the signals have their places.
pub fn signals_in(alloc: Global, bytes: &[u8]) -> Result<SignalStation, InputRefusal>
    requires { length bytes.now ≤ MAX_FILE_BYTES }
    ensures station { IfOk result (λ s. HasSignalStation bytes.now s.station.graph s.station.order s.signals s.placed) }
    ensures order { IfOk result (λ s. IsOrderOf s.station.graph s.station.order) }
    ensures drawn { IfOk result (λ s. All (λ (p : APlace). p.edge.0 < length s.station.graph.edges) s.placed) }
    ensures refusal { IfErr result (λ r. IsSignalRefusal bytes.now r) }
{
    let rows = rows_in(alloc, bytes)?;
    let topology = topology_from(alloc, &rows)?;
    let graph = graph_from(alloc, &topology)?;
    let order = order_from(alloc, &graph)?;
    let signals = signal_rows_in(alloc, bytes)?;
    let placed = placed_on(alloc, &signals, &rows, &topology, &graph)?;
    Ok(SignalStation {
        station: Station { graph, order },
        signals,
        placed,
    })
}
