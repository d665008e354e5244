// The bytes of a railML file: the station that they are, or the first of their faults.
ghost use Rattle.std.specs.Prelude.{◌≤◌, ℕ, List, length, IfOk, IfErr};
ghost use Rattle.railml_read.specs.Formed.{AreFormed};
ghost use Rattle.plan_core.specs.Topology.{IsResolved};
ghost use Rattle.railml_topology.specs.Answers.{ResolvesTo};
ghost use Rattle.port_graph.specs.TopologyGraph.{IsStationGraphOf};
ghost use Rattle.track_order.specs.Order.{IsOrderOf};
ghost use Rattle.run_input.specs.Input.{HasRows, HasTopology, HasGraph, HasStation, IsRefusal};

use crate::fault::RunFault;
use plan_core::{MAX_FILE_BYTES, Topology};
use port_graph::{GraphFault, PortGraph, build};
use railml_read::{ReadFault, Records, read};
use railml_topology::{ResolveFault, resolve};
use std::alloc::Global;
use track_order::{OrderFault, TrackOrder, derive};

/// Why bytes give no station.
#[derive(Drop)]
pub enum InputRefusal {
    /// They have this fault.
    Fault(RunFault),
    /// Memory couldn't be had.
    Memory,
}

/// The rows of bytes that aren't too many, or the fault of their text.
pub(crate) fn rows_in(alloc: Global, bytes: &[u8]) -> Result<Records, InputRefusal>
    requires { length bytes.now ≤ MAX_FILE_BYTES }
    ensures rows { IfOk result (λ rows. HasRows bytes.now rows) }
    ensures formed { IfOk result (λ rows. AreFormed rows) }
    ensures refusal { IfErr result (λ r. IsRefusal bytes.now r) }
{
    match read(alloc, bytes) {
        Ok(rows) => Ok(rows),
        Err(ReadFault::Text { what, at }) => Err(InputRefusal::Fault(RunFault::Text { what, at })),
        Err(ReadFault::Memory) => Err(InputRefusal::Memory),
    }
}

/// The topology of rows, or their fault.
pub(crate) fn topology_from(alloc: Global, rows: &Records) -> Result<Topology, InputRefusal>
    requires { AreFormed rows.now }
    ensures topology { (bytes : List ℕ) → HasRows bytes rows.now → IfOk result (λ t. HasTopology bytes t) }
    ensures resolves { IfOk result (λ t. ResolvesTo rows.now t) }
    ensures resolved { IfOk result (λ t. IsResolved t) }
    ensures refusal { (bytes : List ℕ) → HasRows bytes rows.now → IfErr result (λ r. IsRefusal bytes r) }
{
    match resolve(alloc, rows) {
        Ok(topology) => Ok(topology),
        Err(
            ResolveFault::Topology {
                what,
                at,
                first,
                second,
            },
        ) => Err(InputRefusal::Fault(RunFault::Topology {
            what,
            at,
            first,
            second,
        })),
        Err(ResolveFault::Memory) => Err(InputRefusal::Memory),
    }
}

/// The topology of bytes that aren't too many, or the first of their faults.
fn topology_in(alloc: Global, bytes: &[u8]) -> Result<Topology, InputRefusal>
    requires { length bytes.now ≤ MAX_FILE_BYTES }
    ensures topology { IfOk result (λ t. HasTopology bytes.now t) }
    ensures resolved { IfOk result (λ t. IsResolved t) }
    ensures refusal { IfErr result (λ r. IsRefusal bytes.now r) }
{
    let rows = rows_in(alloc, bytes)?;
    topology_from(alloc, &rows)
}

/// The track graph of a topology, or its fault.
pub(crate) fn graph_from(alloc: Global, topology: &Topology) -> Result<PortGraph, InputRefusal>
    requires { IsResolved topology.now }
    ensures graph { (bytes : List ℕ) → HasTopology bytes topology.now → IfOk result (λ g. HasGraph bytes g) }
    ensures built { IfOk result (λ g. IsStationGraphOf topology.now g) }
    ensures refusal { (bytes : List ℕ) → HasTopology bytes topology.now → IfErr result (λ r. IsRefusal bytes r) }
{
    match build(alloc, topology) {
        Ok(graph) => Ok(graph),
        Err(GraphFault::Memory) => Err(InputRefusal::Memory),
        Err(fault) => Err(InputRefusal::Fault(RunFault::Graph(fault))),
    }
}

/// The track graph of bytes that aren't too many, or the first of their faults.
fn graph_in(alloc: Global, bytes: &[u8]) -> Result<PortGraph, InputRefusal>
    requires { length bytes.now ≤ MAX_FILE_BYTES }
    ensures graph { IfOk result (λ g. HasGraph bytes.now g) }
    ensures refusal { IfErr result (λ r. IsRefusal bytes.now r) }
{
    let topology = topology_in(alloc, bytes)?;
    graph_from(alloc, &topology)
}

/// The order of a graph's edges, or its fault.
pub(crate) fn order_from(alloc: Global, graph: &PortGraph) -> Result<TrackOrder, InputRefusal>
    ensures order { IfOk result (λ o. IsOrderOf graph.now o) }
    ensures refusal { (bytes : List ℕ) → HasGraph bytes graph.now → IfErr result (λ r. IsRefusal bytes r) }
{
    match derive(alloc, graph) {
        Ok(order) => Ok(order),
        Err(OrderFault::Memory) => Err(InputRefusal::Memory),
        Err(fault) => Err(InputRefusal::Fault(RunFault::Order(fault))),
    }
}

/// A station: its track graph, and the order of its edges.
#[derive(Drop)]
pub struct Station {
    pub graph: PortGraph,
    pub order: TrackOrder,
}

/// The station of bytes that aren't too many, or the first of their faults.
pub fn station_in(alloc: Global, bytes: &[u8]) -> Result<Station, InputRefusal>
    requires { length bytes.now ≤ MAX_FILE_BYTES }
    ensures station { IfOk result (λ s. HasStation bytes.now s.graph s.order) }
    ensures refusal { IfErr result (λ r. IsRefusal bytes.now r) }
{
    let graph = graph_in(alloc, bytes)?;
    let order = order_from(alloc, &graph)?;
    Ok(Station { graph, order })
}
