// The topology that rows resolve to, or the fault that they have.
ghost use Rattle.std.specs.Prelude.{◌≡◌, ◌≤◌, ◌⊎◌, length, IfOk, IfErr, OnOk};
ghost use Rattle.plan_core.specs.declared.limits.TheConstants.{MAX_TRACKS};
ghost use Rattle.plan_core.specs.Exactly.{AnswersExactly};
ghost use Rattle.plan_core.specs.Topology.{IsResolved};
ghost use Rattle.railml_read.specs.Formed.{AreFormed};
ghost use Rattle.railml_faults.specs.Faults.{HasNoFault};
ghost use Rattle.railml_faults.specs.Tables.{AreTablesOf};
ghost use Rattle.railml_topology.specs.Resolved.{IsTopologyOf};
ghost use Rattle.railml_topology.specs.Answers.{ResolvesTo, IsResolveFault};

use crate::ResolveFault;
use crate::building::topology_of;
use plan_core::{OutOfMemory, Topology};
use railml_faults::{Tables, Told, first_fault};
use railml_read::{Elem, Records};
use std::alloc::Global;

/// The topology of rows of which nothing is wrong.
fn faultless(alloc: Global, rows: &[Elem], tables: &Tables) -> Result<Topology, OutOfMemory>
    requires formed { AreFormed rows.now }
    requires faultless { HasNoFault rows.now }
    requires tables { AreTablesOf rows.now tables.now }
    ensures topology { IfOk result (λ t. IsTopologyOf rows.now t) }
    ensures resolved { IfOk result (λ t. IsResolved t) }
    ensures few { IfOk result (λ t. length t.tracks ≤ MAX_TRACKS) }
{
    topology_of(alloc, rows, tables)
}

/// The topology of rows, or their first fault.
fn topology_or_fault(alloc: Global, rows: &[Elem]) -> Result<Topology, ResolveFault>
    requires { AreFormed rows.now }
    ensures topology { IfOk result (λ t. IsTopologyOf rows.now t) }
    ensures resolved { IfOk result (λ t. IsResolved t) }
    ensures few { IfOk result (λ t. length t.tracks ≤ MAX_TRACKS) }
    ensures faultless { OnOk result (HasNoFault rows.now) }
    ensures fault { IfErr result (λ e. (e ≡ ResolveFault.Memory) ⊎ IsResolveFault rows.now e) }
{
    let tables = Tables::new(alloc, rows)?;
    match first_fault(alloc, rows, &tables)? {
        Some(told) => {
            let Told {
                what,
                at,
                first,
                second,
            } = told;
            Err(ResolveFault::Topology {
                what,
                at,
                first,
                second,
            })
        }
        None => Ok(faultless(alloc, rows, &tables)?),
    }
}

/// The topology of the rows that were read from a document, or the first fault that they have: the one
/// with the lowest number in the order of `TopologyWhat`, and of that kind the one with the least place.
pub fn resolve(alloc: Global, rows: &Records) -> Result<Topology, ResolveFault>
    requires { AreFormed rows.now }
    ensures answers { AnswersExactly result ResolveFault.Memory (ResolvesTo rows.now) (IsResolveFault rows.now) }
    // What the layers above ask of a topology.
    ensures resolved { IfOk result (λ t. IsResolved t) }
    ensures few { IfOk result (λ t. length t.tracks ≤ MAX_TRACKS) }
{
    topology_or_fault(alloc, rows.as_slice())
}
