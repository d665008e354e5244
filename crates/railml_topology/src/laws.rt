// What holds of the definitions alone.
ghost use Rattle.std.specs.Prelude.{◌≡◌, List};
ghost use Rattle.railml_read.specs.declared.rows.Elem.{Elem};
ghost use Rattle.railml_read.specs.Formed.{AreFormed};
ghost use Rattle.plan_core.specs.declared.topology.Topology.{Topology as Resolved};
ghost use Rattle.railml_faults.specs.Faults.{HasNoFault};
ghost use Rattle.railml_topology.specs.Resolved.{IsTopologyOf};

/// Rows of which nothing is wrong resolve to one topology at most.
pub fn one_topology()
    ensures { (rows : List Elem) (t u : Resolved) → AreFormed rows → HasNoFault rows → IsTopologyOf rows t →
        IsTopologyOf rows u → t ≡ u }
{}
