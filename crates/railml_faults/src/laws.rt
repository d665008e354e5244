// What holds of the definitions alone.
ghost use Rattle.std.specs.Prelude.{◌≡◌, ℕ, List};
ghost use Rattle.railml_read.specs.declared.rows.Elem.{Elem};
ghost use Rattle.railml_read.specs.Formed.{AreFormed};
ghost use Rattle.railml_faults.specs.declared.fault.TopologyWhat.{TopologyWhat};
ghost use Rattle.railml_faults.specs.Faults.{IsFirstTopologyFault};

/// Rows have one first fault at most, at one place and with the same texts.
pub fn one_fault()
    ensures { (rows : List Elem) (a b : TopologyWhat) (at to : ℕ) (u v x y : List ℕ) → AreFormed rows →
        IsFirstTopologyFault rows a at u v → IsFirstTopologyFault rows b to x y → (a ≡ b) × (at ≡ to) × (u ≡ x)
        × (v ≡ y) }
{}
