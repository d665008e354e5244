// Laws of explanations. The functions do nothing: their contracts are the laws.
ghost use Rattle.std.specs.Prelude.{ℕ, Bool, List};
ghost use Rattle.plan_core.specs.Grid.{GridSize};
ghost use Rattle.plan_core.specs.Graph.{Graph};
ghost use Rattle.plan_core.specs.Drawing.{Drawing};
ghost use Rattle.plan_core.specs.Lawful.{Instance, Lawful};
ghost use Rattle.search_why.specs.Explained.{IsExplanation, AreWithout, IsIrreducible};

/// Where there is an explanation, no drawing is lawful.
pub fn explanation_leaves_none_lawful()
    ensures { (g : Graph) (above : ℕ → ℕ → Bool) (grid : GridSize) (laws : List Instance) →
        IsExplanation g above grid laws → (d : Drawing) → Lawful g above grid d → ⊥ }
{}

/// Where there is a drawing for each law, which meets all the others, none of the laws can be left out.
pub fn without_is_irreducible()
    ensures { (g : Graph) (grid : GridSize) (laws : List Instance) (drawings : List Drawing) →
        AreWithout g grid laws drawings → IsIrreducible g grid laws }
{}
