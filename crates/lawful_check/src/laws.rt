// Laws of broken laws. The functions do nothing: their contracts are the laws.
ghost use Rattle.std.specs.Prelude.{◌≡◌, ℕ, Bool};
ghost use Rattle.plan_core.specs.Grid.{GridSize};
ghost use Rattle.plan_core.specs.Graph.{Graph};
ghost use Rattle.plan_core.specs.Drawing.{Drawing};
ghost use Rattle.plan_core.specs.Lawful.{Lawful};
ghost use Rattle.lawful_check.specs.declared.law_break.LawBreak.{LawBreak};
ghost use Rattle.lawful_check.specs.Breaks.{IsLeastBreak};

/// A lawful drawing breaks no law.
pub fn lawful_or_broken()
    ensures { (g : Graph) (above : ℕ → ℕ → Bool) (grid : GridSize) (d : Drawing) (b : LawBreak) →
        Lawful g above grid d → IsLeastBreak g above grid d b → ⊥ }
{}

/// A drawing breaks one law least at most, by the same parties.
pub fn one_least_break()
    ensures { (g : Graph) (above : ℕ → ℕ → Bool) (grid : GridSize) (d : Drawing) (b c : LawBreak) →
        IsLeastBreak g above grid d b → IsLeastBreak g above grid d c → b ≡ c }
{}
