// A law of logs that belong to a solver. The function does nothing: its contract is the law.
ghost use Rattle.std.specs.Prelude.{◌++◌, ◌∷◌, [], ℕ};
ghost use Rattle.plan_core.specs.declared.criterion.Criterion.{Criterion};
ghost use Rattle.cnf_core.specs.declared.literal.Var.{Var as Variable};
ghost use Rattle.refute_log.specs.declared.line.LogLine.TheVariants.{Bound};
ghost use Rattle.refute_log.specs.Lines.{MayBeTold};
ghost use Rattle.refute_log.specs.Told.{Lines};
ghost use Rattle.cdcl_core.specs.Kept.{Kept};
ghost use Rattle.cdcl_core.specs.Belongs.{Belongs};

/// A log that belongs to a solver belongs to it with a Bound line at its end, one that a log takes.
pub fn a_bound_line_changes_nothing()
    ensures { (lines : Lines) (k : Kept) (criterion : Criterion) (n : ℕ) (x : Variable) →
        MayBeTold (Bound criterion n x) →
        Belongs lines k → Belongs (lines ++ Bound criterion n x ∷ []) k }
{}
