// Laws of the lines that are expected. The functions do nothing: their contracts are the laws.
ghost use Rattle.std.specs.Prelude.{◌≡◌, ◌≤◌, ◌∷◌, ◌++◌, ℕ, Bool, List, map, All};
ghost use Rattle.plan_core.specs.declared.criterion.Criterion.{Criterion};
ghost use Rattle.plan_core.specs.Grid.{GridSize};
ghost use Rattle.plan_core.specs.Graph.{Graph};
ghost use Rattle.plan_core.specs.Drawing.{Drawing};
ghost use Rattle.plan_core.specs.Lawful.{Lawful};
ghost use Rattle.refute_log.specs.declared.line.LogLine.TheVariants.{Formula};
ghost use Rattle.refute_log.specs.Told.{Lines};
ghost use Rattle.refute_log.specs.Log.{clause_lines};
ghost use Rattle.refute_log.specs.Certified.{CertifiesNone};
ghost use Rattle.refute_log.specs.Least.{IsLogOf, CertifiedAreLeast};
ghost use Rattle.refute_log.specs.Expected.{Problem, HasAllBounds, caps, expected_lines, expected_vars};
ghost use Rattle.refute_log.specs.Expected.{IsNextToCap, StandsOnce, EndsWithSum, EndsWithSumVars};

/// This holds whoever wrote the log. Let the expected lines cover the lawful drawings, with whatever caps. Let the
/// log derive, and let the lines expected for its own caps begin with its Formula and Bound lines. Then no lawful
/// drawing is better on the criteria that it certifies. Where it certifies that there is none, there is none.
pub fn certified_over_expected_lines_is_least()
    ensures least { (g : Graph) (above : ℕ → ℕ → Bool) (grid : GridSize) (e : Problem) (greatest : Criterion → ℕ)
        (ls : Lines) (order : List Criterion) → IsLogOf g above grid e greatest ls order →
        CertifiedAreLeast g above grid greatest ls order }
    ensures none { (g : Graph) (above : ℕ → ℕ → Bool) (grid : GridSize) (e : Problem) (top : Criterion → ℕ) (ls : Lines)
        (order : List Criterion) → IsLogOf g above grid e top ls order → CertifiesNone ls → (d : Drawing) →
        Lawful g above grid d → ⊥ }
{}

/// Without caps the file's clauses alone are expected. Only the caps count. With a cap for the next
/// criterion its lines come at the end and nothing else changes.
pub fn expected_lines_come_sum_by_sum()
    ensures none { (e : Problem) (order : List Criterion) (cap : Criterion → ℕ) → All (λ c. cap c ≡ 0) order →
        expected_lines e order cap ≡ map Formula e.clauses }
    ensures none_vars { (e : Problem) (order : List Criterion) (cap : Criterion → ℕ) → All (λ c. cap c ≡ 0) order →
        expected_vars e order cap ≡ e.vars }
    ensures same { (e : Problem) (order : List Criterion) (cap other : Criterion → ℕ) →
        ((c : Criterion) → cap c ≡ other c) → expected_lines e order cap ≡ expected_lines e order other }
    ensures same_vars { (e : Problem) (order : List Criterion) (cap other : Criterion → ℕ) →
        ((c : Criterion) → cap c ≡ other c) → expected_vars e order cap ≡ expected_vars e order other }
    ensures next { (e : Problem) (before behind : List Criterion) (c : Criterion) (n : ℕ) (cap : Criterion → ℕ) →
        IsNextToCap before c behind cap → EndsWithSum e (before ++ c ∷ behind) cap c n }
    ensures next_vars { (e : Problem) (before behind : List Criterion) (c : Criterion) (n : ℕ) (cap : Criterion → ℕ) →
        IsNextToCap before c behind cap → EndsWithSumVars e (before ++ c ∷ behind) cap c n }
{}

/// Lines that are what is expected for some caps have just these caps.
pub fn caps_are_those_told()
    ensures { (e : Problem) (most cap : Criterion → ℕ) (order : List Criterion) (c : Criterion) (ls : Lines) →
        HasAllBounds e → StandsOnce order c → cap c ≤ most c → clause_lines ls ≡ expected_lines e order cap →
        caps most ls c ≡ cap c }
{}
