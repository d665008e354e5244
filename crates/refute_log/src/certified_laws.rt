// Laws of certified values. The functions do nothing: their contracts are the laws.
ghost use Rattle.std.specs.Prelude.{◌≡◌, ◌≤◌, ◌+◌, ◌++◌, ℕ, Bool, List, Option, take};
ghost use Rattle.plan_core.specs.declared.criterion.Values.{Values};
ghost use Rattle.plan_core.specs.declared.criterion.Criterion.{Criterion};
ghost use Rattle.plan_core.specs.Grid.{GridSize};
ghost use Rattle.plan_core.specs.Graph.{Graph};
ghost use Rattle.plan_core.specs.Drawing.{Drawing};
ghost use Rattle.plan_core.specs.Lawful.{Lawful};
ghost use Rattle.plan_core.specs.Values.{Better};
ghost use Rattle.refute_log.specs.Told.{Lines};
ghost use Rattle.refute_log.specs.Log.{Derives};
ghost use Rattle.refute_log.specs.Bounds.{MeetsLog, CoversDrawings};
ghost use Rattle.refute_log.specs.Certified.{IsCertifiedLeast, IsLeastAt, Certifies, CertifiesNone, AreSameAt};
ghost use Rattle.refute_log.specs.Certified.{Settled};
ghost use Rattle.refute_log.specs.Least.{CertifiedAreLeast, CertifiedAreBest};
ghost use Rattle.refute_log.specs.Expected.{caps};

/// Values that meet a log that derives are not better than those it certifies, on the criteria it certifies. None
/// meet one that certifies that there is no drawing. Two of them that are both certified are the same there.
pub fn certified_values_are_least()
    ensures least { (greatest : Criterion → ℕ) (lines : Lines) (order : List Criterion) (v w : Values) (s : ℕ) →
        MeetsLog lines w → Derives lines → Certifies greatest lines order v s → Better (take s order) w v → ⊥ }
    ensures none { (lines : Lines) (w : Values) → MeetsLog lines w → Derives lines → CertifiesNone lines → ⊥ }
    ensures once { (greatest : Criterion → ℕ) (ls : Lines) (order : List Criterion) (v w : Values) (s : ℕ) →
        MeetsLog ls v → MeetsLog ls w → Derives ls → Certifies greatest ls order v s → Certifies greatest ls order w s →
        AreSameAt (take s order) v w }
{}

/// This holds whoever wrote the log. Where it covers the lawful drawings and derives, none of them is better on the
/// criteria that it certifies. Where it certifies that there is none, there is none. A lawful drawing whose values it
/// certifies on the whole order is best.
pub fn certified_drawings_are_least()
    ensures least { (g : Graph) (above : ℕ → ℕ → Bool) (grid : GridSize) (greatest : Criterion → ℕ) (lines : Lines)
        (order : List Criterion) → CoversDrawings g above grid lines → Derives lines →
        CertifiedAreLeast g above grid greatest lines order }
    ensures none { (g : Graph) (above : ℕ → ℕ → Bool) (grid : GridSize) (lines : Lines) →
        CoversDrawings g above grid lines → Derives lines → CertifiesNone lines → (d : Drawing) →
        Lawful g above grid d → ⊥ }
    ensures best { (g : Graph) (above : ℕ → ℕ → Bool) (grid : GridSize) (greatest : Criterion → ℕ) (lines : Lines)
        (order : List Criterion) → CoversDrawings g above grid lines → Derives lines →
        CertifiedAreBest g above grid greatest lines order }
{}

/// A log certifies whatever a front of it certifies.
pub fn more_lines_certify_more()
    ensures values { (greatest : Criterion → ℕ) (lines more : Lines) (order : List Criterion) (v : Values) (s : ℕ) →
        Certifies greatest lines order v s → Certifies greatest (lines ++ more) order v s }
    ensures none { (lines more : Lines) → CertifiesNone lines → CertifiesNone (lines ++ more) }
{}

/// To depth 0 all values are certified; to one more those that are, where the next value is least;
/// and to each smaller depth.
pub fn values_are_certified_place_by_place()
    ensures none { (greatest : Criterion → ℕ) (lines : Lines) (order : List Criterion) (v : Values) →
        Certifies greatest lines order v 0 }
    ensures next { (greatest : Criterion → ℕ) (lines : Lines) (order : List Criterion) (v : Values) (i : ℕ) →
        Certifies greatest lines order v i → IsLeastAt greatest lines order v i →
        Certifies greatest lines order v (i + 1) }
    ensures last { (greatest : Criterion → ℕ) (lines : Lines) (order : List Criterion) (v : Values) (i : ℕ) →
        Certifies greatest lines order v (i + 1) → IsLeastAt greatest lines order v i }
    ensures fewer { (greatest : Criterion → ℕ) (lines : Lines) (order : List Criterion) (v : Values) (s t : ℕ) → t ≤ s →
        Certifies greatest lines order v s → Certifies greatest lines order v t }
{}

/// To some depth only the values of the criteria before it count.
pub fn equal_values_are_certified_alike()
    ensures { (greatest : Criterion → ℕ) (lines : Lines) (order : List Criterion) (v w : Values) (s : ℕ) →
        AreSameAt (take s order) v w → Certifies greatest lines order v s →
        Certifies greatest lines order w s }
{}

/// Of what the greatest values come from nothing counts but the values themselves.
pub fn only_the_greatest_values_count()
    ensures least { (greatest other : Criterion → ℕ) (lines : Lines) (front : List Criterion) (c : Criterion)
        (v : Values) → ((b : Criterion) → greatest b ≡ other b) → IsCertifiedLeast greatest lines front c v →
        IsCertifiedLeast other lines front c v }
    ensures values { (greatest other : Criterion → ℕ) (lines : Lines) (order : List Criterion) (v : Values) (s : ℕ) →
        ((b : Criterion) → greatest b ≡ other b) →
        Certifies greatest lines order v s → Certifies other lines order v s }
    ensures counts { (greatest other : Criterion → ℕ) (lines : Lines) (c : Criterion) → greatest c ≡ other c →
        caps greatest lines c ≡ caps other lines c }
{}

/// One depth at most is settled.
pub fn one_depth_is_settled()
    ensures { (greatest : Criterion → ℕ) (lines : Lines) (order : List Criterion) (found : Option Values) (s t : ℕ) →
        Settled greatest lines order found s → Settled greatest lines order found t → s ≡ t }
{}
