// Laws of verdicts. The functions do nothing: their contracts are the laws.
ghost use Rattle.std.specs.Prelude.{◌≡◌, ◌≤◌, ◌↔◌, [], ℕ, List, Option, None, length};
ghost use Rattle.plan_core.specs.declared.criterion.Values.{Values};
ghost use Rattle.plan_core.specs.declared.criterion.Criterion.{Criterion};
ghost use Rattle.refute_log.specs.Told.{Lines};
ghost use Rattle.refute_check.specs.Kept.{CheckedFacts, Refutes};
ghost use Rattle.refute_log.specs.Certified.{Certifies, CertifiesNone};
ghost use Rattle.refute_check.specs.declared.told_bound.ToldBound.{ToldBound};
ghost use Rattle.refute_check.specs.Lacking.{KnowsLog, IsFirstLacking};

/// No place lacks where the values are certified, and one place at most is the first that lacks.
pub fn one_place_lacks_first()
    ensures none { (greatest : Criterion → ℕ) (ls : Lines) (order : List Criterion) (v : Values) (s : ℕ)
        (found : Option ℕ) →
        s ≤ length order → Certifies greatest ls order v s → IsFirstLacking greatest ls order v s found →
        found ≡ None }
    ensures once { (top : Criterion → ℕ) (lines : Lines) (order : List Criterion) (v : Values) (s : ℕ)
        (found other : Option ℕ) → s ≤ length order → IsFirstLacking top lines order v s found →
        IsFirstLacking top lines order v s other → found ≡ other }
{}

/// Whatever gives the greatest values, only they count.
pub fn only_greatest_values_lack()
    ensures { (top other : Criterion → ℕ) (ls : Lines) (order : List Criterion) (v : Values) (s : ℕ) (found : Option ℕ)
        → ((b : Criterion) → top b ≡ other b) → IsFirstLacking top ls order v s found →
        IsFirstLacking other ls order v s found }
{}

/// The verdict on no literals is the one on there being no drawing.
pub fn no_literals_certify_none()
    ensures { (lines : Lines) (kept : CheckedFacts) (bounds : List ToldBound) → KnowsLog lines kept bounds →
        Refutes kept [] ↔ CertifiesNone lines }
{}
