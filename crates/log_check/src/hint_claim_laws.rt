// Laws of what hinted lines certify. The function does nothing: its contract is the law.
ghost use Rattle.std.specs.Prelude.{ℕ, List, take};
ghost use Rattle.plan_core.specs.declared.criterion.Values.{Values};
ghost use Rattle.plan_core.specs.declared.criterion.Criterion.{Criterion};
ghost use Rattle.plan_core.specs.Values.{Better};
ghost use Rattle.refute_log.specs.Told.{Lines};
ghost use Rattle.refute_log.specs.Certified.{Certifies, CertifiesNone};
ghost use Rattle.hint_log.specs.HintedLines.{HintLines};
ghost use Rattle.log_check.specs.Hinted.{log_of, MeetsHints};

/// Values that meet the lines of clauses and bounds aren't better than those that good hinted lines certify, on the
/// criteria on which they do. None meet them where the lines certify that there is none.
pub fn what_hints_certify_is_so()
    ensures least { (greatest : Criterion → ℕ) (told : Lines) (lines : HintLines) (order : List Criterion)
        (v w : Values) (s : ℕ) → MeetsHints told lines w → Certifies greatest (log_of told lines) order v s →
        Better (take s order) w v → ⊥ }
    ensures none { (told : Lines) (lines : HintLines) (w : Values) → MeetsHints told lines w →
        CertifiesNone (log_of told lines) → ⊥ }
{}
