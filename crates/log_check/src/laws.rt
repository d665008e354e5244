// Laws of verdicts. The functions do nothing: their contracts are the laws.
ghost use Rattle.std.specs.Prelude.{◌≡◌, ◌++◌, ◌∷◌, ℕ, List, [], take};
ghost use Rattle.plan_core.specs.declared.criterion.Criterion.{Criterion};
ghost use Rattle.plan_core.specs.declared.criterion.Values.{Values};
ghost use Rattle.plan_core.specs.Drawing.{Drawing};
ghost use Rattle.plan_core.specs.Lawful.{Lawful};
ghost use Rattle.plan_core.specs.Values.{values_of, Better};
ghost use Rattle.track_order.specs.Order.{is_above};
ghost use Rattle.refute_log.specs.declared.line.LogLine.{LogLine as Line};
ghost use Rattle.refute_log.specs.Told.{Lines};
ghost use Rattle.drawing_cnf.specs.Layout.{Layout, IsStationLayout};
ghost use Rattle.log_check.specs.declared.claim.Claim.{Claim as Claimed};
ghost use Rattle.log_check.specs.declared.claim.Claim.TheVariants.{Least, NoDrawing};
ghost use Rattle.log_check.specs.declared.verdict.Verdict.{Verdict as Answer};
ghost use Rattle.log_check.specs.declared.verdict.Verdict.TheVariants.{Certified};
ghost use Rattle.log_check.specs.declared.verdict.Refusal.{Refusal as Why};
ghost use Rattle.log_check.specs.TextLines.{HasToldBounds};
ghost use Rattle.log_check.specs.Expectation.{Expectation, IsExpectedOf};
ghost use Rattle.log_check.specs.Accepted.{AreAccepted};
ghost use Rattle.log_check.specs.Refused.{IsRefusedFor};
ghost use Rattle.log_check.specs.Claimed.{IsClaimOf};
ghost use Rattle.log_check.specs.Judged.{CertifiesWhole, IsLogJudged};

/// A log has one verdict at most, whoever wrote it. Its Bound lines are one list, what is expected of it is one, and it
/// stops at one place for one cause.
pub fn one_verdict_is_due()
    ensures bounds { (bytes : List ℕ) (a b : Lines) → HasToldBounds bytes a → HasToldBounds bytes b → a ≡ b }
    ensures expected { (y : Layout) (order : List Criterion) (bytes : List ℕ) (a b : Expectation) →
        IsExpectedOf y order bytes a → IsExpectedOf y order bytes b → a ≡ b }
    ensures cause { (e : Expectation) (before : Lines) (line : Line) (a b : Why) → IsRefusedFor e before line a →
        IsRefusedFor e before line b → a ≡ b }
    ensures verdict { (y : Layout) (order : List Criterion) (claim : Claimed) (log : List ℕ) (a b : Answer) →
        IsStationLayout y → IsClaimOf order claim → IsLogJudged y order claim log a → IsLogJudged y order claim log b →
        a ≡ b }
{}

/// What is certified is so, whoever wrote the log: no lawful drawing is better on the claimed places, or none is
/// lawful.
pub fn what_is_certified_is_so()
    ensures least { (y : Layout) (order : List Criterion) (v : Values) (n : ℕ) (log : List ℕ) →
        IsLogJudged y order (Least v n) log Certified → (d : Drawing) → Lawful y.graph (is_above y.order) y.grid d →
        Better (take n order) (values_of d) v → ⊥ }
    ensures none { (y : Layout) (order : List Criterion) (log : List ℕ) →
        IsLogJudged y order NoDrawing log Certified → (d : Drawing) → Lawful y.graph (is_above y.order) y.grid d → ⊥ }
{}

/// Certified is the verdict exactly where all lines of the whole log are accepted, with what is expected of it, and
/// certify the claim.
pub fn certified_exactly()
    ensures due { (y : Layout) (order : List Criterion) (claim : Claimed) (log : List ℕ) (v : Answer) →
        IsStationLayout y → IsClaimOf order claim → CertifiesWhole y order claim log → IsLogJudged y order claim log v →
        v ≡ Certified }
    ensures only { (y : Layout) (order : List Criterion) (claim : Claimed) (log : List ℕ) →
        IsLogJudged y order claim log Certified → CertifiesWhole y order claim log }
{}

/// Accepted lines are closed under fronts.
pub fn fronts_are_accepted()
    ensures { (e : Expectation) (lines : Lines) (line : Line) → AreAccepted e (lines ++ line ∷ []) →
        AreAccepted e lines }
{}
