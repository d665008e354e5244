// Laws of verdicts. The functions do nothing: their contracts are the laws.
ghost use Rattle.std.specs.Prelude.{◌≡◌, ℕ, List};
ghost use Rattle.plan_core.specs.declared.criterion.Criterion.{Criterion};
ghost use Rattle.plan_core.specs.Lawful.{Lawful};
ghost use Rattle.track_order.specs.Order.{is_above};
ghost use Rattle.drawing_cnf.specs.Layout.{Layout};
ghost use Rattle.log_check.specs.declared.claim.Claim.{Claim as Claimed};
ghost use Rattle.log_check.specs.Claimed.{IsClaimOf, IsTrueClaim};
ghost use Rattle.log_check.specs.declared.hint_verdict.HintsVerdict.{HintsVerdict as Answer};
ghost use Rattle.log_check.specs.declared.hint_verdict.HintsVerdict.TheVariants.{Certified};
ghost use Rattle.log_check.specs.HintsJudged.{HintsCertify, IsHintsJudged};

/// A hinted log has one verdict at most, whoever wrote it.
pub fn one_hints_verdict_is_due()
    ensures { (y : Layout) (order : List Criterion) (claim : Claimed) (hints : List ℕ) (a b : Answer) →
        IsClaimOf order claim → IsHintsJudged y order claim hints a → IsHintsJudged y order claim hints b → a ≡ b }
{}

/// What is certified is so, whoever wrote the text: no lawful drawing is better on the claimed places, or none is
/// lawful.
pub fn what_hinted_logs_certify_is_so()
    ensures { (y : Layout) (order : List Criterion) (claim : Claimed) (hints : List ℕ) →
        IsHintsJudged y order claim hints Certified →
        IsTrueClaim (Lawful y.graph (is_above y.order) y.grid) order claim }
{}

/// Certified is the verdict exactly where the text has caps, and all lines behind them are accepted and certify the
/// claim.
pub fn hints_certified_exactly()
    ensures due { (y : Layout) (order : List Criterion) (claim : Claimed) (hints : List ℕ) (v : Answer) →
        IsClaimOf order claim → HintsCertify y order claim hints → IsHintsJudged y order claim hints v →
        v ≡ Certified }
    ensures only { (y : Layout) (order : List Criterion) (claim : Claimed) (hints : List ℕ) →
        IsHintsJudged y order claim hints Certified → HintsCertify y order claim hints }
{}
