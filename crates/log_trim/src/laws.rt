// Laws of what is left of a log. The function does nothing: its contract is the law.
ghost use Rattle.std.specs.Prelude.{ℕ, List, flat_map};
ghost use Rattle.plan_core.specs.declared.criterion.Criterion.{Criterion};
ghost use Rattle.plan_core.specs.Values.{limit_of};
ghost use Rattle.refute_log.specs.Log.{given};
ghost use Rattle.drawing_cnf.specs.Layout.{Layout};
ghost use Rattle.log_check.specs.declared.claim.Claim.{Claim as Claimed};
ghost use Rattle.log_check.specs.Claimed.{CertifiesClaim};
ghost use Rattle.hint_log.specs.HintedLines.{AreGood};
ghost use Rattle.log_check.specs.Hinted.{log_of};
ghost use Rattle.log_trim.specs.declared.trimming.TrimmedLog.{TrimmedLog as Left};
ghost use Rattle.log_trim.specs.TrimmedLog.{expected_by, IsTrimmedLog};

/// The lines that are left are good after the clauses that are expected for their caps, and with what is expected they
/// certify the claim.
pub fn trimmed_lines_certify()
    ensures good { (y : Layout) (order : List Criterion) (claim : Claimed) (log : List ℕ) (r : Left) →
        IsTrimmedLog y order claim log r → AreGood (flat_map given (expected_by y order r).lines) r.kept }
    ensures certified { (y : Layout) (order : List Criterion) (claim : Claimed) (log : List ℕ) (r : Left) →
        IsTrimmedLog y order claim log r →
        CertifiesClaim (limit_of y.graph y.grid) (log_of (expected_by y order r).lines r.kept) order claim }
{}
