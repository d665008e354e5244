// The bounds of both criteria, up to their greatest values.
ghost use Rattle.std.specs.Prelude.{◌≡◌, ◌≢◌, ◌≤◌, ◌+◌, ◌++◌, ◌∷◌, [], IfOk, OnErr, IsErrOf};
ghost use Rattle.outside_io.specs.Counts.{Rose};
ghost use Rattle.plan_core.specs.declared.criterion.Criterion.{Criterion as Measure};
ghost use Rattle.refute_log.specs.Expected.{with_cap, sum_lines, sum_vars_of, sums};
ghost use Rattle.search_least.specs.declared.oracle.Built.TheVariants.{Whole as AllOfThem};
ghost use Rattle.search_least.specs.Task.{greatest_of};
ghost use Rattle.search_least.specs.Built.{IsBuild};
ghost use Rattle.search_least.specs.Outcome.{IsFresh, first_lines};
ghost use Rattle.refute_log.specs.Steps.{Continues, Leaves};
ghost use Rattle.trade_off.specs.Outcome.{IsBuiltFront};

use plan_core::Criterion;
use search_least::{Built, MinFault, Oracle};

/// Adds the bounds of a criterion up to its greatest value; where that is 0 there are none.
fn build_whole<O: Oracle>(oracle: &mut O, c: Criterion) -> Result<Built, MinFault>
    requires ready { O.ready oracle.old }
    requires none { O.caps oracle.old c ≡ 0 }
    ensures ready { IfOk result (λ r. r ≡ AllOfThem → O.ready oracle.new) }
    ensures caps { IfOk result (λ r. r ≡ AllOfThem → (d : Measure) →
        O.caps oracle.new d ≡ with_cap (O.caps oracle.old) c (greatest_of (O.task oracle.old) c) d) }
    ensures vars { IfOk result (λ r. r ≡ AllOfThem → O.vars oracle.new
        ≡ O.vars oracle.old
        + sum_vars_of (O.task oracle.old).encoding (O.vars oracle.old) c (greatest_of (O.task oracle.old) c)) }
    ensures lines { IfOk result (λ r. Continues O.knows O.log O.learnt oracle.old oracle.new (λ lines more.
        IsBuild (O.task oracle.old) (O.vars oracle.old) c (greatest_of (O.task oracle.old) c) r lines more)) }
    ensures leaves { let p = O.task oracle.old in
        OnErr result (Leaves 0 (sum_lines p.encoding (O.vars oracle.old) c (greatest_of p c))
        (O.knows oracle.old) (O.log oracle.old) (O.log oracle.new)) }
    ensures task { O.task oracle.new ≡ O.task oracle.old }
    ensures later { O.is_later oracle.old oracle.new }
    ensures faults { O.faults oracle.old ≤ O.faults oracle.new }
    ensures cause { IsErrOf result MinFault.Log → Rose (O.faults oracle.old) (O.faults oracle.new) }
{
    let most = oracle.greatest(c);
    if most == 0 {
        return Ok(Built::Whole);
    }
    let built = oracle.build(c, most)?;
    Ok(built)
}

/// Adds the bounds of both criteria, the first one's first.
pub(crate) fn build_both<O: Oracle>(
    oracle: &mut O,
    a: Criterion,
    b: Criterion,
) -> Result<Built, MinFault>
    requires ready { O.ready oracle.old }
    requires fresh { IsFresh (O.task oracle.old) (O.caps oracle.old) (O.vars oracle.old) }
    requires apart { a ≢ b }
    ensures ready { IfOk result (λ r. r ≡ AllOfThem → O.ready oracle.new) }
    ensures first { IfOk result (λ r. r ≡ AllOfThem → O.caps oracle.new a ≡ greatest_of (O.task oracle.old) a) }
    ensures second { IfOk result (λ r. r ≡ AllOfThem → O.caps oracle.new b ≡ greatest_of (O.task oracle.old) b) }
    ensures lines { IfOk result (λ r. Continues O.knows O.log O.learnt oracle.old oracle.new (λ lines more.
        lines ≡ first_lines (O.task oracle.old) → IsBuiltFront (O.task oracle.old) a b r (lines ++ more))) }
    ensures leaves { let p = O.task oracle.old in
        OnErr result (Leaves p.budget (sums p.encoding (O.vars oracle.old) (a ∷ b ∷ []) (greatest_of p))
        (O.knows oracle.old) (O.log oracle.old) (O.log oracle.new)) }
    ensures task { O.task oracle.new ≡ O.task oracle.old }
    ensures later { O.is_later oracle.old oracle.new }
    ensures faults { O.faults oracle.old ≤ O.faults oracle.new }
    ensures cause { IsErrOf result MinFault.Log → Rose (O.faults oracle.old) (O.faults oracle.new) }
{
    match build_whole(oracle, a)? {
        Built::NoRoom => Ok(Built::NoRoom),
        Built::Whole => build_whole(oracle, b),
    }
}
