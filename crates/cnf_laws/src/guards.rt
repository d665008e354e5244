// Orders with guards: they hold unless one of some literals and truth values is true.
ghost use Rattle.std.specs.Prelude.{◌≡◌, ◌≤◌, ◌<◌, ℕ, ◌+◌, ◌-◌, length};
ghost use Rattle.cnf_core.specs.declared.limits.TheConstants.{VARS};
ghost use Rattle.cnf_core.specs.Clause.{AreThere};
ghost use Rattle.cnf_core.specs.LitOrTruth.{AreWithin};
ghost use Rattle.cnf_core.specs.Added.{AddsClauses};
ghost use Rattle.order_int.specs.IntVars.{IntIsThere};
ghost use Rattle.cnf_laws.specs.Guards.{guards, guard_list, guarded_clause, guarded_order};

use cnf_core::{CnfFault, Formula, Lit, LitOrTruth};
use order_int::OrderInt;

/// Five literals or truth values.
#[derive(Drop)]
pub struct Guards {
    pub first: LitOrTruth,
    pub second: LitOrTruth,
    pub third: LitOrTruth,
    pub fourth: LitOrTruth,
    pub fifth: LitOrTruth,
}

/// The same literal or truth value.
pub fn same(t: &LitOrTruth) -> LitOrTruth
    ensures { result ≡ t.now }
{
    *t
}

/// One of unless or of the guards is true, or where a is at least k, b is at least k + plus.
fn add_guarded_clause(
    f: &mut Formula,
    a: &OrderInt,
    b: &OrderInt,
    plus: u32,
    g: &Guards,
    unless: &[Lit],
    k: u32,
) -> Result<(), CnfFault>
    requires a { IntIsThere f.old.vars a.now }
    requires b { IntIsThere f.old.vars b.now }
    requires guards { AreWithin f.old.vars (guard_list (guards g.now.first g.now.second g.now.third g.now.fourth
        g.now.fifth)) }
    requires unless { AreThere f.old.vars unless.now }
    requires plus { plus ≤ 65535 }
    requires k { k ≤ 65536 }
    ensures { AddsClauses result f.old f.new
        (guarded_clause a.now b.now plus (guards g.now.first g.now.second g.now.third g.now.fourth g.now.fifth)
        unless.now k)
        (length unless.now + 7) }
{
    f.add_clause(
        unless,
        &[
            same(&g.first),
            same(&g.second),
            same(&g.third),
            same(&g.fourth),
            same(&g.fifth),
            a.at_least(k).negated(),
            b.at_least(k + plus),
        ],
    )
}

/// One of unless or of the guards is true, or a + plus is at most b.
pub(crate) fn add_guarded(
    f: &mut Formula,
    a: &OrderInt,
    b: &OrderInt,
    plus: u32,
    g: &Guards,
    unless: &[Lit],
) -> Result<(), CnfFault>
    requires a { IntIsThere f.old.vars a.now }
    requires b { IntIsThere f.old.vars b.now }
    requires guards { AreWithin f.old.vars (guard_list (guards g.now.first g.now.second g.now.third g.now.fourth
        g.now.fifth)) }
    requires unless { AreThere f.old.vars unless.now }
    requires plus { plus ≤ 65535 }
    ensures { AddsClauses result f.old f.new
        (guarded_order a.now b.now plus (guards g.now.first g.now.second g.now.third g.now.fourth g.now.fifth)
        unless.now)
        (length unless.now + 7) }
{
    let end = a.low + (a.high - a.low + 1);
    for k in a.low..end {
        add_guarded_clause(f, a, b, plus, g, unless, k)?;
    }
    Ok(())
}
