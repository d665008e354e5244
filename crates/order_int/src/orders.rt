// One integer at most another, and two that are equal.
ghost use Rattle.std.specs.Prelude.{◌≡◌, ℕ, ◌+◌, ◌-◌, ◌*◌, ◌≤◌, ◌⊎◌, ◌↔◌, length};
ghost use Rattle.cnf_core.specs.declared.limits.TheConstants.{VARS};
ghost use Rattle.cnf_core.specs.Clause.{AreThere, words_of};
ghost use Rattle.cnf_core.specs.Assignment.{Assignment, Satisfies, SatisfiesAll};
ghost use Rattle.cnf_core.specs.Added.{AddsClauses};
ghost use Rattle.order_int.specs.IntVars.{IntIsThere};
ghost use Rattle.order_int.specs.OrderInt.{Reads, le_clause, le_count, le_clauses, equal_clauses};

use crate::OrderInt;
use cnf_core::{CnfFault, Formula, Lit};

/// Says that one of `unless` is true, or `a + plus` is at most `b`. The clauses end with the first
/// number of `a` that with `plus` is above all of `b`.
pub fn less_equal(
    f: &mut Formula,
    a: &OrderInt,
    b: &OrderInt,
    plus: u32,
    unless: &[Lit],
) -> Result<(), CnfFault>
    requires a { IntIsThere f.old.vars a.now }
    requires b { IntIsThere f.old.vars b.now }
    requires unless { AreThere f.old.vars unless.now }
    requires plus { plus ≤ 65535 }
    ensures adds { AddsClauses result f.old f.new (le_clauses a.now b.now plus unless.now) (length unless.now + 2) }
    ensures size { words_of f.new.clauses ≤ words_of f.old.clauses + (length unless.now + 5) *
        (a.now.high - a.now.low + 2) }
    ensures means { (v : Assignment) (m n : ℕ) → Reads v a.now m → Reads v b.now n →
        (SatisfiesAll v (le_clauses a.now b.now plus unless.now) ↔ (Satisfies v unless.now ⊎ (m + plus ≤ n))) }
{
    add_order(f, a, b, plus, unless)
}

/// How many of a's numbers, from the least on, there are up to the first that with plus is above b's
/// greatest.
fn count_of(a: &OrderInt, b: &OrderInt, plus: u32) -> u32
    requires plus { plus ≤ 65535 }
    ensures count { result ≡ le_count a.now b.now plus }
    ensures small { a.now.low + result ≤ 65536 }
{
    let left = (b.high + 1).saturating_sub(a.low + plus);
    (a.high - a.low).min(left) + 1
}

/// A clause for each of these numbers of a's range.
fn add_order(
    f: &mut Formula,
    a: &OrderInt,
    b: &OrderInt,
    plus: u32,
    unless: &[Lit],
) -> Result<(), CnfFault>
    requires a { IntIsThere f.old.vars a.now }
    requires b { IntIsThere f.old.vars b.now }
    requires unless { AreThere f.old.vars unless.now }
    requires plus { plus ≤ 65535 }
    ensures { AddsClauses result f.old f.new (le_clauses a.now b.now plus unless.now) (length unless.now + 2) }
{
    let end = a.low + count_of(a, b, plus);
    for k in a.low..end {
        add_le_clause(f, a, b, plus, unless, k)?;
    }
    Ok(())
}

/// One of unless is true, or where a is at least k, b is at least k + plus.
#[tactic(auto, using(crate::proofs::OrderLemmas::le_within))]
fn add_le_clause(
    f: &mut Formula,
    a: &OrderInt,
    b: &OrderInt,
    plus: u32,
    unless: &[Lit],
    k: u32,
) -> Result<(), CnfFault>
    requires a { IntIsThere f.old.vars a.now }
    requires b { IntIsThere f.old.vars b.now }
    requires unless { AreThere f.old.vars unless.now }
    requires plus { plus ≤ 65535 }
    requires k { k ≤ 65536 }
    ensures { AddsClauses result f.old f.new (le_clause a.now b.now plus unless.now k) (length unless.now + 2) }
{
    f.add_clause(unless, &[a.at_least(k).negated(), b.at_least(k + plus)])
}

/// Says that one of `unless` is true, or `a` equals `b`.
pub fn equal(f: &mut Formula, a: &OrderInt, b: &OrderInt, unless: &[Lit]) -> Result<(), CnfFault>
    requires a { IntIsThere f.old.vars a.now }
    requires b { IntIsThere f.old.vars b.now }
    requires unless { AreThere f.old.vars unless.now }
    ensures adds { AddsClauses result f.old f.new (equal_clauses a.now b.now unless.now) (length unless.now + 2) }
    ensures size { words_of f.new.clauses
        ≤ words_of f.old.clauses + (length unless.now + 5) * (a.now.high - a.now.low + (b.now.high - b.now.low) + 4) }
    ensures means { (v : Assignment) (m n : ℕ) → Reads v a.now m → Reads v b.now n →
        (SatisfiesAll v (equal_clauses a.now b.now unless.now) ↔ (Satisfies v unless.now ⊎ (m ≡ n))) }
{
    add_orders(f, a, b, unless)
}

/// a is at most b, and b at most a.
fn add_orders(f: &mut Formula, a: &OrderInt, b: &OrderInt, unless: &[Lit]) -> Result<(), CnfFault>
    requires a { IntIsThere f.old.vars a.now }
    requires b { IntIsThere f.old.vars b.now }
    requires unless { AreThere f.old.vars unless.now }
    ensures { AddsClauses result f.old f.new (equal_clauses a.now b.now unless.now) (length unless.now + 2) }
{
    add_order(f, a, b, 0, unless)?;
    add_order(f, b, a, 0, unless)
}
