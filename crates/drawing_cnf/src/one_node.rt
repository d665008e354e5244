// Whether one node moved.
ghost use Rattle.std.specs.Prelude.{◌≡◌, ◌≤◌, ◌+◌, ◌++◌, ◌∷◌, []};
ghost use Rattle.cnf_core.specs.declared.limits.TheConstants.{VARS};
ghost use Rattle.cnf_core.specs.LitOrTruth.{yes, flip, clause_of};
ghost use Rattle.order_int.specs.OrderInt.{int_at_least};
ghost use Rattle.cnf_core.specs.Added.{AddsClauses};
ghost use Rattle.order_int.specs.IntVars.{IntIsThere};
ghost use Rattle.edge_shape.specs.EdgeVars.{node_ints};
ghost use Rattle.cnf_laws.specs.Rank.{one_when};
ghost use Rattle.cnf_laws.specs.Stands.{NodeThere};
ghost use Rattle.drawing_cnf.specs.Moved.{is_matched};
ghost use Rattle.drawing_cnf.specs.MovedClauses.{kept_clause, unlike_clauses, moved_clauses, clauses_by};

use cnf_core::{CnfFault, Formula, Lit, LitOrTruth, Var};
use edge_shape::NodeVars;
use order_int::OrderInt;
use plan_core::Point;

/// The variable, made true.
fn yes_var(m: u32) -> LitOrTruth
    requires from { 1 ≤ m }
    requires to { m ≤ VARS }
    ensures { result ≡ yes m }
{
    LitOrTruth::Lit(Lit::new(Var(m), true))
}

/// The integer is at least k, or the variable m is true.
#[tactic(auto, using(crate::proofs::WithinLemmas::from_within))]
fn add_from(f: &mut Formula, i: &OrderInt, k: u32, m: u32) -> Result<(), CnfFault>
    requires limit { f.old.vars ≤ VARS }
    requires there { IntIsThere f.old.vars i.now }
    requires from { 1 ≤ m }
    requires to { m ≤ f.old.vars }
    ensures { AddsClauses result f.old f.new (clause_of [] (int_at_least i.now k ∷ yes m ∷ [])) 2 }
{
    f.add_clause(&[], &[i.at_least(k), yes_var(m)])
}

/// It is less than k, or m is true.
#[tactic(auto, using(crate::proofs::WithinLemmas::past_within))]
fn add_past(f: &mut Formula, i: &OrderInt, k: u32, m: u32) -> Result<(), CnfFault>
    requires limit { f.old.vars ≤ VARS }
    requires there { IntIsThere f.old.vars i.now }
    requires from { 1 ≤ m }
    requires to { m ≤ f.old.vars }
    ensures { AddsClauses result f.old f.new (clause_of [] (flip (int_at_least i.now k) ∷ yes m ∷ [])) 2 }
{
    f.add_clause(&[], &[i.at_least(k).negated(), yes_var(m)])
}

/// Where the integer isn't k, the variable m is true.
fn add_unlike(f: &mut Formula, i: &OrderInt, k: u32, m: u32) -> Result<(), CnfFault>
    requires limit { f.old.vars ≤ VARS }
    requires there { IntIsThere f.old.vars i.now }
    requires small { k ≤ 65535 }
    requires from { 1 ≤ m }
    requires to { m ≤ f.old.vars }
    ensures { AddsClauses result f.old f.new (unlike_clauses i.now k m) 2 }
{
    add_from(f, i, k, m)?;
    add_past(f, i, k + 1, m)
}

/// Where the node isn't at the point, the variable m is true.
fn add_moved(f: &mut Formula, n: &NodeVars, q: Point, m: u32) -> Result<(), CnfFault>
    requires limit { f.old.vars ≤ VARS }
    requires there { NodeThere f.old.vars (node_ints n.now.x n.now.y) }
    requires from { 1 ≤ m }
    requires to { m ≤ f.old.vars }
    ensures { AddsClauses result f.old f.new (unlike_clauses n.now.x q.x m ++ unlike_clauses n.now.y q.y m) 2 }
{
    add_unlike(f, &n.x, u32::from(q.x), m)?;
    add_unlike(f, &n.y, u32::from(q.y), m)
}

/// Where it is at the point, m is false.
#[tactic(auto, using(crate::proofs::WithinLemmas::kept_within))]
fn add_kept(f: &mut Formula, n: &NodeVars, q: Point, m: u32) -> Result<(), CnfFault>
    requires limit { f.old.vars ≤ VARS }
    requires there { NodeThere f.old.vars (node_ints n.now.x n.now.y) }
    requires from { 1 ≤ m }
    requires to { m ≤ f.old.vars }
    ensures { AddsClauses result f.old f.new (kept_clause (node_ints n.now.x n.now.y) q m) 5 }
{
    let (x, y) = (u32::from(q.x), u32::from(q.y));
    f.add_clause(
        &[],
        &[
            n.x.at_least(x).negated(),
            n.x.at_least(x + 1),
            n.y.at_least(y).negated(),
            n.y.at_least(y + 1),
            yes_var(m).negated(),
        ],
    )
}

/// The variable m is true exactly where the node isn't at the point.
fn add_node(f: &mut Formula, n: &NodeVars, q: Point, m: u32) -> Result<(), CnfFault>
    requires limit { f.old.vars ≤ VARS }
    requires there { NodeThere f.old.vars (node_ints n.now.x n.now.y) }
    requires from { 1 ≤ m }
    requires to { m ≤ f.old.vars }
    ensures { AddsClauses result f.old f.new (moved_clauses (node_ints n.now.x n.now.y) q m) 5 }
{
    add_kept(f, n, q, m)?;
    add_moved(f, n, q, m)
}

/// The variable m is true exactly where the node isn't at its former point, if it has one.
pub(crate) fn add_by(
    f: &mut Formula,
    n: &NodeVars,
    former: Option<Point>,
    m: u32,
) -> Result<(), CnfFault>
    requires limit { f.old.vars ≤ VARS }
    requires there { NodeThere f.old.vars (node_ints n.now.x n.now.y) }
    requires from { 1 ≤ m }
    requires to { m + one_when (is_matched former) ≤ f.old.vars + 1 }
    ensures { AddsClauses result f.old f.new (clauses_by former (node_ints n.now.x n.now.y) m) 5 }
{
    match former {
        Some(q) => add_node(f, n, q, m),
        None => Ok(()),
    }
}
