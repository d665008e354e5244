// How many nodes moved.
ghost use Rattle.std.specs.Prelude.{◌≡◌, ◌≤◌, ◌<◌, ◌+◌, ◌*◌, ◌∷◌, [], ℕ, length, IfOk};
ghost use Rattle.plan_core.specs.declared.point.Point.{Point as PlainPoint};
ghost use Rattle.cnf_core.specs.declared.limits.TheConstants.{VARS};
ghost use Rattle.cnf_core.specs.Clause.{words_of, IsNamed};
ghost use Rattle.cnf_core.specs.Assignment.{Assignment, SatisfiesAll, Extends};
ghost use Rattle.cnf_core.specs.Added.{AddsClauses, AddsBlock};
ghost use Rattle.unary_sum.specs.Part.{block};
ghost use Rattle.unary_sum.specs.Sum.{sum_vars, sum_count};
ghost use Rattle.cnf_laws.specs.Rank.{one_when};
ghost use Rattle.cnf_laws.specs.Stands.{NodeThere};
ghost use Rattle.drawing_cnf.specs.Bounds.{sum_bound};
ghost use Rattle.drawing_cnf.specs.Moved.{is_matched, matched, moved};
ghost use Rattle.drawing_cnf.specs.MovedClauses.{ReadPoints, nodes_clauses, count_size, count_clauses, TellsMoved};
ghost use Rattle.drawing_cnf.specs.Nodes.{node_at};

use crate::add_sum_bound;
use crate::one_node::add_by;
use cnf_core::{CnfFault, Formula, Lit, Var};
use edge_shape::NodeVars;
use plan_core::{OutOfMemory, Point};
use std::alloc::Global;

/// 1 where there is a former point, else 0.
fn one_if(former: Option<Point>) -> u32
    ensures { result ≡ one_when (is_matched former) }
{
    match former {
        Some(_) => 1,
        None => 0,
    }
}

/// How many nodes have a former point.
pub fn count_matched(former: &[Option<Point>]) -> u32
    requires { length former.now ≤ 65535 }
    ensures value { result ≡ matched former.now }
    ensures few { result ≤ length former.now }
{
    let mut count = 0;
    let end = former.len();
    for k in 0..end {
        count += one_if(former[k]);
    }
    count
}

/// The clauses of each node with a former point, whose variables begin at `first`.
fn add_nodes(
    f: &mut Formula,
    nodes: &[NodeVars],
    former: &[Option<Point>],
    first: u32,
) -> Result<(), CnfFault>
    requires limit { f.old.vars ≤ VARS }
    requires there { (k : ℕ) → k < length former.now → NodeThere f.old.vars (node_at nodes.now k) }
    requires same { length nodes.now ≡ length former.now }
    requires few { length former.now ≤ 65535 }
    requires from { 1 ≤ first }
    requires to { first + matched former.now ≤ f.old.vars + 1 }
    ensures { AddsClauses result f.old f.new (nodes_clauses (node_at nodes.now) former.now first) 5 }
{
    let mut m = first;
    let end = former.len();
    for k in 0..end {
        add_by(f, &nodes[k], former[k], m)?;
        m += one_if(former[k]);
    }
    Ok(())
}

/// The variables of the nodes with a former point, as literals.
fn block_of(alloc: Global, first: u32, count: u32) -> Result<Vec<Lit>, OutOfMemory>
    requires from { 1 ≤ first }
    requires to { first + count ≤ VARS + 1 }
    ensures { IfOk result (λ v. v.items ≡ block first count) }
{
    let mut lits = Vec::new(alloc);
    for k in 0..count {
        lits.push(Lit::new(Var(first + k), true))?;
    }
    Ok(lits)
}

/// The sum of the nodes' variables, which are the last ones.
fn add_sum(
    alloc: Global,
    f: &mut Formula,
    first: u32,
    count: u32,
    last: u32,
) -> Result<(), CnfFault>
    requires from { 1 ≤ first }
    requires to { first + count ≡ f.old.vars + 1 }
    requires few { count ≤ 65535 }
    requires limit { f.old.vars ≤ VARS }
    requires before { last + count ≤ f.old.vars }
    ensures { let s = sum_vars (block first count) count f.old.vars in
        AddsBlock result f.old f.new (sum_count s) (sum_bound s last) 3 }
{
    let lits = block_of(alloc, first, count)?;
    add_sum_bound(alloc, f, &lits, count, last)?;
    Ok(())
}

/// Adds the variables and clauses that count the nodes that aren't at their former points, and answers how many nodes
/// have one. Right behind the variables that were there are those that say "at least 1 moved", "at least 2 moved" and
/// so on, up to that number.
pub fn add_moved_count(
    alloc: Global,
    f: &mut Formula,
    nodes: &[NodeVars],
    former: &[Option<Point>],
) -> Result<u32, CnfFault>
    requires limit { f.old.vars ≤ VARS }
    requires there { (k : ℕ) → k < length former.now → NodeThere f.old.vars (node_at nodes.now k) }
    requires same { length nodes.now ≡ length former.now }
    requires few { length former.now ≤ 65535 }
    ensures count { IfOk result (λ n. n ≡ matched former.now) }
    ensures adds { AddsBlock result f.old f.new (count_size former.now f.old.vars)
        (count_clauses (node_at nodes.now) former.now f.old.vars) 5 }
    ensures within { (place : ℕ → PlainPoint) → moved former.now place ≤ matched former.now }
    ensures words_bounded { let n = length former.now in
        words_of (count_clauses (node_at nodes.now) former.now f.old.vars) ≤ 200 * ((n + 1) * (n + 2)) }
    ensures vars_bounded { let n = length former.now in count_size former.now f.old.vars ≤ 20 * ((n + 1) * (n + 2)) }
    ensures exact { (v : Assignment) (p : ℕ → PlainPoint) → ReadPoints v (node_at nodes.now) (length former.now) p →
        SatisfiesAll v (count_clauses (node_at nodes.now) former.now f.old.vars) →
        TellsMoved v former.now f.old.vars (moved former.now p) }
    ensures extends { let m = former.now in let at = node_at nodes.now in
        (v : Assignment) (p : ℕ → PlainPoint) → ReadPoints v at (length m) p →
        Extends (f.old.vars + 1) (count_size m f.old.vars) v (λ w. SatisfiesAll w (count_clauses at m f.old.vars)) }
    ensures named { (j : ℕ) → 1 ≤ j → j ≤ matched former.now →
        IsNamed (count_clauses (node_at nodes.now) former.now f.old.vars) (f.old.vars + j) }
{
    make_count(alloc, f, nodes, former)
}

/// Adds the variables and clauses that count the moved nodes; what the clauses say isn't in its contract.
fn make_count(
    alloc: Global,
    f: &mut Formula,
    nodes: &[NodeVars],
    former: &[Option<Point>],
) -> Result<u32, CnfFault>
    requires limit { f.old.vars ≤ VARS }
    requires there { (k : ℕ) → k < length former.now → NodeThere f.old.vars (node_at nodes.now k) }
    requires same { length nodes.now ≡ length former.now }
    requires few { length former.now ≤ 65535 }
    ensures count { IfOk result (λ n. n ≡ matched former.now) }
    ensures adds { AddsBlock result f.old f.new (count_size former.now f.old.vars)
        (count_clauses (node_at nodes.now) former.now f.old.vars) 5 }
{
    let count = count_matched(former);
    add_all(alloc, f, nodes, former, count)?;
    Ok(count)
}

/// Adds the variables and clauses that count the moved nodes, where so many have a former point.
fn add_all(
    alloc: Global,
    f: &mut Formula,
    nodes: &[NodeVars],
    former: &[Option<Point>],
    count: u32,
) -> Result<(), CnfFault>
    requires limit { f.old.vars ≤ VARS }
    requires there { (k : ℕ) → k < length former.now → NodeThere f.old.vars (node_at nodes.now k) }
    requires same { length nodes.now ≡ length former.now }
    requires few { length former.now ≤ 65535 }
    requires count { count ≡ matched former.now }
    requires small { count ≤ 65535 }
    ensures { AddsBlock result f.old f.new (count_size former.now f.old.vars)
        (count_clauses (node_at nodes.now) former.now f.old.vars) 5 }
{
    let last = f.vars();
    let made = f.new_vars(count + count)?;
    // what the types keep
    let _ = f.vars();
    let first = made.0 + count;
    add_nodes(f, nodes, former, first)?;
    add_sum(alloc, f, first, count, last)
}
