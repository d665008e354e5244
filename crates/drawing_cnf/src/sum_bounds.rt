// Bounds by sums: bends and diagonal.
ghost use Rattle.std.specs.Prelude.{◌≡◌, ◌≤◌, ◌<◌, ◌+◌, ℕ, [], ◌∷◌, length, All, IfOk};
ghost use Rattle.cnf_core.specs.declared.limits.TheConstants.{VARS};
ghost use Rattle.cnf_core.specs.Lit.{positive_of};
ghost use Rattle.cnf_core.specs.Clause.{AreThere};
ghost use Rattle.cnf_core.specs.Assignment.{Assignment, SatisfiesAll, Extends};
ghost use Rattle.cnf_core.specs.LitOrTruth.{yes, flip, clause_of, IsWithin};
ghost use Rattle.cnf_core.specs.Formula.{each};
ghost use Rattle.cnf_core.specs.Added.{AddsClauses, AddsBlock};
ghost use Rattle.unary_sum.specs.Part.{IsLit};
ghost use Rattle.unary_sum.specs.Sum.{sum_vars, sum_count, sum_at_least, count_true};
ghost use Rattle.cnf_laws.specs.Expected.{drawing_vars, laws_first};
ghost use Rattle.drawing_cnf.specs.Bounds.{IsExact, same_as, sum_bound, bend_lits, bends_sum, bends_bound};
ghost use Rattle.drawing_cnf.specs.Bounds.{bends_bound_size, west_first};

use cnf_core::{CnfFault, Formula, Lit, LitOrTruth};
use cnf_laws::{edge_vars, same, yes_var};
use plan_core::{EdgeNo, Grid, OutOfMemory};
use port_graph::PortGraph;
use std::alloc::Global;
use unary_sum::Sum;

/// The literal that it is. A truth value is never asked for.
pub(crate) fn literal_of(t: LitOrTruth) -> Lit
    requires { IsLit t }
    ensures { (x : ℕ) → t ≡ yes x → result ≡ positive_of x }
{
    match t {
        LitOrTruth::Lit(l) => l,
        _ => unreachable!(),
    }
}

/// Where the variable is true, so is the literal or truth value.
fn add_given(f: &mut Formula, b: u32, t: &LitOrTruth) -> Result<(), CnfFault>
    requires limit { f.old.vars ≤ VARS }
    requires from { 1 ≤ b }
    requires to { b ≤ f.old.vars }
    requires within { IsWithin f.old.vars t.now }
    ensures { AddsClauses result f.old f.new (clause_of [] (flip (yes b) ∷ t.now ∷ [])) 2 }
{
    f.add_clause(&[], &[yes_var(b).negated(), same(t)])
}

/// Where the literal or truth value is true, so is the variable.
fn add_giving(f: &mut Formula, b: u32, t: &LitOrTruth) -> Result<(), CnfFault>
    requires limit { f.old.vars ≤ VARS }
    requires from { 1 ≤ b }
    requires to { b ≤ f.old.vars }
    requires within { IsWithin f.old.vars t.now }
    ensures { AddsClauses result f.old f.new (clause_of [] (flip t.now ∷ yes b ∷ [])) 2 }
{
    f.add_clause(&[], &[t.negated(), yes_var(b)])
}

/// The variable is true exactly where the literal or truth value is.
fn add_same_as(f: &mut Formula, b: u32, t: &LitOrTruth) -> Result<(), CnfFault>
    requires limit { f.old.vars ≤ VARS }
    requires from { 1 ≤ b }
    requires to { b ≤ f.old.vars }
    requires within { IsWithin f.old.vars t.now }
    ensures { AddsClauses result f.old f.new (same_as b t.now) 2 }
{
    add_given(f, b, t)?;
    add_giving(f, b, t)
}

/// The variables behind the last one are the sum's outputs.
fn add_outputs(f: &mut Formula, s: &Sum, cap: u32, last: u32) -> Result<(), CnfFault>
    requires limit { f.old.vars ≤ VARS }
    requires inputs { AreThere s.now.vars s.now.inputs }
    requires cap { cap ≡ s.now.most }
    requires there { s.now.vars + sum_count s.now ≡ f.old.vars }
    requires before { last + cap ≤ s.now.vars }
    ensures { AddsClauses result f.old f.new (each (λ k. same_as (last + k) (sum_at_least s.now k)) 1 cap) 2 }
{
    let end = 1 + cap;
    for k in 1..end {
        add_same_as(f, last + k, &s.at_least(k))?;
    }
    Ok(())
}

/// A sum, and the variables behind number `last` as its outputs, up to a cap; answers the sum.
///
/// Where its clauses are satisfied, these variables say how many of the inputs are true. Where they say it, the sum's
/// own variables can be chosen so.
pub fn add_sum_bound(
    alloc: Global,
    f: &mut Formula,
    inputs: &[Lit],
    cap: u32,
    last: u32,
) -> Result<Sum, CnfFault>
    requires limit { f.old.vars ≤ VARS }
    requires inputs { AreThere f.old.vars inputs.now }
    requires few { length inputs.now ≤ 65535 }
    requires cap { cap ≤ 65535 }
    requires before { last + cap ≤ f.old.vars }
    ensures sum { IfOk result (λ s. s ≡ sum_vars inputs.now cap f.old.vars) }
    ensures adds { let s = sum_vars inputs.now cap f.old.vars in AddsBlock result f.old f.new (sum_count s)
        (sum_bound s last) 3 }
    ensures exact { (v : Assignment) → SatisfiesAll v (sum_bound (sum_vars inputs.now cap f.old.vars) last) →
        IsExact v last cap (count_true v inputs.now) }
    ensures extends { let s = sum_vars inputs.now cap f.old.vars in
        (v : Assignment) → IsExact v last cap (count_true v inputs.now) →
        Extends (f.old.vars + 1) (sum_count s) v (λ w. SatisfiesAll w (sum_bound s last)) }
{
    make_sum_bound(alloc, f, inputs, cap, last)
}

/// A sum, and the variables behind number `last` as its outputs, up to a cap; what the clauses say isn't in its
/// contract.
fn make_sum_bound(
    alloc: Global,
    f: &mut Formula,
    inputs: &[Lit],
    cap: u32,
    last: u32,
) -> Result<Sum, CnfFault>
    requires limit { f.old.vars ≤ VARS }
    requires inputs { AreThere f.old.vars inputs.now }
    requires few { length inputs.now ≤ 65535 }
    requires cap { cap ≤ 65535 }
    requires before { last + cap ≤ f.old.vars }
    ensures sum { IfOk result (λ s. s ≡ sum_vars inputs.now cap f.old.vars) }
    ensures adds { let s = sum_vars inputs.now cap f.old.vars in AddsBlock result f.old f.new (sum_count s)
        (sum_bound s last) 3 }
{
    let sum = Sum::build(alloc, f, inputs, cap)?;
    // what the types keep
    let _ = f.vars();
    add_outputs(f, &sum, cap, last)?;
    Ok(sum)
}

/// The bend literals of edges.
fn bend_literals(
    alloc: Global,
    g: &PortGraph,
    grid: &Grid,
    edges: &[u16],
) -> Result<Vec<Lit>, OutOfMemory>
    requires { All (λ e. e < length g.now.edges) edges.now }
    ensures { IfOk result (λ v. v.items ≡ bend_lits (drawing_vars g.now grid.now) edges.now) }
{
    let mut lits = Vec::new(alloc);
    for e in edges {
        let vars = edge_vars(g, grid, EdgeNo(*e));
        lits.push(literal_of(vars.first_bend()))?;
        lits.push(literal_of(vars.second_bend()))?;
    }
    Ok(lits)
}

/// The bound of bends, whose variables are those behind the last one; answers its sum.
pub(crate) fn add_bends_bound(
    alloc: Global,
    f: &mut Formula,
    g: &PortGraph,
    grid: &Grid,
    edges: &[u16],
    cap: u32,
) -> Result<Sum, CnfFault>
    requires there { laws_first g.now grid.now ≤ f.old.vars + 1 }
    requires edges { edges.now ≡ west_first g.now }
    requires cap { cap ≤ 65535 }
    ensures sum { IfOk result (λ s. s ≡ bends_sum (drawing_vars g.now grid.now) edges.now f.old.vars cap) }
    ensures adds { AddsBlock result f.old f.new (bends_bound_size (drawing_vars g.now grid.now) edges.now f.old.vars
        cap)
        (bends_bound (drawing_vars g.now grid.now) edges.now f.old.vars cap) 3 }
{
    // what the types keep
    let _ = (g.nodes(), grid.width());
    let last = f.vars();
    let inputs = bend_literals(alloc, g, grid, edges)?;
    f.new_vars(cap)?;
    add_sum_bound(alloc, f, &inputs, cap, last)
}
