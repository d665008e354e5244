// Sums of many inputs.
ghost use Rattle.std.specs.Prelude.{◌≡◌, ℕ, ◌+◌, ◌*◌, ◌<◌, ◌≤◌, length, min, nat_le, nat_lt, IfOk, OnOk};
ghost use Rattle.cnf_core.specs.declared.limits.TheConstants.{VARS};
ghost use Rattle.cnf_core.specs.Clause.{AreThere, words_of};
ghost use Rattle.cnf_core.specs.Assignment.{Assignment, SatisfiesAll, SameOutside, Extends};
ghost use Rattle.cnf_core.specs.LitOrTruth.{value};
ghost use Rattle.cnf_core.specs.Added.{AddsBlock};
ghost use Rattle.cnf_core.specs.Truths.{assignment};
ghost use Rattle.unary_sum.specs.declared.joins.Part.TheVariants.{Outputs};
ghost use Rattle.unary_sum.specs.Part.{IsLit, part_size, PartIsThere, join_clauses};
ghost use Rattle.unary_sum.specs.Sum.{count_true, tree_of, tree_size, tree_count, tree_top, sides_join, tree_clauses};
ghost use Rattle.unary_sum.specs.Sum.{sum_vars, sum_count, sum_clauses, sum_outputs, sum_at_least};

use crate::joins::{Join, Part, add_join};
use crate::put::put_tree;
use cnf_core::{CnfFault, Formula, Lit, LitOrTruth, Truths, Var};
use plan_core::OutOfMemory;
use std::alloc::Global;
use std::marker::Model;

/// Literals that say of the inputs whether at least k of them are true, for k up to a cap: the
/// outputs of a balanced tree over the inputs, in which each join adds what its two sides count
/// (the totalizer of Bailleux and Boufkhad, 2003).
#[derive(Drop)]
pub struct Sum {
    inputs: Vec<Lit>,
    cap: u32,
    vars: u32,
    top: Part,
}

impl Model for Sum {
    ghost use Rattle.unary_sum.specs.Sum.{SumVars, sum_vars, IsBuilt};

    ghost Value = { SumVars };

    ghost view = { λ s. sum_vars s.inputs.items s.cap s.vars };

    ghost invariant = { λ s. IsBuilt (sum_vars s.inputs.items s.cap s.vars) s.top };
}

impl Sum {
    /// Adds the variables and clauses that count the inputs up to the cap.
    pub fn build(alloc: Global, f: &mut Formula, inputs: &[Lit], cap: u32) -> Result<Sum, CnfFault>
        requires inputs { AreThere f.old.vars inputs.now }
        requires few { length inputs.now ≤ 65535 }
        requires cap { cap ≤ 65535 }
        ensures sum { IfOk result (λ s. s ≡ sum_vars inputs.now cap f.old.vars) }
        ensures adds { let s = sum_vars inputs.now cap f.old.vars in AddsBlock result f.old f.new (sum_count s)
            (sum_clauses s) 3 }
        ensures words { words_of f.new.clauses ≤ words_of f.old.clauses + 100 * (length inputs.now + 1) * (cap + 2) }
        ensures vars { f.new.vars ≤ f.old.vars + 10 * (length inputs.now + 1) * (cap + 2) }
        ensures means { let s = sum_vars inputs.now cap f.old.vars in
            (v : Assignment) → SatisfiesAll v (sum_clauses s) → (k : ℕ) → k ≤ cap →
            value v (sum_at_least s k) ≡ nat_le k (count_true v inputs.now) }
        ensures extends { let s = sum_vars inputs.now cap f.old.vars in
            (v : Assignment) → Extends (f.old.vars + 1) (sum_count s) v (λ w. SatisfiesAll w (sum_clauses s)) }
    {
        make_sum(alloc, f, inputs, cap)
    }

    /// "At least k inputs are true": the truth value true at 0, false above the number of inputs,
    /// and a literal between them.
    pub fn at_least(&self, k: u32) -> LitOrTruth
        requires { k ≤ self.now.most }
        ensures value { result ≡ sum_at_least self.now k }
        ensures at_zero { k ≡ 0 → result ≡ LitOrTruth.True }
        ensures above { length self.now.inputs < k → result ≡ LitOrTruth.False }
        ensures between { 1 ≤ k → k ≤ length self.now.inputs → IsLit result }
        ensures means { (v : Assignment) → SatisfiesAll v (sum_clauses self.now) → value v result
            ≡ nat_le k (count_true v self.now.inputs) }
    {
        self.top.at(k)
    }

    /// The literals "at least 1", "at least 2" and so on, up to the cap or the number of inputs: as many
    /// of them are true as inputs are, up to the cap. So sums of sums are built.
    pub fn outputs(&self, alloc: Global) -> Result<Vec<Lit>, OutOfMemory>
        ensures value { IfOk result (λ v. v.items ≡ sum_outputs self.now) }
        ensures there { AreThere (self.now.vars + sum_count self.now) (sum_outputs self.now) }
        ensures means { (v : Assignment) → SatisfiesAll v (sum_clauses self.now) →
            count_true v (sum_outputs self.now) ≡ min (count_true v self.now.inputs) self.now.most }
    {
        if self.cap == 0 {
            return Ok(Vec::new(alloc));
        }
        self.top.outputs(alloc)
    }

    /// Sets the sum's own variables by the truth of its inputs, so that its clauses are satisfied,
    /// and changes no other variable.
    pub fn put(&self, m: &mut Truths)
        requires inputs { AreThere (length m.old) self.now.inputs }
        requires own { 0 < sum_count self.now → self.now.vars + sum_count self.now ≤ length m.old }
        ensures model { SatisfiesAll (assignment m.new) (sum_clauses self.now) }
        ensures same { SameOutside (self.now.vars + 1) (sum_count self.now) (assignment m.old) (assignment m.new) }
        ensures vars { length m.new ≡ length m.old }
    {
        let depth = self.inputs.len() as u32;
        let _ = put_tree(m, depth, self.vars, &self.inputs, self.cap);
    }
}

fn make_sum(alloc: Global, f: &mut Formula, inputs: &[Lit], cap: u32) -> Result<Sum, CnfFault>
    requires inputs { AreThere f.old.vars inputs.now }
    requires few { length inputs.now ≤ 65535 }
    requires cap { cap ≤ 65535 }
    ensures sum { IfOk result (λ s. s ≡ sum_vars inputs.now cap f.old.vars) }
    ensures adds { let s = sum_vars inputs.now cap f.old.vars in AddsBlock result f.old f.new (sum_count s)
        (sum_clauses s) 3 }
{
    let vars = f.vars();
    let kept = Vec::from_slice(alloc, inputs)?;
    let top = build_tree(f, inputs.len() as u32, inputs, cap)?;
    Ok(Sum {
        inputs: kept,
        cap,
        vars,
        top,
    })
}

/// What counts one input, or none.
fn leaf_of(vars: u32, inputs: &[Lit]) -> Part
    requires limit { vars ≤ VARS }
    requires few { length inputs.now ≤ 1 }
    ensures { (most depth : ℕ) → result ≡ tree_top most vars (tree_of depth inputs.now) }
{
    match inputs {
        [] => Part::Outputs(vars + 1, 0),
        [input, ..] => Part::Input(*input),
    }
}

/// New outputs that add what two parts count.
fn join_parts(f: &mut Formula, left: Part, right: Part, cap: u32) -> Result<Part, CnfFault>
    requires limit { f.old.vars ≤ VARS }
    requires left { PartIsThere f.old.vars left }
    requires right { PartIsThere f.old.vars right }
    requires left_small { part_size left ≤ 65535 }
    requires right_small { part_size right ≤ 65535 }
    ensures part { IfOk result (λ p. p ≡ Outputs (f.old.vars + 1) (min (part_size left + part_size right) cap)) }
    ensures adds { let count = min (part_size left + part_size right) cap in
        AddsBlock result f.old f.new count (join_clauses (sides_join left right f.old.vars count)) 3 }
    ensures limit { OnOk result (f.new.vars ≤ VARS) }
{
    let count = (left.size() + right.size()).min(cap);
    let first = f.new_vars(count)?;
    let join = Join {
        left,
        right,
        first: first.0,
        count,
    };
    add_join(f, &join)?;
    Ok(Part::Outputs(first.0, count))
}

/// The tree over these inputs, whose depth is at least one less than their number.
fn build_tree(f: &mut Formula, depth: u32, inputs: &[Lit], cap: u32) -> Result<Part, CnfFault>
    requires limit { f.old.vars ≤ VARS }
    requires depth { length inputs.now ≤ 1 + depth }
    requires inputs { AreThere f.old.vars inputs.now }
    requires cap { cap ≤ 65535 }
    ensures part { IfOk result (λ p. p ≡ tree_top cap f.old.vars (tree_of depth inputs.now)) }
    ensures adds { AddsBlock result f.old f.new (tree_count cap (tree_of depth inputs.now))
        (tree_clauses cap f.old.vars (tree_of depth inputs.now)) 3 }
    ensures limit { OnOk result (f.new.vars ≤ VARS) }
{
    if depth == 0 || inputs.len() <= 1 {
        return Ok(leaf_of(f.vars(), inputs));
    }
    let half = inputs.len() / 2;
    let left = build_tree(f, depth - 1, &inputs[..half], cap)?;
    let right = build_tree(f, depth - 1, &inputs[half..], cap)?;
    join_parts(f, left, right, cap)
}
