// Two counts and the outputs that add them, up to the cap.
ghost use Rattle.std.specs.Prelude.{◌≡◌, ◌+◌, ◌<◌, ◌≤◌, IfOk};
ghost use Rattle.cnf_core.specs.declared.limits.TheConstants.{VARS};
ghost use Rattle.cnf_core.specs.Added.{AddsClauses};
ghost use Rattle.unary_sum.specs.Part.{part_size, part_at_least, block, part_outputs, PartIsThere, JoinIsReady};
ghost use Rattle.unary_sum.specs.Part.{join_clauses, join_row, join_cell, join_up, join_down};

use cnf_core::{CnfFault, Formula, Lit, LitOrTruth, Var};
use plan_core::OutOfMemory;
use std::alloc::Global;

/// What counts: an input, or outputs of which the k-th says "at least k".
#[derive(Clone, Copy, Debug, PartialEq, Eq)]
pub(crate) enum Part {
    /// An input, which is at least 1 where it is true.
    Input(Lit),
    /// The first variable of the outputs, and their number.
    Outputs(u32, u32),
}

impl Part {
    /// How many inputs it can tell.
    pub(crate) fn size(&self) -> u32
        ensures { result ≡ part_size self.now }
    {
        match self {
            Part::Input(_) => 1,
            Part::Outputs(_, count) => *count,
        }
    }

    /// "At least k of its inputs are true."
    pub(crate) fn at(&self, k: u32) -> LitOrTruth
        requires { PartIsThere VARS self.now }
        ensures { result ≡ part_at_least self.now k }
    {
        if k == 0 {
            return LitOrTruth::True;
        }
        match self {
            Part::Input(l) => {
                if k == 1 {
                    LitOrTruth::Lit(*l)
                } else {
                    LitOrTruth::False
                }
            }
            Part::Outputs(first, count) => {
                if k <= *count {
                    LitOrTruth::Lit(Lit::new(Var(*first + (k - 1)), true))
                } else {
                    LitOrTruth::False
                }
            }
        }
    }

    /// The literals "at least 1", "at least 2" and so on.
    pub(crate) fn outputs(&self, alloc: Global) -> Result<Vec<Lit>, OutOfMemory>
        requires { PartIsThere VARS self.now }
        ensures { IfOk result (λ v. v.items ≡ part_outputs self.now) }
    {
        match self {
            Part::Input(l) => Ok(Vec::from_slice(alloc, &[*l])?),
            Part::Outputs(first, count) => block_of(alloc, *first, *count),
        }
    }
}

/// The `count` variables from `first` on, as literals.
fn block_of(alloc: Global, first: u32, count: u32) -> Result<Vec<Lit>, OutOfMemory>
    requires from { 1 ≤ first }
    requires to { first + count ≤ VARS + 1 }
    ensures { IfOk result (λ v. v.items ≡ block first count) }
{
    let mut outputs = Vec::new(alloc);
    for k in 0..count {
        outputs.push(Lit::new(Var(first + k), true))?;
    }
    Ok(outputs)
}

/// `count` outputs from the variable `first` on, which add what the two sides count.
#[derive(Clone, Copy, Debug, PartialEq, Eq)]
pub(crate) struct Join {
    pub(crate) left: Part,
    pub(crate) right: Part,
    pub(crate) first: u32,
    pub(crate) count: u32,
}

/// Where i are true on the left and j on the right, the sum is at least i + j.
#[tactic(auto, using(crate::proofs::JoinLemmas::up_within))]
fn add_up(f: &mut Formula, m: &Join, i: u32, j: u32) -> Result<(), CnfFault>
    requires limit { f.old.vars ≤ VARS }
    requires ready { JoinIsReady f.old.vars m.now }
    requires small { i + j ≤ 131070 }
    ensures { AddsClauses result f.old f.new (join_up m.now i j) 3 }
{
    if i + j > m.count {
        return Ok(());
    }
    let sum = Part::Outputs(m.first, m.count);
    f.add_clause(
        &[],
        &[
            m.left.at(i).negated(),
            m.right.at(j).negated(),
            sum.at(i + j),
        ],
    )
}

/// Where at most i are true on the left and at most j on the right, the sum is at most i + j.
#[tactic(auto, using(crate::proofs::JoinLemmas::down_within))]
fn add_down(f: &mut Formula, m: &Join, i: u32, j: u32) -> Result<(), CnfFault>
    requires limit { f.old.vars ≤ VARS }
    requires ready { JoinIsReady f.old.vars m.now }
    requires small { i + j ≤ 131070 }
    ensures { AddsClauses result f.old f.new (join_down m.now i j) 3 }
{
    if i + j >= m.count {
        return Ok(());
    }
    let sum = Part::Outputs(m.first, m.count);
    f.add_clause(
        &[],
        &[
            m.left.at(i + 1),
            m.right.at(j + 1),
            sum.at(i + j + 1).negated(),
        ],
    )
}

/// Both for i on the left and j on the right.
fn add_cell(f: &mut Formula, m: &Join, i: u32, j: u32) -> Result<(), CnfFault>
    requires limit { f.old.vars ≤ VARS }
    requires ready { JoinIsReady f.old.vars m.now }
    requires small { i + j ≤ 131070 }
    ensures { AddsClauses result f.old f.new (join_cell m.now i j) 3 }
{
    add_up(f, m, i, j)?;
    add_down(f, m, i, j)
}

/// Both for i on the left and each number on the right.
fn add_row(f: &mut Formula, m: &Join, i: u32) -> Result<(), CnfFault>
    requires limit { f.old.vars ≤ VARS }
    requires ready { JoinIsReady f.old.vars m.now }
    requires small { i ≤ 65535 }
    ensures { AddsClauses result f.old f.new (join_row m.now i) 3 }
{
    let end = m.right.size() + 1;
    for j in 0..end {
        add_cell(f, m, i, j)?;
    }
    Ok(())
}

/// Makes the outputs of a join count what the two sides count together.
pub(crate) fn add_join(f: &mut Formula, m: &Join) -> Result<(), CnfFault>
    requires limit { f.old.vars ≤ VARS }
    requires ready { JoinIsReady f.old.vars m.now }
    ensures { AddsClauses result f.old f.new (join_clauses m.now) 3 }
{
    let end = m.left.size() + 1;
    for i in 0..end {
        add_row(f, m, i)?;
    }
    Ok(())
}
