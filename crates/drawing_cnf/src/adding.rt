// A criterion's bound behind a formula.
ghost use Rattle.std.specs.Prelude.{◌≡◌, ◌≤◌, ◌+◌, ◌++◌, [], ◌∷◌, IfOk, OnOk, IsErrOf};
ghost use Rattle.plan_core.specs.Values.{limit_of};
ghost use Rattle.cnf_core.specs.declared.limits.TheConstants.{VARS};
ghost use Rattle.cnf_core.specs.declared.fault.CnfFault.TheVariants.{Room};
ghost use Rattle.cnf_core.specs.Clause.{words_of};
ghost use Rattle.cnf_core.specs.Added.{AddsBlock};
ghost use Rattle.cnf_laws.specs.Expected.{laws_first, parts};
ghost use Rattle.drawing_cnf.specs.Bounded.{longest_of_bound, most_words_of_bound, most_size_of_bound};
ghost use Rattle.drawing_cnf.specs.Layout.{layout_of};
ghost use Rattle.drawing_cnf.specs.Whole.{IsWhole};
ghost use Rattle.drawing_cnf.specs.Behind.{bound_behind, clauses_behind, size_behind, PassesWith, HasGrown};

use crate::bounds::add_bound;
use crate::encoded::Encoded;
use crate::kept_bound::KeptBound;
use cnf_core::{CnfFault, Var};
use plan_core::Criterion;
use std::alloc::Global;
use std::marker::Model;

/// A criterion's bound: one variable for each number from 1 to a cap, which says that the drawing's value is at
/// least that number.
#[derive(Clone, Copy, Debug, PartialEq, Eq)]
pub struct Bounds {
    criterion: Criterion,
    last: u32,
    cap: u32,
}

impl Model for Bounds {
    ghost use Rattle.std.specs.Prelude.{◌≤◌, ◌+◌};
    ghost use Rattle.cnf_core.specs.declared.limits.TheConstants.{VARS};
    ghost use Rattle.drawing_cnf.specs.Bounded.{Bound, bound};

    ghost Value = { Bound };

    ghost view = { λ b. bound b.criterion b.last b.cap };

    ghost invariant = { λ b. b.last + b.cap ≤ VARS };

    ghost inverse = { λ b. record { criterion = b.criterion; last = b.last; cap = b.cap } };
}

impl Bounds {
    /// The criterion whose value is bounded.
    pub fn criterion(&self) -> Criterion
        ensures { result ≡ self.now.criterion }
    {
        self.criterion
    }

    /// The greatest number that has a variable.
    pub fn cap(&self) -> u32
        ensures { result ≡ self.now.cap }
    {
        self.cap
    }

    /// "The value is at least k."
    pub fn var(&self, k: u32) -> Var
        requires from { 1 ≤ k }
        requires to { k ≤ self.now.cap }
        ensures value { result.0 ≡ self.now.last + k }
        ensures there { result.0 ≤ VARS }
    {
        Var(self.last + k)
    }
}

/// Adds a criterion's bound up to a cap, from 1 to the criterion's greatest value. It adds variables right behind the
/// last one. Its clauses make them say of the drawing's value whether it is at least 1, at least 2 and so on. Where
/// the value can't go so far, a clause of one literal makes the variable false.
///
/// `Room` comes exactly where the words or the variables are more than there may be, want of memory aside. Those of
/// the bound are few, whatever the answer. After an error the formula isn't used further.
pub fn criterion_bound<'a>(
    alloc: Global,
    e: &mut Encoded<'a>,
    c: Criterion,
    cap: u32,
) -> Result<Bounds, CnfFault>
    requires whole { IsWhole e.old }
    requires from { 1 ≤ cap }
    requires to { cap ≤ limit_of e.old.graph e.old.grid c }
    ensures layout { layout_of e.new ≡ layout_of e.old }
    ensures room { e.new.formula.room ≡ e.old.formula.room }
    ensures bound { IfOk result (λ b. b ≡ bound_behind e.old c cap) }
    ensures grown { OnOk result (HasGrown e.old e.new (bound_behind e.old c cap)) }
    ensures full { IsErrOf result Room → PassesWith e.old (bound_behind e.old c cap) }
    ensures words_bounded { 1 ≤ parts e.old.graph → words_of e.new.formula.clauses
        ≤ words_of e.old.formula.clauses + most_words_of_bound e.old.graph e.old.grid cap }
    ensures vars_bounded { 1 ≤ parts e.old.graph → e.new.formula.vars
        ≤ e.old.formula.vars + most_size_of_bound e.old.graph e.old.grid cap }
{
    // what the types keep
    let _ = (e.graph.nodes(), e.grid.width(), e.formula.vars());
    let outcome = add_kept(alloc, e, c, cap);
    // what the types keep
    let _ = e.formula.words();
    outcome
}

/// Adds a criterion's bound up to a cap, and keeps it with its sums.
fn add_kept<'a>(
    alloc: Global,
    e: &mut Encoded<'a>,
    c: Criterion,
    cap: u32,
) -> Result<Bounds, CnfFault>
    requires there { laws_first e.old.graph e.old.grid ≤ e.old.formula.vars + 1 }
    requires to { cap ≤ limit_of e.old.graph e.old.grid c }
    ensures layout { layout_of e.new ≡ layout_of e.old }
    ensures bound { IfOk result (λ b. b ≡ bound_behind e.old c cap) }
    ensures bounds { OnOk result (e.new.bounds ≡ e.old.bounds ++ bound_behind e.old c cap ∷ []) }
    ensures adds { let b = bound_behind e.old c cap in
        AddsBlock result e.old.formula e.new.formula (size_behind e.old b) (clauses_behind e.old b)
        (longest_of_bound e.old.graph e.old.grid) }
{
    let last = e.formula.vars();
    let sums = add_bound(alloc, &mut e.formula, e.graph, e.grid, c, cap)?;
    // what the types keep
    let _ = e.formula.vars();
    e.bounds.push(KeptBound {
        criterion: c,
        last,
        cap,
        sums,
    })?;
    Ok(Bounds {
        criterion: c,
        last,
        cap,
    })
}
