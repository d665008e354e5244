// Laws 2 and 5: nodes in order, and nodes apart.
ghost use Rattle.std.specs.Prelude.{◌≡◌, ◌≤◌, ◌+◌, ◌++◌, length};
ghost use Rattle.cnf_core.specs.declared.limits.TheConstants.{VARS};
ghost use Rattle.cnf_core.specs.Clause.{AreThere, IsThere};
ghost use Rattle.cnf_core.specs.declared.literal.LitOrTruth.TheVariants.{False};
ghost use Rattle.cnf_core.specs.Lit.{positive_of};
ghost use Rattle.cnf_core.specs.LitOrTruth.{yes, flip, IsWithin};
ghost use Rattle.cnf_core.specs.Added.{AddsClauses, AddsBlock};
ghost use Rattle.order_int.specs.IntVars.{IntIsThere};
ghost use Rattle.edge_shape.specs.EdgeVars.{node_ints};
ghost use Rattle.cnf_laws.specs.Guards.{no_guards, one_guard, two_guards, guarded_order};
ghost use Rattle.cnf_laws.specs.LawClauses.{ordered_clauses, apart_rows_clauses, west_clauses, anywhere_clauses};
ghost use Rattle.cnf_laws.specs.LawClauses.{apart_clauses};
ghost use Rattle.cnf_laws.specs.LawClauses.{apart_size};

use crate::guards::{Guards, add_guarded, same};
use cnf_core::{CnfFault, Formula, Lit, LitOrTruth, Var};
use edge_shape::NodeVars;
use order_int::OrderInt;
use std::cmp::Ordering;

const NO: LitOrTruth = LitOrTruth::False;

/// A variable, made true.
pub fn yes_var(x: u32) -> LitOrTruth
    requires from { 1 ≤ x }
    requires to { x ≤ VARS }
    ensures { result ≡ yes x }
{
    LitOrTruth::Lit(Lit::new(Var(x), true))
}

/// One of unless is true, or a is at most b.
fn add_below(f: &mut Formula, a: &OrderInt, b: &OrderInt, unless: &[Lit]) -> Result<(), CnfFault>
    requires a { IntIsThere f.old.vars a.now }
    requires b { IntIsThere f.old.vars b.now }
    requires unless { AreThere f.old.vars unless.now }
    ensures { AddsClauses result f.old f.new (guarded_order a.now b.now 0 no_guards unless.now)
        (length unless.now + 7) }
{
    let g = Guards {
        first: NO,
        second: NO,
        third: NO,
        fourth: NO,
        fifth: NO,
    };
    add_guarded(f, a, b, 0, &g, unless)
}

/// Both, so a is b.
fn add_equal(f: &mut Formula, a: &OrderInt, b: &OrderInt, unless: &[Lit]) -> Result<(), CnfFault>
    requires a { IntIsThere f.old.vars a.now }
    requires b { IntIsThere f.old.vars b.now }
    requires unless { AreThere f.old.vars unless.now }
    ensures { AddsClauses result f.old f.new
        (guarded_order a.now b.now 0 no_guards unless.now ++ guarded_order b.now a.now 0 no_guards unless.now)
        (length unless.now + 7) }
{
    add_below(f, a, b, unless)?;
    add_below(f, b, a, unless)
}

/// Law 2 for two nodes, by how their mileages compare.
pub(crate) fn add_ordered(
    f: &mut Formula,
    order: Ordering,
    u: &OrderInt,
    v: &OrderInt,
    unless: &[Lit],
) -> Result<(), CnfFault>
    requires u { IntIsThere f.old.vars u.now }
    requires v { IntIsThere f.old.vars v.now }
    requires unless { AreThere f.old.vars unless.now }
    ensures { AddsClauses result f.old f.new (ordered_clauses order u.now v.now unless.now) (length unless.now + 7) }
{
    match order {
        Ordering::Less => add_below(f, u, v, unless),
        Ordering::Equal => add_equal(f, u, v, unless),
        Ordering::Greater => add_below(f, v, u, unless),
    }
}

/// Where neither of the two guards is true, a is below b.
fn add_lower(
    f: &mut Formula,
    a: &OrderInt,
    b: &OrderInt,
    first: LitOrTruth,
    second: LitOrTruth,
    unless: &[Lit],
) -> Result<(), CnfFault>
    requires a { IntIsThere f.old.vars a.now }
    requires b { IntIsThere f.old.vars b.now }
    requires first { IsWithin f.old.vars first }
    requires second { IsWithin f.old.vars second }
    requires unless { AreThere f.old.vars unless.now }
    ensures { AddsClauses result f.old f.new (guarded_order a.now b.now 1 (two_guards first second) unless.now)
        (length unless.now + 7) }
{
    let g = Guards {
        first,
        second,
        third: NO,
        fourth: NO,
        fifth: NO,
    };
    add_guarded(f, a, b, 1, &g, unless)
}

/// Where the guard isn't true, a and b differ: `below` says which is the lower.
fn add_rows(
    f: &mut Formula,
    below: u32,
    guard: &LitOrTruth,
    a: &OrderInt,
    b: &OrderInt,
    unless: &[Lit],
) -> Result<(), CnfFault>
    requires limit { f.old.vars ≤ VARS }
    requires below { IsThere f.old.vars (positive_of below) }
    requires guard { IsWithin f.old.vars guard.now }
    requires a { IntIsThere f.old.vars a.now }
    requires b { IntIsThere f.old.vars b.now }
    requires unless { AreThere f.old.vars unless.now }
    ensures { AddsClauses result f.old f.new (apart_rows_clauses below guard.now a.now b.now unless.now)
        (length unless.now + 7) }
{
    add_lower(f, a, b, same(guard), yes_var(below).negated(), unless)?;
    add_lower(f, b, a, same(guard), yes_var(below), unless)
}

/// Where the first isn't west of the second, which `first` says, one is lower than the other.
fn add_west(
    f: &mut Formula,
    first: u32,
    a: &NodeVars,
    b: &NodeVars,
    unless: &[Lit],
) -> Result<(), CnfFault>
    requires limit { f.old.vars ≤ VARS }
    requires from { 1 ≤ first }
    requires to { first + 1 ≤ f.old.vars }
    requires a_x { IntIsThere f.old.vars a.now.x }
    requires a_y { IntIsThere f.old.vars a.now.y }
    requires b_x { IntIsThere f.old.vars b.now.x }
    requires b_y { IntIsThere f.old.vars b.now.y }
    requires unless { AreThere f.old.vars unless.now }
    ensures { AddsClauses result f.old f.new
        (west_clauses first (node_ints a.now.x a.now.y) (node_ints b.now.x b.now.y) unless.now)
        (length unless.now + 7) }
{
    add_lower(f, &a.x, &b.x, yes_var(first), NO, unless)?;
    add_rows(f, first + 1, &yes_var(first).negated(), &a.y, &b.y, unless)
}

/// Law 5 for two nodes of different mileages, the one of smaller mileage first.
#[tactic(auto, using(cnf_core::proofs::ClauseLemmas::there_more))]
fn add_apart_west(
    f: &mut Formula,
    a: &NodeVars,
    b: &NodeVars,
    unless: &[Lit],
) -> Result<(), CnfFault>
    requires a_x { IntIsThere f.old.vars a.now.x }
    requires a_y { IntIsThere f.old.vars a.now.y }
    requires b_x { IntIsThere f.old.vars b.now.x }
    requires b_y { IntIsThere f.old.vars b.now.y }
    requires unless { AreThere f.old.vars unless.now }
    ensures { AddsBlock result f.old f.new 2
        (west_clauses (f.old.vars + 1) (node_ints a.now.x a.now.y) (node_ints b.now.x b.now.y) unless.now)
        (length unless.now + 7) }
{
    let first = f.new_vars(2)?;
    add_west(f, first.0, a, b, unless)
}

/// The columns of two nodes differ where `equal` is false, and their rows where it is true.
fn add_either_way(
    f: &mut Formula,
    equal: u32,
    a: &NodeVars,
    b: &NodeVars,
    unless: &[Lit],
) -> Result<(), CnfFault>
    requires limit { f.old.vars ≤ VARS }
    requires from { 1 ≤ equal }
    requires to { equal + 1 ≤ f.old.vars }
    requires a_x { IntIsThere f.old.vars a.now.x }
    requires a_y { IntIsThere f.old.vars a.now.y }
    requires b_x { IntIsThere f.old.vars b.now.x }
    requires b_y { IntIsThere f.old.vars b.now.y }
    requires unless { AreThere f.old.vars unless.now }
    ensures { AddsClauses result f.old f.new
        (anywhere_clauses equal (node_ints a.now.x a.now.y) (node_ints b.now.x b.now.y) unless.now)
        (length unless.now + 7) }
{
    add_rows(f, equal + 1, &yes_var(equal), &a.x, &b.x, unless)?;
    add_rows(f, equal + 1, &yes_var(equal).negated(), &a.y, &b.y, unless)
}

/// Law 5 for two nodes that may lie in any order.
#[tactic(auto, using(cnf_core::proofs::ClauseLemmas::there_more))]
pub(crate) fn add_anywhere(
    f: &mut Formula,
    a: &NodeVars,
    b: &NodeVars,
    unless: &[Lit],
) -> Result<(), CnfFault>
    requires a_x { IntIsThere f.old.vars a.now.x }
    requires a_y { IntIsThere f.old.vars a.now.y }
    requires b_x { IntIsThere f.old.vars b.now.x }
    requires b_y { IntIsThere f.old.vars b.now.y }
    requires unless { AreThere f.old.vars unless.now }
    ensures { AddsBlock result f.old f.new 2
        (anywhere_clauses (f.old.vars + 1) (node_ints a.now.x a.now.y) (node_ints b.now.x b.now.y) unless.now)
        (length unless.now + 7) }
{
    let first = f.new_vars(2)?;
    add_either_way(f, first.0, a, b, unless)
}

/// Law 5 for two nodes of one mileage.
#[tactic(auto, using(cnf_core::proofs::ClauseLemmas::there_more))]
fn add_apart_rows(
    f: &mut Formula,
    a: &OrderInt,
    b: &OrderInt,
    unless: &[Lit],
) -> Result<(), CnfFault>
    requires a { IntIsThere f.old.vars a.now }
    requires b { IntIsThere f.old.vars b.now }
    requires unless { AreThere f.old.vars unless.now }
    ensures { AddsBlock result f.old f.new 1 (apart_rows_clauses (f.old.vars + 1) False a.now b.now unless.now)
        (length unless.now + 7) }
{
    let first = f.new_vars(1)?;
    add_rows(f, first.0, &NO, a, b, unless)
}

/// Law 5 for two nodes, by how their mileages compare.
pub(crate) fn add_apart(
    f: &mut Formula,
    order: Ordering,
    u: &NodeVars,
    v: &NodeVars,
    unless: &[Lit],
) -> Result<(), CnfFault>
    requires u_x { IntIsThere f.old.vars u.now.x }
    requires u_y { IntIsThere f.old.vars u.now.y }
    requires v_x { IntIsThere f.old.vars v.now.x }
    requires v_y { IntIsThere f.old.vars v.now.y }
    requires unless { AreThere f.old.vars unless.now }
    ensures { AddsBlock result f.old f.new (apart_size order)
        (apart_clauses order (f.old.vars + 1) (node_ints u.now.x u.now.y) (node_ints v.now.x v.now.y) unless.now)
        (length unless.now + 7) }
{
    match order {
        Ordering::Less => add_apart_west(f, u, v, unless),
        Ordering::Equal => add_apart_rows(f, &u.y, &v.y, unless),
        Ordering::Greater => add_apart_west(f, v, u, unless),
    }
}
