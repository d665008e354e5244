// Laws 6 and 7: lines over one another.
ghost use Rattle.std.specs.Prelude.{◌≡◌, ◌≤◌, ◌+◌, length};
ghost use Rattle.plan_core.specs.declared.limits.TheConstants.{MAX_WIDTH};
ghost use Rattle.cnf_core.specs.declared.limits.TheConstants.{VARS};
ghost use Rattle.cnf_core.specs.declared.literal.LitOrTruth.TheVariants.{False};
ghost use Rattle.cnf_core.specs.Clause.{AreThere, IsThere};
ghost use Rattle.cnf_core.specs.Lit.{positive_of};
ghost use Rattle.cnf_core.specs.LitOrTruth.{IsWithin};
ghost use Rattle.cnf_core.specs.Added.{AddsClauses, AddsBlock};
ghost use Rattle.order_int.specs.IntVars.{IntIsThere};
ghost use Rattle.order_int.specs.OrderInt.{int_at_least};
ghost use Rattle.edge_shape.specs.EdgeVars.{edge_size, lits_of};
ghost use Rattle.cnf_laws.specs.LawClauses.{at_west as at_west_of, at_east as at_east_of, higher_column};
ghost use Rattle.cnf_laws.specs.LawClauses.{higher_clauses, either_clauses};
ghost use Rattle.cnf_laws.specs.Parties.{sharing_of};

use crate::guards::{Guards, add_guarded, same};
use crate::order::yes_var;
use cnf_core::{CnfFault, Formula, Lit, LitOrTruth};
use edge_shape::EdgeVars;
use order_int::OrderInt;

const NO: LitOrTruth = LitOrTruth::False;

/// In a column of the line: it is that of the west node, if the other edge has this node.
fn at_west(shares: bool, x: &OrderInt, c: u32) -> LitOrTruth
    ensures { result ≡ at_west_of shares x.now c }
{
    if shares { x.at_least(c) } else { NO }
}

/// In a column of the line: it is that of the east node, if the other edge has this node.
fn at_east(shares: bool, x: &OrderInt, c: u32) -> LitOrTruth
    requires { c ≤ 65535 }
    ensures { result ≡ at_east_of shares x.now c }
{
    if shares {
        x.at_least(c + 1).negated()
    } else {
        NO
    }
}

/// An edge's variables, its nodes' columns, and which of its nodes the other edge has.
#[derive(Clone, Copy)]
pub(crate) struct SharingEdge<'a> {
    pub edge: &'a EdgeVars,
    pub west: &'a OrderInt,
    pub east: &'a OrderInt,
    pub shares_west: bool,
    pub shares_east: bool,
}

/// Where no guard is true, the first line is over the second at the column.
fn add_over_column(
    f: &mut Formula,
    e: &SharingEdge,
    g: &EdgeVars,
    guard: &LitOrTruth,
    unless: &[Lit],
    c: u16,
) -> Result<(), CnfFault>
    requires e_there { e.now.edge.now.first + edge_size e.now.edge.now.high e.now.edge.now.width ≤ f.old.vars + 1 }
    requires g_there { g.now.first + edge_size g.now.high g.now.width ≤ f.old.vars + 1 }
    requires west { IntIsThere f.old.vars e.now.west.now }
    requires east { IntIsThere f.old.vars e.now.east.now }
    requires guard { IsWithin f.old.vars guard.now }
    requires unless { AreThere f.old.vars unless.now }
    requires e_column { c ≤ e.now.edge.now.width }
    requires g_column { c ≤ g.now.width }
    ensures { AddsClauses result f.old f.new
        (higher_column (sharing_of e.now) (lits_of g.now) guard.now unless.now c) (length unless.now + 7) }
{
    let guards = Guards {
        first: e.edge.in_range(c).negated(),
        second: g.in_range(c).negated(),
        third: at_west(e.shares_west, e.west, u32::from(c)),
        fourth: at_east(e.shares_east, e.east, u32::from(c)),
        fifth: same(guard),
    };
    let low = g.height(c);
    let high = e.edge.height(c);
    add_guarded(f, &low, &high, 1, &guards, unless)
}

/// Law 6: the first line is over the second, unless the guard is true.
pub(crate) fn add_over(
    f: &mut Formula,
    e: &SharingEdge,
    g: &EdgeVars,
    width: u16,
    guard: &LitOrTruth,
    unless: &[Lit],
) -> Result<(), CnfFault>
    requires e_there { e.now.edge.now.first + edge_size e.now.edge.now.high e.now.edge.now.width ≤ f.old.vars + 1 }
    requires g_there { g.now.first + edge_size g.now.high g.now.width ≤ f.old.vars + 1 }
    requires west { IntIsThere f.old.vars e.now.west.now }
    requires east { IntIsThere f.old.vars e.now.east.now }
    requires guard { IsWithin f.old.vars guard.now }
    requires unless { AreThere f.old.vars unless.now }
    requires e_columns { e.now.edge.now.width ≡ width }
    requires g_columns { g.now.width ≡ width }
    requires width { width ≤ MAX_WIDTH }
    ensures { AddsClauses result f.old f.new
        (higher_clauses (sharing_of e.now) (lits_of g.now) width guard.now unless.now) (length unless.now + 7) }
{
    let end = width + 1;
    for c in 0..end {
        add_over_column(f, e, g, guard, unless, c)?;
    }
    Ok(())
}

/// One of the two lines is over the other: the first, where the variable is true.
fn add_either(
    f: &mut Formula,
    e: &SharingEdge,
    g: &SharingEdge,
    width: u16,
    greater: u32,
    unless: &[Lit],
) -> Result<(), CnfFault>
    requires limit { f.old.vars ≤ VARS }
    requires greater { IsThere f.old.vars (positive_of greater) }
    requires e_there { e.now.edge.now.first + edge_size e.now.edge.now.high e.now.edge.now.width ≤ f.old.vars + 1 }
    requires g_there { g.now.edge.now.first + edge_size g.now.edge.now.high g.now.edge.now.width ≤ f.old.vars + 1 }
    requires e_west { IntIsThere f.old.vars e.now.west.now }
    requires e_east { IntIsThere f.old.vars e.now.east.now }
    requires g_west { IntIsThere f.old.vars g.now.west.now }
    requires g_east { IntIsThere f.old.vars g.now.east.now }
    requires unless { AreThere f.old.vars unless.now }
    requires e_columns { e.now.edge.now.width ≡ width }
    requires g_columns { g.now.edge.now.width ≡ width }
    requires width { width ≤ MAX_WIDTH }
    ensures { AddsClauses result f.old f.new
        (either_clauses (sharing_of e.now) (sharing_of g.now) width greater unless.now) (length unless.now + 7) }
{
    add_over(f, e, g.edge, width, &yes_var(greater).negated(), unless)?;
    add_over(f, g, e.edge, width, &yes_var(greater), unless)
}

/// Law 7: one of the two lines is over the other.
#[tactic(auto, using(cnf_core::proofs::ClauseLemmas::there_more))]
pub(crate) fn add_parted(
    f: &mut Formula,
    e: &SharingEdge,
    g: &SharingEdge,
    width: u16,
    unless: &[Lit],
) -> Result<(), CnfFault>
    requires e_there { e.now.edge.now.first + edge_size e.now.edge.now.high e.now.edge.now.width ≤ f.old.vars + 1 }
    requires g_there { g.now.edge.now.first + edge_size g.now.edge.now.high g.now.edge.now.width ≤ f.old.vars + 1 }
    requires e_west { IntIsThere f.old.vars e.now.west.now }
    requires e_east { IntIsThere f.old.vars e.now.east.now }
    requires g_west { IntIsThere f.old.vars g.now.west.now }
    requires g_east { IntIsThere f.old.vars g.now.east.now }
    requires unless { AreThere f.old.vars unless.now }
    requires e_columns { e.now.edge.now.width ≡ width }
    requires g_columns { g.now.edge.now.width ≡ width }
    requires width { width ≤ MAX_WIDTH }
    ensures { AddsBlock result f.old f.new 1
        (either_clauses (sharing_of e.now) (sharing_of g.now) width (f.old.vars + 1) unless.now)
        (length unless.now + 7) }
{
    let greater = f.new_vars(1)?;
    add_either(f, e, g, width, greater.0, unless)
}
