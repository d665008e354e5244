// Laws 2 and 5 for all nodes.
ghost use Rattle.std.specs.Prelude.{◌≡◌, ◌≤◌, ◌<◌, ◌+◌, ◌-◌, ◌*◌, length, [], ◌∷◌};
ghost use Rattle.cnf_core.specs.declared.limits.TheConstants.{VARS};
ghost use Rattle.plan_core.specs.Laws.{NodesAreApart};
ghost use Rattle.plan_core.specs.Lawful.{Ordered, Apart};
ghost use Rattle.cnf_core.specs.Clause.{AreThere};
ghost use Rattle.cnf_core.specs.Added.{AddsClauses, AddsBlock};
ghost use Rattle.cnf_laws.specs.LawClauses.{by_mileage, ordered_clauses, apart_size, apart_clauses};
ghost use Rattle.cnf_laws.specs.LawClauses.{anywhere_clauses};
ghost use Rattle.cnf_laws.specs.Expected.{drawing_vars, laws_first, pairs_from, instance_pairs};
ghost use Rattle.cnf_laws.specs.AddsLaws.{AddsLaws};
ghost use Rattle.cnf_laws.specs.OneLaw.{SaysLaw, AllowsLaw, NodesStandApart};

use crate::order::{add_anywhere, add_apart, add_ordered};
use crate::rank::node_vars;
use cnf_core::{CnfFault, Formula, Lit};
use plan_core::{Grid, NodeNo};
use port_graph::PortGraph;

/// Law 5 for two nodes whose columns are in the order of their mileages.
fn add_apart_pair(
    f: &mut Formula,
    g: &PortGraph,
    grid: &Grid,
    u: u16,
    v: u16,
) -> Result<(), CnfFault>
    requires there { laws_first g.now grid.now ≤ f.old.vars + 1 }
    requires u { u < length g.now.nodes }
    requires v { v < length g.now.nodes }
    ensures adds { AddsLaws result f.old f.new g.now (drawing_vars g.now grid.now) grid.now.width (Apart u v ∷ []) 7 }
    ensures says { let x = drawing_vars g.now grid.now in let o = by_mileage g.now u v in
        SaysLaw g.now grid.now [] (apart_clauses o (f.old.vars + 1) (x.node u) (x.node v) [])
        (λ d. NodesAreApart d u v) }
    ensures allows { let x = drawing_vars g.now grid.now in let o = by_mileage g.now u v in
        AllowsLaw g.now grid.now [] (f.old.vars + 1) (apart_size o) (apart_clauses o (f.old.vars + 1) (x.node u)
        (x.node v) []) (NodesStandApart g.now u v) }
{
    // what the types keep
    let _ = (g.nodes(), grid.width());
    let order = g.mileage(NodeNo(u)).0.cmp(&g.mileage(NodeNo(v)).0);
    add_apart(
        f,
        order,
        &node_vars(g, grid, NodeNo(u)),
        &node_vars(g, grid, NodeNo(v)),
        &[],
    )
}

/// Law 2 for two nodes.
pub(crate) fn add_ordered_between(
    f: &mut Formula,
    g: &PortGraph,
    grid: &Grid,
    u: NodeNo,
    v: NodeNo,
    unless: &[Lit],
) -> Result<(), CnfFault>
    requires there { laws_first g.now grid.now ≤ f.old.vars + 1 }
    requires u { u.0 < length g.now.nodes }
    requires v { v.0 < length g.now.nodes }
    requires unless { AreThere f.old.vars unless.now }
    ensures { AddsClauses result f.old f.new
        (ordered_clauses (by_mileage g.now u.0 v.0) ((drawing_vars g.now grid.now).node u.0).x
        ((drawing_vars g.now grid.now).node v.0).x unless.now) (length unless.now + 7) }
{
    // what the types keep
    let _ = g.nodes();
    let order = g.mileage(u).0.cmp(&g.mileage(v).0);
    add_ordered(
        f,
        order,
        &node_vars(g, grid, u).x,
        &node_vars(g, grid, v).x,
        unless,
    )
}

/// Law 5 for two nodes that may lie in any order.
pub(crate) fn add_anywhere_between(
    f: &mut Formula,
    g: &PortGraph,
    grid: &Grid,
    u: NodeNo,
    v: NodeNo,
    unless: &[Lit],
) -> Result<(), CnfFault>
    requires there { laws_first g.now grid.now ≤ f.old.vars + 1 }
    requires u { u.0 < length g.now.nodes }
    requires v { v.0 < length g.now.nodes }
    requires unless { AreThere f.old.vars unless.now }
    ensures { AddsBlock result f.old f.new 2
        (anywhere_clauses (f.old.vars + 1) ((drawing_vars g.now grid.now).node u.0)
        ((drawing_vars g.now grid.now).node v.0)
        unless.now) (length unless.now + 7) }
{
    // what the types keep
    let _ = g.nodes();
    add_anywhere(f, &node_vars(g, grid, u), &node_vars(g, grid, v), unless)
}

/// Law 2 for two nodes, as a part of the formula.
#[tactic(auto, using(crate::proofs::LawCode::one_law, cnf_core::proofs::BlockLemmas::block_of_clauses))]
fn add_ordered_pair(
    f: &mut Formula,
    g: &PortGraph,
    grid: &Grid,
    u: u16,
    v: u16,
) -> Result<(), CnfFault>
    requires there { laws_first g.now grid.now ≤ f.old.vars + 1 }
    requires u { u < length g.now.nodes }
    requires v { v < length g.now.nodes }
    ensures { AddsLaws result f.old f.new g.now (drawing_vars g.now grid.now) grid.now.width (Ordered u v ∷ []) 7 }
{
    add_ordered_between(f, g, grid, NodeNo(u), NodeNo(v), &[])
}

/// Law 5 for a node and each behind it.
fn add_apart_row(f: &mut Formula, g: &PortGraph, grid: &Grid, u: u16) -> Result<(), CnfFault>
    requires there { laws_first g.now grid.now ≤ f.old.vars + 1 }
    requires u { u < length g.now.nodes }
    ensures { AddsLaws result f.old f.new g.now (drawing_vars g.now grid.now) grid.now.width
        (pairs_from (length g.now.nodes) (λ u v. Apart u v ∷ []) u) 7 }
{
    let end = g.nodes();
    for v in u + 1..end {
        add_apart_pair(f, g, grid, u, v)?;
    }
    Ok(())
}

/// Law 5 for each two nodes.
pub(crate) fn add_apart_pairs(f: &mut Formula, g: &PortGraph, grid: &Grid) -> Result<(), CnfFault>
    requires there { laws_first g.now grid.now ≤ f.old.vars + 1 }
    ensures { AddsLaws result f.old f.new g.now (drawing_vars g.now grid.now) grid.now.width
        (instance_pairs (length g.now.nodes) (λ u v. Apart u v ∷ [])) 7 }
{
    let end = g.nodes();
    for u in 0..end {
        add_apart_row(f, g, grid, u)?;
    }
    Ok(())
}

/// Law 2 for a node and each behind it.
fn add_ordered_row(f: &mut Formula, g: &PortGraph, grid: &Grid, u: u16) -> Result<(), CnfFault>
    requires there { laws_first g.now grid.now ≤ f.old.vars + 1 }
    requires u { u < length g.now.nodes }
    ensures { AddsLaws result f.old f.new g.now (drawing_vars g.now grid.now) grid.now.width
        (pairs_from (length g.now.nodes) (λ u v. Ordered u v ∷ []) u) 7 }
{
    let end = g.nodes();
    for v in u + 1..end {
        add_ordered_pair(f, g, grid, u, v)?;
    }
    Ok(())
}

/// Law 2 for each two nodes.
pub(crate) fn add_ordered_pairs(f: &mut Formula, g: &PortGraph, grid: &Grid) -> Result<(), CnfFault>
    requires there { laws_first g.now grid.now ≤ f.old.vars + 1 }
    ensures { AddsLaws result f.old f.new g.now (drawing_vars g.now grid.now) grid.now.width
        (instance_pairs (length g.now.nodes) (λ u v. Ordered u v ∷ [])) 7 }
{
    let end = g.nodes();
    for u in 0..end {
        add_ordered_row(f, g, grid, u)?;
    }
    Ok(())
}
