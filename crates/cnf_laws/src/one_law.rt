// Each law with clauses, for its parties alone: a model of the clauses keeps the law, and where the law is kept the
// clauses have a model. The laws on the grid and on ends of lines have no clauses of their own.
ghost use Rattle.std.specs.Prelude.{◌≤◌, ◌<◌, ◌+◌, length};
ghost use Rattle.plan_core.specs.Laws.{NodesAreOrdered, NodeIsAligned, NodesAreApart, EdgeIsOver, EdgesAreParted};
ghost use Rattle.cnf_core.specs.declared.literal.LitOrTruth.TheVariants.{False};
ghost use Rattle.cnf_core.specs.Clause.{AreThere};
ghost use Rattle.cnf_core.specs.Added.{AddsClauses, AddsBlock};
ghost use Rattle.cnf_laws.specs.LawClauses.{by_mileage, ordered_clauses, aligned_clauses, anywhere_clauses};
ghost use Rattle.cnf_laws.specs.LawClauses.{over_clauses, parted_clauses};
ghost use Rattle.cnf_laws.specs.Expected.{drawing_vars, laws_first};
ghost use Rattle.cnf_laws.specs.OneLaw.{SaysLaw, AllowsLaw};

use crate::edge_laws::{add_over_between, add_parted_between, add_ports};
use crate::node_laws::{add_anywhere_between, add_ordered_between};
use cnf_core::{CnfFault, Formula, Lit};
use plan_core::{EdgeNo, Grid, NodeNo};
use port_graph::PortGraph;

/// Law 2 for two nodes: their columns are in the order of their mileages, unless one of these literals is true.
///
/// The formula begins with the variables of the graph's nodes and edges, as that of `encode` does.
pub fn add_ordered_law(
    f: &mut Formula,
    g: &PortGraph,
    grid: &Grid,
    u: NodeNo,
    v: NodeNo,
    unless: &[Lit],
) -> Result<(), CnfFault>
    requires there { laws_first g.now grid.now ≤ f.old.vars + 1 }
    requires u { u.0 < length g.now.nodes }
    requires v { v.0 < length g.now.nodes }
    requires unless { AreThere f.old.vars unless.now }
    ensures adds { let x = drawing_vars g.now grid.now in
        let clauses = ordered_clauses (by_mileage g.now u.0 v.0) (x.node u.0).x (x.node v.0).x
        unless.now in
        AddsClauses result f.old f.new clauses (length unless.now + 7) }
    ensures says { let x = drawing_vars g.now grid.now in
        let clauses = ordered_clauses (by_mileage g.now u.0 v.0) (x.node u.0).x (x.node v.0).x
        unless.now in
        SaysLaw g.now grid.now unless.now clauses (λ d. NodesAreOrdered g.now d u.0 v.0) }
    ensures allows { let x = drawing_vars g.now grid.now in
        let cs = ordered_clauses (by_mileage g.now u.0 v.0) (x.node u.0).x (x.node v.0).x unless.now in
        AllowsLaw g.now grid.now unless.now (f.old.vars + 1) 0 cs (λ d. NodesAreOrdered g.now d u.0 v.0) }
{
    add_ordered_between(f, g, grid, u, v, unless)
}

/// Law 4 at a node: the slopes of its edges fit its ports, unless one of these literals is true.
pub fn add_aligned_law(
    f: &mut Formula,
    g: &PortGraph,
    grid: &Grid,
    n: NodeNo,
    unless: &[Lit],
) -> Result<(), CnfFault>
    requires there { laws_first g.now grid.now ≤ f.old.vars + 1 }
    requires n { n.0 < length g.now.nodes }
    requires unless { AreThere f.old.vars unless.now }
    ensures adds { AddsClauses result f.old f.new (aligned_clauses g.now (drawing_vars g.now grid.now) n.0 unless.now)
        (length unless.now + 2) }
    ensures says { SaysLaw g.now grid.now unless.now (aligned_clauses g.now (drawing_vars g.now grid.now) n.0
        unless.now)
        (λ d. NodeIsAligned g.now d n.0) }
    ensures allows { AllowsLaw g.now grid.now unless.now (f.old.vars + 1) 0
        (aligned_clauses g.now (drawing_vars g.now grid.now) n.0 unless.now) (λ d. NodeIsAligned g.now d n.0) }
{
    // what the types keep
    let _ = g.nodes();
    add_ports(f, g, grid, n, unless)
}

/// Law 5 for two nodes: their points differ, unless one of these literals is true.
///
/// Nothing is known of the order of their columns: where their mileages order them, `encode` needs fewer clauses.
pub fn add_apart_law(
    f: &mut Formula,
    g: &PortGraph,
    grid: &Grid,
    u: NodeNo,
    v: NodeNo,
    unless: &[Lit],
) -> Result<(), CnfFault>
    requires there { laws_first g.now grid.now ≤ f.old.vars + 1 }
    requires u { u.0 < length g.now.nodes }
    requires v { v.0 < length g.now.nodes }
    requires unless { AreThere f.old.vars unless.now }
    ensures adds { let x = drawing_vars g.now grid.now in
        AddsBlock result f.old f.new 2 (anywhere_clauses (f.old.vars + 1) (x.node u.0) (x.node v.0) unless.now)
        (length unless.now + 7) }
    ensures says { let x = drawing_vars g.now grid.now in
        SaysLaw g.now grid.now unless.now (anywhere_clauses (f.old.vars + 1) (x.node u.0) (x.node v.0) unless.now)
        (λ d. NodesAreApart d u.0 v.0) }
    ensures allows { let x = drawing_vars g.now grid.now in
        AllowsLaw g.now grid.now unless.now (f.old.vars + 1) 2
        (anywhere_clauses (f.old.vars + 1) (x.node u.0) (x.node v.0) unless.now) (λ d. NodesAreApart d u.0 v.0) }
{
    // what the types keep
    let _ = (g.nodes(), grid.width());
    add_anywhere_between(f, g, grid, u, v, unless)
}

/// Law 6 for two edges: the line of the first is over that of the second, unless one of these literals is true.
pub fn add_over_law(
    f: &mut Formula,
    g: &PortGraph,
    grid: &Grid,
    e: EdgeNo,
    h: EdgeNo,
    unless: &[Lit],
) -> Result<(), CnfFault>
    requires there { laws_first g.now grid.now ≤ f.old.vars + 1 }
    requires e { e.0 < length g.now.edges }
    requires h { h.0 < length g.now.edges }
    requires unless { AreThere f.old.vars unless.now }
    ensures adds { AddsClauses result f.old f.new
        (over_clauses g.now (drawing_vars g.now grid.now) grid.now.width e.0 h.0 False unless.now)
        (length unless.now + 7) }
    ensures says { SaysLaw g.now grid.now unless.now
        (over_clauses g.now (drawing_vars g.now grid.now) grid.now.width e.0 h.0 False unless.now)
        (λ d. EdgeIsOver g.now d e.0 h.0) }
    ensures allows { AllowsLaw g.now grid.now unless.now (f.old.vars + 1) 0
        (over_clauses g.now (drawing_vars g.now grid.now) grid.now.width e.0 h.0 False unless.now)
        (λ d. EdgeIsOver g.now d e.0 h.0) }
{
    // what the types keep
    let _ = g.nodes();
    add_over_between(f, g, grid, e, h, unless)
}

/// Law 7 for two edges: the line of one of them is over that of the other, unless one of these literals is true.
pub fn add_parted_law(
    f: &mut Formula,
    g: &PortGraph,
    grid: &Grid,
    e: EdgeNo,
    h: EdgeNo,
    unless: &[Lit],
) -> Result<(), CnfFault>
    requires there { laws_first g.now grid.now ≤ f.old.vars + 1 }
    requires e { e.0 < length g.now.edges }
    requires h { h.0 < length g.now.edges }
    requires unless { AreThere f.old.vars unless.now }
    ensures adds { AddsBlock result f.old f.new 1
        (parted_clauses g.now (drawing_vars g.now grid.now) grid.now.width e.0 h.0 (f.old.vars + 1) unless.now)
        (length unless.now + 7) }
    ensures says { SaysLaw g.now grid.now unless.now
        (parted_clauses g.now (drawing_vars g.now grid.now) grid.now.width e.0 h.0 (f.old.vars + 1) unless.now)
        (λ d. EdgesAreParted g.now d e.0 h.0) }
    ensures allows { AllowsLaw g.now grid.now unless.now (f.old.vars + 1) 1
        (parted_clauses g.now (drawing_vars g.now grid.now) grid.now.width e.0 h.0 (f.old.vars + 1) unless.now)
        (λ d. EdgesAreParted g.now d e.0 h.0) }
{
    // what the types keep
    let _ = (g.nodes(), grid.width());
    add_parted_between(f, g, grid, e, h, unless)
}
