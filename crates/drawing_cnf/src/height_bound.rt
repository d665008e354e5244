// The bound of height.
ghost use Rattle.std.specs.Prelude.{◌≡◌, ◌≤◌, ◌<◌, ◌+◌, ◌*◌, ◌++◌, length, IfOk, OnOk};
ghost use Rattle.plan_core.specs.declared.limits.TheConstants.{MAX_WIDTH};
ghost use Rattle.cnf_core.specs.declared.limits.TheConstants.{VARS};
ghost use Rattle.cnf_core.specs.LitOrTruth.{IsWithin};
ghost use Rattle.cnf_core.specs.Formula.{each};
ghost use Rattle.cnf_core.specs.Added.{AddsClauses, AddsBlock};
ghost use Rattle.order_int.specs.IntVars.{IntIsThere};
ghost use Rattle.edge_shape.specs.EdgeVars.{lits_of, edge_size};
ghost use Rattle.cnf_laws.specs.Expected.{drawing_vars, laws_first};
ghost use Rattle.drawing_cnf.specs.Bounds.{gives_bound, column_gives_bound, beside_clause, height_beside};
ghost use Rattle.drawing_cnf.specs.Bounds.{edge_height_gives};
ghost use Rattle.drawing_cnf.specs.Bounds.{some_height_clause, height_at, height_bound, column_lits, height_lits};

use crate::sum_bounds::literal_of;
use cnf_core::{CnfFault, Formula, Lit, LitOrTruth, Var};
use cnf_laws::{edge_vars, node_vars, yes_var};
use edge_shape::EdgeVars;
use order_int::OrderInt;
use plan_core::{EdgeNo, Grid, OutOfMemory};
use port_graph::PortGraph;
use std::alloc::{AllocError, Global};

/// Where the integer is at least k, the bound's variable b is true.
pub(crate) fn add_gives(f: &mut Formula, i: &OrderInt, b: u32, k: u32) -> Result<(), CnfFault>
    requires limit { f.old.vars ≤ VARS }
    requires there { IntIsThere f.old.vars i.now }
    requires from { 1 ≤ b }
    requires to { b ≤ f.old.vars }
    ensures { AddsClauses result f.old f.new (gives_bound i.now b k) 2 }
{
    f.add_clause(&[], &[i.at_least(k).negated(), yes_var(b)])
}

/// Where one of an edge's heights is at least k, the bound's variable b is true.
fn add_heights_give(
    f: &mut Formula,
    e: &EdgeVars,
    width: u16,
    b: u32,
    k: u32,
) -> Result<(), CnfFault>
    requires limit { f.old.vars ≤ VARS }
    requires width { width ≡ e.now.width }
    requires columns { width ≤ MAX_WIDTH }
    requires edge { e.now.first + edge_size e.now.high e.now.width ≤ f.old.vars + 1 }
    requires from { 1 ≤ b }
    requires to { b ≤ f.old.vars }
    ensures { AddsClauses result f.old f.new (each (column_gives_bound (lits_of e.now) b k) 0 (width + 1)) 2 }
{
    let end = width + 1;
    for c in 0..end {
        add_gives(f, &e.height(c), b, k)?;
    }
    Ok(())
}

/// Where the end slope leaves upwards and the end's height is at least k - 1, b is true.
fn add_beside(
    f: &mut Formula,
    slope: &LitOrTruth,
    y: &OrderInt,
    b: u32,
    k: u32,
) -> Result<(), CnfFault>
    requires limit { f.old.vars ≤ VARS }
    requires slope { IsWithin f.old.vars slope.now }
    requires there { IntIsThere f.old.vars y.now }
    requires from { 1 ≤ b }
    requires to { b ≤ f.old.vars }
    requires some { 1 ≤ k }
    ensures { AddsClauses result f.old f.new (beside_clause slope.now y.now b k) 3 }
{
    f.add_clause(
        &[],
        &[slope.negated(), y.at_least(k - 1).negated(), yes_var(b)],
    )
}

/// Both ends of an edge.
fn add_height_beside(
    f: &mut Formula,
    g: &PortGraph,
    grid: &Grid,
    e: u16,
    b: u32,
    k: u32,
) -> Result<(), CnfFault>
    requires limit { f.old.vars ≤ VARS }
    requires e { e < length g.now.edges }
    requires there { laws_first g.now grid.now ≤ f.old.vars + 1 }
    requires from { 1 ≤ b }
    requires to { b ≤ f.old.vars }
    requires some { 1 ≤ k }
    ensures { AddsClauses result f.old f.new (height_beside g.now (drawing_vars g.now grid.now) b k e) 3 }
{
    // what the types keep
    let _ = g.nodes();
    let vars = edge_vars(g, grid, EdgeNo(e));
    let west = node_vars(g, grid, g.west(EdgeNo(e)));
    let east = node_vars(g, grid, g.east(EdgeNo(e)));
    add_beside(f, &vars.west_up(), &west.y, b, k)?;
    add_beside(f, &vars.east_down(), &east.y, b, k)
}

/// What one edge gives.
fn add_edge_gives(
    f: &mut Formula,
    g: &PortGraph,
    grid: &Grid,
    e: u16,
    b: u32,
    k: u32,
) -> Result<(), CnfFault>
    requires limit { f.old.vars ≤ VARS }
    requires e { e < length g.now.edges }
    requires there { laws_first g.now grid.now ≤ f.old.vars + 1 }
    requires from { 1 ≤ b }
    requires to { b ≤ f.old.vars }
    requires some { 1 ≤ k }
    ensures { AddsClauses result f.old f.new (edge_height_gives g.now (drawing_vars g.now grid.now) grid.now.width b k
        e) 3 }
{
    let vars = edge_vars(g, grid, EdgeNo(e));
    add_heights_give(f, &vars, grid.width(), b, k)?;
    add_height_beside(f, g, grid, e, b, k)
}

/// What all edges give.
fn add_edges_give(
    f: &mut Formula,
    g: &PortGraph,
    grid: &Grid,
    b: u32,
    k: u32,
) -> Result<(), CnfFault>
    requires limit { f.old.vars ≤ VARS }
    requires there { laws_first g.now grid.now ≤ f.old.vars + 1 }
    requires from { 1 ≤ b }
    requires to { b ≤ f.old.vars }
    requires some { 1 ≤ k }
    ensures { AddsClauses result f.old f.new
        (each (edge_height_gives g.now (drawing_vars g.now grid.now) grid.now.width b k) 0 (length g.now.edges)) 3 }
{
    let end = g.edges();
    for e in 0..end {
        add_edge_gives(f, g, grid, e, b, k)?;
    }
    Ok(())
}

/// Puts the literals "the height is at least k" of an edge behind the others.
fn push_heights(lits: &mut Vec<Lit>, e: &EdgeVars, width: u16, k: u32) -> Result<(), AllocError>
    requires width { width ≡ e.now.width }
    requires columns { width ≤ MAX_WIDTH }
    requires from { 1 ≤ k }
    requires to { k ≤ e.now.high }
    ensures { OnOk result (lits.new.items ≡ lits.old.items ++ column_lits (lits_of e.now) k 0 (width + 1)) }
{
    let end = width + 1;
    for c in 0..end {
        lits.push(literal_of(e.height(c).at_least(k)))?;
    }
    Ok(())
}

/// Those of all edges.
fn height_literals(
    alloc: Global,
    g: &PortGraph,
    grid: &Grid,
    k: u32,
) -> Result<Vec<Lit>, OutOfMemory>
    requires from { 1 ≤ k }
    requires to { k ≤ grid.now.height }
    ensures { IfOk result (λ v. v.items ≡ height_lits (drawing_vars g.now grid.now) grid.now.width k 0
        (length g.now.edges)) }
{
    let mut lits = Vec::new(alloc);
    let end = g.edges();
    for e in 0..end {
        let vars = edge_vars(g, grid, EdgeNo(e));
        push_heights(&mut lits, &vars, grid.width(), k)?;
    }
    Ok(lits)
}

/// Where b is true, some height is at least k.
fn add_some_height(
    alloc: Global,
    f: &mut Formula,
    g: &PortGraph,
    grid: &Grid,
    b: u32,
    k: u32,
) -> Result<(), CnfFault>
    requires limit { f.old.vars ≤ VARS }
    requires there { laws_first g.now grid.now ≤ b }
    requires to { b ≤ f.old.vars }
    requires some { 1 ≤ k }
    requires few { k ≤ grid.now.height }
    ensures { AddsClauses result f.old f.new
        (some_height_clause (drawing_vars g.now grid.now) grid.now.width (length g.now.edges) b k)
        (length g.now.edges * (grid.now.width + 1) + 3) }
{
    // what the types keep
    let _ = (g.nodes(), grid.width());
    let mut lits = height_literals(alloc, g, grid, k)?;
    lits.push(Lit::new(Var(b), false))?;
    f.add(&lits)?;
    Ok(())
}

/// "The height is at least k", as the variable b.
fn add_height_at(
    alloc: Global,
    f: &mut Formula,
    g: &PortGraph,
    grid: &Grid,
    b: u32,
    k: u32,
) -> Result<(), CnfFault>
    requires limit { f.old.vars ≤ VARS }
    requires there { laws_first g.now grid.now ≤ b }
    requires to { b ≤ f.old.vars }
    requires some { 1 ≤ k }
    requires few { k ≤ grid.now.height }
    ensures { AddsClauses result f.old f.new (height_at g.now (drawing_vars g.now grid.now) grid.now.width b k)
        (length g.now.edges * (grid.now.width + 1) + 3) }
{
    add_edges_give(f, g, grid, b, k)?;
    add_some_height(alloc, f, g, grid, b, k)
}

/// Each k up to the cap.
fn add_heights(
    alloc: Global,
    f: &mut Formula,
    g: &PortGraph,
    grid: &Grid,
    cap: u32,
    last: u32,
) -> Result<(), CnfFault>
    requires limit { f.old.vars ≤ VARS }
    requires there { laws_first g.now grid.now ≤ last + 1 }
    requires to { last + cap ≤ f.old.vars }
    requires few { cap ≤ grid.now.height }
    ensures { AddsClauses result f.old f.new (height_bound g.now (drawing_vars g.now grid.now) grid.now.width last cap)
        (length g.now.edges * (grid.now.width + 1) + 3) }
{
    let end = 1 + cap;
    for k in 1..end {
        add_height_at(alloc, f, g, grid, last + k, k)?;
    }
    Ok(())
}

/// The bound of height, whose variables are those behind the last one.
pub(crate) fn add_height_bound(
    alloc: Global,
    f: &mut Formula,
    g: &PortGraph,
    grid: &Grid,
    cap: u32,
) -> Result<(), CnfFault>
    requires there { laws_first g.now grid.now ≤ f.old.vars + 1 }
    requires few { cap ≤ grid.now.height }
    ensures { AddsBlock result f.old f.new cap (height_bound g.now (drawing_vars g.now grid.now) grid.now.width
        f.old.vars cap)
        (length g.now.edges * (grid.now.width + 1) + 3) }
{
    let last = f.vars();
    f.new_vars(cap)?;
    add_heights(alloc, f, g, grid, cap, last)
}
