// The bound of width.
ghost use Rattle.std.specs.Prelude.{◌≡◌, ◌≤◌, ◌+◌, length, IfOk};
ghost use Rattle.cnf_core.specs.declared.limits.TheConstants.{VARS};
ghost use Rattle.cnf_core.specs.Formula.{each};
ghost use Rattle.cnf_core.specs.Added.{AddsClauses, AddsBlock};
ghost use Rattle.cnf_laws.specs.Expected.{drawing_vars, laws_first};
ghost use Rattle.drawing_cnf.specs.Bounds.{column_gives, node_columns, some_column_clause, width_at, width_bound};

use crate::height_bound::add_gives;
use cnf_core::{CnfFault, Formula, LitOrTruth};
use cnf_laws::{node_vars, yes_var};
use plan_core::{Grid, NodeNo, OutOfMemory};
use port_graph::PortGraph;
use std::alloc::Global;

/// Each node's column that is at least k gives the variable b.
fn add_columns_give(
    f: &mut Formula,
    g: &PortGraph,
    grid: &Grid,
    b: u32,
    k: u32,
) -> Result<(), CnfFault>
    requires limit { f.old.vars ≤ VARS }
    requires there { laws_first g.now grid.now ≤ f.old.vars + 1 }
    requires from { 1 ≤ b }
    requires to { b ≤ f.old.vars }
    ensures { AddsClauses result f.old f.new (each (column_gives (drawing_vars g.now grid.now) b k) 0
        (length g.now.nodes)) 2 }
{
    let end = g.nodes();
    for n in 0..end {
        add_gives(f, &node_vars(g, grid, NodeNo(n)).x, b, k)?;
    }
    Ok(())
}

/// The literals or truth values "the column is at least k" of all nodes.
fn columns_at_least(
    alloc: Global,
    g: &PortGraph,
    grid: &Grid,
    k: u32,
) -> Result<Vec<LitOrTruth>, OutOfMemory>
    ensures { IfOk result (λ v. v.items ≡ node_columns (drawing_vars g.now grid.now) k 0 (length g.now.nodes)) }
{
    let mut columns = Vec::new(alloc);
    let end = g.nodes();
    for n in 0..end {
        columns.push(node_vars(g, grid, NodeNo(n)).x.at_least(k))?;
    }
    Ok(columns)
}

/// Where b is true, some node's column is at least k.
fn add_some_column(
    alloc: Global,
    f: &mut Formula,
    g: &PortGraph,
    grid: &Grid,
    b: u32,
    k: u32,
) -> Result<(), CnfFault>
    requires limit { f.old.vars ≤ VARS }
    requires there { laws_first g.now grid.now ≤ f.old.vars + 1 }
    requires from { 1 ≤ b }
    requires to { b ≤ f.old.vars }
    ensures { AddsClauses result f.old f.new (some_column_clause (drawing_vars g.now grid.now) (length g.now.nodes) b k)
        (length g.now.nodes + 3) }
{
    // what the types keep
    let _ = grid.width();
    let mut some = columns_at_least(alloc, g, grid, k)?;
    some.push(yes_var(b).negated())?;
    f.add_clause(&[], &some)
}

/// "The width is at least k", as the variable b.
fn add_width_at(
    alloc: Global,
    f: &mut Formula,
    g: &PortGraph,
    grid: &Grid,
    b: u32,
    k: u32,
) -> Result<(), CnfFault>
    requires limit { f.old.vars ≤ VARS }
    requires there { laws_first g.now grid.now ≤ f.old.vars + 1 }
    requires from { 1 ≤ b }
    requires to { b ≤ f.old.vars }
    ensures { AddsClauses result f.old f.new (width_at g.now (drawing_vars g.now grid.now) b k)
        (length g.now.nodes + 3) }
{
    add_columns_give(f, g, grid, b, k)?;
    add_some_column(alloc, f, g, grid, b, k)
}

/// Each k up to the cap.
fn add_widths(
    alloc: Global,
    f: &mut Formula,
    g: &PortGraph,
    grid: &Grid,
    cap: u32,
    last: u32,
) -> Result<(), CnfFault>
    requires limit { f.old.vars ≤ VARS }
    requires there { laws_first g.now grid.now ≤ last + 1 }
    requires to { last + cap ≤ f.old.vars }
    requires few { cap ≤ 65535 }
    ensures { AddsClauses result f.old f.new (width_bound g.now (drawing_vars g.now grid.now) last cap)
        (length g.now.nodes + 3) }
{
    let end = 1 + cap;
    for k in 1..end {
        add_width_at(alloc, f, g, grid, last + k, k)?;
    }
    Ok(())
}

/// The bound of width, whose variables are those behind the last one.
pub(crate) fn add_width_bound(
    alloc: Global,
    f: &mut Formula,
    g: &PortGraph,
    grid: &Grid,
    cap: u32,
) -> Result<(), CnfFault>
    requires there { laws_first g.now grid.now ≤ f.old.vars + 1 }
    requires few { cap ≤ 65535 }
    ensures { AddsBlock result f.old f.new cap (width_bound g.now (drawing_vars g.now grid.now) f.old.vars cap)
        (length g.now.nodes + 3) }
{
    let last = f.vars();
    f.new_vars(cap)?;
    add_widths(alloc, f, g, grid, cap, last)
}
