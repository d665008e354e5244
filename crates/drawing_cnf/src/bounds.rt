// Bounds of the criteria: their variables and clauses, and the sums that count for them.
ghost use Rattle.std.specs.Prelude.{◌≡◌, ◌≤◌, ◌+◌, ◌*◌, [], ◌∷◌, length, IfOk};
ghost use Rattle.plan_core.specs.declared.criterion.Criterion.TheVariants.{Height, Bends, Diagonal, Width};
ghost use Rattle.plan_core.specs.Values.{limit_of};
ghost use Rattle.cnf_core.specs.Added.{AddsBlock};
ghost use Rattle.cnf_laws.specs.Expected.{drawing_vars, laws_first};
ghost use Rattle.drawing_cnf.specs.Bounds.{bound_clauses, bound_size, bound_sums};
ghost use Rattle.drawing_cnf.specs.Bounded.{longest_of_bound};

use crate::diagonal_bound::add_diagonal_bound;
use crate::height_bound::add_height_bound;
use crate::sum_bounds::add_bends_bound;
use crate::west_first::edges_west_first;
use crate::width_bound::add_width_bound;
use cnf_core::{CnfFault, Formula};
use plan_core::{Criterion, Grid, OutOfMemory};
use port_graph::PortGraph;
use std::alloc::Global;
use unary_sum::Sum;

/// A list of one sum.
fn one_sum(alloc: Global, sum: Sum) -> Result<Vec<Sum>, OutOfMemory>
    ensures { IfOk result (λ v. v.items ≡ sum ∷ []) }
{
    let mut sums = Vec::new(alloc);
    sums.push(sum)?;
    Ok(sums)
}

/// Height has no sums.
fn add_height(
    alloc: Global,
    f: &mut Formula,
    g: &PortGraph,
    grid: &Grid,
    cap: u32,
) -> Result<Vec<Sum>, CnfFault>
    requires there { laws_first g.now grid.now ≤ f.old.vars + 1 }
    requires cap { cap ≤ grid.now.height }
    ensures adds { let x = drawing_vars g.now grid.now in
        AddsBlock result f.old f.new (bound_size g.now x grid.now f.old.vars cap Height)
        (bound_clauses g.now x grid.now f.old.vars cap Height)
        (longest_of_bound g.now grid.now) }
    ensures sums { IfOk result (λ v. v.items ≡ bound_sums g.now (drawing_vars g.now grid.now) grid.now f.old.vars cap
        Height) }
{
    add_height_bound(alloc, f, g, grid, cap)?;
    Ok(Vec::new(alloc))
}

/// Nor has width.
fn add_width(
    alloc: Global,
    f: &mut Formula,
    g: &PortGraph,
    grid: &Grid,
    cap: u32,
) -> Result<Vec<Sum>, CnfFault>
    requires there { laws_first g.now grid.now ≤ f.old.vars + 1 }
    requires cap { cap ≤ grid.now.width }
    ensures adds { let x = drawing_vars g.now grid.now in
        AddsBlock result f.old f.new (bound_size g.now x grid.now f.old.vars cap Width)
        (bound_clauses g.now x grid.now f.old.vars cap Width)
        (longest_of_bound g.now grid.now) }
    ensures sums { IfOk result (λ v. v.items ≡ bound_sums g.now (drawing_vars g.now grid.now) grid.now f.old.vars cap
        Width) }
{
    // what the types keep
    let _ = grid.width();
    add_width_bound(alloc, f, g, grid, cap)?;
    Ok(Vec::new(alloc))
}

/// Bends have one.
fn add_bends(
    alloc: Global,
    f: &mut Formula,
    g: &PortGraph,
    grid: &Grid,
    cap: u32,
) -> Result<Vec<Sum>, CnfFault>
    requires there { laws_first g.now grid.now ≤ f.old.vars + 1 }
    requires cap { cap ≤ 65535 }
    ensures adds { let x = drawing_vars g.now grid.now in
        AddsBlock result f.old f.new (bound_size g.now x grid.now f.old.vars cap Bends)
        (bound_clauses g.now x grid.now f.old.vars cap Bends)
        (longest_of_bound g.now grid.now) }
    ensures sums { IfOk result (λ v. v.items ≡ bound_sums g.now (drawing_vars g.now grid.now) grid.now f.old.vars cap
        Bends) }
{
    let edges = edges_west_first(alloc, g)?;
    let sum = add_bends_bound(alloc, f, g, grid, &edges, cap)?;
    Ok(one_sum(alloc, sum)?)
}

/// The diagonal has one for each edge, and one more.
fn add_diagonal(
    alloc: Global,
    f: &mut Formula,
    g: &PortGraph,
    grid: &Grid,
    cap: u32,
) -> Result<Vec<Sum>, CnfFault>
    requires there { laws_first g.now grid.now ≤ f.old.vars + 1 }
    requires cap { cap ≤ 65535 }
    ensures adds { let x = drawing_vars g.now grid.now in
        AddsBlock result f.old f.new (bound_size g.now x grid.now f.old.vars cap Diagonal)
        (bound_clauses g.now x grid.now f.old.vars cap Diagonal)
        (longest_of_bound g.now grid.now) }
    ensures sums { IfOk result (λ v. v.items ≡ bound_sums g.now (drawing_vars g.now grid.now) grid.now f.old.vars cap
        Diagonal) }
{
    let edges = edges_west_first(alloc, g)?;
    add_diagonal_bound(alloc, f, g, grid, &edges, cap)
}

/// The variables and clauses of a criterion's bound, behind the last variable; answers the bound's sums.
pub(crate) fn add_bound(
    alloc: Global,
    f: &mut Formula,
    g: &PortGraph,
    grid: &Grid,
    c: Criterion,
    cap: u32,
) -> Result<Vec<Sum>, CnfFault>
    requires there { laws_first g.now grid.now ≤ f.old.vars + 1 }
    requires cap { cap ≤ limit_of g.now grid.now c }
    ensures adds { let x = drawing_vars g.now grid.now in
        AddsBlock result f.old f.new (bound_size g.now x grid.now f.old.vars cap c)
        (bound_clauses g.now x grid.now f.old.vars cap c)
        (longest_of_bound g.now grid.now) }
    ensures sums { IfOk result
        (λ v. v.items ≡ bound_sums g.now (drawing_vars g.now grid.now) grid.now f.old.vars cap c) }
{
    // what the types keep
    let _ = (g.nodes(), grid.width());
    match c {
        Criterion::Height => add_height(alloc, f, g, grid, cap),
        Criterion::Bends => add_bends(alloc, f, g, grid, cap),
        Criterion::Diagonal => add_diagonal(alloc, f, g, grid, cap),
        Criterion::Width => add_width(alloc, f, g, grid, cap),
    }
}
