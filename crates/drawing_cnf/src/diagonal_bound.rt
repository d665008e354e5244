// The bound of the diagonal: a sum of each edge's steps, and one of these sums' outputs.
ghost use Rattle.std.specs.Prelude.{◌≡◌, ◌≤◌, ◌<◌, ◌+◌, ◌*◌, ◌++◌, [], ◌∷◌, length, All, IfOk, OnOk};
ghost use Rattle.std.specs.List.{flat_map};
ghost use Rattle.plan_core.specs.declared.limits.TheConstants.{MAX_WIDTH};
ghost use Rattle.cnf_core.specs.declared.limits.TheConstants.{VARS};
ghost use Rattle.cnf_core.specs.Clause.{AreThere};
ghost use Rattle.cnf_core.specs.LitOrTruth.{flip, IsWithin};
ghost use Rattle.cnf_core.specs.Added.{AddsClauses, AddsBlock};
ghost use Rattle.unary_sum.specs.Sum.{sum_vars, sum_count, sum_outputs};
ghost use Rattle.edge_shape.specs.EdgeVars.{lits_of, edge_size, EdgeIsPlaced};
ghost use Rattle.cnf_laws.specs.Expected.{drawing_vars, laws_first};
ghost use Rattle.drawing_cnf.specs.Bounds.{west_first, step_lits, gives_output, end_outputs, steps_beside, edge_steps};
ghost use Rattle.drawing_cnf.specs.Bounds.{steps_sum};
ghost use Rattle.drawing_cnf.specs.Bounds.{edges_steps, edges_sums, edges_count, edge_most, sum_bound, diagonal_count};
ghost use Rattle.drawing_cnf.specs.Bounds.{diagonal_sums, diagonal_bound, diagonal_bound_size};

use crate::sum_bounds::{add_sum_bound, literal_of};
use cnf_core::{CnfFault, Formula, Lit, LitOrTruth};
use cnf_laws::edge_vars;
use edge_shape::EdgeVars;
use plan_core::{EdgeNo, Grid, OutOfMemory};
use port_graph::PortGraph;
use std::alloc::Global;
use unary_sum::Sum;

/// How far an edge's sum goes: no line has more than two diagonal pieces.
fn most_of_an_edge(grid: &Grid, cap: u32) -> u32
    ensures { result ≡ edge_most grid.now cap }
{
    cap.min(2 * u32::from(grid.height()))
}

/// The literals "rises" and "falls" of each step of an edge.
fn step_literals(alloc: Global, e: &EdgeVars, width: u16) -> Result<Vec<Lit>, OutOfMemory>
    requires { width ≡ e.now.width }
    ensures { IfOk result (λ v. v.items ≡ step_lits (lits_of e.now) 0 width) }
{
    let mut lits = Vec::new(alloc);
    for c in 0..width {
        lits.push(literal_of(e.up(c)))?;
        lits.push(literal_of(e.down(c)))?;
    }
    Ok(lits)
}

/// Where the literal is true, the sum is at least 1, if it goes so far.
fn add_one_output(f: &mut Formula, s: &Sum, most: u32, a: &LitOrTruth) -> Result<(), CnfFault>
    requires limit { f.old.vars ≤ VARS }
    requires inputs { AreThere s.now.vars s.now.inputs }
    requires most { most ≡ s.now.most }
    requires there { s.now.vars + sum_count s.now ≡ f.old.vars }
    requires within { IsWithin f.old.vars a.now }
    ensures { AddsClauses result f.old f.new (gives_output s.now (flip a.now ∷ []) 1) 3 }
{
    if most < 1 {
        return Ok(());
    }
    f.add_clause(&[], &[a.negated(), s.at_least(1)])
}

/// Where both are true, the sum is at least 2, if it goes so far.
fn add_two_outputs(
    f: &mut Formula,
    s: &Sum,
    most: u32,
    a: &LitOrTruth,
    b: &LitOrTruth,
) -> Result<(), CnfFault>
    requires limit { f.old.vars ≤ VARS }
    requires inputs { AreThere s.now.vars s.now.inputs }
    requires most { most ≡ s.now.most }
    requires there { s.now.vars + sum_count s.now ≡ f.old.vars }
    requires a { IsWithin f.old.vars a.now }
    requires b { IsWithin f.old.vars b.now }
    ensures { AddsClauses result f.old f.new (gives_output s.now (flip a.now ∷ flip b.now ∷ []) 2) 3 }
{
    if most < 2 {
        return Ok(());
    }
    f.add_clause(&[], &[a.negated(), b.negated(), s.at_least(2)])
}

/// What an end slope says of the sum.
fn add_slope_outputs(
    f: &mut Formula,
    s: &Sum,
    most: u32,
    rises: &LitOrTruth,
    falls: &LitOrTruth,
) -> Result<(), CnfFault>
    requires limit { f.old.vars ≤ VARS }
    requires inputs { AreThere s.now.vars s.now.inputs }
    requires most { most ≡ s.now.most }
    requires there { s.now.vars + sum_count s.now ≡ f.old.vars }
    requires rises { IsWithin f.old.vars rises.now }
    requires falls { IsWithin f.old.vars falls.now }
    ensures { AddsClauses result f.old f.new
        (gives_output s.now (flip rises.now ∷ []) 1 ++ gives_output s.now (flip falls.now ∷ []) 1) 3 }
{
    add_one_output(f, s, most, rises)?;
    add_one_output(f, s, most, falls)
}

/// What both end slopes say of it.
fn add_end_outputs(f: &mut Formula, e: &EdgeVars, s: &Sum, most: u32) -> Result<(), CnfFault>
    requires limit { f.old.vars ≤ VARS }
    requires inputs { AreThere s.now.vars s.now.inputs }
    requires most { most ≡ s.now.most }
    requires there { s.now.vars + sum_count s.now ≡ f.old.vars }
    requires edge { e.now.first + edge_size e.now.high e.now.width ≤ f.old.vars + 1 }
    ensures { AddsClauses result f.old f.new (end_outputs (lits_of e.now) s.now) 3 }
{
    add_slope_outputs(f, s, most, &e.west_up(), &e.west_down())?;
    add_slope_outputs(f, s, most, &e.east_up(), &e.east_down())
}

/// What end slopes and bends say of it.
fn add_steps_beside(f: &mut Formula, e: &EdgeVars, s: &Sum, most: u32) -> Result<(), CnfFault>
    requires limit { f.old.vars ≤ VARS }
    requires inputs { AreThere s.now.vars s.now.inputs }
    requires most { most ≡ s.now.most }
    requires there { s.now.vars + sum_count s.now ≡ f.old.vars }
    requires edge { e.now.first + edge_size e.now.high e.now.width ≤ f.old.vars + 1 }
    ensures { AddsClauses result f.old f.new (steps_beside (lits_of e.now) s.now) 3 }
{
    add_end_outputs(f, e, s, most)?;
    add_two_outputs(f, s, most, &e.first_bend(), &e.second_bend())
}

/// The sum of an edge's steps, up to a number.
fn add_edge_sum(
    alloc: Global,
    f: &mut Formula,
    e: &EdgeVars,
    width: u16,
    most: u32,
) -> Result<Sum, CnfFault>
    requires limit { f.old.vars ≤ VARS }
    requires width { width ≡ e.now.width }
    requires columns { width ≤ MAX_WIDTH }
    requires most { most ≤ 65535 }
    requires placed { EdgeIsPlaced e.now.first e.now.high e.now.width }
    requires edge { e.now.first + edge_size e.now.high e.now.width ≤ f.old.vars + 1 }
    ensures sum { IfOk result (λ s. s ≡ steps_sum (lits_of e.now) width most f.old.vars) }
    ensures adds { let s = steps_sum (lits_of e.now) width most f.old.vars in
        AddsBlock result f.old f.new (sum_count s) (edge_steps (lits_of e.now) s) 3 }
{
    let inputs = step_literals(alloc, e, width)?;
    let sum = Sum::build(alloc, f, &inputs, most)?;
    // what the types keep
    let _ = f.vars();
    add_steps_beside(f, e, &sum, most)?;
    Ok(sum)
}

/// The sum of the steps of the edge of a number, up to a number.
fn add_sum_of(
    alloc: Global,
    f: &mut Formula,
    g: &PortGraph,
    grid: &Grid,
    most: u32,
    e: u16,
) -> Result<Sum, CnfFault>
    requires there { laws_first g.now grid.now ≤ f.old.vars + 1 }
    requires edge { e < length g.now.edges }
    requires most { most ≤ 65535 }
    ensures sum { IfOk result
        (λ s. s ≡ steps_sum ((drawing_vars g.now grid.now).edge e) grid.now.width most f.old.vars) }
    ensures adds { let s = steps_sum ((drawing_vars g.now grid.now).edge e) grid.now.width most f.old.vars in
        AddsBlock result f.old f.new (sum_count s) (edge_steps ((drawing_vars g.now grid.now).edge e) s) 3 }
{
    // what the types keep
    let _ = f.vars();
    let vars = edge_vars(g, grid, EdgeNo(e));
    add_edge_sum(alloc, f, &vars, grid.width(), most)
}

/// The sum of the steps of the edge of a number, put behind the sums of other edges.
fn add_next_sum(
    alloc: Global,
    f: &mut Formula,
    g: &PortGraph,
    grid: &Grid,
    most: u32,
    e: u16,
    sums: &mut Vec<Sum>,
) -> Result<(), CnfFault>
    requires there { laws_first g.now grid.now ≤ f.old.vars + 1 }
    requires edge { e < length g.now.edges }
    requires most { most ≤ 65535 }
    ensures adds { let s = steps_sum ((drawing_vars g.now grid.now).edge e) grid.now.width most f.old.vars in
        AddsBlock result f.old f.new (sum_count s) (edge_steps ((drawing_vars g.now grid.now).edge e) s) 3 }
    ensures sums { OnOk result
        (sums.new.items ≡ sums.old.items
        ++ steps_sum ((drawing_vars g.now grid.now).edge e) grid.now.width most f.old.vars ∷ []) }
{
    let sum = add_sum_of(alloc, f, g, grid, most, e)?;
    sums.push(sum)?;
    Ok(())
}

/// The sums of edges, one behind another.
fn add_edges_steps(
    alloc: Global,
    f: &mut Formula,
    g: &PortGraph,
    grid: &Grid,
    most: u32,
    edges: &[u16],
    sums: &mut Vec<Sum>,
) -> Result<(), CnfFault>
    requires there { laws_first g.now grid.now ≤ f.old.vars + 1 }
    requires edges { All (λ e. e < length g.now.edges) edges.now }
    requires most { most ≤ 65535 }
    ensures adds { AddsBlock result f.old f.new
        (edges_count (drawing_vars g.now grid.now) grid.now.width most f.old.vars edges.now)
        (edges_steps (drawing_vars g.now grid.now) grid.now.width most f.old.vars edges.now) 3 }
    ensures sums { OnOk result
        (sums.new.items ≡ sums.old.items ++ edges_sums (drawing_vars g.now grid.now) grid.now.width most f.old.vars
        edges.now) }
{
    for e in edges {
        add_next_sum(alloc, f, g, grid, most, *e, sums)?;
    }
    Ok(())
}

/// The outputs of sums, one behind another.
fn outputs_of(alloc: Global, sums: &[Sum]) -> Result<Vec<Lit>, OutOfMemory>
    ensures { IfOk result (λ v. v.items ≡ flat_map sum_outputs sums.now) }
{
    let mut outputs = Vec::new(alloc);
    for sum in sums {
        let own = sum.outputs(alloc)?;
        outputs.extend_from_slice(&own)?;
    }
    Ok(outputs)
}

/// The sum of the outputs of sums, with the bound's variables as its own.
fn add_top_sum(
    alloc: Global,
    f: &mut Formula,
    cap: u32,
    last: u32,
    sums: &mut Vec<Sum>,
) -> Result<(), CnfFault>
    requires limit { f.old.vars ≤ VARS }
    requires inputs { AreThere f.old.vars (flat_map sum_outputs sums.old.items) }
    requires few { length (flat_map sum_outputs sums.old.items) ≤ 65535 }
    requires cap { cap ≤ 65535 }
    requires before { last + cap ≤ f.old.vars }
    ensures adds { let s = sum_vars (flat_map sum_outputs sums.old.items) cap f.old.vars in
        AddsBlock result f.old f.new (sum_count s) (sum_bound s last) 3 }
    ensures sums { OnOk result
        (sums.new.items ≡ sums.old.items ++ sum_vars (flat_map sum_outputs sums.old.items) cap f.old.vars ∷ []) }
{
    let outputs = outputs_of(alloc, sums)?;
    let sum = add_sum_bound(alloc, f, &outputs, cap, last)?;
    sums.push(sum)?;
    Ok(())
}

/// All sums of the diagonal, right behind the bound's variables.
fn add_diagonal_sums(
    alloc: Global,
    f: &mut Formula,
    g: &PortGraph,
    grid: &Grid,
    edges: &[u16],
    cap: u32,
    last: u32,
) -> Result<Vec<Sum>, CnfFault>
    requires there { laws_first g.now grid.now ≤ last + 1 }
    requires edges { edges.now ≡ west_first g.now }
    requires cap { cap ≤ 65535 }
    requires behind { f.old.vars ≡ last + cap }
    ensures adds { let x = drawing_vars g.now grid.now in
        AddsBlock result f.old f.new (diagonal_count x grid.now edges.now last cap)
        (diagonal_bound x grid.now edges.now last cap) 3 }
    ensures sums { IfOk result
        (λ v. v.items ≡ diagonal_sums (drawing_vars g.now grid.now) grid.now edges.now last cap) }
{
    // what the types keep
    let _ = (g.nodes(), grid.width(), f.vars());
    let most = most_of_an_edge(grid, cap);
    let mut sums = Vec::new(alloc);
    add_edges_steps(alloc, f, g, grid, most, edges, &mut sums)?;
    // what the types keep
    let _ = f.vars();
    add_top_sum(alloc, f, cap, last, &mut sums)?;
    Ok(sums)
}

/// The bound of the diagonal, whose variables are those behind the last one; answers its sums.
pub(crate) fn add_diagonal_bound(
    alloc: Global,
    f: &mut Formula,
    g: &PortGraph,
    grid: &Grid,
    edges: &[u16],
    cap: u32,
) -> Result<Vec<Sum>, CnfFault>
    requires there { laws_first g.now grid.now ≤ f.old.vars + 1 }
    requires edges { edges.now ≡ west_first g.now }
    requires cap { cap ≤ 65535 }
    ensures adds { AddsBlock result f.old f.new
        (diagonal_bound_size (drawing_vars g.now grid.now) grid.now edges.now f.old.vars cap)
        (diagonal_bound (drawing_vars g.now grid.now) grid.now edges.now f.old.vars cap) 3 }
    ensures sums { IfOk result (λ v. v.items ≡ diagonal_sums (drawing_vars g.now grid.now) grid.now edges.now f.old.vars
        cap) }
{
    let last = f.vars();
    f.new_vars(cap)?;
    add_diagonal_sums(alloc, f, g, grid, edges, cap, last)
}
