// Nodes and edges of the formula.
ghost use Rattle.std.specs.Prelude.{◌≡◌, ◌≤◌, ◌<◌, ◌+◌, ◌-◌, ◌*◌, ◌++◌, length, IfOk};
ghost use Rattle.cnf_core.specs.declared.limits.TheConstants.{VARS};
ghost use Rattle.cnf_core.specs.Clause.{words_of};
ghost use Rattle.cnf_core.specs.Formula.{each};
ghost use Rattle.cnf_core.specs.Added.{AddsClauses, AddsBlock};
ghost use Rattle.edge_shape.specs.EdgeVars.{edge_size};
ghost use Rattle.cnf_laws.specs.Rank.{west_rank};
ghost use Rattle.cnf_laws.specs.Expected.{ints_at_place, drawing_vars, edge_first, edges_first, node_clauses};
ghost use Rattle.cnf_laws.specs.Expected.{edge_part};
ghost use Rattle.cnf_laws.specs.Expected.{base_clauses, laws_first, area};
ghost use Rattle.cnf_laws.specs.Joined.{SoundJoined, CoversJoined};

use crate::rank::node_vars;
use cnf_core::{CnfFault, Formula};
use edge_shape::add_edge;
use order_int::add_int;
use plan_core::{EdgeNo, Grid, NodeNo};
use port_graph::PortGraph;

/// The clauses of a node's integers.
#[tactic(auto, using(cnf_core::proofs::StepLemmas::adds_longer))]
fn add_node(f: &mut Formula, g: &PortGraph, grid: &Grid, n: u16) -> Result<(), CnfFault>
    requires limit { f.old.vars ≤ VARS }
    requires n { n < length g.now.nodes }
    requires there { edges_first g.now grid.now ≤ f.old.vars + 1 }
    ensures { AddsClauses result f.old f.new (node_clauses (ints_at_place grid.now (west_rank g.now n))) 2 }
{
    let vars = node_vars(g, grid, NodeNo(n));
    add_int(f, &vars.y)?;
    add_int(f, &vars.x)
}

/// The clauses of all nodes' integers.
fn add_node_clauses(f: &mut Formula, g: &PortGraph, grid: &Grid, count: u16) -> Result<(), CnfFault>
    requires limit { f.old.vars ≤ VARS }
    requires count { count ≡ length g.now.nodes }
    requires there { edges_first g.now grid.now ≤ f.old.vars + 1 }
    ensures { AddsClauses result f.old f.new (each (λ n. node_clauses (ints_at_place grid.now (west_rank g.now n))) 0
        count) 2 }
{
    for n in 0..count {
        add_node(f, g, grid, n)?;
    }
    Ok(())
}

/// All nodes.
fn add_nodes(f: &mut Formula, g: &PortGraph, grid: &Grid, count: u16) -> Result<(), CnfFault>
    requires empty { f.old.vars ≡ 0 }
    requires count { count ≡ length g.now.nodes }
    ensures { AddsBlock result f.old f.new (count * (grid.now.height + grid.now.width))
        (each (λ n. node_clauses (ints_at_place grid.now (west_rank g.now n))) 0 count) 7 }
{
    let high = u32::from(grid.height());
    let width = u32::from(grid.width());
    // what the types keep
    let _ = g.nodes();
    f.new_vars(u32::from(count) * (high + width))?;
    add_node_clauses(f, g, grid, count)
}

/// An edge.
fn add_edge_at(f: &mut Formula, g: &PortGraph, grid: &Grid, e: u16) -> Result<(), CnfFault>
    requires there { f.old.vars + 1 ≡ edge_first g.now grid.now e }
    requires e { e < length g.now.edges }
    ensures { AddsBlock result f.old f.new (edge_size grid.now.height grid.now.width)
        (edge_part g.now (drawing_vars g.now grid.now) grid.now e) 7 }
{
    // what the types keep
    let _ = g.nodes();
    let west = node_vars(g, grid, g.west(EdgeNo(e)));
    let east = node_vars(g, grid, g.east(EdgeNo(e)));
    add_edge(f, grid, &west, &east)?;
    Ok(())
}

/// All edges.
fn add_edges(f: &mut Formula, g: &PortGraph, grid: &Grid) -> Result<(), CnfFault>
    requires there { f.old.vars + 1 ≡ edges_first g.now grid.now }
    ensures { AddsBlock result f.old f.new (length g.now.edges * edge_size grid.now.height grid.now.width)
        (each (edge_part g.now (drawing_vars g.now grid.now) grid.now) 0 (length g.now.edges)) 7 }
{
    let end = g.edges();
    for e in 0..end {
        add_edge_at(f, g, grid, e)?;
    }
    Ok(())
}

/// Nodes and edges, without what their clauses say.
fn add_nodes_and_edges(f: &mut Formula, g: &PortGraph, grid: &Grid) -> Result<(), CnfFault>
    requires empty { f.old.vars ≡ 0 }
    ensures { AddsBlock result f.old f.new
        (length g.now.nodes * (grid.now.height + grid.now.width) + length g.now.edges * edge_size grid.now.height
        grid.now.width)
        (base_clauses g.now (drawing_vars g.now grid.now) grid.now) 7 }
{
    let count = g.nodes();
    add_nodes(f, g, grid, count)?;
    add_edges(f, g, grid)
}

/// Nodes and edges: every model of their clauses says a drawing that fits the graph and has laws 1 and 3, and every
/// such drawing has a model. The other laws' clauses go behind them, as in `encode`.
pub fn add_base(f: &mut Formula, g: &PortGraph, grid: &Grid) -> Result<(), CnfFault>
    requires empty { f.old.vars ≡ 0 }
    ensures adds { AddsBlock result f.old f.new
        (length g.now.nodes * (grid.now.height + grid.now.width) + length g.now.edges * edge_size grid.now.height
        grid.now.width)
        (base_clauses g.now (drawing_vars g.now grid.now) grid.now) 7 }
    ensures words { words_of (base_clauses g.now (drawing_vars g.now grid.now) grid.now)
        ≤ length g.now.nodes * (5 * area grid.now) + length g.now.edges * (2000 * area grid.now) }
    ensures few { laws_first g.now grid.now ≤ VARS + 1 }
    ensures sound { SoundJoined g.now grid.now (base_clauses g.now (drawing_vars g.now grid.now) grid.now) }
    ensures covers { CoversJoined g.now grid.now (base_clauses g.now (drawing_vars g.now grid.now) grid.now) }
{
    // what the types keep
    let _ = (g.nodes(), grid.width());
    add_nodes_and_edges(f, g, grid)
}
