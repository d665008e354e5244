// The whole formula.
ghost use Rattle.std.specs.Prelude.{◌≡◌, ◌≤◌, ◌+◌, ◌-◌, ◌++◌, length, OnOk};
ghost use Rattle.cnf_core.specs.declared.limits.TheConstants.{VARS};
ghost use Rattle.cnf_core.specs.Clause.{words_of};
ghost use Rattle.cnf_core.specs.Added.{AddsBlock};
ghost use Rattle.track_order.specs.Order.{is_above, is_overlap};
ghost use Rattle.cnf_laws.specs.Expected.{drawing_vars, laws_first, last_instances, later_instances};
ghost use Rattle.cnf_laws.specs.Expected.{instances};
ghost use Rattle.cnf_laws.specs.Expected.{expected_clauses, expected_size, formula_clauses, formula_size};
ghost use Rattle.cnf_laws.specs.AddsLaws.{AddsLaws};

use crate::edge_laws::{add_aligned_nodes, add_edge_pairs};
use crate::node_laws::{add_apart_pairs, add_ordered_pairs};
use crate::nodes::add_base;
use cnf_core::{CnfFault, Formula};
use plan_core::Grid;
use port_graph::PortGraph;
use track_order::TrackOrder;

/// Laws 5, 6 and 7.
fn add_last_laws(
    f: &mut Formula,
    g: &PortGraph,
    t: &TrackOrder,
    grid: &Grid,
) -> Result<(), CnfFault>
    requires there { laws_first g.now grid.now ≤ f.old.vars + 1 }
    requires edges { t.now.edges ≡ length g.now.edges }
    ensures { AddsLaws result f.old f.new g.now (drawing_vars g.now grid.now) grid.now.width
        (last_instances g.now (is_above t.now) (is_overlap t.now)) 7 }
{
    add_apart_pairs(f, g, grid)?;
    add_edge_pairs(f, g, grid, t)
}

/// Laws 4 to 7.
fn add_later_laws(
    f: &mut Formula,
    g: &PortGraph,
    t: &TrackOrder,
    grid: &Grid,
) -> Result<(), CnfFault>
    requires there { laws_first g.now grid.now ≤ f.old.vars + 1 }
    requires edges { t.now.edges ≡ length g.now.edges }
    ensures { AddsLaws result f.old f.new g.now (drawing_vars g.now grid.now) grid.now.width
        (later_instances g.now (is_above t.now) (is_overlap t.now)) 7 }
{
    add_aligned_nodes(f, g, grid)?;
    add_last_laws(f, g, t, grid)
}

/// Laws 2 and 4 to 7.
fn add_laws(f: &mut Formula, g: &PortGraph, t: &TrackOrder, grid: &Grid) -> Result<(), CnfFault>
    requires there { laws_first g.now grid.now ≤ f.old.vars + 1 }
    requires edges { t.now.edges ≡ length g.now.edges }
    ensures { AddsLaws result f.old f.new g.now (drawing_vars g.now grid.now) grid.now.width
        (instances g.now (is_above t.now) (is_overlap t.now)) 7 }
{
    add_ordered_pairs(f, g, grid)?;
    add_later_laws(f, g, t, grid)
}

/// The formula's variables and clauses.
fn add_formula(f: &mut Formula, g: &PortGraph, t: &TrackOrder, grid: &Grid) -> Result<(), CnfFault>
    requires empty { f.old.vars ≡ 0 }
    requires edges { t.now.edges ≡ length g.now.edges }
    ensures { let laws = instances g.now (is_above t.now) (is_overlap t.now) in
        AddsBlock result f.old f.new (expected_size g.now grid.now laws) (expected_clauses g.now grid.now laws) 7 }
{
    add_base(f, g, grid)?;
    add_laws(f, g, t, grid)
}

/// Fills an empty formula; where the words and the variables fit, and only there.
pub fn fill(f: &mut Formula, g: &PortGraph, t: &TrackOrder, grid: &Grid) -> Result<(), CnfFault>
    requires empty { f.old.vars ≡ 0 }
    requires edges { t.now.edges ≡ length g.now.edges }
    ensures adds { AddsBlock result f.old f.new (formula_size g.now (is_above t.now) (is_overlap t.now) grid.now)
        (formula_clauses g.now (is_above t.now) (is_overlap t.now) grid.now) 7 }
    ensures fits { OnOk result
        (words_of (f.old.clauses ++ formula_clauses g.now (is_above t.now) (is_overlap t.now) grid.now) ≤ f.old.room) }
    ensures few { OnOk result (formula_size g.now (is_above t.now) (is_overlap t.now) grid.now ≤ VARS) }
{
    let outcome = add_formula(f, g, t, grid);
    // what the types keep
    let _ = f.words();
    outcome
}
