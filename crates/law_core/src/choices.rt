// The clauses of laws to choose, one law after another.
ghost use Rattle.std.specs.Prelude.{◌≡◌, ◌≤◌, ◌+◌, ◌∷◌, [], All, IfOk, length, map};
ghost use Rattle.cnf_core.specs.Lit.{positive_of, negative_of};
ghost use Rattle.cnf_core.specs.Clause.{AreThere};
ghost use Rattle.cnf_core.specs.Added.{AddsBlock};
ghost use Rattle.drawing_cnf.specs.Expected.{drawing_vars, laws_first};
ghost use Rattle.law_core.specs.Law.{instance_of, HasParties};
ghost use Rattle.law_core.specs.Choices.{law_size, law_clauses, choice_size, choice_clauses};
ghost use Rattle.law_core.specs.Choices.{choices_size, choices_clauses};

use crate::parties::Law;
use cnf_core::{CnfFault, Formula, Lit, Var};
use drawing_cnf::{add_aligned_law, add_apart_law, add_ordered_law, add_over_law, add_parted_law};
use plan_core::Grid;
use port_graph::PortGraph;

/// A law, unless one of these literals is true.
fn add_law(
    f: &mut Formula,
    g: &PortGraph,
    grid: &Grid,
    law: Law,
    unless: &[Lit],
) -> Result<(), CnfFault>
    requires there { laws_first g.now grid.now ≤ f.old.vars + 1 }
    requires parties { HasParties g.now law }
    requires unless { AreThere f.old.vars unless.now }
    ensures { AddsBlock result f.old f.new (law_size (instance_of law))
        (law_clauses g.now (drawing_vars g.now grid.now) grid.now.width (instance_of law) (f.old.vars + 1) unless.now)
        (length unless.now + 7) }
{
    match law {
        Law::Ordered(u, v) => add_ordered_law(f, g, grid, u, v, unless),
        Law::Aligned(n) => add_aligned_law(f, g, grid, n, unless),
        Law::Apart(u, v) => add_apart_law(f, g, grid, u, v, unless),
        Law::Over(e, h) => add_over_law(f, g, grid, e, h, unless),
        Law::Parted(e, h) => add_parted_law(f, g, grid, e, h, unless),
    }
}

/// A selecting variable, and the one behind it; gives the literal that says that nothing is selected.
fn add_selector(f: &mut Formula) -> Result<Lit, CnfFault>
    ensures adds { AddsBlock result f.old f.new 2
        ((negative_of (f.old.vars + 1) ∷ positive_of (f.old.vars + 1 + 1) ∷ []) ∷ []) 8 }
    ensures off { IfOk result (λ l. l ≡ negative_of (f.old.vars + 1)) }
{
    let first = f.new_vars(2)?;
    // what the types keep
    let _ = f.vars();
    let off = Lit::new(first, false);
    f.add(&[off, Lit::new(Var(first.0 + 1), true)])?;
    Ok(off)
}

/// A law that holds where its selecting variable is true.
pub(crate) fn add_choice(
    f: &mut Formula,
    g: &PortGraph,
    grid: &Grid,
    law: Law,
) -> Result<(), CnfFault>
    requires there { laws_first g.now grid.now ≤ f.old.vars + 1 }
    requires parties { HasParties g.now law }
    ensures { AddsBlock result f.old f.new (choice_size (instance_of law))
        (choice_clauses g.now (drawing_vars g.now grid.now) grid.now.width (instance_of law) (f.old.vars + 1)) 8 }
{
    let off = add_selector(f)?;
    // what the types keep
    let _ = f.vars();
    add_law(f, g, grid, law, &[off])
}

/// Laws to choose, one behind another.
pub(crate) fn add_choices(
    f: &mut Formula,
    g: &PortGraph,
    grid: &Grid,
    laws: &[Law],
) -> Result<(), CnfFault>
    requires there { laws_first g.now grid.now ≤ f.old.vars + 1 }
    requires parties { All (HasParties g.now) laws.now }
    ensures { AddsBlock result f.old f.new (choices_size (map instance_of laws.now))
        (choices_clauses g.now (drawing_vars g.now grid.now) grid.now.width (f.old.vars + 1)
        (map instance_of laws.now)) 8 }
{
    for law in laws {
        add_choice(f, g, grid, *law)?;
    }
    Ok(())
}
