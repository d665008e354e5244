// The formula in which an explanation is looked for.
ghost use Rattle.std.specs.Prelude.{◌≡◌, ◌≤◌, ◌<◌, ◌⊎◌, IsOk, IfOk, IsErrOf, map};
ghost use Rattle.cnf_core.specs.declared.limits.TheConstants.{VARS, ROOM};
ghost use Rattle.cnf_core.specs.declared.fault.CnfFault.TheVariants.{Room};
ghost use Rattle.cnf_core.specs.Clause.{words_of};
ghost use Rattle.track_order.specs.Order.{is_above, is_overlap, IsOrderOf};
ghost use Rattle.drawing_cnf.specs.Expected.{instances, most_words, most_variables};
ghost use Rattle.law_core.specs.Law.{instance_of};
ghost use Rattle.law_core.specs.Choices.{why_clauses, why_size};
ghost use Rattle.law_core.specs.Chosen.{SoundChoices, CoversChoices};

use crate::formula::loose_formula;
use crate::listing::all_laws;
use crate::parties::Law;
use cnf_core::{CnfFault, Formula};
use plan_core::Grid;
use port_graph::PortGraph;
use std::alloc::Global;
use track_order::TrackOrder;

/// The laws to choose of a graph on a grid, and the formula of its loose drawings in which each can be selected.
#[derive(Drop)]
pub struct WhyFormula {
    /// The laws, each with its parties; a law's selecting variable is that of its place.
    pub laws: Vec<Law>,
    /// The variables and clauses.
    pub formula: Formula,
}

/// The formula of a search for a reason; what its clauses say isn't in its contract.
fn make_why_formula(
    alloc: Global,
    g: &PortGraph,
    t: &TrackOrder,
    grid: &Grid,
    room: u32,
) -> Result<WhyFormula, CnfFault>
    requires order { IsOrderOf g.now t.now }
    requires room { room ≤ ROOM }
    ensures laws { IfOk result
        (λ w. map instance_of w.laws.items ≡ instances g.now (is_above t.now) (is_overlap t.now)) }
    ensures clauses { IfOk result
        (λ w. w.formula.clauses ≡ why_clauses g.now (is_above t.now) (is_overlap t.now) grid.now) }
    ensures vars { IfOk result (λ w. w.formula.vars ≡ why_size g.now (is_above t.now) (is_overlap t.now) grid.now) }
    ensures kept { IfOk result (λ w. w.formula.room ≡ room) }
    ensures words_fit { IsOk result → words_of (why_clauses g.now (is_above t.now) (is_overlap t.now) grid.now) ≤ room }
    ensures vars_fit { IsOk result → why_size g.now (is_above t.now) (is_overlap t.now) grid.now ≤ VARS }
    ensures full { IsErrOf result Room → (VARS < why_size g.now (is_above t.now) (is_overlap t.now) grid.now)
        ⊎ (room < words_of (why_clauses g.now (is_above t.now) (is_overlap t.now) grid.now)) }
{
    let laws = all_laws(alloc, g, t)?;
    let formula = loose_formula(alloc, g, grid, &laws, room)?;
    Ok(WhyFormula { laws, formula })
}

/// The formula of loose drawings with all laws of a graph, whose edges have this order, to choose.
///
/// Every model gives a loose drawing that meets each selected law, and every loose drawing, with each choice of laws
/// that it meets, has a model. `Room` comes exactly where the words or the variables are more than there may be, want
/// of memory aside.
pub fn why_formula(
    alloc: Global,
    g: &PortGraph,
    t: &TrackOrder,
    grid: &Grid,
    room: u32,
) -> Result<WhyFormula, CnfFault>
    requires order { IsOrderOf g.now t.now }
    requires room { room ≤ ROOM }
    ensures laws { IfOk result
        (λ w. map instance_of w.laws.items ≡ instances g.now (is_above t.now) (is_overlap t.now)) }
    ensures clauses { IfOk result
        (λ w. w.formula.clauses ≡ why_clauses g.now (is_above t.now) (is_overlap t.now) grid.now) }
    ensures vars { IfOk result (λ w. w.formula.vars ≡ why_size g.now (is_above t.now) (is_overlap t.now) grid.now) }
    ensures kept { IfOk result (λ w. w.formula.room ≡ room) }
    ensures words_fit { IsOk result → words_of (why_clauses g.now (is_above t.now) (is_overlap t.now) grid.now) ≤ room }
    ensures vars_fit { IsOk result → why_size g.now (is_above t.now) (is_overlap t.now) grid.now ≤ VARS }
    ensures full { IsErrOf result Room → (VARS < why_size g.now (is_above t.now) (is_overlap t.now) grid.now)
        ⊎ (room < words_of (why_clauses g.now (is_above t.now) (is_overlap t.now) grid.now)) }
    ensures words_bounded { words_of (why_clauses g.now (is_above t.now) (is_overlap t.now) grid.now)
        ≤ most_words g.now grid.now }
    ensures vars_bounded { why_size g.now (is_above t.now) (is_overlap t.now) grid.now ≤ most_variables g.now grid.now }
    ensures sound { SoundChoices g.now grid.now (instances g.now (is_above t.now) (is_overlap t.now))
        (why_clauses g.now (is_above t.now) (is_overlap t.now) grid.now) }
    ensures covers { CoversChoices g.now grid.now (instances g.now (is_above t.now) (is_overlap t.now))
        (why_clauses g.now (is_above t.now) (is_overlap t.now) grid.now) }
{
    // what the types keep
    let _ = (g.nodes(), g.edges(), grid.width());
    make_why_formula(alloc, g, t, grid, room)
}
