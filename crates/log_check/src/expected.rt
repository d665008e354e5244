// What is expected of a log, as a formula and the parts of its lines.
ghost use Rattle.std.specs.Prelude.{◌≡◌, ◌≤◌, ◌<◌, ◌+◌, ◌++◌, ℕ, [], ◌∷◌, IfOk, OnOk, IsErrOf, length, take};
ghost use Rattle.plan_core.specs.declared.criterion.Criterion.{Criterion as Measured};
ghost use Rattle.plan_core.specs.Values.{value_of, limit_of};
ghost use Rattle.cnf_core.specs.declared.fault.CnfFault.TheVariants.{Room};
ghost use Rattle.track_order.specs.Order.{IsOrderOf};
ghost use Rattle.drawing_cnf.specs.Whole.{IsWhole};
ghost use Rattle.drawing_cnf.specs.Layout.{layout, layout_of};
ghost use Rattle.drawing_cnf.specs.Behind.{bound_behind, PassesWith, HasGrown};
ghost use Rattle.log_check.specs.declared.awaited.Part.TheVariants.{ClausesTo as Clauses, Bounds as BoundsOf};
ghost use Rattle.log_check.specs.Expectation.{expectation, PassesLimits};
ghost use Rattle.log_check.specs.Expecting.{IsExpecting};

use crate::awaited::Part;
use cnf_core::{CnfFault, ROOM};
use drawing_cnf::{Encoded, criterion_bound, encode};
use plan_core::{Criterion, Grid, Order, Values};
use port_graph::PortGraph;
use std::alloc::Global;
use track_order::TrackOrder;

/// The clauses that are expected, and the parts of the lines that have them and their bounds.
#[derive(Drop)]
pub struct Expected<'a> {
    /// The clauses, as the formula that they were added to.
    pub encoded: Encoded<'a>,
    /// The parts of the lines, one after another.
    pub parts: Vec<Part>,
}

/// What is expected without bounds.
fn begun<'a>(
    alloc: Global,
    g: &'a PortGraph,
    t: &'a TrackOrder,
    grid: &'a Grid,
) -> Result<Expected<'a>, CnfFault>
    requires { IsOrderOf g.now t.now }
    ensures so_far { IfOk result (λ e. (cap : Measured → ℕ) →
        IsExpecting (layout g.now t.now grid.now) [] cap e.encoded e.parts.items) }
    ensures full { IsErrOf result Room → (cap : Measured → ℕ) → PassesLimits
        (expectation (layout g.now t.now grid.now) [] cap) }
{
    let encoded = encode(alloc, g, t, grid, ROOM)?;
    let mut parts = Vec::new(alloc);
    parts.push(Part::ClausesTo(encoded.formula().clauses()))?;
    Ok(Expected { encoded, parts })
}

/// Adds a criterion's clauses and bounds, up to a cap.
fn add_bounds<'a>(
    alloc: Global,
    e: &mut Expected<'a>,
    c: Criterion,
    cap: u32,
) -> Result<(), CnfFault>
    requires whole { IsWhole e.old.encoded }
    requires from { 1 ≤ cap }
    requires to { cap ≤ limit_of e.old.encoded.graph e.old.encoded.grid c }
    ensures grown { OnOk result (HasGrown e.old.encoded e.new.encoded (bound_behind e.old.encoded c cap)) }
    ensures parts { OnOk result (e.new.parts.items ≡
        e.old.parts.items ++ Clauses (length e.new.encoded.formula.clauses)
        ∷ BoundsOf c e.old.encoded.formula.vars cap ∷ []) }
    ensures full { IsErrOf result Room → PassesWith e.old.encoded (bound_behind e.old.encoded c cap) }
{
    let last = e.encoded.formula().vars();
    criterion_bound(alloc, &mut e.encoded, c, cap)?;
    let end = e.encoded.formula().clauses();
    e.parts.push(Part::ClausesTo(end))?;
    e.parts.push(Part::Bounds {
        criterion: c,
        last,
        cap,
    })?;
    Ok(())
}

/// Adds the lines of the criterion at a place of an order, behind those of the places before it.
fn add_place<'a>(
    alloc: Global,
    e: &mut Expected<'a>,
    order: &Order,
    caps: &Values,
    i: usize,
) -> Result<(), CnfFault>
    requires place { i < length order.now }
    requires within { (c : Measured) → value_of caps.now c ≤ limit_of e.old.encoded.graph e.old.encoded.grid c }
    requires so_far { IsExpecting (layout_of e.old.encoded) (take i order.now) (value_of caps.now) e.old.encoded
        e.old.parts.items }
    ensures so_far { OnOk result
        (IsExpecting (layout_of e.old.encoded) (take (i + 1) order.now) (value_of caps.now) e.new.encoded
        e.new.parts.items) }
    ensures full { IsErrOf result Room → PassesLimits (expectation (layout_of e.old.encoded) (take (i + 1) order.now)
        (value_of caps.now)) }
{
    let c = order.get(i);
    let cap = caps.of(c);
    if cap == 0 {
        return Ok(());
    }
    add_bounds(alloc, e, c, cap)
}

/// Adds the lines of all criteria of an order.
fn add_places<'a>(
    alloc: Global,
    e: &mut Expected<'a>,
    order: &Order,
    caps: &Values,
) -> Result<(), CnfFault>
    requires within { (c : Measured) → value_of caps.now c ≤ limit_of e.old.encoded.graph e.old.encoded.grid c }
    requires so_far { IsExpecting (layout_of e.old.encoded) [] (value_of caps.now) e.old.encoded e.old.parts.items }
    ensures so_far { OnOk result
        (IsExpecting (layout_of e.old.encoded) order.now (value_of caps.now) e.new.encoded e.new.parts.items) }
    ensures full { IsErrOf result Room → PassesLimits (expectation (layout_of e.old.encoded) order.now
        (value_of caps.now)) }
{
    for i in 0..order.len() {
        add_place(alloc, e, order, caps, i)?;
    }
    Ok(())
}

/// What is expected of a log of the drawings' clauses, with so many bounds of each criterion of an order. `Room`
/// comes exactly where it passes the limits, want of memory aside.
pub fn expected_of<'a>(
    alloc: Global,
    g: &'a PortGraph,
    t: &'a TrackOrder,
    grid: &'a Grid,
    order: &Order,
    caps: &Values,
) -> Result<Expected<'a>, CnfFault>
    requires order { IsOrderOf g.now t.now }
    requires within { (c : Measured) → value_of caps.now c ≤ limit_of g.now grid.now c }
    ensures so_far { IfOk result (λ e. IsExpecting (layout g.now t.now grid.now) order.now (value_of caps.now) e.encoded
        e.parts.items) }
    ensures fits { OnOk result (PassesLimits (expectation (layout g.now t.now grid.now) order.now (value_of caps.now)) →
        ⊥) }
    ensures full { IsErrOf result Room → PassesLimits (expectation (layout g.now t.now grid.now) order.now
        (value_of caps.now)) }
{
    let mut e = begun(alloc, g, t, grid)?;
    add_places(alloc, &mut e, order, caps)?;
    let _ = e.encoded.formula().words();
    Ok(e)
}
