// The least value of one criterion.
ghost use Rattle.std.specs.Prelude.{◌≡◌, ◌≤◌, ◌<◌, ◌+◌, ◌++◌, ◌⊎◌, [], ◌∷◌, All, IfOk, OnOk, OnErr, IsErrOf, length};
ghost use Rattle.std.specs.Prelude.{slice_get, Some};
ghost use Rattle.outside_io.specs.Counts.{Rose};
ghost use Rattle.plan_core.specs.declared.criterion.Criterion.{Criterion as Measure};
ghost use Rattle.plan_core.specs.Values.{values_of, value_of};
ghost use Rattle.plan_core.specs.Order.{IsOrder};
ghost use Rattle.search_least.specs.Asked.{below_limit, IsWithinCap};
ghost use Rattle.search_least.specs.State.{AreBefore};
ghost use Rattle.search_least.specs.Task.{IsLawful};
ghost use Rattle.refute_log.specs.Steps.{Continues, Leaves};
ghost use Rattle.search_least.specs.Reached.{RunTo};

use crate::MinFault;
use crate::oracle::{Below, Oracle, Reply};
use plan_core::{Criterion, Order, OutOfMemory};
use plan_geometry::{Drawing, values};
use refute_log::Stop;
use std::alloc::Global;

/// The best drawing, and why the search stopped, if it did.
#[derive(Drop)]
pub(crate) struct Lowered {
    pub(crate) best: Drawing,
    pub(crate) stop: Option<Stop>,
}

/// The held bounds, and one more.
fn question(
    alloc: Global,
    held: &[Below],
    c: Criterion,
    limit: u32,
) -> Result<Vec<Below>, OutOfMemory>
    ensures { IfOk result (λ v. v.items ≡ held.now ++ below_limit c limit ∷ []) }
{
    let mut bounds = Vec::from_slice(alloc, held)?;
    bounds.push(Below {
        criterion: c,
        limit,
    })?;
    Ok(bounds)
}

/// Asks for less of the criterion at place `i`, with those before it held, until there is none. Less height and fewer
/// bends are looked for from nothing, less diagonal and less width near the best drawing.
pub(crate) fn lower<O: Oracle>(
    alloc: Global,
    oracle: &mut O,
    order: &Order,
    i: usize,
    held: &[Below],
    best: Drawing,
) -> Result<Lowered, MinFault>
    requires ready { O.ready oracle.old }
    requires place { i < length order.now }
    requires order { IsOrder order.now }
    requires held { All (IsWithinCap (O.caps oracle.old)) held.now }
    requires before { AreBefore order.now i held.now }
    requires bound { (c : Measure) → slice_get order.now i ≡ Some c → value_of (values_of best) c
        ≤ O.caps oracle.old c }
    requires lawful { IsLawful (O.task oracle.old) best }
    ensures ready { OnOk result (O.ready oracle.new) }
    ensures lawful { IfOk result (λ r. IsLawful (O.task oracle.old) r.best) }
    ensures less { IfOk result (λ r. (c : Measure) → slice_get order.now i ≡ Some c →
        (r.best ≡ best) ⊎ (value_of (values_of r.best) c < value_of (values_of best) c)) }
    ensures vars { OnOk result (O.vars oracle.new ≡ O.vars oracle.old) }
    ensures task { O.task oracle.new ≡ O.task oracle.old }
    ensures caps { OnOk result (O.caps oracle.new ≡ O.caps oracle.old) }
    ensures lines { IfOk result (λ r. Continues O.knows O.log O.learnt oracle.old oracle.new (λ lines more.
        RunTo (O.task oracle.old) order.now i held.now best r.stop r.best lines more)) }
    ensures leaves { OnErr result (Leaves (O.task oracle.old).budget [] (O.knows oracle.old) (O.log oracle.old)
        (O.log oracle.new)) }
    ensures later { O.is_later oracle.old oracle.new }
    ensures faults { O.faults oracle.old ≤ O.faults oracle.new }
    ensures cause { IsErrOf result MinFault.Log → Rose (O.faults oracle.old) (O.faults oracle.new) }
{
    let c = order.get(i);
    let mut best = best;
    let mut value = values(&best).of(c);
    while value > 0 {
        let bounds = question(alloc, held, c, value)?;
        let near = match c {
            Criterion::Height | Criterion::Bends => None,
            Criterion::Diagonal | Criterion::Width => Some(&best),
        };
        match oracle.ask(&bounds, near)? {
            Reply::Found(d) => {
                value = values(&d).of(c);
                best = d;
            }
            Reply::Refuted => {
                return Ok(Lowered { best, stop: None });
            }
            Reply::Stopped(stop) => {
                return Ok(Lowered {
                    best,
                    stop: Some(stop),
                });
            }
        }
    }
    Ok(Lowered { best, stop: None })
}
