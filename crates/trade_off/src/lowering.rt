// The least value of one criterion, under bounds.
ghost use Rattle.std.specs.Prelude.{◌≡◌, ◌≤◌, ◌++◌, ◌∷◌, [], All, IfOk, OnOk, OnErr, IsErrOf, None};
ghost use Rattle.outside_io.specs.Counts.{Rose};
ghost use Rattle.plan_core.specs.declared.criterion.Criterion.{Criterion as Measure};
ghost use Rattle.plan_core.specs.Values.{values_of, value_of};
ghost use Rattle.search_least.specs.Asked.{below_limit, AreMet, IsWithinCap};
ghost use Rattle.search_least.specs.Task.{IsLawful, greatest_of};
ghost use Rattle.refute_log.specs.Steps.{Continues, KnowsSome, Leaves};
ghost use Rattle.trade_off.specs.Least.{IsLeastUnder, AreBeside, lowered, HaveComeTo, EndsLowered, AreAsked};

use plan_core::{Criterion, OutOfMemory};
use plan_geometry::{Drawing, values};
use refute_log::Stop;
use search_least::{Below, MinFault, Oracle, Reply};
use std::alloc::Global;

/// The drawing with the least value so far, and why the search stopped, if it did.
#[derive(Drop)]
pub(crate) struct Lowered {
    pub(crate) least: Drawing,
    pub(crate) stop: Option<Stop>,
}

/// The held bounds, and one more.
fn question(
    alloc: Global,
    held: &[Below],
    c: Criterion,
    limit: u32,
) -> Result<Vec<Below>, OutOfMemory>
    ensures { IfOk result (λ v. v.items ≡ held.now ++ below_limit c limit ∷ []) }
{
    let mut bounds = Vec::from_slice(alloc, held)?;
    bounds.push(Below {
        criterion: c,
        limit,
    })?;
    Ok(bounds)
}

/// From a drawing that meets the held bounds on: asks for less of the criterion until there is none.
pub(crate) fn lower<O: Oracle>(
    alloc: Global,
    oracle: &mut O,
    held: &[Below],
    c: Criterion,
    first: Drawing,
) -> Result<Lowered, MinFault>
    requires ready { O.ready oracle.old }
    requires known { KnowsSome O.knows oracle.old }
    requires held { All (IsWithinCap (O.caps oracle.old)) held.now }
    requires beside { AreBeside c held.now }
    requires bound { O.caps oracle.old c ≡ greatest_of (O.task oracle.old) c }
    requires lawful { IsLawful (O.task oracle.old) first }
    requires met { AreMet (values_of first) held.now }
    ensures ready { OnOk result (O.ready oracle.new) }
    ensures known { OnOk result (KnowsSome O.knows oracle.new) }
    ensures task { O.task oracle.new ≡ O.task oracle.old }
    ensures caps { OnOk result (O.caps oracle.new ≡ O.caps oracle.old) }
    ensures lawful { IfOk result (λ r. IsLawful (O.task oracle.old) r.least) }
    ensures met { IfOk result (λ r. AreMet (values_of r.least) held.now) }
    ensures no_more { IfOk result (λ r. value_of (values_of r.least) c ≤ value_of (values_of first) c) }
    ensures least { IfOk result (λ r. r.stop ≡ None → IsLeastUnder (O.task oracle.old) held.now c r.least) }
    ensures lines { let p = O.task oracle.old in
        IfOk result (λ r. (m : Measure) → Continues O.knows O.log O.learnt oracle.old oracle.new
        (AreAsked p (HaveComeTo m c (lowered held.now c first)) (EndsLowered p held.now c m r.least r.stop))) }
    ensures leaves { OnErr result (Leaves (O.task oracle.old).budget [] (O.knows oracle.old) (O.log oracle.old)
        (O.log oracle.new)) }
    ensures later { O.is_later oracle.old oracle.new }
    ensures faults { O.faults oracle.old ≤ O.faults oracle.new }
    ensures cause { IsErrOf result MinFault.Log → Rose (O.faults oracle.old) (O.faults oracle.new) }
{
    let mut least = first;
    let mut value = values(&least).of(c);
    while value > 0 {
        let bounds = question(alloc, held, c, value)?;
        match oracle.ask(&bounds, Some(&least))? {
            Reply::Found(d) => {
                value = values(&d).of(c);
                least = d;
            }
            Reply::Refuted => {
                return Ok(Lowered { least, stop: None });
            }
            Reply::Stopped(stop) => {
                return Ok(Lowered {
                    least,
                    stop: Some(stop),
                });
            }
        }
    }
    Ok(Lowered { least, stop: None })
}
