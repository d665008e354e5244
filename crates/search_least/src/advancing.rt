// One place of the order after another.
ghost use Rattle.std.specs.Prelude.{◌≡◌, ◌≤◌, ◌<◌, ◌+◌, ◌++◌, ◌⊎◌, min, None, All, IfOk, OnOk, OnErr, IsErrOf, length};
ghost use Rattle.std.specs.Prelude.{slice_get, Some, MatchOption};
ghost use Rattle.outside_io.specs.Counts.{Rose};
ghost use Rattle.plan_core.specs.declared.criterion.Criterion.{Criterion as Measure};
ghost use Rattle.plan_core.specs.Values.{values_of, value_of};
ghost use Rattle.plan_core.specs.Order.{IsOrder};
ghost use Rattle.refute_log.specs.Expected.{expected_vars};
ghost use Rattle.search_least.specs.Task.{IsLawful};
ghost use Rattle.search_least.specs.Asked.{IsWithinCap};
ghost use Rattle.refute_log.specs.Steps.{Continues};
ghost use Rattle.search_least.specs.Caps.{AllZero};
ghost use Rattle.search_least.specs.State.{IsFirstPositive, AreBefore, Counted, SearchState, GoesTo, IsCapOf};
ghost use Rattle.search_least.specs.State.{BoundedSo, LeadsTo, LeavesSearch, hold as hold_of};

use crate::MinFault;
use crate::lowering::lower;
use crate::oracle::{Below, Built, Oracle};
use plan_core::{Criterion, Order, OutOfMemory, Values};
use plan_geometry::{Drawing, values};
use refute_log::Stop;
use std::alloc::Global;

/// The best drawing, why the search stopped, if it did, and how many criteria are settled then.
#[derive(Drop)]
pub(crate) struct Advanced {
    pub(crate) best: Drawing,
    pub(crate) stop: Option<Stop>,
    pub(crate) settled: usize,
}

/// The first place from this one on with a positive value.
fn next_positive(order: &Order, from: usize, v: &Values) -> Option<usize>
    ensures { MatchOption result (AllZero order.now from v.now) (λ j. IsFirstPositive order.now from j v.now) }
{
    for j in from..order.len() {
        if v.of(order.get(j)) > 0 {
            return Some(j);
        }
    }
    None
}

/// Keeps the bound that holds the least value, where there is one.
fn hold(held: &mut Vec<Below>, c: Criterion, least: u32, cap: u32) -> Result<(), OutOfMemory>
    ensures { OnOk result (held.new.items ≡ held.old.items ++ hold_of c least cap) }
{
    if least < cap {
        held.push(Below {
            criterion: c,
            limit: least + 1,
        })?;
    }
    Ok(())
}

/// One more than the value, and at most the greatest.
fn cap_for(value: u32, most: u32) -> u32
    ensures { result ≡ min (value + 1) most }
{
    if value < most { value + 1 } else { most }
}

/// Adds the bounds of the criterion at place `i`, and finds its least value. Where there is no room for the bounds, the
/// criteria before `place` are settled.
fn bounded<O: Oracle>(
    alloc: Global,
    oracle: &mut O,
    order: &Order,
    i: usize,
    held: &[Below],
    best: Drawing,
    place: usize,
    cap: u32,
) -> Result<Advanced, MinFault>
    requires ready { O.ready oracle.old }
    requires order { IsOrder order.now }
    requires at { i < length order.now }
    requires counted { Counted (O.task oracle.old) order.now i (O.caps oracle.old) (O.vars oracle.old) }
    requires lawful { IsLawful (O.task oracle.old) best }
    requires held { All (IsWithinCap (O.caps oracle.old)) held.now }
    requires before { AreBefore order.now i held.now }
    requires first { IsFirstPositive order.now i place (values_of best) }
    requires cap { (c : Measure) → slice_get order.now i ≡ Some c → IsCapOf (O.task oracle.old) c (values_of best) cap }
    ensures ready { IfOk result (λ r. r.stop ≡ None → O.ready oracle.new) }
    ensures task { O.task oracle.new ≡ O.task oracle.old }
    ensures lawful { IfOk result (λ r. IsLawful (O.task oracle.old) r.best) }
    ensures less { IfOk result (λ r. (c : Measure) → slice_get order.now i ≡ Some c →
        (r.best ≡ best) ⊎ (value_of (values_of r.best) c < value_of (values_of best) c)) }
    ensures counted { IfOk result (λ r. r.stop ≡ None →
        Counted (O.task oracle.old) order.now (i + 1) (O.caps oracle.new) (O.vars oracle.new)) }
    ensures held { IfOk result (λ r. r.stop ≡ None → All (IsWithinCap (O.caps oracle.new)) held.now) }
    ensures capped { IfOk result (λ r. r.stop ≡ None → (c : Measure) → slice_get order.now i ≡ Some c →
        O.caps oracle.new c ≡ cap) }
    ensures vars { OnOk result (O.vars oracle.new ≡ expected_vars (O.task oracle.old).encoding order.now
        (O.caps oracle.new)) }
    ensures settled { IfOk result (λ r. r.settled ≤ length order.now) }
    ensures lines { let p = O.task oracle.old in
        IfOk result (λ r. Continues O.knows O.log O.learnt oracle.old oracle.new (LeadsTo (SearchState p order.now i
        held.now best (O.caps oracle.old)) (BoundedSo p order.now i held.now r (O.caps oracle.new)))) }
    ensures left { let p = O.task oracle.old in
        OnErr result (LeavesSearch p order.now (SearchState p order.now i held.now best (O.caps oracle.old))
        (O.knows oracle.old) (O.log oracle.old) (O.log oracle.new)) }
    ensures later { O.is_later oracle.old oracle.new }
    ensures faults { O.faults oracle.old ≤ O.faults oracle.new }
    ensures cause { IsErrOf result MinFault.Log → Rose (O.faults oracle.old) (O.faults oracle.new) }
{
    let c = order.get(i);
    match oracle.build(c, cap)? {
        Built::NoRoom => Ok(Advanced {
            best,
            stop: Some(Stop::RoomFull),
            settled: place,
        }),
        Built::Whole => {
            let lowered = lower(alloc, oracle, order, i, held, best)?;
            Ok(Advanced {
                best: lowered.best,
                stop: lowered.stop,
                settled: i,
            })
        }
    }
}

/// From place `i` of the order to the next: the criterion there gets its least value, or the search
/// stops.
pub(crate) fn advance<O: Oracle>(
    alloc: Global,
    oracle: &mut O,
    order: &Order,
    i: usize,
    held: &mut Vec<Below>,
    best: Drawing,
) -> Result<Advanced, MinFault>
    requires ready { O.ready oracle.old }
    requires order { IsOrder order.now }
    requires at { i < length order.now }
    requires counted { Counted (O.task oracle.old) order.now i (O.caps oracle.old) (O.vars oracle.old) }
    requires lawful { IsLawful (O.task oracle.old) best }
    requires held { All (IsWithinCap (O.caps oracle.old)) held.old.items }
    requires before { AreBefore order.now i held.old.items }
    ensures ready { IfOk result (λ r. r.stop ≡ None → O.ready oracle.new) }
    ensures task { O.task oracle.new ≡ O.task oracle.old }
    ensures lawful { IfOk result (λ r. IsLawful (O.task oracle.old) r.best) }
    ensures counted { IfOk result (λ r. r.stop ≡ None →
        Counted (O.task oracle.old) order.now (i + 1) (O.caps oracle.new) (O.vars oracle.new)) }
    ensures held { IfOk result (λ r. r.stop ≡ None → All (IsWithinCap (O.caps oracle.new)) held.new.items) }
    ensures before { OnOk result (AreBefore order.now (i + 1) held.new.items) }
    ensures vars { OnOk result (O.vars oracle.new ≡ expected_vars (O.task oracle.old).encoding order.now
        (O.caps oracle.new)) }
    ensures settled { IfOk result (λ r. r.settled ≤ length order.now) }
    ensures lines { let p = O.task oracle.old in
        IfOk result (λ r. Continues O.knows O.log O.learnt oracle.old oracle.new
        (GoesTo p order.now i held.old.items held.new.items best (O.caps oracle.old) (O.caps oracle.new) r)) }
    ensures left { let p = O.task oracle.old in
        OnErr result (LeavesSearch p order.now (SearchState p order.now i held.old.items best (O.caps oracle.old))
        (O.knows oracle.old) (O.log oracle.old) (O.log oracle.new)) }
    ensures later { O.is_later oracle.old oracle.new }
    ensures faults { O.faults oracle.old ≤ O.faults oracle.new }
    ensures cause { IsErrOf result MinFault.Log → Rose (O.faults oracle.old) (O.faults oracle.new) }
{
    let c = order.get(i);
    let v = values(&best);
    match next_positive(order, i, &v) {
        None => Ok(Advanced {
            best,
            stop: None,
            settled: i,
        }),
        Some(place) => {
            let most = oracle.greatest(c);
            if most == 0 {
                return Ok(Advanced {
                    best,
                    stop: None,
                    settled: i,
                });
            }
            let cap = cap_for(v.of(c), most);
            let advanced = bounded(alloc, oracle, order, i, held, best, place, cap)?;
            let least = values(&advanced.best).of(c);
            hold(held, c, least, cap)?;
            Ok(advanced)
        }
    }
}
