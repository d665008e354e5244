// One pair after another.
ghost use Rattle.std.specs.Prelude.{◌≡◌, ◌≢◌, ◌≤◌, ◌<◌, ◌+◌, ◌∷◌, [], IfOk, OnOk, OnErr, IsErrOf, None, Some};
ghost use Rattle.std.specs.Prelude.{MatchOption, ⊤};
ghost use Rattle.outside_io.specs.Counts.{Rose};
ghost use Rattle.plan_core.specs.Values.{values_of, value_of};
ghost use Rattle.search_least.specs.Asked.{AreMet};
ghost use Rattle.search_least.specs.Task.{IsLawful, greatest_of};
ghost use Rattle.search_least.specs.State.{hold as hold_of};
ghost use Rattle.refute_log.specs.Steps.{Continues, KnowsSome, Leaves};
ghost use Rattle.trade_off.specs.Least.{IsLeastUnder, lowered, HaveComeTo, AreAsked};
ghost use Rattle.trade_off.specs.Next.{IsUnder, under, IsNext, IsNextPair, IsSecondOf, IsSoFar};
ghost use Rattle.trade_off.specs.Next.{AsksSecond, AsksNext, EndsNext};
ghost use Rattle.trade_off.specs.Outcome.{IsRightFront, EndsFront};

use crate::lowering::lower;
use crate::outcome::stopped_by;
use crate::{FrontEnd, FrontList, PairList};
use plan_core::{Criterion, OutOfMemory};
use plan_geometry::{Drawing, values};
use refute_log::Stop;
use search_least::{Below, MinFault, Oracle, Reply};
use std::alloc::Global;

/// What comes behind some pairs.
#[derive(Clone, Copy)]
pub(crate) enum Next {
    /// A pair.
    Pair(u32, u32),
    /// There is none.
    NoMore,
    /// The search stopped.
    Stopped(Stop),
}

/// The bound of the limit, where there is one.
fn bounds_under(alloc: Global, c: Criterion, limit: Option<u32>) -> Result<Vec<Below>, OutOfMemory>
    ensures { IfOk result (λ v. v.items ≡ under c limit) }
{
    let mut bounds = Vec::new(alloc);
    if let Some(limit) = limit {
        bounds.push(Below {
            criterion: c,
            limit,
        })?;
    }
    Ok(bounds)
}

/// The bound that holds the value, where it can be greater.
fn bounds_holding(
    alloc: Global,
    c: Criterion,
    value: u32,
    most: u32,
) -> Result<Vec<Below>, OutOfMemory>
    ensures { IfOk result (λ v. v.items ≡ hold_of c value most) }
{
    let mut bounds = Vec::new(alloc);
    if value < most {
        bounds.push(Below {
            criterion: c,
            limit: value + 1,
        })?;
    }
    Ok(bounds)
}

/// With the first number held: the least second one.
fn second_from<O: Oracle>(
    alloc: Global,
    oracle: &mut O,
    a: Criterion,
    b: Criterion,
    least: Drawing,
) -> Result<Next, MinFault>
    requires ready { O.ready oracle.old }
    requires known { KnowsSome O.knows oracle.old }
    requires apart { a ≢ b }
    requires first { O.caps oracle.old a ≡ greatest_of (O.task oracle.old) a }
    requires second { O.caps oracle.old b ≡ greatest_of (O.task oracle.old) b }
    requires lawful { IsLawful (O.task oracle.old) least }
    ensures ready { OnOk result (O.ready oracle.new) }
    ensures known { OnOk result (KnowsSome O.knows oracle.new) }
    ensures task { O.task oracle.new ≡ O.task oracle.old }
    ensures caps { OnOk result (O.caps oracle.new ≡ O.caps oracle.old) }
    ensures next { IfOk result (IsSecondOf (O.task oracle.old) a b least) }
    ensures lines { let p = O.task oracle.old in
        IfOk result (λ r. Continues O.knows O.log O.learnt oracle.old oracle.new
        (AreAsked p (HaveComeTo b b (under b (Some (value_of (values_of least) b))))
        (EndsNext p (AsksSecond a b least p) b r))) }
    ensures leaves { OnErr result (Leaves (O.task oracle.old).budget [] (O.knows oracle.old) (O.log oracle.old)
        (O.log oracle.new)) }
    ensures later { O.is_later oracle.old oracle.new }
    ensures faults { O.faults oracle.old ≤ O.faults oracle.new }
    ensures cause { IsErrOf result MinFault.Log → Rose (O.faults oracle.old) (O.faults oracle.new) }
{
    let first = values(&least).of(a);
    let most = oracle.greatest(a);
    let held = bounds_holding(alloc, a, first, most)?;
    let lowered = lower(alloc, oracle, &held, b, least)?;
    match lowered.stop {
        Some(stop) => Ok(Next::Stopped(stop)),
        None => Ok(Next::Pair(first, values(&lowered.least).of(b))),
    }
}

/// From a drawing that meets the limit on: the pair with the least first number, and of these with the least second
/// one.
fn pair_from<O: Oracle>(
    alloc: Global,
    oracle: &mut O,
    a: Criterion,
    b: Criterion,
    limit: Option<u32>,
    first: Drawing,
) -> Result<Next, MinFault>
    requires ready { O.ready oracle.old }
    requires known { KnowsSome O.knows oracle.old }
    requires apart { a ≢ b }
    requires first { O.caps oracle.old a ≡ greatest_of (O.task oracle.old) a }
    requires second { O.caps oracle.old b ≡ greatest_of (O.task oracle.old) b }
    requires limit { MatchOption limit ⊤ (λ k. (1 ≤ k) × (k ≤ greatest_of (O.task oracle.old) b)) }
    requires lawful { IsLawful (O.task oracle.old) first }
    requires met { AreMet (values_of first) (under b limit) }
    ensures ready { OnOk result (O.ready oracle.new) }
    ensures known { OnOk result (KnowsSome O.knows oracle.new) }
    ensures task { O.task oracle.new ≡ O.task oracle.old }
    ensures caps { OnOk result (O.caps oracle.new ≡ O.caps oracle.old) }
    ensures next { IfOk result (IsNext (IsLawful (O.task oracle.old)) a b limit) }
    ensures lines { let p = O.task oracle.old in
        IfOk result (λ r. Continues O.knows O.log O.learnt oracle.old oracle.new
        (AreAsked p (HaveComeTo b a (lowered (under b limit) a first)) (EndsNext p (AsksNext a b limit p) b r))) }
    ensures leaves { OnErr result (Leaves (O.task oracle.old).budget [] (O.knows oracle.old) (O.log oracle.old)
        (O.log oracle.new)) }
    ensures later { O.is_later oracle.old oracle.new }
    ensures faults { O.faults oracle.old ≤ O.faults oracle.new }
    ensures cause { IsErrOf result MinFault.Log → Rose (O.faults oracle.old) (O.faults oracle.new) }
{
    let held = bounds_under(alloc, b, limit)?;
    let lowered = lower(alloc, oracle, &held, a, first)?;
    match lowered.stop {
        Some(stop) => Ok(Next::Stopped(stop)),
        None => second_from(alloc, oracle, a, b, lowered.least),
    }
}

/// Of the pairs whose second number is below the limit, the one with the least first number, and of these with the
/// least second one.
fn next_pair<O: Oracle>(
    alloc: Global,
    oracle: &mut O,
    a: Criterion,
    b: Criterion,
    limit: Option<u32>,
) -> Result<Next, MinFault>
    requires ready { O.ready oracle.old }
    requires known { KnowsSome O.knows oracle.old }
    requires apart { a ≢ b }
    requires first { O.caps oracle.old a ≡ greatest_of (O.task oracle.old) a }
    requires second { O.caps oracle.old b ≡ greatest_of (O.task oracle.old) b }
    requires limit { MatchOption limit ⊤ (λ k. (1 ≤ k) × (k ≤ greatest_of (O.task oracle.old) b)) }
    ensures ready { OnOk result (O.ready oracle.new) }
    ensures known { OnOk result (KnowsSome O.knows oracle.new) }
    ensures task { O.task oracle.new ≡ O.task oracle.old }
    ensures caps { OnOk result (O.caps oracle.new ≡ O.caps oracle.old) }
    ensures next { IfOk result (IsNext (IsLawful (O.task oracle.old)) a b limit) }
    ensures lines { let p = O.task oracle.old in
        IfOk result (λ r. Continues O.knows O.log O.learnt oracle.old oracle.new
        (AreAsked p (HaveComeTo b b (under b limit)) (EndsNext p (AsksNext a b limit p) b r))) }
    ensures leaves { OnErr result (Leaves (O.task oracle.old).budget [] (O.knows oracle.old) (O.log oracle.old)
        (O.log oracle.new)) }
    ensures later { O.is_later oracle.old oracle.new }
    ensures faults { O.faults oracle.old ≤ O.faults oracle.new }
    ensures cause { IsErrOf result MinFault.Log → Rose (O.faults oracle.old) (O.faults oracle.new) }
{
    let bounds = bounds_under(alloc, b, limit)?;
    match oracle.ask(&bounds, None)? {
        Reply::Found(first) => pair_from(alloc, oracle, a, b, limit, first),
        Reply::Refuted => Ok(Next::NoMore),
        Reply::Stopped(stop) => Ok(Next::Stopped(stop)),
    }
}

/// From the first pair on.
fn further_pairs<O: Oracle>(
    alloc: Global,
    oracle: &mut O,
    a: Criterion,
    b: Criterion,
    first: u32,
    second: u32,
) -> Result<FrontList, MinFault>
    requires ready { O.ready oracle.old }
    requires known { KnowsSome O.knows oracle.old }
    requires apart { a ≢ b }
    requires caps_first { O.caps oracle.old a ≡ greatest_of (O.task oracle.old) a }
    requires caps_second { O.caps oracle.old b ≡ greatest_of (O.task oracle.old) b }
    requires pair { IsNextPair (IsLawful (O.task oracle.old)) a b None first second }
    ensures known { OnOk result (KnowsSome O.knows oracle.new) }
    ensures task { O.task oracle.new ≡ O.task oracle.old }
    ensures right { IfOk result (λ r. IsRightFront (IsLawful (O.task oracle.old)) a b r.pairs r.ending) }
    ensures lines { let p = O.task oracle.old in
        IfOk result (λ r. Continues O.knows O.log O.learnt oracle.old oracle.new
        (AreAsked p (HaveComeTo b b (under b (Some second))) (EndsFront p a b r.pairs r.ending))) }
    ensures leaves { OnErr result (Leaves (O.task oracle.old).budget [] (O.knows oracle.old) (O.log oracle.old)
        (O.log oracle.new)) }
    ensures later { O.is_later oracle.old oracle.new }
    ensures faults { O.faults oracle.old ≤ O.faults oracle.new }
    ensures cause { IsErrOf result MinFault.Log → Rose (O.faults oracle.old) (O.faults oracle.new) }
{
    let mut pairs = PairList::new(alloc);
    pairs.push((first, second))?;
    let mut limit = second;
    while limit > 0 {
        match next_pair(alloc, oracle, a, b, Some(limit))? {
            Next::Pair(n, m) => {
                pairs.push((n, m))?;
                limit = m;
            }
            Next::NoMore => {
                return Ok(FrontList {
                    pairs,
                    ending: FrontEnd::Whole,
                });
            }
            Next::Stopped(stop) => {
                return Ok(FrontList {
                    pairs,
                    ending: stopped_by(stop),
                });
            }
        }
    }
    Ok(FrontList {
        pairs,
        ending: FrontEnd::Whole,
    })
}

/// The pairs, once the bounds of both criteria are there.
pub(crate) fn collect<O: Oracle>(
    alloc: Global,
    oracle: &mut O,
    a: Criterion,
    b: Criterion,
) -> Result<FrontList, MinFault>
    requires ready { O.ready oracle.old }
    requires known { KnowsSome O.knows oracle.old }
    requires apart { a ≢ b }
    requires caps_first { O.caps oracle.old a ≡ greatest_of (O.task oracle.old) a }
    requires caps_second { O.caps oracle.old b ≡ greatest_of (O.task oracle.old) b }
    ensures known { OnOk result (KnowsSome O.knows oracle.new) }
    ensures task { O.task oracle.new ≡ O.task oracle.old }
    ensures right { IfOk result (λ r. IsRightFront (IsLawful (O.task oracle.old)) a b r.pairs r.ending) }
    ensures lines { let p = O.task oracle.old in
        IfOk result (λ r. Continues O.knows O.log O.learnt oracle.old oracle.new
        (AreAsked p (HaveComeTo b b []) (EndsFront p a b r.pairs r.ending))) }
    ensures leaves { OnErr result (Leaves (O.task oracle.old).budget [] (O.knows oracle.old) (O.log oracle.old)
        (O.log oracle.new)) }
    ensures later { O.is_later oracle.old oracle.new }
    ensures faults { O.faults oracle.old ≤ O.faults oracle.new }
    ensures cause { IsErrOf result MinFault.Log → Rose (O.faults oracle.old) (O.faults oracle.new) }
{
    match next_pair(alloc, oracle, a, b, None)? {
        Next::Pair(first, second) => further_pairs(alloc, oracle, a, b, first, second),
        Next::NoMore => Ok(FrontList {
            pairs: PairList::new(alloc),
            ending: FrontEnd::Empty,
        }),
        Next::Stopped(stop) => Ok(FrontList {
            pairs: PairList::new(alloc),
            ending: stopped_by(stop),
        }),
    }
}
