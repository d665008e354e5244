// The lines that are wanted of a log.
ghost use Rattle.std.specs.Prelude.{◌≡◌, ◌≤◌, ◌^◌, IfOk, MatchOption, flat_map, length};
ghost use Rattle.plan_core.specs.Values.{value_of};
ghost use Rattle.refute_log.specs.Certified.{Certifies, CertifiesNone, RefutesLess};
ghost use Rattle.refute_check.specs.Lacking.{told_bound};
ghost use Rattle.log_check.specs.Claimed.{IsClaimOf, CertifiesClaim};
ghost use Rattle.log_trim.specs.Wanted.{ShowsLeast, ShowsNone, AreWanted, AreOfLeast};

use log_check::Claim;
use plan_core::{Criterion, Order, OutOfMemory, Values};
use refute_check::{ToldBound, unreached};
use refute_log::LineList;
use std::alloc::Global;

/// The place of the first line that shows that the value of c can't be less, with the earlier ones as in `v`; none
/// where no line does.
fn line_for(
    alloc: Global,
    lines: &LineList,
    bounds: &[ToldBound],
    greatest: &Values,
    earlier: &[Criterion],
    c: Criterion,
    v: &Values,
) -> Result<Option<u32>, OutOfMemory>
    requires short { length lines.now ≤ 2 ^ 32 }
    requires bounds { bounds.now ≡ flat_map told_bound lines.now }
    ensures { IfOk result (λ r. MatchOption r
        (RefutesLess (value_of greatest.now) lines.now earlier.now c v.now → ⊥)
        (ShowsLeast (value_of greatest.now) lines.now earlier.now c v.now)) }
{
    let literals = unreached(alloc, bounds, greatest, earlier, c, v)?;
    Ok(lines.first_refuted(&literals))
}

/// The places of the lines that show the first `s` values of the order to be least: for each that is positive the first
/// that shows it. None where one of them isn't shown.
fn least_lines(
    alloc: Global,
    lines: &LineList,
    bounds: &[ToldBound],
    greatest: &Values,
    order: &Order,
    v: &Values,
    s: usize,
) -> Result<Option<Vec<u32>>, OutOfMemory>
    requires short { length lines.now ≤ 2 ^ 32 }
    requires bounds { bounds.now ≡ flat_map told_bound lines.now }
    requires places { s ≤ length order.now }
    ensures { IfOk result (λ r. MatchOption r (Certifies (value_of greatest.now) lines.now order.now v.now s → ⊥)
        (λ wanted. AreOfLeast (value_of greatest.now) lines.now order.now v.now s wanted.items)) }
{
    let mut wanted = Vec::new(alloc);
    let mut earlier = Vec::new(alloc);
    for i in 0..s {
        let c = order.get(i);
        if v.of(c) > 0 {
            match line_for(alloc, lines, bounds, greatest, &earlier, c, v)? {
                Some(place) => wanted.push(place)?,
                None => return Ok(None),
            }
        }
        earlier.push(c)?;
    }
    Ok(Some(wanted))
}

/// The place of the first line that shows that there is no drawing; none where no line does.
fn line_for_none(lines: &LineList) -> Option<u32>
    requires short { length lines.now ≤ 2 ^ 32 }
    ensures { MatchOption result (CertifiesNone lines.now → ⊥) (ShowsNone lines.now) }
{
    lines.first_refuted(&[])
}

/// The places of the lines by which the claim is certified, counted from 0; none where it isn't.
pub(crate) fn wanted_of(
    alloc: Global,
    lines: &LineList,
    bounds: &[ToldBound],
    greatest: &Values,
    order: &Order,
    claim: &Claim,
) -> Result<Option<Vec<u32>>, OutOfMemory>
    requires short { length lines.now ≤ 2 ^ 32 }
    requires bounds { bounds.now ≡ flat_map told_bound lines.now }
    requires claim { IsClaimOf order.now claim.now }
    ensures { IfOk result (λ r. MatchOption r
        (CertifiesClaim (value_of greatest.now) lines.now order.now claim.now → ⊥)
        (λ wanted. AreWanted (value_of greatest.now) lines.now order.now claim.now wanted.items)) }
{
    match claim {
        Claim::Least { values, places } => {
            least_lines(alloc, lines, bounds, greatest, order, values, *places)
        }
        Claim::NoDrawing => {
            let Some(place) = line_for_none(lines) else {
                return Ok(None);
            };
            let mut wanted = Vec::new(alloc);
            wanted.push(place)?;
            Ok(Some(wanted))
        }
        Claim::Nothing => Ok(Some(Vec::new(alloc))),
    }
}
