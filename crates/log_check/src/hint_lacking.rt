// That there is no drawing, and the places of an order, one after another.
ghost use Rattle.std.specs.Prelude.{◌≡◌, ◌≤◌, ◌↔◌, IfOk, IsTrue, List, length};
ghost use Rattle.plan_core.specs.Values.{value_of};
ghost use Rattle.refute_log.specs.Told.{Lines};
ghost use Rattle.refute_log.specs.Certified.{IsCertifiedLeast, CertifiesNone};
ghost use Rattle.refute_check.specs.declared.told_bound.ToldBound.{ToldBound as Told};
ghost use Rattle.refute_check.specs.Lacking.{IsFirstLacking};
ghost use Rattle.hint_log.specs.HintedLines.{HintLines};
ghost use Rattle.log_check.specs.Hinted.{log_of, KnowsHints};

use hint_log::HintChecker;
use plan_core::{Criterion, Order, OutOfMemory, Values};
use refute_check::{ToldBound, unreached};
use std::alloc::Global;

/// Whether the lines show that the value of c can't be less, with the earlier ones as in `v`.
fn is_least(
    alloc: Global,
    checker: &HintChecker,
    bounds: &[ToldBound],
    greatest: &Values,
    earlier: &[Criterion],
    c: Criterion,
    v: &Values,
) -> Result<bool, OutOfMemory>
    ensures { IfOk result (λ b. (told : Lines) (lines : HintLines) → KnowsHints told lines checker.now bounds.now →
        IsTrue b ↔ IsCertifiedLeast (value_of greatest.now) (log_of told lines) earlier.now c v.now) }
{
    if v.of(c) == 0 {
        return Ok(true);
    }
    let literals = unreached(alloc, bounds, greatest, earlier, c, v)?;
    Ok(checker.verdict(&literals))
}

/// Whether the lines certify that there is no drawing.
pub fn none_certified(checker: &HintChecker) -> bool
    ensures { (told : Lines) (lines : HintLines) (bounds : List Told) → KnowsHints told lines checker.now bounds →
        IsTrue result ↔ CertifiesNone (log_of told lines) }
{
    checker.verdict(&[])
}

/// The first of the first `s` places of the order, counted from 0, that the lines don't certify for these values, or
/// none. The checker accepted them, the bounds are those of the variables, and `greatest` has each criterion's greatest
/// value.
pub fn first_lacking(
    alloc: Global,
    checker: &HintChecker,
    bounds: &[ToldBound],
    greatest: &Values,
    order: &Order,
    v: &Values,
    s: usize,
) -> Result<Option<usize>, OutOfMemory>
    requires { s ≤ length order.now }
    ensures { IfOk result (λ found. (told : Lines) (lines : HintLines) → KnowsHints told lines checker.now bounds.now →
        IsFirstLacking (value_of greatest.now) (log_of told lines) order.now v.now s found) }
{
    let mut earlier = Vec::new(alloc);
    for i in 0..s {
        let c = order.get(i);
        if !is_least(alloc, checker, bounds, greatest, &earlier, c, v)? {
            return Ok(Some(i));
        }
        earlier.push(c)?;
    }
    Ok(None)
}
