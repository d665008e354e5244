// That there is no drawing, and the places of an order, one after another.
ghost use Rattle.std.specs.Prelude.{◌≡◌, ◌≤◌, ◌+◌, ◌↔◌, IfOk, IsTrue, List, Any, Contains, length};
ghost use Rattle.plan_core.specs.Values.{value_of};
ghost use Rattle.cnf_core.specs.Lit.{Literal};
ghost use Rattle.refute_log.specs.Told.{Lines};
ghost use Rattle.refute_log.specs.Certified.{IsCertifiedLeast, CertifiesNone};
ghost use Rattle.refute_check.specs.declared.told_bound.ToldBound.{ToldBound as Told};
ghost use Rattle.refute_check.specs.Lacking.{KnowsLog, IsUnreached, IsFirstLacking};

use crate::{Checker, ToldBound};
use cnf_core::Lit;
use plan_core::{Criterion, Order, OutOfMemory, Values};
use std::alloc::Global;

/// Whether the criterion is among the earlier ones.
fn is_earlier(c: Criterion, earlier: &[Criterion]) -> bool
    ensures { IsTrue result ↔ Contains earlier.now c }
{
    earlier.iter().any(|d| *d == c)
}

/// Whether k is one more than the value.
fn is_one_more(k: u32, value: u32) -> bool
    ensures { IsTrue result ↔ k ≡ value + 1 }
{
    value < k && k - value == 1
}

/// Whether values that are less at `c`, and as in `v` before it, don't reach the bound.
fn is_unreached(
    bound: &ToldBound,
    greatest: &Values,
    earlier: &[Criterion],
    c: Criterion,
    v: &Values,
) -> bool
    ensures { IsTrue result ↔ IsUnreached (value_of greatest.now) earlier.now c v.now bound.now }
{
    if greatest.of(bound.criterion) < bound.k {
        return false;
    }
    if bound.criterion == c && bound.k == v.of(c) {
        return true;
    }
    if !is_earlier(bound.criterion, earlier) {
        return false;
    }
    is_one_more(bound.k, v.of(bound.criterion))
}

/// The literals of the bounds that values don't reach which are less at `c`, and as in `v` before it.
pub fn unreached(
    alloc: Global,
    bounds: &[ToldBound],
    greatest: &Values,
    earlier: &[Criterion],
    c: Criterion,
    v: &Values,
) -> Result<Vec<Lit>, OutOfMemory>
    ensures { IfOk result (λ ls. (l : Literal) → Contains ls.items l ↔
        Any (λ b. IsUnreached (value_of greatest.now) earlier.now c v.now b × (b.literal ≡ l)) bounds.now) }
{
    let mut literals = Vec::new(alloc);
    for bound in bounds {
        if is_unreached(bound, greatest, earlier, c, v) {
            literals.push(bound.literal)?;
        }
    }
    Ok(literals)
}

/// Whether the log shows that the value of c can't be less, with the earlier ones as in `v`.
fn is_least(
    alloc: Global,
    checker: &Checker,
    bounds: &[ToldBound],
    greatest: &Values,
    earlier: &[Criterion],
    c: Criterion,
    v: &Values,
) -> Result<bool, OutOfMemory>
    ensures { IfOk result (λ b. (lines : Lines) → KnowsLog lines checker.now bounds.now → IsTrue b ↔
        IsCertifiedLeast (value_of greatest.now) lines earlier.now c v.now) }
{
    if v.of(c) == 0 {
        return Ok(true);
    }
    let literals = unreached(alloc, bounds, greatest, earlier, c, v)?;
    Ok(checker.verdict(&literals))
}

/// Whether the log certifies that there is no drawing. The checker accepted the log's lines, and the
/// bounds are those of its Bound lines, if there are any.
pub fn none_certified(checker: &Checker) -> bool
    ensures { (lines : Lines) (bounds : List Told) → KnowsLog lines checker.now bounds → IsTrue result
        ↔ CertifiesNone lines }
{
    checker.verdict(&[])
}

/// The first of the first `s` places of the order, counted from 0, that a log doesn't certify for
/// these values, or none. The checker accepted the log's lines, the bounds are those of its Bound
/// lines, and `greatest` has each criterion's greatest value.
pub fn first_lacking(
    alloc: Global,
    checker: &Checker,
    bounds: &[ToldBound],
    greatest: &Values,
    order: &Order,
    v: &Values,
    s: usize,
) -> Result<Option<usize>, OutOfMemory>
    requires { s ≤ length order.now }
    ensures { IfOk result (λ found. (lines : Lines) → KnowsLog lines checker.now bounds.now →
        IsFirstLacking (value_of greatest.now) lines order.now v.now s found) }
{
    let mut earlier = Vec::new(alloc);
    for i in 0..s {
        let c = order.get(i);
        if !is_least(alloc, checker, bounds, greatest, &earlier, c, v)? {
            return Ok(Some(i));
        }
        earlier.push(c)?;
    }
    Ok(None)
}
