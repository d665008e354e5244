// The verdict on a hinted log.
ghost use Rattle.std.specs.Prelude.{◌≡◌, ◌≢◌, ◌≤◌, ◌++◌, ⊤, ℕ, List, [], ◌∷◌, IfOk, MatchOption, length};
ghost use Rattle.plan_core.specs.declared.criterion.Criterion.{Criterion as Measured};
ghost use Rattle.plan_core.specs.declared.limits.TheConstants.{MAX_LOG_BYTES};
ghost use Rattle.plan_core.specs.Values.{value_of};
ghost use Rattle.track_order.specs.Order.{IsOrderOf};
ghost use Rattle.refute_log.specs.Told.{Lines};
ghost use Rattle.drawing_cnf.specs.Layout.{Layout, layout};
ghost use Rattle.log_check.specs.Expectation.{Expectation, expectation};
ghost use Rattle.log_check.specs.Claimed.{IsClaimOf};
ghost use Rattle.hint_log.specs.Hint.{hints_of};
ghost use Rattle.hint_log.specs.HintedLines.{HintLines};
ghost use Rattle.hint_log.specs.HintText.{hints_header};
ghost use Rattle.log_check.specs.Hinted.{log_of, KnowsHints};
ghost use Rattle.log_check.specs.HintAccepted.{AcceptsHints};
ghost use Rattle.log_check.specs.HintRefused.{IsHintRefusedFor};
ghost use Rattle.log_check.specs.HintsJudged.{IsHintsJudged};
ghost use Rattle.log_check.specs.HintProgress.{HasAcceptedHints, HasBegun, IsExpectingWithin, AreHintsStopped};
ghost use Rattle.log_check.specs.HintProgress.{AreHintsJudged, IsBodyJudged};

use crate::hint_expecting::{bounds_in, copied};
use crate::hint_reading::{Next, next_caps, next_hint};
use crate::hint_verdict::{HintRefusal, HintsVerdict};
use crate::{Claim, Expected, expected_of, first_lacking, greatest_values, none_certified};
use cnf_core::{CnfFault, ROOM};
use hint_log::{HintChecker, HintFault, HintLine, HintsWhat};
use outside_io::behind;
use plan_core::{Grid, Order, OutOfMemory, Values};
use port_graph::PortGraph;
use refute_check::ToldBound;
use std::alloc::Global;
use track_order::TrackOrder;

/// The first line of every such text.
const HEADER: &[u8] = b"railplan-hints 1\n";

/// Accepts a line, or answers why it is refused.
fn accept(checker: &mut HintChecker, line: &HintLine) -> Result<Option<HintRefusal>, OutOfMemory>
    requires { length (hints_of line.now) ≤ MAX_LOG_BYTES }
    ensures { IfOk result (λ r. (e : Expectation) (before : HintLines) → HasAcceptedHints e before checker.old →
        MatchOption r (HasAcceptedHints e (before ++ line.now ∷ []) checker.new) (IsHintRefusedFor e before line.now)) }
{
    match checker.feed(line) {
        Ok(()) => Ok(None),
        Err(HintFault::BadHint(_)) => Ok(Some(HintRefusal::BadHint)),
        Err(HintFault::Room) => Ok(Some(HintRefusal::Room)),
        Err(HintFault::Memory) => Err(OutOfMemory),
    }
}

/// Accepts the lines of a text one after another; answers the first that is refused or faulty.
fn judge_lines(
    alloc: Global,
    checker: &mut HintChecker,
    body: &[u8],
) -> Result<Option<HintsVerdict>, OutOfMemory>
    requires { length body.now ≤ MAX_LOG_BYTES }
    ensures { IfOk result (λ r. (e : Expectation) → HasAcceptedHints e [] checker.old →
        MatchOption r ((lines : HintLines) × AcceptsHints e body.now lines [] × HasAcceptedHints e lines checker.new)
        (AreHintsStopped e body.now)) }
{
    let mut rest = body;
    let mut number = 3;
    while !rest.is_empty() {
        match next_hint(alloc, rest)? {
            Next::Fault(what) => return Ok(Some(HintsVerdict::Faulty { what, line: number })),
            Next::Line(line, more) => match accept(checker, &line)? {
                Some(why) => return Ok(Some(HintsVerdict::Refused { why, line: number })),
                None => rest = more,
            },
        }
        number += 1;
    }
    Ok(None)
}

/// Whether the lines that were accepted certify the claim.
fn judge_claim(
    alloc: Global,
    checker: &HintChecker,
    bounds: &[ToldBound],
    greatest: &Values,
    order: &Order,
    claim: &Claim,
) -> Result<HintsVerdict, OutOfMemory>
    requires claim { IsClaimOf order.now claim.now }
    requires known { (told : Lines) × (lines : HintLines) × KnowsHints told lines checker.now bounds.now }
    ensures { IfOk result (λ v. (told : Lines) (lines : HintLines) → KnowsHints told lines checker.now bounds.now →
        AreHintsJudged (value_of greatest.now) (log_of told lines) order.now claim.now v) }
{
    // at most four places
    let _ = order.len();
    match claim {
        Claim::Least { values, places } => {
            match first_lacking(alloc, checker, bounds, greatest, order, values, *places)? {
                None => Ok(HintsVerdict::Certified),
                Some(i) => Ok(HintsVerdict::Lacks {
                    place: i as u32 + 1,
                }),
            }
        }
        Claim::NoDrawing => {
            if none_certified(checker) {
                Ok(HintsVerdict::Certified)
            } else {
                Ok(HintsVerdict::Lacks { place: 0 })
            }
        }
        Claim::Nothing => Ok(HintsVerdict::Certified),
    }
}

/// Judges what comes behind the caps.
fn judge_body(
    alloc: Global,
    checker: &mut HintChecker,
    bounds: &[ToldBound],
    greatest: &Values,
    order: &Order,
    claim: &Claim,
    body: &[u8],
) -> Result<HintsVerdict, OutOfMemory>
    requires begun { (e : Expectation) × HasBegun e checker.old bounds.now }
    requires claim { IsClaimOf order.now claim.now }
    requires short { length body.now ≤ MAX_LOG_BYTES }
    ensures { IfOk result (λ v. (e : Expectation) → HasBegun e checker.old bounds.now →
        IsBodyJudged (value_of greatest.now) order.now claim.now e body.now v) }
{
    match judge_lines(alloc, checker, body)? {
        Some(verdict) => Ok(verdict),
        None => judge_claim(alloc, checker, bounds, greatest, order, claim),
    }
}

/// Judges what comes behind the caps, by what is expected for them.
fn judge_expected(
    alloc: Global,
    expected: &Expected<'_>,
    greatest: &Values,
    order: &Order,
    claim: &Claim,
    body: &[u8],
) -> Result<HintsVerdict, OutOfMemory>
    requires expected { (y : Layout) × (cap : Measured → ℕ) × IsExpectingWithin y order.now cap expected.now.encoded
        expected.now.parts.items }
    requires claim { IsClaimOf order.now claim.now }
    requires short { length body.now ≤ MAX_LOG_BYTES }
    ensures { IfOk result (λ v. (y : Layout) (m : Measured → ℕ) →
        IsExpectingWithin y order.now m expected.now.encoded expected.now.parts.items →
        IsBodyJudged (value_of greatest.now) order.now claim.now (expectation y order.now m) body.now v) }
{
    let bounds = bounds_in(alloc, &expected.parts)?;
    let formula = copied(alloc, expected.encoded.formula())?;
    let mut checker = HintChecker::new(alloc, formula, ROOM)?;
    judge_body(alloc, &mut checker, &bounds, greatest, order, claim, body)
}

/// The verdict on the text of a hinted log: whether it certifies a claim on the lawful drawings of a graph on a grid,
/// in an order of criteria.
///
/// The clauses and the bounds are those that are expected of the graph for the caps of the text. A checker accepts the
/// lines over them, one by one.
pub fn judge_hints(
    alloc: Global,
    g: &PortGraph,
    t: &TrackOrder,
    grid: &Grid,
    order: &Order,
    claim: &Claim,
    hints: &[u8],
) -> Result<HintsVerdict, OutOfMemory>
    requires order { IsOrderOf g.now t.now }
    requires claim { IsClaimOf order.now claim.now }
    requires short { length hints.now ≤ MAX_LOG_BYTES }
    ensures { IfOk result (IsHintsJudged (layout g.now t.now grid.now) order.now claim.now hints.now) }
{
    let _ = (g.nodes(), grid.width());
    let greatest = greatest_values(g, grid);
    let Some(rest) = behind(hints, HEADER) else {
        return Ok(HintsVerdict::Faulty {
            what: HintsWhat::Header,
            line: 1,
        });
    };
    let (caps, body) = match next_caps(rest, &greatest, order) {
        Ok(next) => next,
        Err(what) => return Ok(HintsVerdict::Faulty { what, line: 2 }),
    };
    match expected_of(alloc, g, t, grid, order, &caps) {
        Ok(expected) => judge_expected(alloc, &expected, &greatest, order, claim, body),
        Err(CnfFault::Room) => Ok(HintsVerdict::Refused {
            why: HintRefusal::Room,
            line: 2,
        }),
        Err(CnfFault::Memory) => Err(OutOfMemory),
    }
}
