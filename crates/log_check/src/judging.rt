// The verdict on a log.
ghost use Rattle.std.specs.Prelude.{◌≡◌, ◌≤◌, ◌≢◌, ◌++◌, ℕ, List, [], ⊤, IfOk, MatchOption, length};
ghost use Rattle.plan_core.specs.Values.{value_of};
ghost use Rattle.track_order.specs.Order.{IsOrderOf};
ghost use Rattle.refute_log.specs.Lines.{header};
ghost use Rattle.refute_log.specs.Told.{Lines};
ghost use Rattle.refute_check.specs.Lacking.{KnowsLog};
ghost use Rattle.drawing_cnf.specs.Layout.{layout};
ghost use Rattle.log_check.specs.Expectation.{Expectation};
ghost use Rattle.log_check.specs.Accepted.{AcceptsFront};
ghost use Rattle.log_check.specs.Claimed.{IsClaimOf};
ghost use Rattle.log_check.specs.Judged.{IsLogJudged};
ghost use Rattle.log_check.specs.Progress.{AreAwaited, HasAccepted, IsStopped, AreLinesJudged, IsTextJudged};

use crate::accepting::{Progress, accept};
use crate::awaited::{Awaited, all_awaited};
use crate::claim::Claim;
use crate::counting::{caps_in, greatest_values};
use crate::expected::expected_of;
use crate::reading::{Next, next_line};
use crate::verdict::Verdict;
use cnf_core::{CnfFault, ROOM};
use plan_core::{Grid, MAX_LOG_BYTES, Order, OutOfMemory, Values};
use port_graph::PortGraph;
use refute_check::{Checker, first_lacking, none_certified};
use refute_log::LogWhat;
use std::alloc::Global;
use track_order::TrackOrder;

/// The first line of every log's text.
const HEADER: &[u8] = b"railplan-log 1\n";

/// What follows the first line of every log's text.
pub fn behind_header(log: &[u8]) -> Option<&[u8]>
    ensures { MatchOption result ((rest : List ℕ) → log.now ≢ header ++ rest) (λ rest. log.now ≡ header ++ rest.now) }
{
    log.strip_prefix(HEADER)
}

/// Accepts the lines of a text one after another; answers the first that is refused or faulty.
fn judge_lines(
    alloc: Global,
    progress: &mut Progress<'_>,
    log: &[u8],
) -> Result<Option<Verdict>, OutOfMemory>
    requires begun { (e : Expectation) × HasAccepted e [] progress.old }
    requires short { length log.now ≤ MAX_LOG_BYTES }
    ensures judged { IfOk result (λ r. (e : Expectation) → HasAccepted e [] progress.old →
        MatchOption r ((lines : Lines) × AcceptsFront e log.now lines [] × HasAccepted e lines progress.new)
        (IsStopped e log.now)) }
    ensures known { IfOk result (λ r. MatchOption r
        ((lines : Lines) × KnowsLog lines progress.new.checker progress.new.bounds.items) (λ _. ⊤)) }
{
    let Some(body) = behind_header(log) else {
        return Ok(Some(Verdict::Faulty {
            what: LogWhat::Header,
            line: 1,
        }));
    };
    let mut rest = body;
    let mut number = 2;
    while !rest.is_empty() {
        match next_line(alloc, rest)? {
            Next::Fault(what) => return Ok(Some(Verdict::Faulty { what, line: number })),
            Next::Line(line, more) => match accept(progress, &line)? {
                Some(why) => return Ok(Some(Verdict::Refused { why, line: number })),
                None => rest = more,
            },
        }
        number += 1;
    }
    Ok(None)
}

/// Whether the lines that were accepted certify the claim.
fn judge_claim(
    alloc: Global,
    progress: &Progress<'_>,
    greatest: &Values,
    order: &Order,
    claim: &Claim,
) -> Result<Verdict, OutOfMemory>
    requires claim { IsClaimOf order.now claim.now }
    requires known { (lines : Lines) × KnowsLog lines progress.now.checker progress.now.bounds.items }
    ensures { IfOk result (λ v. (lines : Lines) → KnowsLog lines progress.now.checker progress.now.bounds.items →
        AreLinesJudged (value_of greatest.now) lines order.now claim.now v) }
{
    // at most four places
    let _ = order.len();
    match claim {
        Claim::Least { values, places } => {
            match first_lacking(
                alloc,
                &progress.checker,
                &progress.bounds,
                greatest,
                order,
                values,
                *places,
            )? {
                None => Ok(Verdict::Certified),
                Some(i) => Ok(Verdict::Lacks {
                    place: i as u32 + 1,
                }),
            }
        }
        Claim::NoDrawing => {
            if none_certified(&progress.checker) {
                Ok(Verdict::Certified)
            } else {
                Ok(Verdict::Lacks { place: 0 })
            }
        }
        Claim::Nothing => Ok(Verdict::Certified),
    }
}

/// Judges the text by what is awaited.
fn judge_text(
    alloc: Global,
    awaited: Option<Awaited<'_>>,
    greatest: &Values,
    order: &Order,
    claim: &Claim,
    log: &[u8],
) -> Result<Verdict, OutOfMemory>
    requires awaited { (e : Expectation) × AreAwaited e [] awaited }
    requires claim { IsClaimOf order.now claim.now }
    requires short { length log.now ≤ MAX_LOG_BYTES }
    ensures { IfOk result (λ v. (e : Expectation) → AreAwaited e [] awaited.entry →
        IsTextJudged (value_of greatest.now) order.now claim.now e log.now v) }
{
    let mut progress = Progress {
        awaited,
        checker: Checker::new(alloc, ROOM)?,
        bounds: Vec::new(alloc),
    };
    match judge_lines(alloc, &mut progress, log)? {
        Some(verdict) => Ok(verdict),
        None => judge_claim(alloc, &progress, greatest, order, claim),
    }
}

/// The verdict on the text of a log: whether it certifies a claim on the lawful drawings of a graph on a grid, in an
/// order of criteria.
///
/// The Formula and Bound lines are compared with those that are expected of the graph, and the other lines are
/// judged by a checker. The text is gone through twice: once to count its Bound lines, and once line by line.
pub fn judge_log(
    alloc: Global,
    g: &PortGraph,
    t: &TrackOrder,
    grid: &Grid,
    order: &Order,
    claim: &Claim,
    log: &[u8],
) -> Result<Verdict, OutOfMemory>
    requires order { IsOrderOf g.now t.now }
    requires claim { IsClaimOf order.now claim.now }
    requires short { length log.now ≤ MAX_LOG_BYTES }
    ensures { IfOk result (IsLogJudged (layout g.now t.now grid.now) order.now claim.now log.now) }
{
    let _ = (g.nodes(), grid.width());
    let greatest = greatest_values(g, grid);
    let caps = caps_in(alloc, log, &greatest)?;
    match expected_of(alloc, g, t, grid, order, &caps) {
        Ok(expected) => {
            let awaited = all_awaited(expected.encoded.formula(), &expected.parts);
            judge_text(alloc, Some(awaited), &greatest, order, claim, log)
        }
        Err(CnfFault::Room) => judge_text(alloc, None, &greatest, order, claim, log),
        Err(CnfFault::Memory) => Err(OutOfMemory),
    }
}
