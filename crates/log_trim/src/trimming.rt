// The hinted lines of a log that certifies a claim.
ghost use Rattle.std.specs.Prelude.{◌≤◌, IfOk, IsErrOf, MatchOption, length};
ghost use Rattle.plan_core.specs.declared.criterion.Criterion.{Criterion as Measured};
ghost use Rattle.plan_core.specs.Values.{value_of, limit_of};
ghost use Rattle.track_order.specs.Order.{IsOrderOf};
ghost use Rattle.drawing_cnf.specs.Layout.{layout};
ghost use Rattle.log_check.specs.Expectation.{expectation};
ghost use Rattle.log_check.specs.Accepted.{AreAccepted};
ghost use Rattle.log_check.specs.Claimed.{IsClaimOf};
ghost use Rattle.log_check.specs.Judged.{CertifiesWhole};
ghost use Rattle.log_trim.specs.Trimmed.{AreRefutedLines};
ghost use Rattle.log_trim.specs.TrimmedLog.{IsTrimmedLog};
ghost use Rattle.log_trim.specs.HintRoom.{LinesPassLimits, LogPassesLimits};
ghost use Rattle.log_trim.specs.Shown.{IsReadied, IsKeptOf};

use crate::completing::{fit_by, may_lack_all};
use crate::fault::TrimFault;
use crate::hint_room::check_room;
use crate::reading::{bounds_of, count_learnt, lines_in};
use crate::trim;
use crate::wanting::wanted_of;
use cnf_core::CnfFault;
use hint_log::HintList;
use log_check::{Claim, caps_in, expected_of, greatest_values};
use plan_core::{Grid, MAX_LOG_BYTES, Order, OutOfMemory, Values};
use port_graph::PortGraph;
use refute_log::LineList;
use std::alloc::Global;
use track_order::TrackOrder;

/// What is left of a log.
#[derive(Drop)]
pub struct TrimmedLog {
    /// How many bounds of each criterion the log has, none above its greatest.
    pub caps: Values,
    /// The hinted lines. The numbers of their hints begin with the clauses that are expected for these caps.
    pub kept: HintList,
    /// How many Learnt lines the log has.
    pub learnt: usize,
}

/// Whether the lines fit what is expected for the caps and have room, so that they are accepted if they derive. Where
/// some are wanted, the Formula lines that are missing are added then.
fn fit_for(
    alloc: Global,
    g: &PortGraph,
    t: &TrackOrder,
    grid: &Grid,
    order: &Order,
    caps: &Values,
    lines: &mut LineList,
    wanted: &[u32],
) -> Result<bool, OutOfMemory>
    requires order { IsOrderOf g.now t.now }
    requires caps { (c : Measured) → value_of caps.now c ≤ limit_of g.now grid.now c }
    requires wanted { AreRefutedLines lines.old wanted.now }
    ensures { IfOk result (IsReadied (expectation (layout g.now t.now grid.now) order.now (value_of caps.now)) lines.old
        wanted.now lines.new) }
{
    match expected_of(alloc, g, t, grid, order, caps) {
        Ok(expected) => fit_by(alloc, &expected, lines, wanted),
        Err(CnfFault::Room) => Ok(may_lack_all(lines, wanted)),
        Err(CnfFault::Memory) => Err(OutOfMemory),
    }
}

/// The hinted lines of the wanted ones, where the lines are accepted; none where they aren't.
fn kept_of(
    alloc: Global,
    g: &PortGraph,
    t: &TrackOrder,
    grid: &Grid,
    order: &Order,
    caps: &Values,
    lines: &mut LineList,
    wanted: &[u32],
) -> Result<Option<HintList>, TrimFault>
    requires order { IsOrderOf g.now t.now }
    requires caps { (c : Measured) → value_of caps.now c ≤ limit_of g.now grid.now c }
    requires wanted { AreRefutedLines lines.old wanted.now }
    ensures kept { let e = expectation (layout g.now t.now grid.now) order.now (value_of caps.now) in
        IfOk result (λ r. MatchOption r (AreAccepted e lines.old → ⊥) (IsKeptOf e lines.old wanted.now)) }
    ensures limits { let e = expectation (layout g.now t.now grid.now) order.now (value_of caps.now) in
        IsErrOf result TrimFault.Limits → LinesPassLimits e lines.old wanted.now }
{
    if !fit_for(alloc, g, t, grid, order, caps, lines, wanted)? {
        return Ok(None);
    }
    check_room(lines)?;
    Ok(trim(alloc, lines, wanted)?)
}

/// What is left of the text of a log, if that certifies the claim on the lawful drawings of a graph on a grid, in an
/// order of criteria. That is the Refuted lines by which it does, and those Learnt lines on which they rest, with their
/// hints. None where it doesn't certify the claim. `Limits` comes where its lines have more variables or words than
/// hints are found in: as they are where no Refuted line is wanted, else with the missing Formula lines. It may come
/// for a log that doesn't derive too.
pub fn trim_log(
    alloc: Global,
    g: &PortGraph,
    t: &TrackOrder,
    grid: &Grid,
    order: &Order,
    claim: &Claim,
    log: &[u8],
) -> Result<Option<TrimmedLog>, TrimFault>
    requires order { IsOrderOf g.now t.now }
    requires claim { IsClaimOf order.now claim.now }
    requires short { length log.now ≤ MAX_LOG_BYTES }
    ensures left { let y = layout g.now t.now grid.now in
        IfOk result (λ r. MatchOption r (CertifiesWhole y order.now claim.now log.now → ⊥)
        (λ left. CertifiesWhole y order.now claim.now log.now × IsTrimmedLog y order.now claim.now log.now left)) }
    ensures limits { IsErrOf result TrimFault.Limits →
        LogPassesLimits (layout g.now t.now grid.now) order.now claim.now log.now }
{
    let greatest = greatest_values(g, grid);
    let caps = caps_in(alloc, log, &greatest)?;
    let Some(mut lines) = lines_in(alloc, log)? else {
        return Ok(None);
    };
    let learnt = count_learnt(&lines);
    let bounds = bounds_of(alloc, &lines)?;
    let Some(wanted) = wanted_of(alloc, &lines, &bounds, &greatest, order, claim)? else {
        return Ok(None);
    };
    let Some(kept) = kept_of(alloc, g, t, grid, order, &caps, &mut lines, &wanted)? else {
        return Ok(None);
    };
    Ok(Some(TrimmedLog { caps, kept, learnt }))
}
