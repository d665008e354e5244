// What `recheck` answers.
ghost use Rattle.std.specs.Prelude.{◌≤◌, IfOk, IsOkAnd, length};
ghost use Rattle.outside_io.specs.Contents.{WhereTold, SameFiles};
ghost use Rattle.plan_core.specs.declared.limits.TheConstants.{MAX_FILE_BYTES};
ghost use Rattle.track_order.specs.Order.{IsOrderOf};
ghost use Rattle.plan_text.specs.SheetText.{DrawsAll};
ghost use Rattle.log_check.specs.Claimed.{IsClaimOf};
ghost use Rattle.run_input.specs.Status.{IsAnswered};
ghost use Rattle.run_input.specs.Met.{between, ReadsInputs, IsUnwritten};
ghost use Rattle.run_check.specs.CheckLine.{claim_of as claim_in};
ghost use Rattle.run_check.specs.Rechecked.{IsHintsAnswer, IsHintsClaimJudged, IsRechecked, IsRecheckAnswer};

use crate::writing::verdict_reply;
use crate::{broken_sheet, claim_of, claimed};
use log_check::judge_hints;
use outside_io::Files;
use plan_core::{MAX_LOG_BYTES, OutOfMemory, Text};
use plan_text::{Sheet, SheetFault, read_sheet};
use run_input::{InputRefusal, Reply, RunFault, Station, fault_reply, read_all, station_in};
use std::alloc::Global;

/// What is answered to a sheet and the bytes of hinted lines.
fn recheck_claim(
    alloc: Global,
    station: &Station,
    sheet: &Sheet,
    hints: &[u8],
) -> Result<Reply, OutOfMemory>
    requires order { IsOrderOf station.now.graph station.now.order }
    requires drawn { DrawsAll station.now.graph sheet.now }
    requires claim { IsClaimOf sheet.now.order (claim_in sheet.now.order sheet.now.found sheet.now.ending) }
    requires short { length hints.now ≤ MAX_LOG_BYTES }
    ensures { IfOk result (λ r. IsHintsAnswer station.now.graph station.now.order sheet.now hints.now r.status
        r.text.items) }
{
    if let Some(reply) = broken_sheet(alloc, station, sheet)? {
        return Ok(reply);
    }
    let claim = claim_of(sheet);
    let verdict = judge_hints(
        alloc,
        &station.graph,
        &station.order,
        &sheet.grid,
        &sheet.order,
        &claim,
        hints,
    )?;
    verdict_reply(alloc, claimed(sheet), verdict)
}

/// What is answered to a station and the bytes of a sheet and of hinted lines.
fn recheck_sheet(
    alloc: Global,
    station: &Station,
    sheet: &[u8],
    hints: &[u8],
) -> Result<Reply, OutOfMemory>
    requires order { IsOrderOf station.now.graph station.now.order }
    requires short { length hints.now ≤ MAX_LOG_BYTES }
    ensures { IfOk result (λ r. IsHintsClaimJudged station.now.graph station.now.order sheet.now hints.now r.status
        r.text.items) }
{
    match read_sheet(alloc, &station.graph, sheet) {
        Ok(sheet) => recheck_claim(alloc, station, &sheet, hints),
        Err(SheetFault::Sheet { what, line }) => {
            fault_reply(alloc, RunFault::Sheet { what, line })
        }
        Err(SheetFault::Memory) => Err(OutOfMemory),
    }
}

/// What is answered to the bytes of a file, of a sheet and of hinted lines.
fn recheck_bytes(
    alloc: Global,
    bytes: &[u8],
    sheet: &[u8],
    hints: &[u8],
) -> Result<Reply, OutOfMemory>
    requires file { length bytes.now ≤ MAX_FILE_BYTES }
    requires short { length hints.now ≤ MAX_LOG_BYTES }
    ensures { IfOk result (λ r. IsRechecked bytes.now sheet.now hints.now r.status r.text.items) }
{
    match station_in(alloc, bytes) {
        Ok(station) => recheck_sheet(alloc, &station, sheet, hints),
        Err(InputRefusal::Fault(fault)) => fault_reply(alloc, fault),
        Err(InputRefusal::Memory) => Err(OutOfMemory),
    }
}

/// What `recheck` answers.
pub fn recheck<F: Files>(
    alloc: Global,
    input: &Text,
    sheet: &Text,
    hints: &Text,
    files: &mut F,
) -> Result<Reply, OutOfMemory>
    ensures answer { let met = between (F.at files.old) (F.at files.new) in
        IfOk result (λ r. IsRecheckAnswer input.now sheet.now hints.now met r.status r.text.items) }
    ensures reads { let met = between (F.at files.old) (F.at files.new) in
        ReadsInputs 3 (IsOkAnd result (λ r. IsAnswered r.status)) met }
    ensures unwritten { let met = between (F.at files.old) (F.at files.new) in IsUnwritten met }
    ensures later { (F.at files.old).read_faults ≤ (F.at files.new).read_faults }
    ensures same { WhereTold (F.at files.old).contents (F.at files.new).contents SameFiles }
{
    match read_all(alloc, input, sheet, hints, MAX_LOG_BYTES, files) {
        Ok(texts) => recheck_bytes(alloc, &texts.first, &texts.second, &texts.third),
        Err(InputRefusal::Fault(fault)) => fault_reply(alloc, fault),
        Err(InputRefusal::Memory) => Err(OutOfMemory),
    }
}
