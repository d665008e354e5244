// What `trim` answers.
ghost use Rattle.std.specs.Prelude.{◌≡◌, ◌≤◌, ◌⊎◌, ◌≢◌, IfOk, OnErr, OnOk, IsOkAnd, IsErrOf, length};
ghost use Rattle.outside_io.specs.Contents.{WhereTold};
ghost use Rattle.outside_io.specs.Counts.{Rose};
ghost use Rattle.plan_core.specs.declared.limits.TheConstants.{MAX_FILE_BYTES};
ghost use Rattle.track_order.specs.Order.{IsOrderOf};
ghost use Rattle.plan_text.specs.SheetText.{DrawsAll};
ghost use Rattle.drawing_cnf.specs.Layout.{layout};
ghost use Rattle.log_check.specs.Claimed.{IsClaimOf};
ghost use Rattle.log_trim.specs.HintRoom.{LogPassesLimits};
ghost use Rattle.run_input.specs.Status.{IsAnswered, IsRefused};
ghost use Rattle.run_input.specs.Met.{between, ReadsInputs, IsUnwritten, LeftSo, HasLeft};
ghost use Rattle.run_check.specs.CheckLine.{claim_of as claim_in};
ghost use Rattle.run_check.specs.Trimmed.{IsTrimAnswer, HasReadCertified, IsLeftByTrim, BeginsLeft, TellsLeft};
ghost use Rattle.run_check.specs.Trimmed.{TellsNoRoom};
ghost use Rattle.run_check.specs.Finding.{IsClaimFinding, IsSheetFinding, IsFinding};

use crate::trim_cut::TrimCut;
use crate::writing::{no_room_line, text_of, trimmed_line};
use crate::{broken_sheet, check_claim, claim_of};
use log_trim::{TrimFault, TrimmedLog, trim_log};
use outside_io::{FileFault, Files, write_file};
use plan_core::{MAX_LOG_BYTES, OutOfMemory, Text};
use plan_text::{Sheet, SheetFault, read_sheet};
use run_input::{
    InputRefusal, Reply, RunFault, Station, Status, fault_reply, read_all, station_in,
};
use std::alloc::Global;

/// What the three files give: an answer, or what is left of the log.
#[derive(Drop)]
pub(crate) enum Finding {
    /// This is answered, and nothing is written.
    Answered(Reply),
    /// The log certifies what the sheet claims, and this is left of it.
    Left(TrimmedLog),
    /// The log certifies what the sheet claims, and has more variables or words than hints are found in.
    PastLimits,
}

// ---- what is left

/// What a sheet and the bytes of a log give of which it isn't known what is left: `check` goes line by line, and may
/// refuse it.
fn refused_claim(
    alloc: Global,
    station: &Station,
    sheet: &Sheet,
    log: &[u8],
    fault: TrimFault,
) -> Result<Finding, OutOfMemory>
    requires order { IsOrderOf station.now.graph station.now.order }
    requires drawn { DrawsAll station.now.graph sheet.now }
    requires claim { IsClaimOf sheet.now.order (claim_in sheet.now.order sheet.now.found sheet.now.ending) }
    requires short { length log.now ≤ MAX_LOG_BYTES }
    requires fault { fault ≡ TrimFault.Limits →
        LogPassesLimits (layout station.now.graph station.now.order sheet.now.grid) sheet.now.order
        (claim_in sheet.now.order sheet.now.found sheet.now.ending) log.now }
    ensures { IfOk result (IsClaimFinding station.now.graph station.now.order sheet.now log.now) }
{
    let checked = check_claim(alloc, station, sheet, log)?;
    match checked.status {
        Status::Done => match fault {
            TrimFault::Limits => Ok(Finding::PastLimits),
            TrimFault::Memory => Err(OutOfMemory),
        },
        _ => Ok(Finding::Answered(checked)),
    }
}

/// What a sheet and the bytes of a log give.
fn judge_claim(
    alloc: Global,
    station: &Station,
    sheet: &Sheet,
    log: &[u8],
) -> Result<Finding, OutOfMemory>
    requires order { IsOrderOf station.now.graph station.now.order }
    requires drawn { DrawsAll station.now.graph sheet.now }
    requires claim { IsClaimOf sheet.now.order (claim_in sheet.now.order sheet.now.found sheet.now.ending) }
    requires short { length log.now ≤ MAX_LOG_BYTES }
    ensures { IfOk result (IsClaimFinding station.now.graph station.now.order sheet.now log.now) }
{
    if let Some(reply) = broken_sheet(alloc, station, sheet)? {
        return Ok(Finding::Answered(reply));
    }
    let claim = claim_of(sheet);
    let left = trim_log(
        alloc,
        &station.graph,
        &station.order,
        &sheet.grid,
        &sheet.order,
        &claim,
        log,
    );
    match left {
        Ok(Some(left)) => Ok(Finding::Left(left)),
        Ok(None) => {
            let reply = check_claim(alloc, station, sheet, log)?;
            Ok(Finding::Answered(reply))
        }
        Err(fault) => refused_claim(alloc, station, sheet, log, fault),
    }
}

/// What a station and the bytes of a sheet and of a log give.
fn judge_sheet(
    alloc: Global,
    station: &Station,
    sheet: &[u8],
    log: &[u8],
) -> Result<Finding, OutOfMemory>
    requires order { IsOrderOf station.now.graph station.now.order }
    requires short { length log.now ≤ MAX_LOG_BYTES }
    ensures { IfOk result (IsSheetFinding station.now.graph station.now.order sheet.now log.now) }
{
    match read_sheet(alloc, &station.graph, sheet) {
        Ok(sheet) => judge_claim(alloc, station, &sheet, log),
        Err(SheetFault::Sheet { what, line }) => {
            let reply = fault_reply(alloc, RunFault::Sheet { what, line })?;
            Ok(Finding::Answered(reply))
        }
        Err(SheetFault::Memory) => Err(OutOfMemory),
    }
}

/// What the bytes of the three files give.
fn judge(alloc: Global, bytes: &[u8], sheet: &[u8], log: &[u8]) -> Result<Finding, OutOfMemory>
    requires file { length bytes.now ≤ MAX_FILE_BYTES }
    requires short { length log.now ≤ MAX_LOG_BYTES }
    ensures { IfOk result (IsFinding bytes.now sheet.now log.now) }
{
    match station_in(alloc, bytes) {
        Ok(station) => judge_sheet(alloc, &station, sheet, log),
        Err(InputRefusal::Fault(fault)) => {
            let reply = fault_reply(alloc, fault)?;
            Ok(Finding::Answered(reply))
        }
        Err(InputRefusal::Memory) => Err(OutOfMemory),
    }
}

// ---- the answer

/// Answers that there is no room to find hints.
fn no_room(alloc: Global) -> Result<Reply, OutOfMemory>
    ensures { IfOk result (λ r. TellsNoRoom r.status r.text.items) }
{
    Ok(Reply {
        status: Status::Unfinished,
        text: no_room_line(alloc)?,
    })
}

/// Leaves the text under the name, and answers with the counts of the lines.
fn write_left<F: Files>(
    alloc: Global,
    left: &TrimmedLog,
    hints: &Text,
    files: &mut F,
) -> Result<Reply, TrimCut>
    ensures answer { let met = between (F.at files.old) (F.at files.new) in
        IfOk result (λ r. TellsLeft left.now hints.now met r.status r.text.items) }
    ensures leaves { WhereTold (F.at files.old).contents (F.at files.new).contents
        (LeftSo (λ name bytes. (hints.now ≡ name) × BeginsLeft left.now bytes)) }
    ensures unrefused { IsOkAnd result (λ r. IsRefused r.status) → ⊥ }
    ensures cause { IsErrOf result TrimCut.Unwritten → Rose (F.at files.old).write_faults
        (F.at files.new).write_faults }
    ensures read_faults { (F.at files.new).read_faults ≡ (F.at files.old).read_faults }
    ensures reads { (F.at files.new).reads ≡ (F.at files.old).reads }
{
    let text = text_of(alloc, left)?;
    let line = trimmed_line(alloc, left)?;
    match write_file(files, hints.as_str(), &text) {
        Ok(()) => Ok(Reply {
            status: Status::Done,
            text: line,
        }),
        Err(FileFault::Failed) => Err(TrimCut::Unwritten),
        Err(FileFault::Memory) => Err(TrimCut::Memory),
    }
}

/// What `trim` answers: where `check` would end with other than 0, what that answers; and else it leaves the hinted
/// lines that certify what the sheet claims under the name `hints`. Of a log that has more variables or words than
/// hints are found in it answers that there is no room, and writes no file.
pub fn trim<F: Files>(
    alloc: Global,
    input: &Text,
    sheet: &Text,
    log: &Text,
    hints: &Text,
    files: &mut F,
) -> Result<Reply, TrimCut>
    ensures answer { let met = between (F.at files.old) (F.at files.new) in
        IfOk result (λ r. IsTrimAnswer input.now sheet.now log.now hints.now met r.status r.text.items) }
    ensures reads { let met = between (F.at files.old) (F.at files.new) in
        ReadsInputs 3 (IsOkAnd result (λ r. IsAnswered r.status)) met }
    ensures unwritten { let met = between (F.at files.old) (F.at files.new) in
        IsOkAnd result (λ r. r.status ≢ Status.Done) ⊎ (HasReadCertified input.now sheet.now log.now met → ⊥) →
        IsUnwritten met }
    ensures leaves { let met = between (F.at files.old) (F.at files.new) in
        HasLeft met (λ name bytes. (IsOkAnd result (λ r. IsRefused r.status) → ⊥)
        × IsLeftByTrim input.now sheet.now log.now hints.now met name bytes) }
    ensures cause { IsErrOf result TrimCut.Unwritten → Rose (F.at files.old).write_faults
        (F.at files.new).write_faults }
    ensures later { (F.at files.old).read_faults ≤ (F.at files.new).read_faults }
{
    match read_all(alloc, input, sheet, log, MAX_LOG_BYTES, files) {
        Ok(texts) => match judge(alloc, &texts.first, &texts.second, &texts.third)? {
            Finding::Answered(reply) => Ok(reply),
            Finding::PastLimits => {
                let reply = no_room(alloc)?;
                Ok(reply)
            }
            Finding::Left(left) => write_left(alloc, &left, hints, files),
        },
        Err(InputRefusal::Fault(fault)) => Ok(fault_reply(alloc, fault)?),
        Err(InputRefusal::Memory) => Err(TrimCut::Memory),
    }
}
