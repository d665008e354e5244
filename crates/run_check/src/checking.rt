// What `check` answers.
ghost use Rattle.std.specs.Prelude.{◌≡◌, ◌≤◌, ◌++◌, length, IfOk, IfSome, IsOkAnd, MatchOption};
ghost use Rattle.std.specs.Option.{is_some};
ghost use Rattle.outside_io.specs.Contents.{WhereTold, SameFiles};
ghost use Rattle.plan_core.specs.Lawful.{Lawful};
ghost use Rattle.track_order.specs.Order.{is_above, IsOrderOf};
ghost use Rattle.plan_text.specs.SheetText.{DrawsAll};
ghost use Rattle.log_check.specs.Claimed.{IsClaimOf};
ghost use Rattle.run_input.specs.Status.{IsAnswered};
ghost use Rattle.run_input.specs.Met.{between, ReadsInputs, IsUnwritten};
ghost use Rattle.run_input.specs.Answer.{text_input, log_input, IsAnswerAfter, IsAnswerOn};
ghost use Rattle.run_check.specs.CheckLine.{claimed as claimed_by, claim_of as claim_in};
ghost use Rattle.run_check.specs.CheckLine.{refusal_status as status_for, verdict_line as line_for, TellsVerdict};
ghost use Rattle.run_check.specs.Checked.{IsFoundBroken, IsSheetAnswer, IsClaimJudged, IsChecked, IsCheckAnswer};

use crate::verdict::broken_reply;
use log_check::{Claim, Refusal, Verdict, judge_log};
use outside_io::{Files, push_field, push_number_field, push_place_field, push_text};
use plan_core::{MAX_FILE_BYTES, MAX_LOG_BYTES, OutOfMemory, Text};
use plan_geometry::values;
use plan_text::{Ending, Sheet, SheetFault, read_sheet};
use run_input::{
    InputRefusal, Reply, RunFault, Station, Status, bytes_of, fault_reply, station_in,
};
use std::alloc::Global;

// ---- what a sheet claims

/// How many values, from the first of the order, a sheet claims to be least.
pub fn claimed(sheet: &Sheet) -> usize
    ensures { result ≡ claimed_by sheet.now.order sheet.now.ending }
{
    match sheet.ending {
        Ending::Best => sheet.order.len(),
        Ending::NoDrawing => 0,
        Ending::Conflicts(settled) | Ending::Room(settled) => usize::from(settled),
    }
}

/// What a sheet claims of the lawful drawings.
pub fn claim_of(sheet: &Sheet) -> Claim
    ensures { result ≡ claim_in sheet.now.order sheet.now.found sheet.now.ending }
{
    match &sheet.found {
        Some(drawing) => Claim::Least {
            values: values(drawing),
            places: claimed(sheet),
        },
        None => match sheet.ending {
            Ending::NoDrawing => Claim::NoDrawing,
            Ending::Best | Ending::Conflicts(_) | Ending::Room(_) => Claim::Nothing,
        },
    }
}

// ---- the lines

fn refusal_status(why: Refusal) -> Status
    ensures { result ≡ status_for why }
{
    match why {
        Refusal::Room => Status::Unfinished,
        Refusal::Differs
        | Refusal::NewVar
        | Refusal::WrongQuery
        | Refusal::NotImplied
        | Refusal::NotNew => Status::Broken,
    }
}

/// The line that so many places are certified.
pub fn certified_line(alloc: Global, places: usize) -> Result<Vec<u8>, OutOfMemory>
    ensures { IfOk result (λ v. v.items ≡ line_for places Verdict.Certified) }
{
    let mut line = Vec::from_slice(alloc, b"certified")?;
    push_place_field(&mut line, places)?;
    push_text(&mut line, b"\n")?;
    Ok(line)
}

/// The line that this place isn't certified.
pub fn lacking_line(alloc: Global, place: u32) -> Result<Vec<u8>, OutOfMemory>
    ensures { IfOk result (λ v. v.items ≡ line_for 0 (Verdict.Lacks place)) }
{
    let mut line = Vec::from_slice(alloc, b"check Lacks place")?;
    push_number_field(&mut line, place)?;
    push_text(&mut line, b"\n")?;
    Ok(line)
}

fn refused_line(alloc: Global, why: Refusal, number: u32) -> Result<Vec<u8>, OutOfMemory>
    ensures { IfOk result (λ v. v.items ≡ line_for 0 (Verdict.Refused why number)) }
{
    let mut line = Vec::from_slice(alloc, b"check")?;
    push_field(&mut line, why.word().as_bytes())?;
    push_field(&mut line, b"line")?;
    push_number_field(&mut line, number)?;
    push_text(&mut line, b"\n")?;
    Ok(line)
}

/// The answer with a verdict on a log, where so many places are claimed.
fn verdict_reply(alloc: Global, places: usize, verdict: Verdict) -> Result<Reply, OutOfMemory>
    ensures { IfOk result (λ r. TellsVerdict places verdict r.status r.text.items) }
{
    match verdict {
        Verdict::Certified => Ok(Reply {
            status: Status::Done,
            text: certified_line(alloc, places)?,
        }),
        Verdict::Lacks { place } => Ok(Reply {
            status: Status::Broken,
            text: lacking_line(alloc, place)?,
        }),
        Verdict::Refused { why, line } => Ok(Reply {
            status: refusal_status(why),
            text: refused_line(alloc, why, line)?,
        }),
        Verdict::Faulty { what, line } => fault_reply(alloc, RunFault::Log { what, line }),
    }
}

// ---- the answer to a sheet and a log

/// What is answered to a sheet whose drawing breaks a law; nothing where it has none that does.
pub fn broken_sheet(
    alloc: Global,
    station: &Station,
    sheet: &Sheet,
) -> Result<Option<Reply>, OutOfMemory>
    requires order { IsOrderOf station.now.graph station.now.order }
    requires drawn { DrawsAll station.now.graph sheet.now }
    ensures { let s = sheet.now in let y = station.now in IfOk result (λ r. MatchOption r (IfSome s.found (Lawful
        y.graph (is_above y.order) s.grid)) (λ x. IsFoundBroken y.graph y.order s s.found x.status x.text.items)) }
{
    match &sheet.found {
        Some(drawing) => broken_reply(alloc, station, &sheet.grid, drawing),
        None => Ok(None),
    }
}

/// What is answered to a sheet and the bytes of a log.
pub fn check_claim(
    alloc: Global,
    station: &Station,
    sheet: &Sheet,
    log: &[u8],
) -> Result<Reply, OutOfMemory>
    requires order { IsOrderOf station.now.graph station.now.order }
    requires drawn { DrawsAll station.now.graph sheet.now }
    requires claim { IsClaimOf sheet.now.order (claim_in sheet.now.order sheet.now.found sheet.now.ending) }
    requires short { length log.now ≤ MAX_LOG_BYTES }
    ensures { IfOk result (λ r. IsSheetAnswer station.now.graph station.now.order sheet.now log.now r.status
        r.text.items) }
{
    if let Some(reply) = broken_sheet(alloc, station, sheet)? {
        return Ok(reply);
    }
    let claim = claim_of(sheet);
    let verdict = judge_log(
        alloc,
        &station.graph,
        &station.order,
        &sheet.grid,
        &sheet.order,
        &claim,
        log,
    )?;
    verdict_reply(alloc, claimed(sheet), verdict)
}

/// What is answered to a station and the bytes of a sheet and of a log.
fn judge_sheet(
    alloc: Global,
    station: &Station,
    sheet: &[u8],
    log: &[u8],
) -> Result<Reply, OutOfMemory>
    requires order { IsOrderOf station.now.graph station.now.order }
    requires short { length log.now ≤ MAX_LOG_BYTES }
    ensures { IfOk result (λ r. IsClaimJudged station.now.graph station.now.order sheet.now log.now r.status
        r.text.items) }
{
    match read_sheet(alloc, &station.graph, sheet) {
        Ok(sheet) => check_claim(alloc, station, &sheet, log),
        Err(SheetFault::Sheet { what, line }) => {
            fault_reply(alloc, RunFault::Sheet { what, line })
        }
        Err(SheetFault::Memory) => Err(OutOfMemory),
    }
}

/// What is answered to the bytes of a file, of a sheet and of a log.
fn judge(alloc: Global, bytes: &[u8], sheet: &[u8], log: &[u8]) -> Result<Reply, OutOfMemory>
    requires file { length bytes.now ≤ MAX_FILE_BYTES }
    requires short { length log.now ≤ MAX_LOG_BYTES }
    ensures { IfOk result (λ r. IsChecked bytes.now sheet.now log.now r.status r.text.items) }
{
    match station_in(alloc, bytes) {
        Ok(station) => judge_sheet(alloc, &station, sheet, log),
        Err(InputRefusal::Fault(fault)) => fault_reply(alloc, fault),
        Err(InputRefusal::Memory) => Err(OutOfMemory),
    }
}

// ---- the reads

/// What `check` answers to the bytes of a file and of a sheet: it reads the log before it judges them.
fn check_sheet<F: Files>(
    alloc: Global,
    bytes: &[u8],
    sheet: &[u8],
    log: &Text,
    files: &mut F,
) -> Result<Reply, OutOfMemory>
    requires { length bytes.now ≤ MAX_FILE_BYTES }
    ensures answer { let met = between (F.at files.old) (F.at files.new) in
        IfOk result (λ r. IsAnswerOn (log_input 3 log.now) 0 met (IsAnswerAfter 1 met (IsChecked bytes.now sheet.now))
        r.status r.text.items) }
    ensures reads { let met = between (F.at files.old) (F.at files.new) in
        ReadsInputs 1 (IsOkAnd result (λ r. IsAnswered r.status)) met }
    ensures unwritten { let met = between (F.at files.old) (F.at files.new) in IsUnwritten met }
    ensures later { (F.at files.old).read_faults ≤ (F.at files.new).read_faults }
    ensures same { WhereTold (F.at files.old).contents (F.at files.new).contents SameFiles }
{
    match bytes_of(alloc, 3, MAX_LOG_BYTES, log, files) {
        Ok(log) => judge(alloc, bytes, sheet, &log),
        Err(InputRefusal::Fault(fault)) => fault_reply(alloc, fault),
        Err(InputRefusal::Memory) => Err(OutOfMemory),
    }
}

/// What `check` answers to the bytes of a file: it reads the sheet and the log before it judges them.
fn check_file<F: Files>(
    alloc: Global,
    bytes: &[u8],
    sheet: &Text,
    log: &Text,
    files: &mut F,
) -> Result<Reply, OutOfMemory>
    requires { length bytes.now ≤ MAX_FILE_BYTES }
    ensures answer { let met = between (F.at files.old) (F.at files.new) in
        IfOk result (λ r. IsAnswerOn (text_input 2 sheet.now) 0 met (λ s. IsAnswerOn (log_input 3 log.now) 1 met
        (IsAnswerAfter 2 met (IsChecked bytes.now s))) r.status r.text.items) }
    ensures reads { let met = between (F.at files.old) (F.at files.new) in
        ReadsInputs 2 (IsOkAnd result (λ r. IsAnswered r.status)) met }
    ensures unwritten { let met = between (F.at files.old) (F.at files.new) in IsUnwritten met }
    ensures later { (F.at files.old).read_faults ≤ (F.at files.new).read_faults }
    ensures same { WhereTold (F.at files.old).contents (F.at files.new).contents SameFiles }
{
    match bytes_of(alloc, 2, MAX_FILE_BYTES, sheet, files) {
        Ok(sheet) => check_sheet(alloc, bytes, &sheet, log, files),
        Err(InputRefusal::Fault(fault)) => fault_reply(alloc, fault),
        Err(InputRefusal::Memory) => Err(OutOfMemory),
    }
}

/// What `check` answers.
pub fn check<F: Files>(
    alloc: Global,
    input: &Text,
    sheet: &Text,
    log: &Text,
    files: &mut F,
) -> Result<Reply, OutOfMemory>
    ensures answer { let met = between (F.at files.old) (F.at files.new) in
        IfOk result (λ r. IsCheckAnswer input.now sheet.now log.now met r.status r.text.items) }
    ensures reads { let met = between (F.at files.old) (F.at files.new) in
        ReadsInputs 3 (IsOkAnd result (λ r. IsAnswered r.status)) met }
    ensures unwritten { let met = between (F.at files.old) (F.at files.new) in IsUnwritten met }
    ensures later { (F.at files.old).read_faults ≤ (F.at files.new).read_faults }
    ensures same { WhereTold (F.at files.old).contents (F.at files.new).contents SameFiles }
{
    match bytes_of(alloc, 1, MAX_FILE_BYTES, input, files) {
        Ok(bytes) => check_file(alloc, &bytes, sheet, log, files),
        Err(InputRefusal::Fault(fault)) => fault_reply(alloc, fault),
        Err(InputRefusal::Memory) => Err(OutOfMemory),
    }
}
