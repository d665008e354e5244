// What `verify` answers.
ghost use Rattle.std.specs.Prelude.{◌≡◌, ◌≤◌, length, IfOk, IsOkAnd};
ghost use Rattle.outside_io.specs.Contents.{WhereTold, SameFiles};
ghost use Rattle.track_order.specs.Order.{IsOrderOf};
ghost use Rattle.run_input.specs.Status.{IsAnswered};
ghost use Rattle.run_input.specs.Met.{between, ReadsInputs, IsUnwritten};
ghost use Rattle.run_input.specs.Answer.{text_input, IsAnswerAfter, IsAnswerOn};
ghost use Rattle.run_check.specs.Verdict.{IsVerified};
ghost use Rattle.run_check.specs.Verdict.{IsSheetJudged};

use crate::verdict::verdict;
use outside_io::Files;
use plan_core::{MAX_FILE_BYTES, OutOfMemory, Text};
use plan_text::{SheetFault, read_drawing};
use run_input::{InputRefusal, Reply, RunFault, Station, bytes_of, fault_reply, station_in};
use std::alloc::Global;

/// What is answered to a station and the bytes of a sheet.
fn judge_sheet(alloc: Global, station: &Station, sheet: &[u8]) -> Result<Reply, OutOfMemory>
    requires { IsOrderOf station.now.graph station.now.order }
    ensures { IfOk result (λ r. IsSheetJudged station.now.graph station.now.order sheet.now r.status r.text.items) }
{
    match read_drawing(alloc, &station.graph, sheet) {
        Ok((grid, drawing)) => verdict(alloc, station, &grid, &drawing),
        Err(SheetFault::Sheet { what, line }) => {
            fault_reply(alloc, RunFault::Sheet { what, line })
        }
        Err(SheetFault::Memory) => Err(OutOfMemory),
    }
}

/// What is answered to the bytes of a file and of a sheet.
fn judge(alloc: Global, bytes: &[u8], sheet: &[u8]) -> Result<Reply, OutOfMemory>
    requires { length bytes.now ≤ MAX_FILE_BYTES }
    ensures { IfOk result (λ r. IsVerified bytes.now sheet.now r.status r.text.items) }
{
    match station_in(alloc, bytes) {
        Ok(station) => judge_sheet(alloc, &station, sheet),
        Err(InputRefusal::Fault(fault)) => fault_reply(alloc, fault),
        Err(InputRefusal::Memory) => Err(OutOfMemory),
    }
}

/// What `verify` answers to a file's bytes: it reads the sheet before it judges them.
fn verify_bytes<F: Files>(
    alloc: Global,
    bytes: &[u8],
    sheet: &Text,
    files: &mut F,
) -> Result<Reply, OutOfMemory>
    requires { length bytes.now ≤ MAX_FILE_BYTES }
    ensures answer { let met = between (F.at files.old) (F.at files.new) in
        IfOk result (λ r. IsAnswerOn (text_input 2 sheet.now) 0 met (IsAnswerAfter 1 met (IsVerified bytes.now))
        r.status r.text.items) }
    ensures reads { let met = between (F.at files.old) (F.at files.new) in
        ReadsInputs 1 (IsOkAnd result (λ r. IsAnswered r.status)) met }
    ensures unwritten { let met = between (F.at files.old) (F.at files.new) in IsUnwritten met }
    ensures later { (F.at files.old).read_faults ≤ (F.at files.new).read_faults }
    ensures same { WhereTold (F.at files.old).contents (F.at files.new).contents SameFiles }
{
    match bytes_of(alloc, 2, MAX_FILE_BYTES, sheet, files) {
        Ok(sheet) => judge(alloc, bytes, &sheet),
        Err(InputRefusal::Fault(fault)) => fault_reply(alloc, fault),
        Err(InputRefusal::Memory) => Err(OutOfMemory),
    }
}

/// What `verify` answers.
pub fn verify<F: Files>(
    alloc: Global,
    input: &Text,
    sheet: &Text,
    files: &mut F,
) -> Result<Reply, OutOfMemory>
    ensures answer { let met = between (F.at files.old) (F.at files.new) in
        IfOk result (λ r. IsAnswerOn (text_input 1 input.now) 0 met (λ bytes. IsAnswerOn (text_input 2 sheet.now) 1
        met (IsAnswerAfter 2 met (IsVerified bytes))) r.status r.text.items) }
    ensures reads { let met = between (F.at files.old) (F.at files.new) in
        ReadsInputs 2 (IsOkAnd result (λ r. IsAnswered r.status)) met }
    ensures unwritten { let met = between (F.at files.old) (F.at files.new) in IsUnwritten met }
    ensures later { (F.at files.old).read_faults ≤ (F.at files.new).read_faults }
    ensures same { WhereTold (F.at files.old).contents (F.at files.new).contents SameFiles }
{
    match bytes_of(alloc, 1, MAX_FILE_BYTES, input, files) {
        Ok(bytes) => verify_bytes(alloc, &bytes, sheet, files),
        Err(InputRefusal::Fault(fault)) => fault_reply(alloc, fault),
        Err(InputRefusal::Memory) => Err(OutOfMemory),
    }
}
