// Reading the inputs of a command.
ghost use Rattle.std.specs.Prelude.{◌≡◌, ◌<◌, ◌≤◌, length, All, IfOk, IfErr, OnOk, OnErr, MatchBool};
ghost use Rattle.outside_io.specs.Contents.{WhereTold, SameFiles};
ghost use Rattle.outside_io.specs.Counts.{next_count};
ghost use Rattle.track_order.specs.Order.{IsOrderOf};
ghost use Rattle.plan_objects.specs.declared.places.SignalPlace.{SignalPlace as APlace};
ghost use Rattle.run_input.specs.Answer.{input_file};
ghost use Rattle.run_input.specs.Input.{IsLong, IsShort, IsStationOf};
ghost use Rattle.run_input.specs.Met.{between, HasRead, ReadsInputs, IsUnwritten};
ghost use Rattle.run_input.specs.Reading.{IsInput, IsUnreadInput, IsRefusalOf};
ghost use Rattle.run_input.specs.ThreeFiles.{AreThreeFiles, IsUnreadOfThree};
ghost use Rattle.run_input.specs.Signals.{IsSignalStationOf, IsSignalRefusalOf};

use crate::fault::RunFault;
use crate::input::{InputRefusal, Station, station_in};
use crate::signals::{SignalStation, signals_in};
use outside_io::{FileFault, Files};
use plan_core::{MAX_FILE_BYTES, MAX_LOG_BYTES, Text};
use std::alloc::Global;

/// Whether an input has more bytes than it may have.
fn is_long(bytes: &[u8], limit: usize) -> bool
    ensures { MatchBool result (IsLong limit bytes.now) (IsShort limit bytes.now) }
{
    bytes.len() > limit
}

/// The bytes of the input with this number, counted from 1, which is the file of this name. Or that they are more than
/// `limit`, or that they couldn't be read.
pub fn bytes_of<F: Files>(
    alloc: Global,
    number: u8,
    limit: usize,
    name: &Text,
    files: &mut F,
) -> Result<Vec<u8>, InputRefusal>
    requires { limit ≤ MAX_LOG_BYTES }
    ensures bytes { IfOk result (λ v. IsInput (input_file number name.now limit) (F.at files.old).contents v.items) }
    ensures refusal { let met = between (F.at files.old) (F.at files.new) in
        IfErr result (λ r. IsUnreadInput (input_file number name.now limit) met r) }
    ensures reads { OnOk result ((F.at files.new).reads ≡ next_count (F.at files.old).reads) }
    ensures reads_err { let met = between (F.at files.old) (F.at files.new) in OnErr result (ReadsInputs 1 ⊥ met) }
    ensures unwritten { let met = between (F.at files.old) (F.at files.new) in IsUnwritten met }
    ensures later { (F.at files.old).read_faults ≤ (F.at files.new).read_faults }
    ensures same { WhereTold (F.at files.old).contents (F.at files.new).contents SameFiles }
{
    let mut bytes = Vec::new(alloc);
    match files.read_front(name.as_str(), limit + 1, &mut bytes) {
        Ok(()) => {
            if is_long(&bytes, limit) {
                return Err(InputRefusal::Fault(RunFault::Long(number)));
            }
            Ok(bytes)
        }
        Err(FileFault::Failed) => Err(InputRefusal::Fault(RunFault::ReadFailed(number))),
        Err(FileFault::Memory) => Err(InputRefusal::Memory),
    }
}

/// The bytes of three files.
#[derive(Drop)]
pub struct ThreeFiles {
    pub first: Vec<u8>,
    pub second: Vec<u8>,
    pub third: Vec<u8>,
}

/// The bytes of three inputs, which are the files of these names, read one after another: a railML file, another one or
/// the text of a drawing, and one that may have `limit` bytes. Or that one of them is too long, or couldn't be read;
/// what comes after it isn't read.
pub fn read_all<F: Files>(
    alloc: Global,
    input: &Text,
    second: &Text,
    third: &Text,
    limit: usize,
    files: &mut F,
) -> Result<ThreeFiles, InputRefusal>
    requires { limit ≤ MAX_LOG_BYTES }
    ensures inputs { IfOk result (λ t. AreThreeFiles input.now second.now (input_file 3 third.now limit)
        (F.at files.old).contents t.first.items t.second.items t.third.items) }
    ensures refusal { let met = between (F.at files.old) (F.at files.new) in
        IfErr result (λ r. IsUnreadOfThree input.now second.now (input_file 3 third.now limit) met r) }
    ensures reads { OnOk result (HasRead (between (F.at files.old) (F.at files.new)) 3) }
    ensures reads_err { let met = between (F.at files.old) (F.at files.new) in OnErr result (ReadsInputs 3 ⊥ met) }
    ensures unwritten { let met = between (F.at files.old) (F.at files.new) in IsUnwritten met }
    ensures later { (F.at files.old).read_faults ≤ (F.at files.new).read_faults }
    ensures same { WhereTold (F.at files.old).contents (F.at files.new).contents SameFiles }
{
    let bytes = bytes_of(alloc, 1, MAX_FILE_BYTES, input, files)?;
    let next = bytes_of(alloc, 2, MAX_FILE_BYTES, second, files)?;
    let last = bytes_of(alloc, 3, limit, third, files)?;
    Ok(ThreeFiles {
        first: bytes,
        second: next,
        third: last,
    })
}

/// The station of the file of this name, or its first fault, or that it couldn't be read.
pub fn station_of<F: Files>(
    alloc: Global,
    input: &Text,
    files: &mut F,
) -> Result<Station, InputRefusal>
    ensures station { IfOk result (λ s. IsStationOf input.now (F.at files.old).contents s.graph s.order) }
    ensures order { IfOk result (λ s. IsOrderOf s.graph s.order) }
    ensures refusal { let met = between (F.at files.old) (F.at files.new) in
        IfErr result (λ r. IsRefusalOf input.now met r) }
    ensures reads { OnOk result ((F.at files.new).reads ≡ next_count (F.at files.old).reads) }
    ensures reads_err { let met = between (F.at files.old) (F.at files.new) in OnErr result (ReadsInputs 1 ⊥ met) }
    ensures unwritten { let met = between (F.at files.old) (F.at files.new) in IsUnwritten met }
    ensures later { (F.at files.old).read_faults ≤ (F.at files.new).read_faults }
    ensures same { WhereTold (F.at files.old).contents (F.at files.new).contents SameFiles }
{
    match bytes_of(alloc, 1, MAX_FILE_BYTES, input, files) {
        Ok(bytes) => station_in(alloc, &bytes),
        Err(refusal) => Err(refusal),
    }
}

/// The station of the file of this name with its signals, or the first fault of the file or of its signals, or that it
/// couldn't be read.
pub fn signals_of<F: Files>(
    alloc: Global,
    input: &Text,
    files: &mut F,
) -> Result<SignalStation, InputRefusal>
    ensures station { IfOk result (λ s. IsSignalStationOf input.now (F.at files.old).contents s.station.graph
        s.station.order
        s.signals s.placed) }
    ensures order { IfOk result (λ s. IsOrderOf s.station.graph s.station.order) }
    ensures drawn { IfOk result (λ s. All (λ (p : APlace). p.edge.0 < length s.station.graph.edges) s.placed) }
    ensures refusal { let met = between (F.at files.old) (F.at files.new) in
        IfErr result (λ r. IsSignalRefusalOf input.now met r) }
    ensures reads { OnOk result ((F.at files.new).reads ≡ next_count (F.at files.old).reads) }
    ensures reads_err { let met = between (F.at files.old) (F.at files.new) in OnErr result (ReadsInputs 1 ⊥ met) }
    ensures unwritten { let met = between (F.at files.old) (F.at files.new) in IsUnwritten met }
    ensures later { (F.at files.old).read_faults ≤ (F.at files.new).read_faults }
    ensures same { WhereTold (F.at files.old).contents (F.at files.new).contents SameFiles }
{
    match bytes_of(alloc, 1, MAX_FILE_BYTES, input, files) {
        Ok(bytes) => signals_in(alloc, &bytes),
        Err(refusal) => Err(refusal),
    }
}
