// A log in a file of files that are lent.
ghost use Rattle.std.specs.Prelude.{◌≡◌, ◌≤◌, [], false, OnOk, OnErr, IfOk, IfErr, IsErrOf, string_bytes};
ghost use Rattle.outside_io.specs.Counts.{Rose};
ghost use Rattle.outside_io.specs.Contents.{WhereTold, SameElsewhere, Sets};
ghost use Rattle.refute_log.specs.Lines.{header};
ghost use Rattle.refute_log.specs.FileLog.{StartFails};

use crate::{LogLine, LogSink, LogSinkFault, write_line};
use outside_io::{FileFault, Files, write_file};
use std::alloc::Global;

/// How many bytes are gathered, at least, before they go into the file.
const PIECE: usize = 65536;

/// What a log in a file keeps beside the files that are lent to it.
#[derive(Drop)]
pub struct Gathered {
    name: String,
    bytes: Vec<u8>,
    learnt: u64,
    failed: bool,
}

/// A log that gathers the text of its lines and appends it, in pieces, to a file of the files that
/// are lent to it. `finish` appends the rest; without it the file has a front of the text. Once a
/// call has failed the log writes nothing more, and refuses each line with `Memory`.
///
/// The second type parameter is always `Gathered`. It is a parameter so that what the files are at
/// the end is known to the caller.
#[derive(Drop)]
pub struct FileLog<'a, F: Files, G = Gathered> {
    files: &'a mut F,
    kept: G,
}

fn fault_of(fault: FileFault) -> LogSinkFault
    ensures { result ≡ LogSinkFault.Failed → fault ≡ FileFault.Failed }
{
    match fault {
        FileFault::Failed => LogSinkFault::Failed,
        FileFault::Memory => LogSinkFault::Memory,
    }
}

/// Makes room for what the log keeps, and then the file with its first line.
fn prepare<F: Files>(alloc: Global, files: &mut F, name: &str) -> Result<Gathered, LogSinkFault>
    ensures kept { IfOk result (λ k. (string_bytes k.name ≡ name.now) × (k.learnt ≡ 0) × (k.failed ≡ false)
        × (k.bytes.items ≡ [])) }
    ensures created { OnOk result
        (WhereTold (F.at files.old).contents (F.at files.new).contents (Sets name.now header)) }
    ensures err { IfErr result (λ e. StartFails name.now (F.at files.old) e (F.at files.new)) }
    ensures later { (F.at files.old).write_faults ≤ (F.at files.new).write_faults }
    ensures read_faults { (F.at files.new).read_faults ≡ (F.at files.old).read_faults }
    ensures reads { (F.at files.new).reads ≡ (F.at files.old).reads }
{
    let copy = String::from_str(alloc, name)?;
    match write_file(files, name, b"railplan-log 1\n") {
        Ok(()) => Ok(Gathered {
            name: copy,
            bytes: Vec::new(alloc),
            learnt: 0,
            failed: false,
        }),
        Err(fault) => Err(fault_of(fault)),
    }
}

impl<'a, F: Files> FileLog<'a, F> {
    ghost use Rattle.std.specs.Prelude.{◌≡◌, ◌≤◌, [], OnOk, IfOk, IfErr, IsErrOf};
    ghost use Rattle.outside_io.specs.Counts.{Rose};
    ghost use Rattle.outside_io.specs.Contents.{WhereTold, SameElsewhere, Sets};
    ghost use Rattle.refute_log.specs.Lines.{header};
    ghost use Rattle.refute_log.specs.FileLog.{TellsLines, KeepsLog, FileBeginsLog, name_of, learnt_of, HasText};
    ghost use Rattle.refute_log.specs.FileLog.{IsTold, StartFails};
    ghost use Rattle.refute_log.specs.declared.sink.LogSinkFault.TheVariants.{Failed};
    ghost use Rattle.refute_log.specs.Told.{Lines};

    /// Creates the file with its first line. An `Err` hands the files back.
    pub fn start(
        alloc: Global,
        files: &'a mut F,
        name: &str,
    ) -> Result<FileLog<'a, F>, (LogSinkFault, &'a mut F)>
        ensures same_reference { IfOk result (λ s. s.files.ghost_name ≡ files.entry.ghost_name) }
        ensures same_reference_err { IfErr result (λ e. e.1.ghost_name ≡ files.entry.ghost_name) }
        ensures name { IfOk result (λ s. name_of s.kept ≡ name.now) }
        ensures learnt { IfOk result (λ s. learnt_of s.kept ≡ 0) }
        ensures created { IfOk result (λ s. WhereTold (F.at files.entry.now).contents (F.at s.files.now).contents
            (Sets name.now header)) }
        ensures tells { IfOk result (λ s. IsTold (F.at files.entry.now).contents →
            TellsLines s.kept (F.at s.files.now).contents []) }
        ensures keeps { IfOk result (λ s. WhereTold (F.at files.entry.now).contents (F.at s.files.now).contents
            (λ _ now. KeepsLog s.kept now)) }
        ensures faults { IfOk result (λ s. (F.at files.entry.now).write_faults ≤ (F.at s.files.now).write_faults) }
        ensures read_faults { IfOk result (λ s. (F.at s.files.now).read_faults ≡ (F.at files.entry.now).read_faults) }
        ensures reads { IfOk result (λ s. (F.at s.files.now).reads ≡ (F.at files.entry.now).reads) }
        ensures read_faults_err { IfErr result (λ e. (F.at e.1.now).read_faults ≡ (F.at files.entry.now).read_faults) }
        ensures reads_err { IfErr result (λ e. (F.at e.1.now).reads ≡ (F.at files.entry.now).reads) }
        ensures err { IfErr result (λ e. StartFails name.now (F.at files.entry.now) e.0 (F.at e.1.now)) }
    {
        match prepare(alloc, files, name) {
            Ok(kept) => Ok(FileLog { files, kept }),
            Err(fault) => Err((fault, files)),
        }
    }

    /// Lets the files go as they are.
    pub fn abandon(self)
        ensures { self.exit.0.now ≡ self.entry.files.now }
    {
        let FileLog { files: _, kept: _ } = self;
    }

    /// Appends what is gathered. Where a call has failed before, it writes nothing and answers
    /// `Memory`.
    pub fn finish(self) -> Result<(), LogSinkFault>
        ensures faults { (F.at self.entry.files.now).write_faults ≤ (F.at self.exit.0.now).write_faults }
        ensures read_faults { (F.at self.exit.0.now).read_faults ≡ (F.at self.entry.files.now).read_faults }
        ensures reads { (F.at self.exit.0.now).reads ≡ (F.at self.entry.files.now).reads }
        ensures others { WhereTold (F.at self.entry.files.now).contents (F.at self.exit.0.now).contents
            (SameElsewhere (name_of self.entry.kept)) }
        ensures cause { IsErrOf result Failed → Rose (F.at self.entry.files.now).write_faults
            (F.at self.exit.0.now).write_faults }
        ensures begins { WhereTold (F.at self.entry.files.now).contents (F.at self.exit.0.now).contents
            (λ before now. KeepsLog self.entry.kept before → FileBeginsLog now (name_of self.entry.kept)) }
        ensures text { OnOk result ((lines : Lines) → TellsLines self.entry.kept (F.at self.entry.files.now).contents
            lines → HasText (F.at self.exit.0.now).contents (name_of self.entry.kept) lines) }
    {
        let FileLog { files, kept } = self;
        if kept.failed {
            return Err(LogSinkFault::Memory);
        }
        match files.append(kept.name.as_str(), &kept.bytes) {
            Ok(()) => Ok(()),
            Err(fault) => Err(fault_of(fault)),
        }
    }
}

impl<'a, F: Files> LogSink for FileLog<'a, F> {
    ghost use Rattle.std.specs.Prelude.{◌≡◌};
    ghost use Rattle.std.proofs.Common.{refl, ◌∙◌};
    ghost use Rattle.refute_log.specs.FileLog.{TellsLines, name_of, learnt_of, IsKeptLater, later_itself, later_again};
    ghost use Rattle.refute_log.specs.FileLog.{tells_once};

    ghost tells = { λ s lines. TellsLines s.kept (F.at s.files.now).contents lines };

    ghost learnt = { λ s. learnt_of s.kept };

    ghost faults = { λ s. (F.at s.files.now).write_faults };

    ghost is_later = { λ s t. (t.files.ghost_name ≡ s.files.ghost_name)
        × IsKeptLater s.kept (F.at s.files.now) t.kept (F.at t.files.now) };

    fn tell(&mut self, line: &LogLine) -> Result<(), LogSinkFault> {
        if self.kept.failed {
            return Err(LogSinkFault::Memory);
        }
        if write_line(line, &mut self.kept.bytes).is_err() {
            self.kept.failed = true;
            return Err(LogSinkFault::Memory);
        }
        if self.kept.bytes.len() >= PIECE {
            match self.files.append(self.kept.name.as_str(), &self.kept.bytes) {
                Ok(()) => self.kept.bytes.clear(),
                Err(fault) => {
                    self.kept.failed = true;
                    return Err(fault_of(fault));
                }
            }
        }
        self.kept.learnt = line.count_after(self.kept.learnt);
        Ok(())
    }

    ghost one_reading = { λ s a b h k. tells_once s.kept.failed (F.at s.files.now).contents (name_of s.kept)
        s.kept.bytes.items a b h.0 k.0 };

    ghost told_lines = { λ s lines h. h.0.2 };

    ghost counted = { λ s lines h. h.1 };

    ghost later_same = { λ s. (refl, later_itself s.kept (F.at s.files.now)) };

    ghost later_more = { λ a b c h k. (
      k.0 ∙ h.0,
      later_again a.kept b.kept c.kept (F.at a.files.now) (F.at b.files.now) (F.at c.files.now) h.1 k.1,
    ) };
}
