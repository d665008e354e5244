// A search whose lines go to the file that is named for them, or else to the trace: one frame for each search whose
// lines may go to a file, and for that of trial.
ghost use Rattle.std.specs.Prelude.{◌≡◌, ◌≢◌, ◌≤◌, ◌⊎◌, [], None, Some, IfOk, IsErrOf};
ghost use Rattle.outside_io.specs.Contents.{WhereTold, SameElsewhere};
ghost use Rattle.outside_io.specs.Counts.{Rose};
ghost use Rattle.refute_log.specs.Told.{Lines};
ghost use Rattle.refute_log.specs.ToldTo.{told_to};
ghost use Rattle.refute_log.specs.FileLog.{BeginsLog, FileBeginsLog};
ghost use Rattle.run_input.specs.Met.{between, IsUnwritten, HasLeft};
ghost use Rattle.run_input.specs.SearchLog.{HasToldEnd, TellsIfNew, HoldsLog, IsRunLog};
ghost use Rattle.run_input.specs.Written.{file_named, FailsToWrite};

use crate::reply::{Cut, cut_of};
use outside_io::Files;
use plan_core::Text;
use refute_log::{FileLog, LogSink};
use std::alloc::Global;

/// What can be searched for, with lines for a log.
pub trait Searching {
    /// How the search ends.
    type Found: Drop;

    /// The search may begin.
    ghost ready: { Self → Type 0 };

    /// These are the lines of the search with this end.
    ghost ended: { Self → Self.Found → Lines → Type 0 };

    /// These are lines of the search, whether it ended or was cut short.
    ghost left: { Self → Lines → Type 0 };

    /// Searches. The log takes the lines.
    fn search<L: LogSink>(&self, alloc: Global, log: &mut L) -> Result<Self::Found, Cut>
        requires ready { ready self.now }
        ensures searched { IfOk result (λ found. HasToldEnd (ended self.now found)
            (told_to L.tells L.learnt log.old log.new)) }
        ensures left { TellsIfNew (left self.now) (L.tells log.old) (L.tells log.new) }
        ensures later { L.is_later log.old log.new }
        ensures faults { L.faults log.old ≤ L.faults log.new }
        ensures cause { IsErrOf result Cut.Unwritten → Rose (L.faults log.old) (L.faults log.new) };

    /// The empty list is such.
    ghost left_none: { (s : Self) → left s [] };
}

/// The search with a new log in the file of this name.
fn search_filed<S: Searching, F: Files>(
    alloc: Global,
    question: &S,
    name: &Text,
    files: &mut F,
) -> Result<S::Found, Cut>
    requires ready { S.ready question.now }
    ensures searched { IfOk result (λ found. HasToldEnd (S.ended question.now found)
        (HoldsLog (F.at files.old).contents (F.at files.new).contents name.now)) }
    ensures others { WhereTold (F.at files.old).contents (F.at files.new).contents (SameElsewhere name.now) }
    ensures begun { WhereTold (F.at files.old).contents (F.at files.new).contents
        (λ before after. (after name.now ≡ before name.now) ⊎ FileBeginsLog after name.now) }
    ensures later { (F.at files.old).write_faults ≤ (F.at files.new).write_faults }
    ensures cause { IsErrOf result Cut.Unwritten → Rose (F.at files.old).write_faults (F.at files.new).write_faults }
    ensures read_faults { (F.at files.new).read_faults ≡ (F.at files.old).read_faults }
    ensures reads { (F.at files.new).reads ≡ (F.at files.old).reads }
{
    match FileLog::start(alloc, files, name.as_str()) {
        Ok(mut log) => match question.search(alloc, &mut log) {
            Ok(found) => match log.finish() {
                Ok(()) => Ok(found),
                Err(fault) => Err(cut_of(fault)),
            },
            Err(cut) => {
                log.abandon();
                Err(cut)
            }
        },
        Err((fault, _files)) => Err(cut_of(fault)),
    }
}

/// The search, its lines given to the file that is named for them or else to the trace.
pub fn search_logged<S: Searching, F: Files, T: LogSink>(
    alloc: Global,
    question: &S,
    log: &Option<Text>,
    files: &mut F,
    trace: &mut T,
) -> Result<S::Found, Cut>
    requires ready { S.ready question.now }
    ensures searched { let met = between (F.at files.old) (F.at files.new) in
        IfOk result (λ found. HasToldEnd (S.ended question.now found)
        (IsRunLog log.now met (told_to T.tells T.learnt trace.old trace.new))) }
    ensures left { TellsIfNew (S.left question.now) (T.tells trace.old) (T.tells trace.new) }
    ensures leaves { HasLeft (between (F.at files.old) (F.at files.new))
        (λ name bytes. (log.now ≡ Some name) × BeginsLog bytes) }
    ensures unwritten { log.now ≡ None → IsUnwritten (between (F.at files.old) (F.at files.new)) }
    ensures later { (F.at files.old).write_faults ≤ (F.at files.new).write_faults }
    ensures cause { let met = between (F.at files.old) (F.at files.new) in
        IsErrOf result Cut.Unwritten → FailsToWrite (file_named log.now) (log.now ≡ None) met
        (Rose (T.faults trace.old) (T.faults trace.new)) }
    ensures read_faults { (F.at files.new).read_faults ≡ (F.at files.old).read_faults }
    ensures reads { (F.at files.new).reads ≡ (F.at files.old).reads }
    ensures traced { T.is_later trace.old trace.new }
    ensures untold { log.now ≢ None → trace.new ≡ trace.old }
{
    match log {
        Some(name) => search_filed(alloc, question, name, files),
        None => question.search(alloc, trace),
    }
}
