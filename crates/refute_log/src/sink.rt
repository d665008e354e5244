// Where the lines of a log are told.
ghost use Rattle.std.specs.Prelude.{◌≡◌, ◌≤◌, ℕ, OnOk, OnErr, IsErrOf};
ghost use Rattle.outside_io.specs.Counts.{Rose};
ghost use Rattle.refute_log.specs.declared.sink.LogSinkFault.TheVariants.{Memory};
ghost use Rattle.refute_log.specs.Lines.{MayBeTold, MayAllBeTold};
ghost use Rattle.refute_log.specs.Told.{Lines, AddsLine, TellsNoMore, learnt_after};
ghost use Rattle.refute_log.specs.Log.{learnt_count};

use crate::LogLine;
use plan_core::OutOfMemory;
use std::alloc::{AllocError, AllocFailed};
use thiserror::Error;

/// Why a line wasn't taken.
#[derive(Debug, Drop, Error)]
pub enum LogSinkFault {
    /// The log couldn't be written. The log's count of faults rose in the call.
    #[error("the log could not be written")]
    Failed,
    /// Memory couldn't be had.
    #[error("out of memory")]
    Memory,
}

impl From<AllocError> for LogSinkFault {
    ghost from_gives = { λ _ e. e ≡ Memory };

    fn from(_: AllocError) -> Self {
        LogSinkFault::Memory
    }
}

impl<T: Drop> From<AllocFailed<T>> for LogSinkFault {
    ghost from_gives = { λ _ e. e ≡ Memory };

    fn from(_: AllocFailed<T>) -> Self {
        LogSinkFault::Memory
    }
}

impl From<OutOfMemory> for LogSinkFault {
    ghost from_gives = { λ _ e. e ≡ Memory };

    fn from(_: OutOfMemory) -> Self {
        LogSinkFault::Memory
    }
}

/// What takes the lines of a log. A clause on an error holds for both errors. A log that refused a line isn't used
/// further.
pub trait LogSink {
    /// The log tells that these are its lines. One that doesn't tell them says so of no list.
    ghost tells: { Self → Lines → Type 0 };

    /// How many Learnt lines it took.
    ghost learnt: { Self → ℕ };

    /// How many faults there were.
    ghost faults: { Self → ℕ };

    /// The second is a later state of the first.
    ghost is_later: { Self → Self → Type 0 };

    /// Tells the log the line. After an error the log tells the lines as before, or tells none any more.
    fn tell(&mut self, line: &LogLine) -> Result<(), LogSinkFault>
        requires { MayBeTold line.now }
        ensures ok { OnOk result (AddsLine (tells self.old) (tells self.new) line.now) }
        ensures err { OnErr result (TellsNoMore (tells self.old) (tells self.new)) }
        ensures learnt { OnOk result (learnt self.new ≡ learnt_after line.now (learnt self.old)) }
        ensures learnt_err { OnErr result (learnt self.new ≡ learnt self.old) }
        ensures faults { faults self.old ≤ faults self.new }
        ensures cause { IsErrOf result LogSinkFault.Failed → Rose (faults self.old) (faults self.new) }
        ensures later { is_later self.old self.new };

    /// A state tells one list at most.
    ghost one_reading: { (s : Self) (a b : Lines) → tells s a → tells s b → a ≡ b };

    /// Each of its lines is one that a log may take: it is well formed and names no variable twice.
    ghost told_lines: { (s : Self) (lines : Lines) → tells s lines → MayAllBeTold lines };

    /// The number of Learnt lines that it took is that of the list.
    ghost counted: { (s : Self) (lines : Lines) → tells s lines → learnt s ≡ learnt_count lines };

    /// Each state is a later state of itself.
    ghost later_same: { (s : Self) → is_later s s };

    /// What is later than a later state is later.
    ghost later_more: { (a b c : Self) → is_later a b → is_later b c → is_later a c };
}
