// What can be wrong with the text of a log.
ghost use Rattle.std.specs.Prelude.{◌≡◌};
ghost use Rattle.refute_log.specs.Faults.{number_of, word_of};
ghost use Rattle.refute_log.specs.declared.fault.LineTextFault.TheVariants.{Memory};

use plan_core::OutOfMemory;
use std::alloc::{AllocError, AllocFailed};
use thiserror::Error;

/// The faults of a log's text, in the order of their numbers from 1 to 4. Where several hold, the
/// lowest number counts.
#[derive(Clone, Copy, Debug, PartialEq, Eq)]
pub enum LogWhat {
    /// The first line isn't `railplan-log 1` with its line feed. Reading one line never finds it.
    Header,
    /// The line isn't of one of the six forms, numbers being an optional `-` and digits.
    Form,
    /// A number isn't canonical or is out of its range.
    Number,
    /// A variable is twice in the line.
    Twice,
}

impl LogWhat {
    /// The fault's number, from 1 to 4.
    pub fn number(&self) -> u8
        ensures { result ≡ number_of self.now }
    {
        match self {
            LogWhat::Header => 1,
            LogWhat::Form => 2,
            LogWhat::Number => 3,
            LogWhat::Twice => 4,
        }
    }

    /// The fault's word, as a fault line has it.
    pub fn word(&self) -> &'static str
        ensures { result.now ≡ word_of self.now }
    {
        match self {
            LogWhat::Header => "Header",
            LogWhat::Form => "Form",
            LogWhat::Number => "Number",
            LogWhat::Twice => "Twice",
        }
    }
}

/// Why a text isn't read as a line of a log.
#[derive(Debug, Drop, Error)]
pub enum LineTextFault {
    /// The text has a fault. Lines are numbered from 1, and the first line of a log's text is line 1.
    #[error("a fault in the log")]
    Log { what: LogWhat, line: u32 },
    /// Memory couldn't be had.
    #[error("out of memory")]
    Memory,
}

impl From<OutOfMemory> for LineTextFault {
    ghost from_gives = { λ _ e. e ≡ Memory };

    fn from(_: OutOfMemory) -> Self {
        LineTextFault::Memory
    }
}

impl From<AllocError> for LineTextFault {
    ghost from_gives = { λ _ e. e ≡ Memory };

    fn from(_: AllocError) -> Self {
        LineTextFault::Memory
    }
}

impl<T: Drop> From<AllocFailed<T>> for LineTextFault {
    ghost from_gives = { λ _ e. e ≡ Memory };

    fn from(_: AllocFailed<T>) -> Self {
        LineTextFault::Memory
    }
}
