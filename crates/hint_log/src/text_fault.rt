// What can be wrong with the text of hinted lines.
ghost use Rattle.std.specs.Prelude.{◌≡◌};
ghost use Rattle.hint_log.specs.HintFaults.{number_of, word_of};
ghost use Rattle.hint_log.specs.declared.text_fault.HintTextFault.TheVariants.{Memory};

use plan_core::OutOfMemory;
use std::alloc::{AllocError, AllocFailed};
use thiserror::Error;

/// The faults of such a text, in the order of their numbers from 1 to 5. Where several hold, the lowest number counts.
#[derive(Clone, Copy, Debug, PartialEq, Eq)]
pub enum HintsWhat {
    /// The first line isn't `railplan-hints 1` with its line feed. Reading one line never finds it.
    Header,
    /// The line isn't of its form, numbers being an optional `-` and digits; or it is missing, or has no line feed.
    Form,
    /// A number isn't canonical or is out of its range.
    Number,
    /// A variable comes twice among the literals.
    Twice,
    /// A cap is above the greatest value of its criterion, or positive for one that the order hasn't.
    Range,
}

impl HintsWhat {
    /// The fault's number, from 1 to 5.
    pub fn number(&self) -> u8
        ensures { result ≡ number_of self.now }
    {
        match self {
            HintsWhat::Header => 1,
            HintsWhat::Form => 2,
            HintsWhat::Number => 3,
            HintsWhat::Twice => 4,
            HintsWhat::Range => 5,
        }
    }

    /// The fault's word, as a fault line has it.
    pub fn word(&self) -> &'static str
        ensures { result.now ≡ word_of self.now }
    {
        match self {
            HintsWhat::Header => "Header",
            HintsWhat::Form => "Form",
            HintsWhat::Number => "Number",
            HintsWhat::Twice => "Twice",
            HintsWhat::Range => "Range",
        }
    }
}

/// Why a text isn't read as a hinted line.
#[derive(Debug, Drop, Error)]
pub enum HintTextFault {
    /// The text has a fault. Lines are numbered from 1, and the first line of the whole text is line 1.
    #[error("a fault in the hints")]
    Hints { what: HintsWhat, line: u32 },
    /// Memory couldn't be had.
    #[error("out of memory")]
    Memory,
}

impl From<OutOfMemory> for HintTextFault {
    ghost from_gives = { λ _ e. e ≡ Memory };

    fn from(_: OutOfMemory) -> Self {
        HintTextFault::Memory
    }
}

impl From<AllocError> for HintTextFault {
    ghost from_gives = { λ _ e. e ≡ Memory };

    fn from(_: AllocError) -> Self {
        HintTextFault::Memory
    }
}

impl<T: Drop> From<AllocFailed<T>> for HintTextFault {
    ghost from_gives = { λ _ e. e ≡ Memory };

    fn from(_: AllocFailed<T>) -> Self {
        HintTextFault::Memory
    }
}
