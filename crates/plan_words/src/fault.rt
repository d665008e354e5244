// What can be wrong with the words.
ghost use Rattle.std.specs.Prelude.{◌≡◌};
ghost use Rattle.plan_words.specs.declared.fault.WordFault.TheVariants.{Memory};
ghost use Rattle.plan_words.specs.WordFaults.{number_of, word_of};

use plan_core::OutOfMemory;
use std::alloc::{AllocError, AllocFailed};
use thiserror::Error;

/// The faults of words, in the order of their numbers from 1 to 7.
#[derive(Clone, Copy, Debug, PartialEq, Eq)]
pub enum WordWhat {
    /// There are no words.
    NoCommand,
    /// The first word is no command.
    UnknownCommand,
    /// The words end with too few names.
    MissingName,
    /// A name past the last.
    ExtraWord,
    /// An option that isn't one of the command's.
    UnknownOption,
    /// An option that came before.
    RepeatedOption,
    /// A value that isn't allowed or isn't there, an empty name, or one that another file has.
    BadValue,
}

impl WordWhat {
    /// The fault's number in the table of faults, 1 to 7.
    pub fn number(self) -> u8
        ensures { result ≡ number_of self }
    {
        match self {
            WordWhat::NoCommand => 1,
            WordWhat::UnknownCommand => 2,
            WordWhat::MissingName => 3,
            WordWhat::ExtraWord => 4,
            WordWhat::UnknownOption => 5,
            WordWhat::RepeatedOption => 6,
            WordWhat::BadValue => 7,
        }
    }

    /// The fault's word, as its line names it.
    pub fn word(self) -> &'static str
        ensures { result.now ≡ word_of self }
    {
        match self {
            WordWhat::NoCommand => "NoCommand",
            WordWhat::UnknownCommand => "UnknownCommand",
            WordWhat::MissingName => "MissingName",
            WordWhat::ExtraWord => "ExtraWord",
            WordWhat::UnknownOption => "UnknownOption",
            WordWhat::RepeatedOption => "RepeatedOption",
            WordWhat::BadValue => "BadValue",
        }
    }
}

/// Why words give no command.
#[derive(Debug, Drop, Error)]
pub enum WordFault {
    /// The words have a fault. `position` is that of a word, counted from 1.
    #[error("a fault in the words")]
    Words { what: WordWhat, position: u32 },
    /// Memory couldn't be had.
    #[error("out of memory")]
    Memory,
}

impl From<OutOfMemory> for WordFault {
    ghost from_gives = { λ _ e. e ≡ Memory };

    fn from(_: OutOfMemory) -> Self {
        WordFault::Memory
    }
}

impl From<AllocError> for WordFault {
    ghost from_gives = { λ _ e. e ≡ Memory };

    fn from(_: AllocError) -> Self {
        WordFault::Memory
    }
}

impl<T: Drop> From<AllocFailed<T>> for WordFault {
    ghost from_gives = { λ _ e. e ≡ Memory };

    fn from(_: AllocFailed<T>) -> Self {
        WordFault::Memory
    }
}
