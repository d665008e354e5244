// What can be wrong with the text of a sheet.
ghost use Rattle.std.specs.Prelude.{◌≡◌};
ghost use Rattle.plan_text.specs.SheetWhats.{number_of, word_of};

use plan_core::OutOfMemory;
use std::alloc::{AllocError, AllocFailed};
use thiserror::Error;

/// The faults of a line of a sheet, in the order of their numbers from 1 to 5. Where a line has several,
/// the lowest number counts.
#[derive(Clone, Copy, Debug, PartialEq, Eq)]
pub enum SheetWhat {
    /// The line isn't of the form that is wanted, is missing, has no line feed, or follows the ending. Or a number
    /// isn't canonical, or is above 65,535. Or a mileage isn't of its form: a `-` or nothing, a canonical number of
    /// at most ten digits, a point and six digits.
    Form,
    /// Width, height and least length are no grid, the criteria are no order, or more criteria are settled
    /// than may be.
    Range,
    /// A count, a node's number, name or mileage, or an edge's number, track or ends aren't the graph's.
    Graph,
    /// An edge's points are none of the shapes of a line.
    Shape,
    /// The values aren't those of the drawing.
    Values,
}

impl SheetWhat {
    /// Its number, 1 to 5.
    pub fn number(self) -> u8
        ensures { result ≡ number_of self }
    {
        match self {
            SheetWhat::Form => 1,
            SheetWhat::Range => 2,
            SheetWhat::Graph => 3,
            SheetWhat::Shape => 4,
            SheetWhat::Values => 5,
        }
    }

    /// Its word in a fault line.
    pub fn word(self) -> &'static str
        ensures { result.now ≡ word_of self }
    {
        match self {
            SheetWhat::Form => "Form",
            SheetWhat::Range => "Range",
            SheetWhat::Graph => "Graph",
            SheetWhat::Shape => "Shape",
            SheetWhat::Values => "Values",
        }
    }
}

/// Why a text isn't read as a sheet.
#[derive(Debug, Drop, Error)]
pub enum SheetFault {
    /// A line has a fault, and none before it has one. Lines are numbered from 1.
    #[error("a fault in the sheet")]
    Sheet { what: SheetWhat, line: u32 },
    /// Memory couldn't be had.
    #[error("out of memory")]
    Memory,
}

impl From<OutOfMemory> for SheetFault {
    ghost use Rattle.std.specs.Prelude.{◌≡◌};
    ghost use Rattle.plan_text.specs.declared.sheet_fault.SheetFault.TheVariants.{Memory};

    ghost from_gives = { λ _ e. e ≡ Memory };

    fn from(_: OutOfMemory) -> Self {
        SheetFault::Memory
    }
}

impl From<AllocError> for SheetFault {
    ghost use Rattle.std.specs.Prelude.{◌≡◌};
    ghost use Rattle.plan_text.specs.declared.sheet_fault.SheetFault.TheVariants.{Memory};

    ghost from_gives = { λ _ e. e ≡ Memory };

    fn from(_: AllocError) -> Self {
        SheetFault::Memory
    }
}

impl<T: Drop> From<AllocFailed<T>> for SheetFault {
    ghost use Rattle.std.specs.Prelude.{◌≡◌};
    ghost use Rattle.plan_text.specs.declared.sheet_fault.SheetFault.TheVariants.{Memory};

    ghost from_gives = { λ _ e. e ≡ Memory };

    fn from(_: AllocFailed<T>) -> Self {
        SheetFault::Memory
    }
}
