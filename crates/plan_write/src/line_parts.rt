// Parts of lines that the graph text and the sheet both have.
ghost use Rattle.std.specs.Prelude.{◌≡◌, ◌++◌, [], ◌∷◌, codes, OnOk};
ghost use Rattle.std.specs.Fmt.{decimal};
ghost use Rattle.outside_io.specs.Contents.{Begins};
ghost use Rattle.outside_io.specs.Fields.{spaced, line_text};
ghost use Rattle.rail_mileage.specs.MetresText.{metres_text};

use outside_io::{push_field, push_number_field, push_text};
use plan_core::{Micro, OutOfMemory};
use rail_mileage::write_metres;
use std::alloc::Global;

/// Appends a line with a word and a count.
pub(crate) fn push_count_line(
    into: &mut Vec<u8>,
    word: &[u8],
    count: u32,
) -> Result<(), OutOfMemory>
    ensures ok { OnOk result (into.new.items ≡ into.old.items ++ line_text word.now (decimal count ∷ [])) }
    ensures begins { Begins into.old.items into.new.items }
{
    push_text(into, word)?;
    push_number_field(into, count)?;
    push_text(into, b"\n")
}

/// Appends a space, a mileage, and the line feed.
pub(crate) fn push_mileage(alloc: Global, into: &mut Vec<u8>, m: Micro) -> Result<(), OutOfMemory>
    ensures ok { OnOk result (into.new.items ≡ into.old.items ++ (32 ∷ metres_text m.0) ++ codes "\n") }
    ensures begins { Begins into.old.items into.new.items }
{
    push_text(into, b" ")?;
    write_metres(alloc, m, into)?;
    push_text(into, b"\n")
}

/// Appends a word, a number and a name.
pub(crate) fn push_named(
    into: &mut Vec<u8>,
    word: &[u8],
    number: u16,
    name: &[u8],
) -> Result<(), OutOfMemory>
    ensures ok { OnOk result (into.new.items ≡ into.old.items ++ word.now ++ spaced (decimal number ∷ name.now ∷ [])) }
    ensures begins { Begins into.old.items into.new.items }
{
    push_text(into, word)?;
    push_number_field(into, u32::from(number))?;
    push_field(into, name)
}
