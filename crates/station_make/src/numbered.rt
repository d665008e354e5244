// A text with a number behind it.
ghost use Rattle.std.specs.Prelude.{◌≡◌, ◌++◌, OnOk};
ghost use Rattle.station_make.specs.StationText.{numbered};

use outside_io::{push_number, push_text};
use plan_core::OutOfMemory;

/// Appends a text and a number.
pub fn push_numbered(into: &mut Vec<u8>, text: &[u8], n: u32) -> Result<(), OutOfMemory>
    ensures { OnOk result (into.new.items ≡ into.old.items ++ numbered text.now n) }
{
    push_text(into, text)?;
    push_number(into, u64::from(n))
}
