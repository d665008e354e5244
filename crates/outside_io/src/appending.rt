// Texts and fields, appended.
ghost use Rattle.std.specs.Prelude.{◌≡◌, ◌++◌, ◌∷◌, OnOk};
ghost use Rattle.outside_io.specs.Contents.{Begins};

use plan_core::OutOfMemory;

/// Appends a text. Where memory couldn't be had, `into` begins with what it held.
pub fn push_text(into: &mut Vec<u8>, text: &[u8]) -> Result<(), OutOfMemory>
    ensures ok { OnOk result (into.new.items ≡ into.old.items ++ text.now) }
    ensures begins { Begins into.old.items into.new.items }
{
    into.extend_from_slice(text)?;
    Ok(())
}

/// Appends a space and a text. Where memory couldn't be had, `into` begins with what it held.
pub fn push_field(into: &mut Vec<u8>, text: &[u8]) -> Result<(), OutOfMemory>
    ensures ok { OnOk result (into.new.items ≡ into.old.items ++ (32 ∷ text.now)) }
    ensures begins { Begins into.old.items into.new.items }
{
    push_text(into, b" ")?;
    push_text(into, text)
}
