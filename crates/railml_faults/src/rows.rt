// What a single row is.
ghost use Rattle.std.specs.Prelude.{◌≡◌};
ghost use Rattle.std.specs.Option.{option_copied};
ghost use Rattle.railml_faults.specs.Rows.{same_kind, is_of_kind as of_kind, parent_of as holder_of};
ghost use Rattle.railml_faults.specs.Rows.{bears_id as has_id, bears_position as has_position};
ghost use Rattle.railml_faults.specs.Rows.{is_word as has_word};

use plan_core::Text;
use railml_read::{Elem, ElemKind};

/// Whether two kinds are the same.
pub fn is_kind(kind: ElemKind, other: ElemKind) -> bool
    ensures { result ≡ same_kind kind other }
{
    kind == other
}

/// Whether the row of this number is of this kind.
pub fn is_of_kind(rows: &[Elem], number: u32, kind: ElemKind) -> bool
    ensures { result ≡ of_kind rows.now kind number }
{
    match rows.get(number as usize) {
        Some(row) => is_kind(row.kind, kind),
        None => false,
    }
}

/// The row that holds this one, if one does.
pub(crate) fn parent_of<'a>(rows: &'a [Elem], row: &Elem) -> Option<&'a Elem>
    ensures { option_copied result ≡ holder_of rows.now row.now }
{
    match row.parent {
        Some(parent) => rows.get(parent as usize),
        None => None,
    }
}

/// Whether an element of this kind has an id that counts.
pub(crate) fn bears_id(kind: ElemKind) -> bool
    ensures { result ≡ has_id kind }
{
    match kind {
        ElemKind::Track
        | ElemKind::Begin
        | ElemKind::End
        | ElemKind::Switch
        | ElemKind::Crossing
        | ElemKind::Connection => true,
        ElemKind::Topology | ElemKind::OpenEnd | ElemKind::BufferStop | ElemKind::MacroNode =>
            false,
    }
}

/// Whether an element of this kind has a position.
pub(crate) fn bears_position(kind: ElemKind) -> bool
    ensures { result ≡ has_position kind }
{
    match kind {
        ElemKind::Begin | ElemKind::End | ElemKind::Switch | ElemKind::Crossing => true,
        _ => false,
    }
}

/// Whether a text is there and is this word.
pub fn is_word(text: &Option<Text>, word: &str) -> bool
    ensures { result ≡ has_word word.now text.now }
{
    match text {
        Some(text) => text.as_str() == word,
        None => false,
    }
}
