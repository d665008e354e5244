// Positions and mileages that are no numbers.
ghost use Rattle.std.specs.Prelude.{IsTrue, ◌↔◌, ◌≡◌, IfSome, Some};
ghost use Rattle.railml_faults.specs.Faults.{IsNoNumber, HasNoNumber};
ghost use Rattle.plan_core.specs.Searching.{FindsFirst};
ghost use Rattle.railml_faults.specs.declared.attributes.Attribute.{Attribute as Named};

use crate::attributes::Attribute;
use crate::rows::bears_position;
use plan_core::Text;
use rail_mileage::read_metres;
use railml_read::Elem;

/// Whether a text is there and is no number of metres.
fn is_no_number(text: &Option<Text>) -> bool
    ensures { IsTrue result ↔ IsNoNumber text.now }
{
    match text {
        Some(text) => read_metres(text.bytes()).is_none(),
        None => false,
    }
}

/// The attribute of a row that is to be a number and is none; `pos` comes first.
pub(crate) fn bad_number(row: &Elem) -> Option<Attribute>
    ensures found { IfSome result (λ a. HasNoNumber row.now a) }
    ensures only { (a : Named) → HasNoNumber row.now a → result ≡ Some a }
{
    if !bears_position(row.kind) {
        return None;
    }
    if is_no_number(&row.attrs.pos) {
        return Some(Attribute::Pos);
    }
    if is_no_number(&row.attrs.abs_pos) {
        return Some(Attribute::AbsPos);
    }
    None
}

/// The first row that has an attribute which is to be a number and is none.
pub(crate) fn first_bad_number(rows: &[Elem]) -> Option<usize>
    ensures { FindsFirst (λ _ row. (a : Named) × HasNoNumber row a) rows.now result }
{
    for (i, row) in rows.iter().enumerate() {
        if bad_number(row).is_some() {
            return Some(i);
        }
    }
    None
}
