// Required attributes that are missing.
ghost use Rattle.std.specs.Prelude.{◌≡◌, slice_get, filter};
ghost use Rattle.std.specs.Option.{is_none};
ghost use Rattle.railml_faults.specs.Rows.{attribute_text, attribute_name, required_of, lacking};
ghost use Rattle.railml_faults.specs.Faults.{Lacks};
ghost use Rattle.plan_core.specs.Searching.{FindsFirst};
ghost use Rattle.railml_faults.specs.declared.attributes.Attribute.{Attribute as Named};

use crate::attributes::Attribute;
use crate::rows::{is_word, parent_of};
use plan_core::Text;
use railml_read::{Attrs, Elem, ElemKind};

/// An attribute's name in a document.
pub(crate) fn name_of(attribute: Attribute) -> &'static str
    ensures { result.now ≡ attribute_name attribute }
{
    match attribute {
        Attribute::Id => "id",
        Attribute::Pos => "pos",
        Attribute::AbsPos => "absPos",
        Attribute::Ref => "ref",
        Attribute::Orientation => "orientation",
        Attribute::Course => "course",
    }
}

/// Whether the attribute is missing.
fn is_missing(attrs: &Attrs, attribute: Attribute) -> bool
    ensures { result ≡ is_none (attribute_text attribute attrs.now) }
{
    match attribute {
        Attribute::Id => attrs.id.is_none(),
        Attribute::Pos => attrs.pos.is_none(),
        Attribute::AbsPos => attrs.abs_pos.is_none(),
        Attribute::Ref => attrs.reference.is_none(),
        Attribute::Orientation => attrs.orientation.is_none(),
        Attribute::Course => attrs.course.is_none(),
    }
}

/// What a connection must have below an element of this kind.
fn required_of_connection(
    parent: Option<ElemKind>,
    orientation: &Option<Text>,
) -> &'static [Attribute]
    ensures { result.now ≡ required_of ElemKind.Connection parent orientation.now }
{
    let with_course = &[
        Attribute::Id,
        Attribute::Ref,
        Attribute::Orientation,
        Attribute::Course,
    ];
    match parent {
        Some(ElemKind::Switch) => with_course,
        Some(ElemKind::Crossing) => {
            if is_word(orientation, "outgoing") {
                with_course
            } else {
                &[Attribute::Id, Attribute::Ref, Attribute::Orientation]
            }
        }
        _ => &[Attribute::Id, Attribute::Ref],
    }
}

/// What an element of this kind must have, in order, below one of this kind.
fn required(
    kind: ElemKind,
    parent: Option<ElemKind>,
    orientation: &Option<Text>,
) -> &'static [Attribute]
    ensures { result.now ≡ required_of kind parent orientation.now }
{
    match kind {
        ElemKind::Track => &[Attribute::Id],
        ElemKind::Begin => &[Attribute::Id, Attribute::Pos, Attribute::AbsPos],
        ElemKind::End | ElemKind::Switch | ElemKind::Crossing => &[Attribute::Id, Attribute::Pos],
        ElemKind::Connection => required_of_connection(parent, orientation),
        ElemKind::Topology | ElemKind::OpenEnd | ElemKind::BufferStop | ElemKind::MacroNode => &[],
    }
}

/// The first of these attributes that is missing.
fn first_of(attrs: &Attrs, attributes: &[Attribute]) -> Option<Attribute>
    ensures { result ≡ slice_get (filter (λ a. is_none (attribute_text a attrs.now)) attributes.now) 0 }
{
    for attribute in attributes {
        if is_missing(attrs, *attribute) {
            return Some(*attribute);
        }
    }
    None
}

/// The first required attribute that a row lacks, if it lacks one.
pub(crate) fn first_lacking(rows: &[Elem], row: &Elem) -> Option<Attribute>
    ensures { result ≡ slice_get (lacking rows.now row.now) 0 }
{
    let parent = parent_of(rows, row).map(|parent| parent.kind);
    first_of(
        &row.attrs,
        required(row.kind, parent, &row.attrs.orientation),
    )
}

/// The first row that lacks a required attribute.
pub(crate) fn first_missing(rows: &[Elem]) -> Option<usize>
    ensures { FindsFirst (λ _ row. (a : Named) × Lacks rows.now row a) rows.now result }
{
    for (i, row) in rows.iter().enumerate() {
        if first_lacking(rows, row).is_some() {
            return Some(i);
        }
    }
    None
}
