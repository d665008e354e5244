// What is told of an item that begins with `<`, or what is wrong with it.
ghost use Rattle.std.specs.Prelude.{◌≡◌, ◌≢◌, ◌↔◌, codes, map, Any, IsTrue, IfOk, IfErr, IsUtf8};
ghost use Rattle.std.specs.Str.{str_to_ascii_lowercase};
ghost use Rattle.railml_text.specs.Items.{AreTextsOf, declaration, start_tag};
ghost use Rattle.railml_text.specs.Faults.{NamesOtherEncoding};
ghost use Rattle.railml_text.specs.Reading.{written_of, found_of, item};
ghost use Rattle.railml_text.specs.Judging.{AreUtf8, IsAttrsFault, IsUtf8Found, IsFoundKind, IsFoundFault};

use crate::repeats::has_repeat;
use crate::values::text_of;
use crate::written::{Markup, WrittenAttr};
use crate::{Attr, AttrList, ItemFault, ItemKind, TextWhat};
use plan_core::{Items, Text};
use std::alloc::Global;

/// Whether the attribute names an encoding other than UTF-8.
fn is_other_encoding(attr: &WrittenAttr) -> bool
    ensures { IsTrue result ↔ ((attr.now.name.now ≡ codes "encoding")
        × (str_to_ascii_lowercase attr.now.value.now ≢ codes "utf-8")) }
{
    attr.name == b"encoding".as_slice() && !attr.value.eq_ignore_ascii_case(b"UTF-8")
}

/// Whether an attribute names an encoding other than UTF-8.
fn names_other_encoding(attrs: &[WrittenAttr]) -> bool
    ensures { IsTrue result ↔ Any (λ attr. (attr.name.now ≡ codes "encoding")
        × (str_to_ascii_lowercase attr.value.now ≢ codes "utf-8")) attrs.now }
{
    attrs.iter().any(|attr| is_other_encoding(attr))
}

/// The attributes with their texts.
fn texts_of(alloc: Global, attrs: &[WrittenAttr]) -> Result<AttrList, ItemFault>
    requires { AreUtf8 (map written_of attrs.now) }
    ensures texts { IfOk result (λ texts. AreTextsOf (map written_of attrs.now) texts) }
    ensures fault { IfErr result (λ e. IsAttrsFault (map written_of attrs.now) e) }
{
    let mut texts = Items::from_vec(Vec::with_capacity(alloc, attrs.len())?);
    for attr in attrs {
        match text_of(alloc, attr.value) {
            Ok(value) => {
                let name = Text::from_bytes(alloc, attr.name)?;
                texts.push(Attr { name, value })?;
            }
            Err(fault) => return Err(fault),
        }
    }
    Ok(texts)
}

fn declaration_kind(alloc: Global, attrs: &[WrittenAttr]) -> Result<ItemKind, ItemFault>
    ensures kind { IfOk result (λ kind. IsFoundKind (item (declaration (map written_of attrs.now))) kind) }
    ensures fault { IfErr result (λ e. IsFoundFault (item (declaration (map written_of attrs.now))) e) }
{
    if names_other_encoding(attrs) {
        return Err(ItemFault::Item(TextWhat::Encoding));
    }
    if has_repeat(alloc, attrs)? {
        return Err(ItemFault::Item(TextWhat::RepeatedAttribute));
    }
    Ok(ItemKind::Declaration)
}

fn start_kind(
    alloc: Global,
    name: &[u8],
    attrs: &[WrittenAttr],
    empty: bool,
) -> Result<ItemKind, ItemFault>
    requires name { IsUtf8 name.now }
    requires attrs { AreUtf8 (map written_of attrs.now) }
    ensures kind { IfOk result (λ kind. IsFoundKind (item (start_tag name.now (map written_of attrs.now) empty)) kind) }
    ensures fault { IfErr result (λ e. IsFoundFault (item (start_tag name.now (map written_of attrs.now) empty)) e) }
{
    let repeated = has_repeat(alloc, attrs)?;
    match texts_of(alloc, attrs) {
        Err(fault) => Err(fault),
        Ok(texts) => {
            if repeated {
                return Err(ItemFault::Item(TextWhat::RepeatedAttribute));
            }
            let name = Text::from_bytes(alloc, name)?;
            Ok(ItemKind::Start {
                name,
                attrs: texts,
                empty,
            })
        }
    }
}

/// What the markup is, or its own fault.
pub(crate) fn kind_of(alloc: Global, markup: Markup) -> Result<ItemKind, ItemFault>
    requires { IsUtf8Found (found_of markup) }
    ensures kind { IfOk result (λ kind. IsFoundKind (found_of markup.entry) kind) }
    ensures fault { IfErr result (λ e. IsFoundFault (found_of markup.entry) e) }
{
    match markup {
        Markup::Declaration { attrs } => declaration_kind(alloc, &attrs),
        Markup::Instruction => Ok(ItemKind::Instruction),
        Markup::Comment => Ok(ItemKind::Comment),
        Markup::Cdata => Ok(ItemKind::Cdata),
        Markup::StartTag { name, attrs, empty } => start_kind(alloc, name, &attrs, empty),
        Markup::EndTag { name } => Ok(ItemKind::EndTag {
            name: Text::from_bytes(alloc, name)?,
        }),
        Markup::Doctype => Err(ItemFault::Item(TextWhat::Doctype)),
    }
}
