// The item at a place.
ghost use Rattle.std.specs.Prelude.{◌≡◌, ◌∷◌, ◌<◌, ◌≤◌, Bool, true, length, drop, slice_index, IfOk, IfErr, IsUtf8};
ghost use Rattle.std.specs.Prelude.{IsCharBoundary};
ghost use Rattle.std.specs.List.{list_all};
ghost use Rattle.railml_text.specs.Bytes.{is_blank as blank, is_in_text as in_text};
ghost use Rattle.plan_core.specs.Exactly.{AnswersExactly};
ghost use Rattle.railml_text.specs.Faults.{HasSoundItem, IsItemAt, IsItemFault};
ghost use Rattle.railml_text.specs.Judging.{IsFaultAt, refusal_of};

use crate::judging::kind_of;
use crate::markup::markup_at;
use crate::miss::{Miss, Stop};
use crate::references::reference_at;
use crate::runs::{is_blank, past_text};
use crate::{Item, ItemFault, ItemKind, TextWhat};
use std::alloc::Global;

/// Why a `<` has no answer.
fn fault_of(stop: Stop) -> ItemFault
    ensures { result ≡ refusal_of stop }
{
    match stop {
        Stop::Miss(Miss::Cut) => ItemFault::Item(TextWhat::Unfinished),
        Stop::Miss(Miss::Bad) => ItemFault::Item(TextWhat::Markup),
        Stop::Memory => ItemFault::Memory,
    }
}

/// The item that begins with a `<`, of which the tail is what follows the `<`.
fn markup_item(alloc: Global, tail: &[u8], first: bool) -> Result<(ItemKind, &[u8]), ItemFault>
    requires { IsUtf8 (60 ∷ tail.now) }
    ensures item { IfOk result (λ x. HasSoundItem first (60 ∷ tail.now) x.0 x.1.now) }
    ensures fault { IfErr result (λ e. IsFaultAt first (60 ∷ tail.now) e) }
{
    match markup_at(alloc, tail, first) {
        Ok((markup, after)) => match kind_of(alloc, markup) {
            Ok(kind) => Ok((kind, after)),
            Err(fault) => Err(fault),
        },
        Err(stop) => Err(fault_of(stop)),
    }
}

/// The reference at the front, as the first item or a later one.
fn reference_item(rest: &[u8]) -> Result<(ItemKind, &[u8]), ItemFault>
    requires some { 0 < length rest.now }
    requires begins { slice_index rest.now 0 ≡ 38 }
    ensures item { IfOk result (λ x. (first : Bool) → HasSoundItem first rest.now x.0 x.1.now) }
    ensures fault { IfErr result (λ e. (first : Bool) → IsFaultAt first rest.now e) }
{
    match reference_at(rest) {
        Some((_, after)) => Ok((ItemKind::Reference, after)),
        None => Err(ItemFault::Item(TextWhat::Entity)),
    }
}

fn are_blank(text: &[u8]) -> bool
    ensures { result ≡ list_all blank text.now }
{
    text.iter().all(|b| is_blank(*b))
}

/// The characters at the front, as the first item or a later one.
fn chars_item(rest: &[u8]) -> (ItemKind, &[u8])
    requires some { 0 < length rest.now }
    requires begins { in_text (slice_index rest.now 0) ≡ true }
    ensures { (first : Bool) → HasSoundItem first rest.now result.0 result.1.now }
{
    let after = past_text(rest);
    let blank = are_blank(&rest[..rest.len() - after.len()]);
    (ItemKind::Chars { blank }, after)
}

/// The item at the front, and what follows it.
fn item_at(alloc: Global, rest: &[u8], first: bool) -> Result<(ItemKind, &[u8]), ItemFault>
    requires utf8 { IsUtf8 rest.now }
    requires some { 0 < length rest.now }
    ensures item { IfOk result (λ x. HasSoundItem first rest.now x.0 x.1.now) }
    ensures fault { IfErr result (λ e. IsFaultAt first rest.now e) }
{
    let b = rest[0];
    if b == b'<' {
        return markup_item(alloc, &rest[1..], first);
    }
    if b == b'&' {
        return reference_item(rest);
    }
    Ok(chars_item(rest))
}

/// The item that begins at a place of the bytes, with its end.
fn item_from(alloc: Global, bytes: &[u8], at: usize, first: bool) -> Result<Item, ItemFault>
    requires utf8 { IsUtf8 bytes.now }
    requires within { at < length bytes.now }
    requires begins { IsCharBoundary bytes.now at }
    ensures item { IfOk result (λ item. HasSoundItem first (drop at bytes.now) item.kind (drop item.end bytes.now)) }
    ensures fault { IfErr result (λ e. IsFaultAt first (drop at bytes.now) e) }
    ensures after { IfOk result (λ item. at < item.end) }
    ensures within { IfOk result (λ item. item.end ≤ length bytes.now) }
    ensures ends { IfOk result (λ item. IsCharBoundary bytes.now item.end) }
{
    let (kind, after) = item_at(alloc, &bytes[at..], first)?;
    Ok(Item {
        kind,
        end: bytes.len() - after.len(),
    })
}

/// The item that begins at the place `at` of a document's bytes, counted from 0, or its own fault of
/// the lowest number. A character begins at `at`. A declaration is looked for exactly where `first`
/// is true. The kinds of faults are Encoding, Doctype, Markup, Entity, RepeatedAttribute and
/// Unfinished; those that hang on the item's place among others are not looked for.
pub fn scan(alloc: Global, bytes: &[u8], at: usize, first: bool) -> Result<Item, ItemFault>
    requires utf8 { IsUtf8 bytes.now }
    requires within { at < length bytes.now }
    requires begins { IsCharBoundary bytes.now at }
    ensures answers { AnswersExactly result ItemFault.Memory (IsItemAt first bytes.now at)
        (IsItemFault first (drop at bytes.now)) }
    // The next item begins where this one ends.
    ensures after { IfOk result (λ item. at < item.end) }
    ensures ends { IfOk result (λ item. IsCharBoundary bytes.now item.end) }
{
    item_from(alloc, bytes, at, first)
}
