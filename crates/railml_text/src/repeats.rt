// Attributes of one name.
ghost use Rattle.std.specs.Prelude.{◌≡◌, true, false, map, IfOk};
ghost use Rattle.std.specs.List.{list_any};
ghost use Rattle.std.specs.Str.{bytes_eq};
ghost use Rattle.railml_text.specs.Faults.{HasRepeat};
ghost use Rattle.railml_text.specs.Reading.{written_of};

use crate::written::WrittenAttr;
use std::alloc::{AllocError, Global};
use std::collections::BTreeMap;

/// Up to how many attributes are compared with each other, which takes no memory.
const FEW_ATTRS: usize = 12;

/// Whether one of these attributes has this name.
fn is_among(name: &[u8], attrs: &[WrittenAttr]) -> bool
    ensures { result ≡ list_any (λ attr. bytes_eq name.now attr.name.now) attrs.now }
{
    attrs.iter().any(|attr| name == attr.name)
}

/// Whether two of a few attributes have one name. Each is compared with those before it.
fn has_repeat_of_few(attrs: &[WrittenAttr]) -> bool
    ensures yes { result ≡ true → HasRepeat (map written_of attrs.now) }
    ensures no { result ≡ false → ¬ (HasRepeat (map written_of attrs.now)) }
{
    for (i, attr) in attrs.iter().enumerate() {
        if is_among(attr.name, &attrs[..i]) {
            return true;
        }
    }
    false
}

/// Whether two of many attributes have one name. The names are kept in order.
fn has_repeat_of_many(alloc: Global, attrs: &[WrittenAttr]) -> Result<bool, AllocError>
    ensures yes { IfOk result (λ b. b ≡ true → HasRepeat (map written_of attrs.now)) }
    ensures no { IfOk result (λ b. b ≡ false → ¬ (HasRepeat (map written_of attrs.now))) }
{
    let mut seen = BTreeMap::new(alloc);
    for attr in attrs {
        let earlier = seen.insert(attr.name, ())?;
        if earlier.is_some() {
            return Ok(true);
        }
    }
    Ok(false)
}

/// Whether two attributes have one name.
pub(crate) fn has_repeat(alloc: Global, attrs: &[WrittenAttr]) -> Result<bool, AllocError>
    ensures yes { IfOk result (λ b. b ≡ true → HasRepeat (map written_of attrs.now)) }
    ensures no { IfOk result (λ b. b ≡ false → ¬ (HasRepeat (map written_of attrs.now))) }
{
    if attrs.len() <= FEW_ATTRS {
        return Ok(has_repeat_of_few(attrs));
    }
    has_repeat_of_many(alloc, attrs)
}
