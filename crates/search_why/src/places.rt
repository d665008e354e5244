// Lists of places.
ghost use Rattle.std.specs.Prelude.{◌≡◌, ◌++◌, OnOk, IfOk, filter};
ghost use Rattle.search_why.specs.Narrowed.{countdown, has_number};

use plan_core::OutOfMemory;
use std::alloc::Global;

/// The numbers below a count, the greatest first.
pub(crate) fn all_places(alloc: Global, count: u32) -> Result<Vec<u32>, OutOfMemory>
    ensures { IfOk result (λ v. v.items ≡ countdown count) }
{
    let mut places = Vec::new(alloc);
    for i in 0..count {
        places.push(count - 1 - i)?;
    }
    Ok(places)
}

/// The places of both lists.
pub(crate) fn both(alloc: Global, first: &[u32], second: &[u32]) -> Result<Vec<u32>, OutOfMemory>
    ensures { IfOk result (λ v. v.items ≡ first.now ++ second.now) }
{
    let mut places = Vec::from_slice(alloc, first)?;
    places.extend_from_slice(second)?;
    Ok(places)
}

/// Whether the number is one of these.
fn has_number(numbers: &[u32], n: u32) -> bool
    ensures { result ≡ has_number numbers.now n }
{
    for x in numbers {
        if *x == n {
            return true;
        }
    }
    false
}

/// Leaves those of the places that are among these.
pub(crate) fn keep_only(places: &mut Vec<u32>, core: &[u32])
    ensures { places.new.items ≡ filter (has_number core.now) places.old.items }
{
    places.retain(|n| has_number(core, *n));
}
