// Counts by clause of the literals that aren't false.
ghost use Rattle.std.specs.Prelude.{◌≡◌, ◌≤◌, ◌<◌, ◌+◌, ◌^◌, ℕ, All, length, slice_index};
ghost use Rattle.cnf_core.specs.Times.{times};
ghost use Rattle.refute_check.specs.Tables.{CountedUp};

/// Adds one to the count of each clause that the list names, once for each time.
pub(crate) fn count_up(places: &[u32], counts: &mut [u32])
    requires there { All (λ n. n < length counts.old) places.now }
    requires small { All (λ n. slice_index counts.old n + times places.now n < 2 ^ 32) places.now }
    ensures { CountedUp places.now counts.old counts.new }
{
    for n in places {
        counts[*n as usize] += 1;
    }
}
