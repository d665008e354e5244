// Taking assumptions back.
ghost use Rattle.std.specs.Prelude.{◌≡◌, ◌<◌, ◌+◌, ◌^◌, [], All, length, take, slice_index};
ghost use Rattle.cnf_core.specs.Times.{times};
ghost use Rattle.cnf_core.specs.Trail.{IsTrail};
ghost use Rattle.refute_check.specs.Tables.{CountedUp};

use crate::counts::count_up;
use crate::trail::unmark_last;
use cnf_core::Lit;

/// Takes off the trail what came after its first `level` literals.
fn unmark_behind(truth: &mut [bool], trail: &mut Vec<Lit>, vars: u32, level: usize)
    requires trail { IsTrail vars truth.old trail.old.items }
    ensures trail { IsTrail vars truth.new trail.new.items }
    ensures rest { trail.new.items ≡ take level trail.old.items }
{
    while trail.len() > level {
        unmark_last(truth, trail, vars);
    }
}

/// Takes off the trail all that came after its first `level` literals, and gives the counts back what was taken from
/// them.
pub(crate) fn undo(
    counts: &mut [u32],
    noted: &mut Vec<u32>,
    truth: &mut [bool],
    trail: &mut Vec<Lit>,
    vars: u32,
    level: usize,
)
    requires trail { IsTrail vars truth.old trail.old.items }
    requires there { All (λ n. n < length counts.old) noted.old.items }
    requires small { All (λ n. slice_index counts.old n + times noted.old.items n < 2 ^ 32) noted.old.items }
    ensures trail { IsTrail vars truth.new trail.new.items }
    ensures rest { trail.new.items ≡ take level trail.old.items }
    ensures counts { CountedUp noted.old.items counts.old counts.new }
    ensures size { length counts.new ≡ length counts.old }
    ensures unnoted { noted.new.items ≡ [] }
{
    unmark_behind(truth, trail, vars, level);
    count_up(noted, counts);
    noted.clear();
}
