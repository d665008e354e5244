// Marking literals as true, and taking marks back.
ghost use Rattle.std.specs.Prelude.{◌≡◌, ◌≤◌, ◌<◌, ◌+◌, ◌-◌, ◌*◌, [], ◌∷◌, ◌++◌, true, false, length, OnOk};
ghost use Rattle.std.specs.Prelude.{option_to_list};
ghost use Rattle.cnf_core.specs.Lit.{negate};
ghost use Rattle.cnf_core.specs.Clause.{IsThere};
ghost use Rattle.cnf_core.specs.Trail.{marked, IsTrail};

use cnf_core::Lit;
use plan_core::OutOfMemory;

/// Marks a literal that is neither true nor false.
pub(crate) fn mark(
    truth: &mut [bool],
    trail: &mut Vec<Lit>,
    vars: u32,
    l: Lit,
) -> Result<(), OutOfMemory>
    requires trail { IsTrail vars truth.old trail.old.items }
    requires there { IsThere vars l }
    requires not_true { marked truth.old l ≡ false }
    requires not_false { marked truth.old (negate l) ≡ false }
    ensures trail { OnOk result (IsTrail vars truth.new trail.new.items) }
    ensures more { OnOk result (trail.new.items ≡ trail.old.items ++ l ∷ []) }
{
    let word = l.word() as usize;
    trail.push(l)?;
    truth[word] = true;
    Ok(())
}

/// Takes the latest literal off the trail, and its mark back.
pub(crate) fn unmark_last(truth: &mut [bool], trail: &mut Vec<Lit>, vars: u32) -> Option<Lit>
    requires { IsTrail vars truth.old trail.old.items }
    ensures trail { IsTrail vars truth.new trail.new.items }
    ensures last { trail.old.items ≡ trail.new.items ++ option_to_list result }
    ensures less { length trail.new.items ≡ length trail.old.items - 1 }
{
    let l = trail.pop()?;
    truth[l.word() as usize] = false;
    Some(l)
}
