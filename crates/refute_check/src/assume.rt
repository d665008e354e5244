// Assuming that the literals of a clause are false.
ghost use Rattle.std.specs.Prelude.{◌≡◌, ◌≤◌, ◌<◌, ◌+◌, ◌*◌, true, false, OnOk, IfOk, length, take};
ghost use Rattle.cnf_core.specs.Lit.{has};
ghost use Rattle.cnf_core.specs.Clause.{AreThere, AreDistinct};
ghost use Rattle.cnf_core.specs.Propagation.{Includes, negations};
ghost use Rattle.cnf_core.specs.Trail.{IsTrail};
ghost use Rattle.refute_check.specs.Tables.{Assumes, HasTrueLiteral};

use crate::scan::{Truth, truth_of};
use crate::trail::mark;
use cnf_core::Lit;
use plan_core::OutOfMemory;

/// Marks the negation of each literal, until one of them is true already. The answer is whether one
/// is.
pub(crate) fn assume_false(
    truth: &mut [bool],
    trail: &mut Vec<Lit>,
    vars: u32,
    lits: &[Lit],
) -> Result<bool, OutOfMemory>
    requires trail { IsTrail vars truth.old trail.old.items }
    requires there { AreThere vars lits.now }
    requires distinct { AreDistinct lits.now }
    ensures trail { OnOk result (IsTrail vars truth.new trail.new.items) }
    ensures assumes { OnOk result (Assumes lits.now trail.old.items trail.new.items) }
    ensures all { IfOk result (λ clash. clash ≡ false → Includes (has trail.new.items) (negations lits.now)) }
    ensures clash { IfOk result (λ clash. clash ≡ true → HasTrueLiteral lits.now trail.old.items) }
{
    for l in lits {
        match truth_of(truth, vars, *l) {
            Truth::True => return Ok(true),
            Truth::False => {}
            Truth::Unset => mark(truth, trail, vars, l.negated())?,
        }
    }
    Ok(false)
}
