// Looking at the clauses that have a literal which became false.
ghost use Rattle.std.specs.Prelude.{◌≡◌, ◌≤◌, ◌<◌, ◌+◌, ◌*◌, true, false, length, All, OnOk, IfOk, slice_index};
ghost use Rattle.cnf_core.specs.Lit.{has, negate};
ghost use Rattle.cnf_core.specs.Clause.{AllDistinct};
ghost use Rattle.cnf_core.specs.Formula.{clause_at};
ghost use Rattle.cnf_core.specs.Propagation.{Falsified, IsIn};
ghost use Rattle.cnf_core.specs.Times.{times};
ghost use Rattle.cnf_core.specs.Trail.{IsTrail, Grows};
ghost use Rattle.refute_check.specs.Entries.{IsShort};
ghost use Rattle.refute_check.specs.Tables.{CountedUp, IsQuietNow, AreQuietNow, IsRestQuiet};

use crate::places::Rest;
use crate::scan::{Scan, scan_clause, scan_rest};
use crate::trail::mark;
use cnf_core::{ClauseNo, Formula, Lit};
use plan_core::OutOfMemory;

/// Looks at a clause of two or three literals of which `l` is false, and marks the literal that is
/// alone not false. The answer is whether all its literals are false.
fn look_beside(
    formula: &Formula,
    l: Lit,
    rest: Rest,
    truth: &mut [bool],
    trail: &mut Vec<Lit>,
) -> Result<bool, OutOfMemory>
    requires short { IsShort formula.now.clauses l rest }
    requires trail { IsTrail formula.now.vars truth.old trail.old.items }
    requires false_now { IsIn (has trail.old.items) (negate l) }
    ensures trail { OnOk result (IsTrail formula.now.vars truth.new trail.new.items) }
    ensures grows { OnOk result (Grows formula.now.clauses trail.old.items trail.new.items) }
    ensures falsified { IfOk result (λ found. found ≡ true → Falsified formula.now.clauses (has trail.new.items)) }
    ensures quiet { IfOk result (λ found. found ≡ false → IsRestQuiet l trail.old.items trail.new.items rest) }
{
    let vars = formula.vars();
    match scan_rest(rest, truth, vars) {
        Scan::Falsified => Ok(true),
        Scan::Unit(u) => {
            mark(truth, trail, vars, u)?;
            Ok(false)
        }
        Scan::Quiet => Ok(false),
    }
}

/// Looks at each of the clauses of two and of three literals that have `l`, which is false, until
/// all literals of one are.
pub(crate) fn look_beside_each(
    formula: &Formula,
    l: Lit,
    shorts: &[Rest],
    truth: &mut [bool],
    trail: &mut Vec<Lit>,
) -> Result<bool, OutOfMemory>
    requires shorts { All (IsShort formula.now.clauses l) shorts.now }
    requires trail { IsTrail formula.now.vars truth.old trail.old.items }
    requires false_now { IsIn (has trail.old.items) (negate l) }
    ensures trail { OnOk result (IsTrail formula.now.vars truth.new trail.new.items) }
    ensures grows { OnOk result (Grows formula.now.clauses trail.old.items trail.new.items) }
    ensures falsified { IfOk result (λ found. found ≡ true → Falsified formula.now.clauses (has trail.new.items)) }
    ensures quiet { IfOk result (λ found. found ≡ false → All (IsRestQuiet l trail.old.items trail.new.items)
        shorts.now) }
{
    for r in shorts {
        if look_beside(formula, l, *r, truth, trail)? {
            return Ok(true);
        }
    }
    Ok(false)
}

/// Looks at one clause of which at most `count` literals aren't false, and marks the literal that is
/// alone not false. The answer is whether all its literals are false.
fn look_at(
    formula: &Formula,
    number: u32,
    count: u32,
    truth: &mut [bool],
    trail: &mut Vec<Lit>,
) -> Result<bool, OutOfMemory>
    requires there { number < length formula.now.clauses }
    requires trail { IsTrail formula.now.vars truth.old trail.old.items }
    ensures trail { OnOk result (IsTrail formula.now.vars truth.new trail.new.items) }
    ensures grows { OnOk result (Grows formula.now.clauses trail.old.items trail.new.items) }
    ensures falsified { IfOk result (λ found. found ≡ true → Falsified formula.now.clauses (has trail.new.items)) }
    ensures quiet { IfOk result (λ found. found ≡ false → IsQuietNow (clause_at formula.now number) count
        trail.old.items trail.new.items) }
{
    let vars = formula.vars();
    if count > 1 {
        return Ok(false);
    }
    let clause = formula.lits_of(ClauseNo(number));
    match scan_clause(clause, truth, vars) {
        Scan::Falsified => Ok(true),
        Scan::Unit(l) => {
            mark(truth, trail, vars, l)?;
            Ok(false)
        }
        Scan::Quiet => Ok(false),
    }
}

/// Takes one from the count of each clause that the list names, and looks at it, until all literals of one are false.
/// The others are counted all the same.
pub(crate) fn count_each(
    formula: &Formula,
    numbers: &[u32],
    counts: &mut [u32],
    truth: &mut [bool],
    trail: &mut Vec<Lit>,
) -> Result<bool, OutOfMemory>
    requires there { All (λ n. n < length formula.now.clauses) numbers.now }
    requires size { length counts.old ≡ length formula.now.clauses }
    requires enough { All (λ n. times numbers.now n ≤ slice_index counts.old n) numbers.now }
    requires trail { IsTrail formula.now.vars truth.old trail.old.items }
    ensures counted { OnOk result (CountedUp numbers.now counts.new counts.old) }
    ensures trail { OnOk result (IsTrail formula.now.vars truth.new trail.new.items) }
    ensures grows { OnOk result (Grows formula.now.clauses trail.old.items trail.new.items) }
    ensures falsified { IfOk result (λ found. found ≡ true → Falsified formula.now.clauses (has trail.new.items)) }
    ensures quiet { IfOk result (λ found. found ≡ false → AreQuietNow formula.now.clauses numbers.now counts.old
        trail.old.items trail.new.items) }
{
    let mut found = false;
    for n in numbers {
        counts[*n as usize] -= 1;
        if !found {
            found = look_at(formula, *n, counts[*n as usize], truth, trail)?;
        }
    }
    Ok(found)
}
