// Unit propagation. Clauses of two and of three literals are looked at whole. The others are counted, those of one
// literal too: a count is of the literals that aren't false yet.
ghost use Rattle.std.specs.Prelude.{◌≡◌, ◌≤◌, ◌<◌, ◌+◌, ◌*◌, true, false, length, All, OnOk, IfOk, slice_index, take};
ghost use Rattle.cnf_core.specs.Lit.{has};
ghost use Rattle.cnf_core.specs.Propagation.{Falsified};
ghost use Rattle.cnf_core.specs.Trail.{IsTrail, Grows};
ghost use Rattle.refute_check.specs.Tables.{IsCountedTo, AreOccurrences, AreQuiet, NotesMore};

use crate::ahead::read_behind;
use crate::looks::{count_each, look_beside_each};
use crate::places::Places;
use cnf_core::{Formula, Lit};
use plan_core::OutOfMemory;

/// Looks at the clauses in which the trail's literal at `front` is false, the short ones first. Unless all literals of
/// a short one are false, counts it in the counted ones, and adds their numbers to `noted`. The answer is whether all
/// literals of some clause are false, and how far the trail is counted then.
fn advance(
    formula: &Formula,
    occurrences: &[Places],
    counts: &mut [u32],
    noted: &mut Vec<u32>,
    truth: &mut [bool],
    trail: &mut Vec<Lit>,
    front: usize,
) -> Result<(bool, usize), OutOfMemory>
    requires occurrences { AreOccurrences formula.now.vars formula.now.clauses occurrences.now }
    requires counted { IsCountedTo formula.now.vars formula.now.clauses truth.old trail.old.items counts.old front }
    requires quiet { AreQuiet formula.now.clauses trail.old.items front }
    requires there { front < length trail.old.items }
    ensures counted { IfOk result (λ r. IsCountedTo formula.now.vars formula.now.clauses truth.new trail.new.items
        counts.new r.1) }
    ensures noted { OnOk result (NotesMore formula.now.clauses noted.old.items counts.old noted.new.items counts.new) }
    ensures on { IfOk result (λ r. front ≤ r.1) }
    ensures grows { OnOk result (Grows formula.now.clauses trail.old.items trail.new.items) }
    ensures falsified { IfOk result (λ r. r.0 ≡ true → Falsified formula.now.clauses (has trail.new.items)) }
    ensures next { IfOk result (λ r. r.0 ≡ false → r.1 ≡ front + 1) }
    ensures quiet { IfOk result (λ r. r.0 ≡ false → AreQuiet formula.now.clauses trail.new.items (front + 1)) }
{
    let l = trail[front].negated();
    let places = &occurrences[l.word() as usize];
    let _formula = formula.vars();
    if look_beside_each(formula, l, places.shorts(), truth, trail)? {
        return Ok((true, front));
    }
    let counted = places.counted();
    let found = count_each(formula, counted, counts, truth, trail)?;
    noted.extend_from_slice(counted)?;
    Ok((found, front + 1))
}

/// Counts the trail's literals from `front` on, and marks what follows, until no more does or all
/// literals of some clause are false. The answer is whether they are, and how far the trail is
/// counted. From which clauses' counts one was taken goes into `noted`, what is read ahead into `ahead`.
pub(crate) fn propagate(
    formula: &Formula,
    occurrences: &[Places],
    counts: &mut [u32],
    noted: &mut Vec<u32>,
    truth: &mut [bool],
    trail: &mut Vec<Lit>,
    from: usize,
    ahead: &mut usize,
) -> Result<(bool, usize), OutOfMemory>
    requires occurrences { AreOccurrences formula.now.vars formula.now.clauses occurrences.now }
    requires counted { IsCountedTo formula.now.vars formula.now.clauses truth.old trail.old.items counts.old from }
    requires quiet { AreQuiet formula.now.clauses trail.old.items from }
    ensures counted { IfOk result (λ r. IsCountedTo formula.now.vars formula.now.clauses truth.new trail.new.items
        counts.new r.1) }
    ensures noted { OnOk result (NotesMore formula.now.clauses noted.old.items counts.old noted.new.items counts.new) }
    ensures on { IfOk result (λ r. from ≤ r.1) }
    ensures grows { OnOk result (Grows formula.now.clauses trail.old.items trail.new.items) }
    ensures falsified { IfOk result (λ r. r.0 ≡ true → Falsified formula.now.clauses (has trail.new.items)) }
    ensures all { IfOk result (λ r. r.0 ≡ false → r.1 ≡ length trail.new.items) }
    ensures quiet { IfOk result (λ r. r.0 ≡ false → AreQuiet formula.now.clauses trail.new.items
        (length trail.new.items)) }
{
    let mut front = from;
    while front < trail.len() {
        *ahead ^= read_behind(occurrences, trail, front);
        let (found, next) = advance(formula, occurrences, counts, noted, truth, trail, front)?;
        if found {
            return Ok((true, next));
        }
        front = next;
    }
    Ok((false, front))
}
