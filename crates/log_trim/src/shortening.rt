// Leaving out the Learnt lines that nothing rests on.
ghost use Rattle.std.specs.Prelude.{◌≡◌, ◌≤◌, ◌<◌, ◌+◌, ◌^◌, ◌++◌, [], ◌∷◌, ℕ, All, IfOk, OnOk, length};
ghost use Rattle.hint_log.specs.Hint.{hints_of};
ghost use Rattle.hint_log.specs.HintedLines.{HintLines};
ghost use Rattle.log_trim.specs.Shortened.{is_used, Uses, MarksUsed, IsMarkedFrom, AreBelow, learnt_among};
ghost use Rattle.log_trim.specs.Shortened.{new_number_in, renumbered, shortened, AreShortened};

use cnf_core::Clause;
use hint_log::{HintLine, HintList, Numbers};
use plan_core::{Items, OutOfMemory};
use std::alloc::Global;

/// Whether the clause of a number is used.
fn is_used(used: &[bool], n: usize) -> bool
    ensures { result ≡ is_used used.now n }
{
    n < used.len() && used[n]
}

/// The clauses of these numbers are used.
fn use_all(used: &mut [bool], hints: &Numbers)
    requires { All (λ m. m < length used.old) hints.now }
    ensures { Uses hints.now used.old used.new }
{
    for n in hints.as_slice() {
        used[*n as usize] = true;
    }
}

/// Uses the clauses that a line names, if it stays. `n` clauses come before it.
fn use_line(used: &mut [bool], n: u32, line: &HintLine)
    requires size { n < length used.old }
    requires below { All (λ m. m ≤ n) (hints_of line.now) }
    ensures size { length used.new ≡ length used.old }
    ensures marked { (rest : HintLines) → IsMarkedFrom used.old (n + learnt_among (line.now ∷ [])) rest →
        IsMarkedFrom used.new n (line.now ∷ rest) }
{
    match line {
        HintLine::Learnt { hints, .. } => {
            if is_used(used, n as usize + 1) {
                use_all(used, hints);
            }
        }
        HintLine::Refuted { hints, .. } => use_all(used, hints),
    }
}

/// How many clauses come before a line, where so many come before the next one.
fn before(line: &HintLine, n: u32) -> u32
    requires { learnt_among (line.now ∷ []) ≤ n }
    ensures { result + learnt_among (line.now ∷ []) ≡ n }
{
    match line {
        HintLine::Learnt { .. } => n - 1,
        HintLine::Refuted { .. } => n,
    }
}

/// Which clauses later lines rest on that stay, by number. There are `total` clauses.
fn used_of(alloc: Global, list: &HintList, given: u32, total: u32) -> Result<Vec<bool>, OutOfMemory>
    requires below { AreBelow given list.now }
    requires total { total ≡ given + learnt_among list.now }
    ensures { IfOk result (λ used. MarksUsed used.items given list.now) }
{
    let mut used = vec![in alloc; false; total as usize + 1]?;
    let mut n = total;
    let mut i = list.len();
    while i > 0 {
        i -= 1;
        let line = list.get(i);
        n = before(line, n);
        use_line(&mut used, n, line);
    }
    Ok(used)
}

/// The number that a clause has once lines are left out, or 0 where it is left out.
fn new_number(numbers: &[u32], n: u32) -> u32
    ensures { result ≡ new_number_in numbers.now n }
{
    let i = n as usize;
    if i < numbers.len() { numbers[i] } else { 0 }
}

/// The hints with their clauses' new numbers.
fn renumber(alloc: Global, numbers: &[u32], hints: &Numbers) -> Result<Numbers, OutOfMemory>
    ensures { IfOk result (λ ns. ns ≡ renumbered numbers.now hints.now) }
{
    let mut new = Items::new(alloc);
    for n in hints.as_slice() {
        new.push(new_number(numbers, *n))?;
    }
    Ok(new)
}

/// Clauses that are given keep their numbers. The answer has one place for each number, and one for 0.
fn same_numbers(alloc: Global, given: u32) -> Result<Vec<u32>, OutOfMemory>
    ensures size { IfOk result (λ numbers. length numbers.items ≡ given + 1) }
    ensures same { IfOk result (λ numbers. (m : ℕ) → m ≤ given → new_number_in numbers.items m ≡ m) }
{
    let mut numbers = Vec::new(alloc);
    for n in 0..given {
        numbers.push(n)?;
    }
    numbers.push(given)?;
    Ok(numbers)
}

/// Takes a Learnt line with its clauses' new numbers. So many clauses are kept already.
fn keep_learnt(
    alloc: Global,
    numbers: &mut Vec<u32>,
    last: &mut u32,
    kept: &mut HintList,
    lits: &Clause,
    hints: &Numbers,
) -> Result<(), OutOfMemory>
    requires { last.old + 1 < 2 ^ 32 }
    ensures numbers { OnOk result (numbers.new.items ≡ numbers.old.items ++ (last.old + 1) ∷ []) }
    ensures last { OnOk result (last.new ≡ last.old + 1) }
    ensures kept { OnOk result (kept.new ≡ kept.old ++ HintLine.Learnt lits.now (renumbered numbers.old.items hints.now)
        ∷ []) }
{
    let new = renumber(alloc, numbers, hints)?;
    let clause = Clause::new(alloc, lits.as_slice())?;
    kept.push(HintLine::Learnt {
        lits: clause,
        hints: new,
    })?;
    *last += 1;
    numbers.push(*last)?;
    Ok(())
}

/// Takes a Refuted line with its clauses' new numbers.
fn keep_refuted(
    alloc: Global,
    numbers: &[u32],
    kept: &mut HintList,
    lits: &Clause,
    hints: &Numbers,
) -> Result<(), OutOfMemory>
    ensures { OnOk result (kept.new ≡ kept.old ++ HintLine.Refuted lits.now (renumbered numbers.now hints.now) ∷ []) }
{
    let new = renumber(alloc, numbers, hints)?;
    let clause = Clause::new(alloc, lits.as_slice())?;
    kept.push(HintLine::Refuted {
        lits: clause,
        hints: new,
    })?;
    Ok(())
}

/// Takes a line with its clauses' new numbers, if it stays.
fn keep_line(
    alloc: Global,
    used: &[bool],
    numbers: &mut Vec<u32>,
    last: &mut u32,
    kept: &mut HintList,
    line: &HintLine,
) -> Result<(), OutOfMemory>
    requires { last.old + learnt_among (line.now ∷ []) < 2 ^ 32 }
    ensures last { OnOk result (last.new ≤ last.old + learnt_among (line.now ∷ [])) }
    ensures kept { OnOk result ((rest : HintLines) → kept.new ++ shortened used.now numbers.new.items last.new rest
        ≡ kept.old ++ shortened used.now numbers.old.items last.old (line.now ∷ rest)) }
{
    match line {
        HintLine::Learnt { lits, hints } => {
            if is_used(used, numbers.len()) {
                keep_learnt(alloc, numbers, last, kept, lits, hints)?;
                return Ok(());
            }
            numbers.push(0)?;
            Ok(())
        }
        HintLine::Refuted { lits, hints } => {
            keep_refuted(alloc, numbers, kept, lits, hints)?;
            Ok(())
        }
    }
}

/// The lines that stay, with their clauses' new numbers. There are `given` clauses before them.
fn keep_all(
    alloc: Global,
    used: &[bool],
    mut numbers: Vec<u32>,
    given: u32,
    list: &HintList,
) -> Result<HintList, OutOfMemory>
    requires { given + learnt_among list.now < 2 ^ 32 }
    ensures { IfOk result (λ kept. kept ≡ shortened used.now numbers.items given list.now) }
{
    let mut last = given;
    let mut kept = Items::new(alloc);
    for line in list.as_slice() {
        keep_line(alloc, used, &mut numbers, &mut last, &mut kept, line)?;
    }
    Ok(kept)
}

/// The lines without those Learnt lines that no later line rests on. There are `given` clauses before the
/// lines, and `total` with their Learnt lines.
pub(crate) fn shorten(
    alloc: Global,
    list: &HintList,
    given: u32,
    total: u32,
) -> Result<HintList, OutOfMemory>
    requires below { AreBelow given list.now }
    requires total { total ≡ given + learnt_among list.now }
    ensures { IfOk result (AreShortened given list.now) }
{
    let used = used_of(alloc, list, given, total)?;
    let numbers = same_numbers(alloc, given)?;
    let kept = keep_all(alloc, &used, numbers, given, list)?;
    Ok(kept)
}
