// Literals as numbers, and their text.
ghost use Rattle.std.specs.Prelude.{◌≡◌, ◌≤◌, IfOk, length};
ghost use Rattle.cnf_core.specs.Clause.{AreDistinct, AreThere, IsThere};

use cdcl_core::AddFault;
use cnf_core::{LAST_VAR, Lit, Var};
use refute_log::are_distinct;
use std::alloc::Global;

/// The literal of a variable. There is no room for other variables.
pub fn literal(vars: u32, v: u32, positive: bool) -> Result<Lit, AddFault>
    ensures { IfOk result (λ l. IsThere vars l) }
{
    if v == 0 || v > vars || v > LAST_VAR {
        return Err(AddFault::Room);
    }
    Ok(Lit::new(Var(v), positive))
}

/// The literals of numbers: their variables, negative where the number is.
#[tactic(auto, using(cnf_core::proofs::GatherLemmas::there_push))]
fn literals(alloc: Global, vars: u32, numbers: &[i32]) -> Result<Vec<Lit>, AddFault>
    ensures { IfOk result (λ lits. AreThere vars lits.items) }
{
    let mut lits = Vec::new(alloc);
    for number in numbers {
        lits.push(literal(vars, number.unsigned_abs(), *number > 0)?)?;
    }
    Ok(lits)
}

/// A clause of distinct literals. There is no room for others.
pub fn clause(alloc: Global, vars: u32, numbers: &[i32]) -> Result<Vec<Lit>, AddFault>
    ensures there { IfOk result (λ lits. AreThere vars lits.items) }
    ensures distinct { IfOk result (λ lits. AreDistinct lits.items) }
{
    let lits = literals(alloc, vars, numbers)?;
    if !are_distinct(alloc, lits.as_slice())? {
        return Err(AddFault::Room);
    }
    Ok(lits)
}

/// The number of a literal.
pub fn number_of(l: Lit) -> i64 {
    let v = i64::from(l.var().0);
    if l.positive() { v } else { -v }
}

/// The numbers, each behind a space.
pub fn spaced(alloc: Global, numbers: &[i64]) -> Result<String, AddFault> {
    let mut said = String::new(alloc);
    for n in numbers {
        let word = format!(in alloc; " {}", n)?;
        said.push_str(word.as_str())?;
    }
    Ok(said)
}
