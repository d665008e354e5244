// Literals of distinct variables.
ghost use Rattle.std.specs.Prelude.{◌≡◌, ◌≢◌, false, All, IfOk, OnOk};
ghost use Rattle.cnf_core.specs.Clause.{AreDistinct, AreThere};

use cnf_core::Lit;
use plan_core::OutOfMemory;
use std::alloc::Global;

fn has_var(lits: &[Lit], l: Lit) -> bool
    ensures { result ≡ false → All (λ k. k.var ≢ l.var) lits.now }
{
    for k in lits {
        if k.var().0 == l.var().0 {
            return true;
        }
    }
    false
}

/// Adds the literal behind the others, where its variable is none of theirs and at most `vars`.
fn push_there(lits: &mut Vec<Lit>, l: Lit, vars: u32) -> Result<(), OutOfMemory>
    requires distinct { AreDistinct lits.old.items }
    requires there { AreThere vars lits.old.items }
    ensures distinct { OnOk result (AreDistinct lits.new.items) }
    ensures there { OnOk result (AreThere vars lits.new.items) }
{
    let var = l.var();
    if var.0 > vars {
        return Ok(());
    }
    if !has_var(lits, l) {
        lits.push(l)?;
    }
    Ok(())
}

/// The literals of variables up to `vars`, each variable's first one.
pub fn clause_within(alloc: Global, given: &[Lit], vars: u32) -> Result<Vec<Lit>, OutOfMemory>
    ensures distinct { IfOk result (λ c. AreDistinct c.items) }
    ensures there { IfOk result (λ c. AreThere vars c.items) }
{
    let mut lits = Vec::new(alloc);
    for l in given {
        push_there(&mut lits, *l, vars)?;
    }
    Ok(lits)
}
