// Keeping an accepted clause.
ghost use Rattle.std.specs.Prelude.{◌≡◌, ◌≤◌, ◌<◌, ◌+◌, ◌^◌, max, [], ◌∷◌, ◌++◌, OnOk, IfOk, length, false};
ghost use Rattle.cnf_core.specs.Lit.{has};
ghost use Rattle.cnf_core.specs.Clause.{AreThere, AreDistinct, words_of};
ghost use Rattle.cnf_core.specs.Propagation.{greatest_in, greatest_var};
ghost use Rattle.refute_check.specs.Settled.{AreSettled};
ghost use Rattle.refute_check.specs.Standing.{IsChecker, is_lost};

use crate::tables::Tables;
use cnf_core::{Formula, Lit, VARS};
use plan_core::OutOfMemory;
use std::alloc::Global;

/// What the tables of a checker are good for.
#[derive(Clone, Copy)]
pub(crate) enum Standing {
    /// They have what is true without assumptions, and no clause is falsified.
    Open,
    /// Some clause is falsified without assumptions, so that every clause follows.
    Contradiction,
    /// Memory couldn't be had while they changed.
    Lost,
}

/// The greatest variable of the literals, or 0 where there is none.
pub(crate) fn greatest(lits: &[Lit]) -> u32
    ensures { result ≡ greatest_in lits.now }
{
    let mut most = 0;
    for l in lits {
        let var = l.var().0;
        if most < var {
            most = var;
        }
    }
    most
}

/// Makes the variables up to this one.
fn make_vars(formula: &mut Formula, vars: u32) -> Result<(), OutOfMemory>
    requires { vars ≤ VARS }
    ensures { OnOk result (formula.new ≡ record formula.old { vars = max formula.old.vars vars }) }
{
    let there = formula.vars();
    if there < vars {
        match formula.new_vars(vars - there) {
            Ok(_) => Ok(()),
            Err(_) => Err(OutOfMemory),
        }
    } else {
        Ok(())
    }
}

/// Makes one further variable.
fn make_var(formula: &mut Formula) -> Result<(), OutOfMemory>
    ensures { OnOk result (formula.new ≡ record formula.old { vars = formula.old.vars + 1 }) }
{
    match formula.new_var() {
        Ok(_) => Ok(()),
        Err(_) => Err(OutOfMemory),
    }
}

/// Makes the variables up to this one, and room for them in the tables.
fn grow(
    alloc: Global,
    formula: &mut Formula,
    tables: &mut Tables,
    vars: u32,
) -> Result<(), OutOfMemory>
    requires { AreSettled formula.old.vars formula.old.clauses tables.old }
    ensures settled { OnOk result (AreSettled formula.new.vars formula.new.clauses tables.new) }
    ensures made { OnOk result (formula.new ≡ record formula.old { vars = max formula.old.vars vars }) }
{
    while formula.vars() < vars {
        tables.add_var(alloc, formula)?;
        make_var(formula)?;
    }
    Ok(())
}

/// Adds the clause of these literals to the formula.
fn add_clause(formula: &mut Formula, lits: &[Lit]) -> Result<(), OutOfMemory>
    requires distinct { AreDistinct lits.now }
    requires there { AreThere formula.old.vars lits.now }
    ensures { OnOk result (formula.new ≡ record formula.old { clauses = formula.old.clauses ++ lits.now ∷ [] }) }
{
    match formula.add(lits) {
        Ok(_) => Ok(()),
        Err(_) => Err(OutOfMemory),
    }
}

/// Adds the clause to the formula and the tables, and marks what follows.
fn add_open(
    formula: &mut Formula,
    tables: &mut Tables,
    lits: &[Lit],
) -> Result<Standing, OutOfMemory>
    requires settled { AreSettled formula.old.vars formula.old.clauses tables.old }
    requires distinct { AreDistinct lits.now }
    requires there { AreThere formula.old.vars lits.now }
    requires small { length lits.now < 2 ^ 32 }
    requires greatest { formula.old.vars ≤ greatest_var (formula.old.clauses ++ lits.now ∷ []) }
    ensures checker { IfOk result (λ s. IsChecker formula.new tables.new s) }
    ensures added { OnOk result (formula.new ≡ record formula.old { clauses = formula.old.clauses ++ lits.now ∷ [] }) }
    ensures there { IfOk result (λ s. is_lost s ≡ false) }
{
    tables.list(formula, lits)?;
    add_clause(formula, lits)?;
    if tables.settle(formula, lits)? {
        Ok(Standing::Contradiction)
    } else {
        Ok(Standing::Open)
    }
}

/// Keeps the clause of these literals, of the variables up to `vars`.
pub(crate) fn keep(
    alloc: Global,
    formula: &mut Formula,
    tables: &mut Tables,
    standing: Standing,
    lits: &[Lit],
    vars: u32,
) -> Result<Standing, OutOfMemory>
    requires checker { IsChecker formula.old tables.old standing }
    requires distinct { AreDistinct lits.now }
    requires there { AreThere (max formula.old.vars vars) lits.now }
    requires limit { vars ≤ VARS }
    requires small { length lits.now < 2 ^ 32 }
    requires named { vars ≤ max formula.old.vars (greatest_in lits.now) }
    ensures checker { IfOk result (λ s. IsChecker formula.new tables.new s) }
    ensures kept { OnOk result (formula.new ≡ record formula.old {
      vars = max formula.old.vars vars;
      clauses =
          formula.old.clauses ++ lits.now ∷ [];
    }) }
    ensures there { IfOk result (λ s. is_lost s ≡ is_lost standing) }
{
    match standing {
        Standing::Open => {
            grow(alloc, formula, tables, vars)?;
            add_open(formula, tables, lits)
        }
        Standing::Contradiction => {
            make_vars(formula, vars)?;
            add_clause(formula, lits)?;
            Ok(Standing::Contradiction)
        }
        Standing::Lost => Err(OutOfMemory),
    }
}
