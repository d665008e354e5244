// Integers and their numbers.
ghost use Rattle.std.specs.Prelude.{◌≡◌, ℕ, ◌+◌, ◌-◌, ◌*◌, ◌<◌, ◌≤◌, ◌⊎◌, ◌++◌, length, IfOk, OnOk, IsErrOf};
ghost use Rattle.cnf_core.specs.declared.limits.TheConstants.{VARS};
ghost use Rattle.cnf_core.specs.Clause.{words_of};
ghost use Rattle.cnf_core.specs.Assignment.{Assignment, SatisfiesAll, SameOutside, Extends};
ghost use Rattle.cnf_core.specs.Formula.{each};
ghost use Rattle.cnf_core.specs.Added.{AddsClauses, AddsBlock};
ghost use Rattle.cnf_core.specs.Truths.{assignment};
ghost use Rattle.order_int.specs.IntVars.{int_vars, size, IntIsThere, IntIsIn};
ghost use Rattle.order_int.specs.OrderInt.{int_at_least, link, chain, int_clauses, Reads, number};

use cnf_core::{CnfFault, Formula, Lit, LitOrTruth, Truths, Var};
use std::marker::Model;

/// An integer from `low` to `high`, which has `high - low` variables from `first` on. The variable
/// `first + k` says that the integer is at least `low + k + 1`.
#[derive(Clone, Copy, Debug, PartialEq, Eq)]
pub struct OrderInt {
    pub low: u32,
    pub high: u32,
    pub first: Var,
}

impl Model for OrderInt {
    ghost use Rattle.order_int.specs.IntVars.{IntVars, int_vars, IsInt};

    ghost Value = { IntVars };

    ghost view = { λ i. int_vars i.low i.high i.first.0 };

    ghost invariant = { λ i. IsInt (int_vars i.low i.high i.first.0) };

    ghost inverse = { λ v. record { low = v.low; high = v.high; first = record { 0 = v.first } } };
}

impl OrderInt {
    /// "The integer is at least k": a truth value outside its range, else its variable.
    pub fn at_least(&self, k: u32) -> LitOrTruth
        ensures { result ≡ int_at_least self.now k }
    {
        if k <= self.low {
            LitOrTruth::True
        } else if self.high < k {
            LitOrTruth::False
        } else {
            LitOrTruth::Lit(Lit::new(Var(self.first.0 + (k - (self.low + 1))), true))
        }
    }

    /// The number of the integer in a model of its clauses.
    pub fn value_of(&self, m: &Truths) -> u32
        requires there { IntIsIn (length m.now) self.now }
        requires model { SatisfiesAll (assignment m.now) (int_clauses self.now) }
        ensures { Reads (assignment m.now) self.now result }
    {
        for k in 0..self.high - self.low {
            if !m.holds(Lit::new(Var(self.first.0 + k), true)) {
                return self.low + k;
            }
        }
        self.high
    }

    /// Gives the integer this number, and changes no other variable.
    pub fn put(&self, value: u32, m: &mut Truths)
        requires low { self.now.low ≤ value }
        requires high { value ≤ self.now.high }
        requires there { IntIsIn (length m.old) self.now }
        ensures reads { Reads (assignment m.new) self.now value }
        ensures model { SatisfiesAll (assignment m.new) (int_clauses self.now) }
        ensures same { SameOutside self.now.first (size self.now) (assignment m.old) (assignment m.new) }
        ensures vars { length m.new ≡ length m.old }
    {
        let count = self.high - self.low;
        for k in 0..count {
            m.set(Lit::new(Var(self.first.0 + k), k < value - self.low));
        }
    }
}

/// A new integer of this range, and the clauses that give it one number in each model.
pub fn new_int(f: &mut Formula, low: u32, high: u32) -> Result<OrderInt, CnfFault>
    requires order { low ≤ high }
    requires small { high ≤ 65535 }
    ensures int { IfOk result (λ i. i ≡ int_vars low high (f.old.vars + 1)) }
    ensures adds { AddsBlock result f.old f.new (high - low) (int_clauses (int_vars low high (f.old.vars + 1))) 2 }
    ensures size { words_of f.new.clauses ≤ words_of f.old.clauses + 5 * (high - low) }
    ensures means { let i = int_vars low high (f.old.vars + 1) in
        (v : Assignment) → SatisfiesAll v (int_clauses i) → Reads v i (number v i) }
    ensures extends { let i = int_vars low high (f.old.vars + 1) in
        (v : Assignment) (n : ℕ) → low ≤ n → n ≤ high →
        Extends i.first (size i) v (λ w. Reads w i n × SatisfiesAll w (int_clauses i)) }
{
    make_int(f, low, high)
}

fn make_int(f: &mut Formula, low: u32, high: u32) -> Result<OrderInt, CnfFault>
    requires order { low ≤ high }
    requires small { high ≤ 65535 }
    ensures int { IfOk result (λ i. i ≡ int_vars low high (f.old.vars + 1)) }
    ensures adds { AddsBlock result f.old f.new (high - low) (int_clauses (int_vars low high (f.old.vars + 1))) 2 }
{
    let first = f.new_vars(high - low)?;
    add_chain(f, first.0, high - low)?;
    Ok(OrderInt { low, high, first })
}

/// Adds the clauses that give one number to an integer whose variables are there.
pub fn add_int(f: &mut Formula, i: &OrderInt) -> Result<(), CnfFault>
    requires limit { f.old.vars ≤ VARS }
    requires there { IntIsThere f.old.vars i.now }
    ensures { AddsClauses result f.old f.new (int_clauses i.now) 2 }
{
    add_chain(f, i.first.0, i.high - i.low)
}

/// Makes each of the n variables from first on true only where the one before it is.
fn add_chain(f: &mut Formula, first: u32, n: u32) -> Result<(), CnfFault>
    requires limit { f.old.vars ≤ VARS }
    requires from { 1 ≤ first }
    requires to { first + n ≤ f.old.vars + 1 }
    ensures { AddsClauses result f.old f.new (chain first n) 2 }
{
    if n == 0 {
        return Ok(());
    }
    add_links(f, first, n - 1)
}

/// Links n + 1 variables from first on, each to the next.
fn add_links(f: &mut Formula, first: u32, n: u32) -> Result<(), CnfFault>
    requires limit { f.old.vars ≤ VARS }
    requires from { 1 ≤ first }
    requires to { first + n ≤ f.old.vars }
    ensures { AddsClauses result f.old f.new (each link first n) 2 }
{
    let end = first + n;
    for x in first..end {
        add_link(f, x)?;
    }
    Ok(())
}

/// Makes the variable behind x true only where x is.
#[tactic(auto, using(crate::proofs::IntLemmas::one_clause_added))]
fn add_link(f: &mut Formula, x: u32) -> Result<(), CnfFault>
    requires limit { f.old.vars ≤ VARS }
    requires from { 1 ≤ x }
    requires to { x + 1 ≤ f.old.vars }
    ensures { AddsClauses result f.old f.new (link x) 2 }
{
    f.add(&[Lit::new(Var(x + 1), false), Lit::new(Var(x), true)])?;
    Ok(())
}
