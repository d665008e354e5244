// Clauses.
ghost use Rattle.std.specs.Prelude.{◌≡◌, ◌<◌, length, IfOk, slice_get, Some, ◌==◌};
ghost use Rattle.cnf_core.specs.Clause.{AreDistinct};

use crate::Lit;
use plan_core::OutOfMemory;
use std::alloc::Global;
use std::marker::Model;

/// A list of literals of distinct variables. An assignment satisfies it where it makes one of them
/// true.
#[derive(Drop)]
pub struct Clause {
    lits: Vec<Lit>,
}

impl Model for Clause {
    ghost use Rattle.std.specs.Prelude.{List};
    ghost use Rattle.cnf_core.specs.Lit.{Literal};
    ghost use Rattle.cnf_core.specs.Clause.{AreDistinct};

    ghost Value = { List Literal };

    ghost view = { λ c. c.lits.items };

    ghost invariant = { λ c. AreDistinct c.lits.items };
}

impl Clause {
    /// The clause of these literals, in their order.
    pub fn new(alloc: Global, lits: &[Lit]) -> Result<Clause, OutOfMemory>
        requires { AreDistinct lits.now }
        ensures { IfOk result (λ c. c ≡ lits.now) }
    {
        Ok(Clause {
            lits: Vec::from_slice(alloc, lits)?,
        })
    }

    /// The clause of a vector's literals, made without memory.
    pub fn from_vec(lits: Vec<Lit>) -> Clause
        requires { AreDistinct lits.items }
        ensures { result ≡ lits.items }
    {
        Clause { lits }
    }

    /// The literals as a vector, made without memory.
    pub fn into_vec(self) -> Vec<Lit>
        ensures value { result.items ≡ self }
        ensures distinct { AreDistinct result.items }
    {
        let Clause { lits } = self;
        lits
    }

    /// The number of literals.
    pub fn len(&self) -> usize
        ensures value { result ≡ length self.now }
        ensures distinct { AreDistinct self.now }
    {
        self.lits.len()
    }

    /// Whether there is no literal. No assignment satisfies the empty clause.
    pub fn is_empty(&self) -> bool
        ensures { result ≡ (length self.now == 0) }
    {
        self.lits.is_empty()
    }

    /// The literal at place `i`, counted from 0.
    pub fn get(&self, i: usize) -> Lit
        requires { i < length self.now }
        ensures { slice_get self.now i ≡ Some result }
    {
        self.lits[i]
    }

    /// All literals, in order.
    pub fn as_slice(&self) -> &[Lit]
        ensures value { result.now ≡ self.now }
        ensures distinct { AreDistinct self.now }
    {
        &self.lits
    }
}
