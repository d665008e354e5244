// Truth values by variable.
ghost use Rattle.std.specs.Prelude.{◌≡◌, ◌≢◌, ◌≤◌, ℕ, true, false, length, replicate, IfOk};
ghost use Rattle.cnf_core.specs.Clause.{IsThere};
ghost use Rattle.cnf_core.specs.Assignment.{truth};
ghost use Rattle.cnf_core.specs.Truths.{assignment};

use crate::{Lit, VARS};
use plan_core::OutOfMemory;
use std::alloc::Global;
use std::marker::Model;

/// A truth value for each of the variables 1 to `vars`.
#[derive(Drop)]
pub struct Truths {
    values: Vec<bool>,
}

impl Model for Truths {
    ghost use Rattle.std.specs.Prelude.{List, Bool};

    ghost Value = { List Bool };

    ghost view = { λ t. t.values.items };
}

impl Truths {
    /// These truth values, the first for variable 1.
    pub fn from_bools(alloc: Global, b: &[bool]) -> Result<Truths, OutOfMemory>
        ensures { IfOk result (λ t. t ≡ b.now) }
    {
        Ok(Truths {
            values: Vec::from_slice(alloc, b)?,
        })
    }

    /// The variables 1 to `vars`, all of them false.
    pub fn all_false(alloc: Global, vars: u32) -> Result<Truths, OutOfMemory>
        requires { vars ≤ VARS }
        ensures { IfOk result (λ t. t ≡ replicate vars false) }
    {
        Ok(Truths {
            values: vec![in alloc; false; vars as usize]?,
        })
    }

    /// The truth values of a vector, made without memory.
    pub fn from_vec(values: Vec<bool>) -> Truths
        ensures { result ≡ values.items }
    {
        Truths { values }
    }

    /// The truth values as a vector, made without memory.
    pub fn into_vec(self) -> Vec<bool>
        ensures { result.items ≡ self }
    {
        let Truths { values } = self;
        values
    }

    /// The number of variables.
    pub fn vars(&self) -> usize
        ensures { result ≡ length self.now }
    {
        self.values.len()
    }

    /// Whether the literal is true.
    pub fn holds(&self, l: Lit) -> bool
        requires { IsThere (length self.now) l }
        ensures { result ≡ truth (assignment self.now) l }
    {
        self.values[l.var().0 as usize - 1] == l.positive()
    }

    /// Makes the literal true, and leaves all other variables as they are.
    pub fn set(&mut self, l: Lit)
        requires { IsThere (length self.old) l }
        ensures holds { truth (assignment self.new) l ≡ true }
        ensures others { (x : ℕ) → x ≢ l.var → assignment self.new x ≡ assignment self.old x }
        ensures vars { length self.new ≡ length self.old }
    {
        self.values[l.var().0 as usize - 1] = l.positive();
    }
}
