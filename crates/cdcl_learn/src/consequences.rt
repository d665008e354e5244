// Which variables follow from those of a clause that is shortened.
ghost use Rattle.std.specs.Prelude.{◌≡◌, ◌≤◌, ◌<◌, ◌+◌, ℕ, true, false, length, slice_index, slice_set, IfOk, OnOk};
ghost use Rattle.cdcl_learn.specs.Cut.{is_seen};

use cnf_core::{VARS, Var, lengthen};
use plan_core::OutOfMemory;
use std::alloc::Global;
use std::marker::Model;

/// The variables that were found to follow from those of the clause, and those that weren't when it was tried. Both
/// tables have by variable the last round in which that was so: each clause is a round of its own, so that
/// none clears a table. No call but the first and `add_vars` takes memory.
#[derive(Drop)]
pub struct Consequences {
    round: u32,
    implied: Vec<u32>,
    refused: Vec<u32>,
}

impl Model for Consequences {
    ghost use Rattle.std.specs.Prelude.{List, Bool};
    ghost use Rattle.cdcl_learn.specs.Shorter.{implied_in, AreRounds};

    ghost Value = { List Bool };

    ghost view = { λ c. implied_in c.round c.implied.items };

    ghost invariant = { λ c. AreRounds c.round c.implied.items c.refused.items };
}

/// The round after this one: a number that the table doesn't have. Where there is no greater one, the table is cleared.
fn next_round(round: u32, implied: &mut [u32]) -> u32
    requires { (v : ℕ) → slice_index implied.old v ≤ round }
    ensures { (v : ℕ) → slice_index implied.new v < result }
{
    if round < u32::MAX {
        return round + 1;
    }
    for i in 0..implied.len() {
        implied[i] = 0;
    }
    1
}

impl Consequences {
    /// The tables of these variables.
    pub fn with_vars(alloc: Global, n: u32) -> Result<Consequences, OutOfMemory>
        requires { n ≤ VARS }
        ensures { IfOk result (λ c. length c ≡ n + 1) }
    {
        Ok(Consequences {
            round: 0,
            implied: vec![in alloc; 0; n as usize + 1]?,
            refused: vec![in alloc; 0; n as usize + 1]?,
        })
    }

    /// Takes `n` further variables.
    pub fn add_vars(&mut self, n: u32) -> Result<(), OutOfMemory>
        ensures more { OnOk result (length self.new ≡ length self.old + n) }
        ensures size { length self.old ≤ length self.new }
    {
        lengthen(&mut self.refused, n as usize, 0)?;
        lengthen(&mut self.implied, n as usize, 0)
    }

    /// Begins with the next clause: of no variable it is known that it follows.
    pub fn begin(&mut self)
        ensures none { (v : ℕ) → is_seen self.new v ≡ false }
        ensures size { length self.new ≡ length self.old }
    {
        self.round = next_round(self.round, &mut self.implied);
    }

    /// Whether the variable was found to follow.
    pub fn is_implied(&self, v: Var) -> bool
        requires { v.0 < length self.now }
        ensures { result ≡ is_seen self.now v.0 }
    {
        self.implied[v.0 as usize] == self.round
    }

    /// The variable follows.
    pub fn imply(&mut self, v: Var)
        requires { v.0 < length self.old }
        ensures { self.new ≡ slice_set self.old v.0 true }
    {
        self.implied[v.0 as usize] = self.round;
    }

    /// Whether it was tried in vain to show that the variable follows.
    pub fn is_refused(&self, v: Var) -> bool
        requires { v.0 < length self.now }
    {
        self.refused[v.0 as usize] == self.round
    }

    /// It isn't tried again to show that the variable follows.
    pub fn refuse(&mut self, v: Var)
        requires { v.0 < length self.old }
        ensures { self.new ≡ self.old }
    {
        self.refused[v.0 as usize] = self.round;
    }
}
