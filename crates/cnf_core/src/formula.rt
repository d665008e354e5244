// Formulas.
ghost use Rattle.std.specs.Prelude.{◌≡◌, ◌≢◌, ◌≤◌, ◌<◌, ◌+◌, ◌↔◌, [], ◌∷◌, ◌++◌, Some, length, slice_get, slice_index};
ghost use Rattle.std.specs.Prelude.{take, drop, map, ◌-◌, IsOk, IfOk, OnOk, OnErr, IsErrOf};
ghost use Rattle.cnf_core.specs.Clause.{AreDistinct, AreThere, words_of};
ghost use Rattle.cnf_core.specs.LitOrTruth.{AreWithin, flip, clause_of};
ghost use Rattle.cnf_core.specs.Formula.{IsFormula, Full, clause_at, AreEnds};
ghost use Rattle.cnf_core.specs.Added.{AddsClauses};

use crate::gather::gather;
use crate::{CnfFault, Lit, LitOrTruth, ROOM, VARS, Var};
use plan_core::OutOfMemory;
use std::alloc::{AllocError, Global};
use std::marker::Model;
use std::mem;

/// A clause's place in a formula, counted from 0.
#[derive(Clone, Copy, Debug, PartialEq, Eq)]
pub struct ClauseNo(pub u32);

/// Variables 1 to `vars` and a list of clauses over them, whose words are at most `room`. The literals of all clauses
/// are in one vector, and a second one says where each clause ends. A third is the memory that the last clause was
/// gathered in, for the next one; it is empty behind one that was left out and behind an error.
#[derive(Drop)]
pub struct Formula {
    alloc: Global,
    room: u32,
    vars: u32,
    lits: Vec<Lit>,
    ends: Vec<u32>,
    spare: Vec<Lit>,
}

impl Model for Formula {
    ghost use Rattle.cnf_core.specs.LitOrTruth.{AreWithin, clause_of};
    ghost use Rattle.cnf_core.specs.Formula.{Cnf, cnf_of, IsStored};

    ghost Value = { Cnf };

    ghost view = { λ f. cnf_of f.room f.vars f.lits.items f.ends.items };

    ghost invariant = { λ f. IsStored f.room f.vars f.lits.items f.ends.items };
}

impl Formula {
    /// The formula without variables and clauses, with room for so many words.
    pub fn new(alloc: Global, room: u32) -> Result<Formula, OutOfMemory>
        requires { room ≤ ROOM }
        ensures room { IfOk result (λ f. f.room ≡ room) }
        ensures vars { IfOk result (λ f. f.vars ≡ 0) }
        ensures clauses { IfOk result (λ f. f.clauses ≡ []) }
    {
        Ok(Formula {
            alloc,
            room,
            vars: 0,
            lits: Vec::new(alloc),
            ends: Vec::new(alloc),
            spare: Vec::new(alloc),
        })
    }

    /// The number of variables.
    pub fn vars(&self) -> u32
        ensures value { result ≡ self.now.vars }
        ensures formula { IsFormula self.now }
    {
        self.vars
    }

    /// The number of clauses.
    pub fn clauses(&self) -> u32
        ensures value { result ≡ length self.now.clauses }
        ensures formula { IsFormula self.now }
    {
        self.ends.len() as u32
    }

    /// The words of all clauses.
    pub fn words(&self) -> u32
        ensures value { result ≡ words_of self.now.clauses }
        ensures formula { IsFormula self.now }
    {
        self.lits.len() as u32 + 3 * self.ends.len() as u32
    }

    /// The number of literals of a clause.
    pub fn len_of(&self, c: ClauseNo) -> u32
        requires { c.0 < length self.now.clauses }
        ensures { result ≡ length (clause_at self.now c.0) }
    {
        self.lits_of(c).len() as u32
    }

    /// The literal of a clause at place `i`, counted from 0.
    pub fn lit_of(&self, c: ClauseNo, i: u32) -> Lit
        requires clause { c.0 < length self.now.clauses }
        requires place { i < length (clause_at self.now c.0) }
        ensures { slice_get (clause_at self.now c.0) i ≡ Some result }
    {
        self.lits_of(c)[i as usize]
    }

    /// The literals of a clause.
    pub fn lits_of(&self, c: ClauseNo) -> &[Lit]
        requires { c.0 < length self.now.clauses }
        ensures value { result.now ≡ clause_at self.now c.0 }
        ensures distinct { AreDistinct result.now }
        ensures there { AreThere self.now.vars result.now }
        ensures small { length result.now ≤ ROOM }
    {
        cut_out(&self.lits, &self.ends, c.0 as usize)
    }

    /// Makes a further variable. `Room` comes exactly where `VARS` variables are there.
    pub fn new_var(&mut self) -> Result<Var, CnfFault>
        ensures var { IfOk result (λ v. v.0 ≡ self.old.vars + 1) }
        ensures made { self.old.vars < VARS → IsOk result }
        ensures ok { OnOk result (self.new ≡ record self.old { vars = self.old.vars + 1 }) }
        ensures room { IsErrOf result CnfFault.Room ↔ (self.old.vars ≡ VARS) }
        ensures err { OnErr result (self.new ≡ self.old) }
    {
        if self.vars == VARS {
            return Err(CnfFault::Room);
        }
        self.vars += 1;
        Ok(Var(self.vars))
    }

    /// Makes `n` further variables, of which the answer is the first. `Room` comes exactly where
    /// there would be more than `VARS`.
    pub fn new_vars(&mut self, n: u32) -> Result<Var, CnfFault>
        ensures var { IfOk result (λ v. v.0 ≡ self.old.vars + 1) }
        ensures made { self.old.vars + n ≤ VARS → IsOk result }
        ensures ok { OnOk result (self.new ≡ record self.old { vars = self.old.vars + n }) }
        ensures room { IsErrOf result CnfFault.Room ↔ (VARS < self.old.vars + n) }
        ensures err { OnErr result (self.new ≡ self.old) }
    {
        if n > VARS - self.vars {
            return Err(CnfFault::Room);
        }
        let first = Var(self.vars + 1);
        self.vars += n;
        Ok(first)
    }

    /// Adds the clause of these literals, and answers its number. `Room` comes exactly where its
    /// words would pass the room.
    pub fn add(&mut self, lits: &[Lit]) -> Result<ClauseNo, CnfFault>
        requires distinct { AreDistinct lits.now }
        requires there { AreThere self.old.vars lits.now }
        ensures number { IfOk result (λ c. c.0 ≡ length self.old.clauses) }
        ensures ok { OnOk result (self.new ≡ record self.old { clauses = self.old.clauses ++ lits.now ∷ [] }) }
        ensures room { IsErrOf result CnfFault.Room ↔ Full self.old (length lits.now) }
        ensures err { OnErr result (self.new ≡ self.old) }
    {
        let left = (self.room - self.words()) as usize;
        if left < 3 || left - 3 < lits.len() {
            return Err(CnfFault::Room);
        }
        let number = ClauseNo(self.ends.len() as u32);
        append(&mut self.lits, &mut self.ends, lits)?;
        Ok(number)
    }

    /// Adds the clause "one of `unless` is true, or where all premises are true, one of the conclusions is", each
    /// literal once and without truth values. Where every assignment satisfies it by a truth value, or by a literal
    /// beside its negation, nothing is added. `Room` comes only where its words would pass the room.
    pub fn add_rule(
        &mut self,
        unless: &[Lit],
        premises: &[LitOrTruth],
        conclusions: &[LitOrTruth],
    ) -> Result<(), CnfFault>
        requires there { AreThere self.old.vars unless.now }
        requires premises { AreWithin self.old.vars premises.now }
        requires conclusions { AreWithin self.old.vars conclusions.now }
        ensures adds { AddsClauses result self.old self.new
            (clause_of unless.now (map flip premises.now ++ conclusions.now))
            (length unless.now + (length premises.now + length conclusions.now)) }
        ensures err { OnErr result (self.new ≡ self.old) }
    {
        let spare = mem::replace(&mut self.spare, Vec::new(self.alloc));
        match gather(spare, unless, premises, conclusions)? {
            None => Ok(()),
            Some(lits) => {
                self.add(&lits)?;
                self.spare = lits;
                Ok(())
            }
        }
    }

    /// Adds the clause "one of `unless` is true, or one of `ts`": the rule without premises, with what `add_rule` says
    /// of clauses that are always satisfied, and of `Room`.
    pub fn add_clause(&mut self, unless: &[Lit], ts: &[LitOrTruth]) -> Result<(), CnfFault>
        requires there { AreThere self.old.vars unless.now }
        requires within { AreWithin self.old.vars ts.now }
        ensures adds { AddsClauses result self.old self.new (clause_of unless.now ts.now)
            (length unless.now + length ts.now) }
        ensures err { OnErr result (self.new ≡ self.old) }
    {
        self.add_rule(unless, &[], ts)
    }
}

/// Where the clause of this number starts.
fn start_of(ends: &[u32], c: usize) -> usize
    requires { c < length ends.now }
    ensures { result ≡ slice_index (0 ∷ ends.now) c }
{
    if c == 0 { 0 } else { ends[c - 1] as usize }
}

/// The literals from where the clause of this number starts to where it ends.
fn cut_out<'a>(lits: &'a [Lit], ends: &[u32], c: usize) -> &'a [Lit]
    requires there { c < length ends.now }
    requires rise { AreEnds 0 ends.now (length lits.now) }
    ensures { result.now ≡ take (slice_index ends.now c - slice_index (0 ∷ ends.now) c)
        (drop (slice_index (0 ∷ ends.now) c) lits.now) }
{
    let start = start_of(ends, c);
    let end = ends[c] as usize;
    &lits[start..end]
}

/// Puts the literals behind the others, and their end behind the other ends.
fn append(lits: &mut Vec<Lit>, ends: &mut Vec<u32>, new: &[Lit]) -> Result<(), AllocError>
    requires { length lits.old.items + length new.now ≤ ROOM }
    ensures lits { OnOk result (lits.new.items ≡ lits.old.items ++ new.now) }
    ensures ends { OnOk result (ends.new.items ≡ ends.old.items ++ (length lits.old.items + length new.now) ∷ []) }
    ensures err { OnErr result (lits.new.items ≡ lits.old.items) }
    ensures ends_err { OnErr result (ends.new.items ≡ ends.old.items) }
{
    ends.reserve(1)?;
    lits.extend_from_slice(new)?;
    ends.push(lits.len() as u32).unwrap();
    Ok(())
}
