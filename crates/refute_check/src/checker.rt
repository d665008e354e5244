// The checker.
ghost use Rattle.std.specs.Prelude.{◌≡◌, ◌≤◌, ◌<◌, ◌⊎◌, ◌↔◌, ◌+◌, ◌^◌, max, IsTrue, length, [], ◌∷◌, ◌++◌, None, true};
ghost use Rattle.std.specs.Prelude.{false, All, Any, Contains, IfOk, OnOk, IfErr, IsErrOf};
ghost use Rattle.cnf_core.specs.Clause.{IsThere, AreDistinct, AreThere, words_of};
ghost use Rattle.cnf_core.specs.Propagation.{Closure, Falsifies, Rup, negations, greatest_in, greatest_var};
ghost use Rattle.refute_log.specs.Log.{facts_of, IsNewClause};
ghost use Rattle.refute_check.specs.Kept.{with_clause, IsKnownClause, IsAnswer, Accepts, NamesNew, AnswersWrongly};
ghost use Rattle.refute_check.specs.Kept.{PassesRoom, IsUnproved, IsOld, IncludesNone, Refutes};
ghost use Rattle.refute_check.specs.Novelty.{IsNovelty, HasNovelty};
ghost use Rattle.refute_log.specs.Lines.{IsWellFormed};

use crate::LineFault;
use crate::judging::{answer, are_named};
use crate::keeping::{Standing, greatest, keep};
use crate::novelty::Novelty;
use crate::question::Question;
use crate::tables::Tables;
use cnf_core::{Clause, Formula, LAST_VAR, Lit, ROOM, VARS};
use plan_core::OutOfMemory;
use refute_log::{LogLine, are_among};
use std::alloc::Global;
use std::marker::Model;

/// Accepts the lines of a log that may come after those that it accepted before.
#[derive(Drop)]
pub struct Checker {
    alloc: Global,
    room: u32,
    formula: Formula,
    tables: Tables,
    standing: Standing,
    query: Option<Question>,
    refuted: Vec<Clause>,
}

impl Model for Checker {
    ghost use Rattle.refute_log.specs.Log.{Facts};
    ghost use Rattle.refute_check.specs.Kept.{CheckedFacts};

    ghost Value = { CheckedFacts };

    ghost use Rattle.refute_check.specs.Kept.{checked_facts};
    ghost use Rattle.refute_check.specs.Standing.{IsChecker, is_lost};

    ghost view = { λ c. checked_facts c.room c.formula c.query c.refuted.items (is_lost c.standing) };

    ghost invariant = { λ c. IsChecker c.formula c.tables c.standing };
}

impl Checker {
    /// Accepts lines as long as the words of their Formula and Learnt clauses are at most `room`.
    pub fn new(alloc: Global, room: u32) -> Result<Checker, OutOfMemory>
        requires { room ≤ ROOM }
        ensures room { IfOk result (λ c. c.room ≡ room) }
        ensures facts { IfOk result (λ c. c.facts ≡ facts_of []) }
        ensures lost { IfOk result (λ c. c.lost ≡ false) }
    {
        let formula = Formula::new(alloc, room)?;
        let tables = Tables::new(alloc)?;
        Ok(Checker {
            alloc,
            room,
            formula,
            tables,
            standing: Standing::Open,
            query: None,
            refuted: Vec::new(alloc),
        })
    }

    /// Whether the clause of these literals follows by unit propagation.
    fn follows(&mut self, lits: &[Lit]) -> Result<bool, OutOfMemory>
        requires there { AreThere self.old.facts.greatest lits.now }
        requires distinct { AreDistinct lits.now }
        ensures same { OnOk result (self.new ≡ self.old) }
        ensures refuted { self.new.facts.refuted ≡ self.old.facts.refuted }
        ensures yes { IfOk result (λ b. b ≡ true → Rup self.old.facts.clauses lits.now) }
        ensures no { IfOk result (λ b. b ≡ false → Rup self.old.facts.clauses lits.now → ⊥) }
    {
        match self.standing {
            Standing::Lost => Err(OutOfMemory),
            Standing::Contradiction => Ok(true),
            Standing::Open => {
                self.standing = Standing::Lost;
                let follows = self.tables.follows(&self.formula, lits)?;
                self.standing = Standing::Open;
                Ok(follows)
            }
        }
    }

    /// What the clause of the first literal and the others is.
    fn weigh(&mut self, first: Lit, others: &[Lit]) -> Result<Novelty, OutOfMemory>
        requires first { IsThere self.old.facts.greatest first }
        requires there { AreThere self.old.facts.greatest others.now }
        requires distinct { AreDistinct (first ∷ others.now) }
        ensures same { OnOk result (self.new ≡ self.old) }
        ensures refuted { self.new.facts.refuted ≡ self.old.facts.refuted }
        ensures novelty { IfOk result (IsNovelty self.old.facts.clauses first others.now) }
        ensures greatest { IfOk result (λ n. n ≡ Novelty.New → self.old.facts.greatest ≤ greatest_var
            self.old.facts.clauses) }
    {
        match self.standing {
            Standing::Lost => Err(OutOfMemory),
            Standing::Contradiction => Ok(Novelty::Known),
            Standing::Open => {
                self.standing = Standing::Lost;
                let novelty = self.tables.novelty_of(&self.formula, first, others)?;
                self.standing = Standing::Open;
                Ok(novelty)
            }
        }
    }

    /// Whether a clause of so many literals would pass the room.
    fn lacks_room(&self, length: usize) -> bool
        ensures yes { result ≡ true → self.now.room < words_of self.now.facts.clauses + length + 3 }
        ensures no { result ≡ false → words_of self.now.facts.clauses + length + 3 ≤ self.now.room }
        ensures room { self.now.room < 2 ^ 32 }
    {
        let room = self.room as usize;
        let taken = self.formula.words() as usize + 3;
        room < taken || room - taken < length
    }

    /// Keeps the clause of these literals, of the variables up to `vars`.
    fn keep(&mut self, lits: &[Lit], vars: u32) -> Result<(), OutOfMemory>
        requires distinct { AreDistinct lits.now }
        requires there { AreThere (max self.old.facts.greatest vars) lits.now }
        requires limit { vars ≤ VARS }
        requires small { length lits.now < 2 ^ 32 }
        requires named { vars ≤ max self.old.facts.greatest (greatest_in lits.now) }
        ensures kept { OnOk result (self.new ≡ with_clause self.old lits.now vars) }
        ensures refuted { self.new.facts.refuted ≡ self.old.facts.refuted }
    {
        let standing = self.standing;
        self.standing = Standing::Lost;
        self.standing = keep(
            self.alloc,
            &mut self.formula,
            &mut self.tables,
            standing,
            lits,
            vars,
        )?;
        Ok(())
    }

    /// What the clause of these literals is.
    fn novelty_of(&mut self, lits: &[Lit]) -> Result<Novelty, OutOfMemory>
        requires some { 1 ≤ length lits.now }
        requires there { AreThere self.old.facts.greatest lits.now }
        requires distinct { AreDistinct lits.now }
        ensures same { OnOk result (self.new ≡ self.old) }
        ensures refuted { self.new.facts.refuted ≡ self.old.facts.refuted }
        ensures novelty { IfOk result (HasNovelty self.old.facts.clauses lits.now) }
    {
        let first = lits[0];
        let others = &lits[1..];
        let novelty = self.weigh(first, others)?;
        Ok(novelty)
    }

    /// Accepts a Formula line, or says why not.
    fn feed_formula(&mut self, clause: &Clause) -> Result<(), LineFault>
        requires { AreThere LAST_VAR clause.now }
        ensures { IsAnswer self.old self.new (LogLine.Formula clause.now) result }
    {
        let lits = clause.as_slice();
        let most = greatest(lits);
        if VARS < most {
            return Err(LineFault::Room);
        }
        if self.lacks_room(lits.len()) {
            return Err(LineFault::Room);
        }
        self.keep(lits, most)?;
        Ok(())
    }

    /// Accepts a Learnt line, or says why not.
    fn feed_learnt(&mut self, clause: &Clause) -> Result<(), LineFault>
        requires there { AreThere LAST_VAR clause.now }
        requires some { 1 ≤ length clause.now }
        ensures { IsAnswer self.old self.new (LogLine.Learnt clause.now) result }
    {
        let lits = clause.as_slice();
        if !are_named(lits, self.formula.vars()) {
            return Err(LineFault::NewVar);
        }
        if self.lacks_room(lits.len()) {
            return Err(LineFault::Room);
        }
        let novelty = self.novelty_of(lits)?;
        match novelty {
            Novelty::Unproved => Err(LineFault::NotImplied),
            Novelty::Known => Err(LineFault::NotNew),
            Novelty::New => {
                self.keep(lits, 0)?;
                Ok(())
            }
        }
    }

    /// Accepts a Query line, or says why not.
    fn feed_query(&mut self, clause: &Clause) -> Result<(), LineFault>
        ensures { IsAnswer self.old self.new (LogLine.Query clause.now) result }
    {
        let lits = clause.as_slice();
        if !are_named(lits, self.formula.vars()) {
            return Err(LineFault::NewVar);
        }
        let query = Question::new(self.alloc, lits)?;
        self.query = Some(query);
        Ok(())
    }

    /// Accepts a Refuted line, or says why not.
    fn feed_refuted(&mut self, clause: &Clause) -> Result<(), LineFault>
        requires { AreThere LAST_VAR clause.now }
        ensures { IsAnswer self.old self.new (LogLine.Refuted clause.now) result }
    {
        let lits = clause.as_slice();
        if !are_named(lits, self.formula.vars()) {
            return Err(LineFault::NewVar);
        }
        if !answer(&self.query, lits) {
            return Err(LineFault::WrongQuery);
        }
        if !self.follows(lits)? {
            return Err(LineFault::NotImplied);
        }
        let kept = Clause::new(self.alloc, lits)?;
        self.refuted.push(kept)?;
        Ok(())
    }

    /// Accepts the line, or says why not.
    fn judge(&mut self, line: &LogLine) -> Result<(), LineFault>
        requires { IsWellFormed line.now }
        ensures { IsAnswer self.old self.new line.now result }
    {
        match line {
            LogLine::Formula(c) => self.feed_formula(c),
            LogLine::Learnt(c) => self.feed_learnt(c),
            LogLine::Query(c) => self.feed_query(c),
            LogLine::Refuted(c) => self.feed_refuted(c),
            LogLine::Bound { .. } => Ok(()),
            LogLine::Model => Ok(()),
        }
    }

    /// Accepts the line where it may come after the lines that were accepted before and there is room for it. A refused
    /// line isn't kept. Where several causes hold, it answers the first in the order of `LineFault`. After `Memory` it
    /// answers so to every line, and has the Refuted lines of before.
    pub fn feed(&mut self, line: &LogLine) -> Result<(), LineFault>
        requires { IsWellFormed line.now }
        ensures ok { OnOk result (Accepts self.old self.new line.now) }
        ensures new_var { IsErrOf result LineFault.NewVar → NamesNew self.old.facts line.now }
        ensures wrong_query { IsErrOf result LineFault.WrongQuery → AnswersWrongly self.old line.now }
        ensures room { IsErrOf result LineFault.Room → PassesRoom self.old line.now }
        ensures not_implied { IsErrOf result LineFault.NotImplied → IsUnproved self.old line.now }
        ensures not_new { IsErrOf result LineFault.NotNew → IsOld self.old line.now }
        ensures refused { IfErr result (λ e. (e ≡ LineFault.Memory → ⊥) → self.new ≡ self.old) }
        ensures finite { OnOk result (IncludesNone self.old.facts.clauses line.now) }
        ensures loses { IsErrOf result LineFault.Memory → self.new.lost ≡ true }
        ensures stays { IsErrOf result LineFault.Memory → self.new.facts.refuted ≡ self.old.facts.refuted }
        ensures lost { self.old.lost ≡ true → IsErrOf result LineFault.Memory }
    {
        if let Standing::Lost = self.standing {
            return Err(LineFault::Memory);
        }
        let judged = self.judge(line);
        if let Err(LineFault::Memory) = judged {
            self.standing = Standing::Lost;
        }
        judged
    }

    /// Whether an accepted Refuted line has only literals among the allowed ones.
    pub fn verdict(&self, allowed: &[Lit]) -> bool
        ensures { IsTrue result ↔ Refutes self.now allowed.now }
    {
        for clause in &self.refuted {
            if are_among(clause.as_slice(), allowed) {
                return true;
            }
        }
        false
    }
}
