// The solver as one value.
ghost use Rattle.std.specs.Prelude.{◌≡◌, ◌≤◌, ◌<◌, ◌+◌, ◌↔◌, ◌∷◌, ◌++◌, [], true, false, None, All, length, IfOk, OnOk};
ghost use Rattle.std.specs.Prelude.{OnErr, IsErrOf, MatchOption};
ghost use Rattle.outside_io.specs.Counts.{Rose};
ghost use Rattle.cnf_core.specs.Clause.{Clauses, AreDistinct, AreThere, IsNamed};
ghost use Rattle.refute_log.specs.declared.line.LogLine.TheVariants.{Formula};
ghost use Rattle.refute_log.specs.Told.{Lines, AddsLine};
ghost use Rattle.cdcl_core.specs.Kept.{blank, with_more_vars, AreGiven, IsGivenOne, IsTrueAnswer, HasModelOnly};
ghost use Rattle.cdcl_core.specs.Kept.{HasRefuted};
ghost use Rattle.refute_log.specs.Steps.{StillDerives, GivesNoMore};
ghost use Rattle.cdcl_core.specs.Belongs.{Belongs, GivesAtMost, HasCounted, HasSolved};

use crate::answer::Answer;
use crate::fault::{AddFault, SolveFault};
use crate::search::Search;
use cnf_core::{Lit, ROOM, Truths, VARS};
use plan_core::OutOfMemory;
use refute_log::LogSink;
use std::alloc::Global;
use std::marker::Model;

/// Clauses, and the search for a model of them. It keeps each clause that it was given or that it
/// learnt, and learns from conflicts through all queries. After an error it has failed for good.
#[derive(Drop)]
pub struct Solver {
    search: Search,
    model: Option<Truths>,
    refuted: Vec<Lit>,
    failed: bool,
}

impl Model for Solver {
    ghost use Rattle.cdcl_core.specs.Kept.{Kept};
    ghost use Rattle.cdcl_core.specs.Search.{kept_of, IsSolver};

    ghost Value = { Kept };

    ghost view = { λ s. kept_of s.search s.model s.refuted.items s.failed };

    ghost invariant = { λ s. IsSolver s.search s.failed };
}

impl Solver {
    /// The solver without variables and clauses, for at most `room` words of clauses.
    pub fn new(alloc: Global, room: u32) -> Result<Solver, OutOfMemory>
        requires { room ≤ ROOM }
        ensures blank { IfOk result (λ s. s ≡ blank room) }
        ensures given { IfOk result (λ s. AreGiven [] s.clauses) }
        ensures belongs { IfOk result (λ s. Belongs [] s) }
    {
        Ok(Solver {
            search: Search::new(alloc, room)?,
            model: None,
            refuted: Vec::new(alloc),
            failed: false,
        })
    }

    /// Takes `n` further variables. `Room` comes exactly where there would be more than `VARS`.
    pub fn add_vars(&mut self, n: u32) -> Result<(), AddFault>
        requires { self.old.failed ≡ false }
        ensures more { OnOk result (self.new ≡ with_more_vars self.old n) }
        ensures given { OnOk result ((given : Clauses) → AreGiven given self.old.clauses →
            AreGiven given self.new.clauses) }
        ensures belongs { OnOk result ((lines : Lines) → Belongs lines self.old → Belongs lines self.new) }
        ensures room { IsErrOf result AddFault.Room ↔ VARS < self.old.vars + n }
        ensures cause { IsErrOf result AddFault.Log → ⊥ }
        ensures failed { OnErr result (self.new.failed ≡ true) }
        ensures none { OnErr result (self.new.model ≡ None) }
        ensures empty { OnErr result (self.new.refuted ≡ []) }
    {
        self.model = None;
        self.refuted.clear();
        match self.search.add_vars(n) {
            Ok(()) => Ok(()),
            Err(fault) => {
                self.failed = true;
                Err(fault)
            }
        }
    }

    /// Says that a clause is to be added. Whoever calls this for many clauses before the first of them is added gives
    /// each row of watches its place at once. It changes no answer.
    pub fn expect(&mut self, lits: &[Lit])
        requires working { self.old.failed ≡ false }
        requires there { AreThere self.old.vars lits.now }
        ensures { self.new ≡ self.old }
    {
        self.search.expect(lits);
    }

    /// Adds a clause of distinct variables, gives it to the log as a Formula line, and keeps it. `Room` comes
    /// exactly where the words so far, the literals and 3 pass the room. Then the log gets nothing.
    pub fn add_clause<L: LogSink>(&mut self, lits: &[Lit], log: &mut L) -> Result<(), AddFault>
        requires working { self.old.failed ≡ false }
        requires there { AreThere self.old.vars lits.now }
        requires distinct { AreDistinct lits.now }
        ensures more { OnOk result (IsGivenOne self.old self.new lits.now) }
        ensures given { OnOk result ((given : Clauses) → AreGiven given self.old.clauses →
            AreGiven (given ++ lits.now ∷ []) self.new.clauses) }
        ensures told { OnOk result (AddsLine (L.tells log.old) (L.tells log.new) (Formula lits.now)) }
        ensures belongs { OnOk result ((lines : Lines) → Belongs lines self.old →
            Belongs (lines ++ Formula lits.now ∷ []) self.new) }
        ensures derives { OnErr result (StillDerives (λ ls. Belongs ls self.old) (L.tells log.old) (L.tells log.new)) }
        ensures gives { OnErr result (GivesAtMost (L.tells log.old) (L.tells log.new) lits.now) }
        ensures learnt { L.learnt log.new ≡ L.learnt log.old }
        ensures room { IsErrOf result AddFault.Room ↔ self.old.room < self.old.words + length lits.now + 3 }
        ensures untold { IsErrOf result AddFault.Room → log.new ≡ log.old }
        ensures cause { IsErrOf result AddFault.Log → Rose (L.faults log.old) (L.faults log.new) }
        ensures faults { L.faults log.old ≤ L.faults log.new }
        ensures later { L.is_later log.old log.new }
        ensures failed { OnErr result (self.new.failed ≡ true) }
        ensures none { OnErr result (self.new.model ≡ None) }
        ensures empty { OnErr result (self.new.refuted ≡ []) }
    {
        self.model = None;
        self.refuted.clear();
        match self.search.add_clause(lits, log) {
            Ok(()) => Ok(()),
            Err(fault) => {
                self.failed = true;
                Err(fault)
            }
        }
    }

    /// Looks for a model of the clauses that makes the assumptions true, and learns at most `budget`
    /// clauses. It tells a Query line, a Learnt line for each clause that it learns, and a Model or a
    /// Refuted line where it answers so. The assumptions are of distinct variables, each of a clause.
    pub fn solve<L: LogSink>(
        &mut self,
        assume: &[Lit],
        budget: u32,
        log: &mut L,
    ) -> Result<Answer, SolveFault>
        requires working { self.old.failed ≡ false }
        requires distinct { AreDistinct assume.now }
        requires named { All (λ l. IsNamed self.old.clauses l.var) assume.now }
        ensures answer { IfOk result (λ a. (given : Clauses) → AreGiven given self.old.clauses →
            IsTrueAnswer a given assume.now self.new) }
        ensures model { IfOk result (λ a. HasModelOnly a self.new) }
        ensures refuted { IfOk result (λ a. (given : Clauses) → AreGiven given self.old.clauses →
            HasRefuted a given assume.now self.new.refuted) }
        ensures given { OnOk result ((given : Clauses) → AreGiven given self.old.clauses →
            AreGiven given self.new.clauses) }
        ensures searched { IfOk result (λ a. HasSolved (L.tells log.old) (L.tells log.new)
            assume.now self.old self.new a budget (L.learnt log.old) (L.learnt log.new)) }
        ensures derives { OnErr result (StillDerives (λ ls. Belongs ls self.old) (L.tells log.old) (L.tells log.new)) }
        ensures gives { OnErr result (GivesNoMore (L.tells log.old) (L.tells log.new)) }
        ensures few { OnErr result (HasCounted budget (L.learnt log.old) (L.learnt log.new)) }
        ensures cause { IsErrOf result SolveFault.Log → Rose (L.faults log.old) (L.faults log.new) }
        ensures faults { L.faults log.old ≤ L.faults log.new }
        ensures later { L.is_later log.old log.new }
        ensures failed { OnErr result (self.new.failed ≡ true) }
        ensures none { OnErr result (self.new.model ≡ None) }
        ensures empty { OnErr result (self.new.refuted ≡ []) }
    {
        self.model = None;
        self.refuted.clear();
        match self.search.solve(assume, budget, log) {
            Ok((answer, model, refuted)) => {
                self.model = model;
                self.refuted = refuted;
                Ok(answer)
            }
            Err(fault) => {
                self.failed = true;
                Err(fault)
            }
        }
    }

    /// The model: there is one exactly where the latest `solve` answered so and nothing was added
    /// since.
    pub fn model(&self) -> Option<&Truths>
        ensures { MatchOption result (self.now.model ≡ None) (λ m. self.now.model ≡ Some m.now) }
    {
        self.model.as_ref()
    }

    /// Assumptions that are refuted together, few of them: those that the refutation needs. There are
    /// some, or none are needed, where the latest `solve` answered Refuted; after another answer, and
    /// where something was added since, the list is empty.
    pub fn refuted(&self) -> &[Lit]
        ensures { result.now ≡ self.now.refuted }
    {
        &self.refuted
    }

    /// Takes a truth value for each variable, which it has when it is decided next, unless it has
    /// had another one by then.
    pub fn suggest(&mut self, m: &Truths)
        requires working { self.old.failed ≡ false }
        requires vars { length m.now ≡ self.old.vars }
        ensures { self.new ≡ self.old }
    {
        self.search.suggest(m);
    }

    /// The number of variables.
    pub fn vars(&self) -> u32
        ensures value { result ≡ self.now.vars }
        ensures limit { result ≤ VARS }
    {
        self.search.trail.vars()
    }

    /// How many clauses were learnt, in all queries; a count that stops at its type's end.
    pub fn learnt(&self) -> u32
        ensures { result ≡ self.now.learnt }
    {
        self.search.learnt
    }

    /// How many entries of watched clauses propagation has gone through; a count that stops at its type's end.
    pub fn visits(&self) -> u64
        ensures { result ≡ self.now.visits }
    {
        self.search.arena.visits()
    }

    /// The words of all clauses that were given or learnt.
    pub fn words(&self) -> u32
        ensures value { result ≡ self.now.words }
        ensures limit { self.now.failed ≡ false → self.now.words ≤ self.now.room }
        ensures room { self.now.failed ≡ false → self.now.room ≤ ROOM }
    {
        self.search.words
    }

    /// Whether a call has answered with an error.
    pub fn failed(&self) -> bool
        ensures { result ≡ self.now.failed }
    {
        self.failed
    }
}
