// Models.
ghost use Rattle.std.specs.Prelude.{◌≡◌, ◌≤◌, ◌<◌, List, true, false, All, length, map, IfOk, OnOk, OnErr, IsErrOf};
ghost use Rattle.outside_io.specs.Counts.{Rose};
ghost use Rattle.cnf_core.specs.Clause.{Clauses, AreDistinct, IsNamed};
ghost use Rattle.cdcl_core.specs.Kept.{AreGiven, IsTrueAnswer, HasModelOnly, HasRefuted};
ghost use Rattle.cdcl_core.specs.Belongs.{HasCounted, HasSolved};
ghost use Rattle.cdcl_core.specs.Rounds.{BreaksOffLog};
ghost use Rattle.cdcl_core.specs.Search.{IsSearch, IsIdle, IsSameStore, IsSearchAnswer, clauses, kept_of, seen};
ghost use Rattle.cnf_core.specs.Lit.{Literal, negate, has};
ghost use Rattle.cnf_core.specs.Assignment.{truth};
ghost use Rattle.cnf_core.specs.Truths.{assignment};
ghost use Rattle.cnf_core.specs.Propagation.{IsIn};

use crate::answer::Answer;
use crate::fault::SolveFault;
use crate::learning::copied;
use crate::search::Search;
use cnf_core::{Lit, Truths};
use plan_core::OutOfMemory;
use refute_log::LogSink;
use std::alloc::Global;
use watch_arena::Trail;

/// The truth values that make each literal of the trail true.
pub fn truths_of(alloc: Global, trail: &Trail) -> Result<Truths, OutOfMemory>
    ensures vars { IfOk result (λ m. length m ≡ trail.now.vars) }
    ensures true_all { IfOk result (λ m. (l : Literal) → IsIn (has trail.now.lits) l → truth (assignment m) l ≡ true) }
{
    let mut truths = Truths::all_false(alloc, trail.vars())?;
    for i in 0..trail.len() {
        truths.set(trail.lit(i));
    }
    Ok(truths)
}

/// The negation of each literal.
fn negated(alloc: Global, lits: &[Lit]) -> Result<Vec<Lit>, OutOfMemory>
    ensures { IfOk result (λ v. v.items ≡ map negate lits.now) }
{
    let mut others = Vec::with_capacity(alloc, lits.len())?;
    for l in lits {
        others.push(l.negated())?;
    }
    Ok(others)
}

impl Search {
    /// The answer to a query, with the model where there is one, and the refuted assumptions where there
    /// is none; the search is at level 0 again.
    pub fn solve<L: LogSink>(
        &mut self,
        query: &[Lit],
        budget: u32,
        log: &mut L,
    ) -> Result<(Answer, Option<Truths>, Vec<Lit>), SolveFault>
        requires idle { IsIdle self.old }
        requires distinct { AreDistinct query.now }
        requires named { All (λ l. IsNamed (clauses self.old) l.var) query.now }
        ensures idle { OnOk result (IsIdle self.new) }
        ensures answer { IfOk result (λ r. (given : Clauses) → AreGiven given (clauses self.old) →
            IsTrueAnswer r.0 given query.now (kept_of self.new r.1 r.2.items false)) }
        ensures model { IfOk result (λ r. HasModelOnly r.0 (kept_of self.new r.1 r.2.items false)) }
        ensures refuted { IfOk result (λ r. (given : Clauses) → AreGiven given (clauses self.old) →
            HasRefuted r.0 given query.now r.2.items) }
        ensures given { OnOk result ((given : Clauses) → AreGiven given (clauses self.old) →
            AreGiven given (clauses self.new)) }
        ensures searched { IfOk result (λ r. HasSolved (L.tells log.old) (L.tells log.new)
            query.now (seen self.old) (seen self.new) r.0 budget (L.learnt log.old) (L.learnt log.new)) }
        ensures leaves { OnErr result (BreaksOffLog (L.tells log.old) (L.tells log.new) self.old) }
        ensures few { OnErr result (HasCounted budget (L.learnt log.old) (L.learnt log.new)) }
        ensures cause { IsErrOf result SolveFault.Log → Rose (L.faults log.old) (L.faults log.new) }
        ensures faults { L.faults log.old ≤ L.faults log.new }
        ensures later { L.is_later log.old log.new }
    {
        let answer = self.search(query, budget, log)?;
        let refuted = self.refuted_of(query, answer)?;
        let model = self.conclude(query, answer)?;
        Ok((answer, model, refuted))
    }

    /// The assumptions that were refuted: those whose negations the analyser has. None after another
    /// answer.
    fn refuted_of(&self, query: &[Lit], answer: Answer) -> Result<Vec<Lit>, OutOfMemory>
        requires { IsSearchAnswer answer query.now self.now }
        ensures { IfOk result (λ v. (given : Clauses) → AreGiven given (clauses self.now) →
            HasRefuted answer given query.now v.items) }
    {
        match answer {
            Answer::Refuted => {
                let clause = copied(self.alloc, &self.analyser)?;
                Ok(negated(self.alloc, &clause)?)
            }
            _ => Ok(Vec::new(self.alloc)),
        }
    }

    /// The model, where the answer is that there is one; the search is at level 0 again.
    fn conclude(&mut self, query: &[Lit], answer: Answer) -> Result<Option<Truths>, OutOfMemory>
        requires search { IsSearch self.old }
        requires says { IsSearchAnswer answer query.now self.old }
        ensures idle { OnOk result (IsIdle self.new) }
        ensures store { OnOk result (IsSameStore self.old self.new) }
        ensures answer { IfOk result (λ m. (given : Clauses) (refuted : List Literal) →
            AreGiven given (clauses self.old) →
            IsTrueAnswer answer given query.now (kept_of self.new m refuted false)) }
        ensures model { IfOk result (λ m. (refuted : List Literal) → HasModelOnly answer
            (kept_of self.new m refuted false)) }
    {
        match answer {
            Answer::Model => {
                let model = truths_of(self.alloc, &self.trail)?;
                self.back_to(0);
                Ok(Some(model))
            }
            _ => {
                self.back_to(0);
                Ok(None)
            }
        }
    }
}
