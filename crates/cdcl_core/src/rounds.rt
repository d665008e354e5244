// The rounds of a search: each goes down to a conflict and learns a clause from it.
ghost use Rattle.std.specs.Prelude.{◌≡◌, ◌≤◌, ◌<◌, List, All, false, length, IfOk, OnOk, OnErr, IsErrOf, IfSome};
ghost use Rattle.outside_io.specs.Counts.{Rose};
ghost use Rattle.cnf_core.specs.Lit.{Literal};
ghost use Rattle.cnf_core.specs.Clause.{AreDistinct, AreThere, IsNamed};
ghost use Rattle.watch_arena.specs.Arena.{IsClashOf};
ghost use Rattle.cdcl_core.specs.Search.{IsSearch, IsIdle, IsSameStore, IsAsking, clauses};
ghost use Rattle.cdcl_core.specs.Rounds.{LearnsOrEnds, EndsSo, BreaksOffAt, BreaksOffLog, EndsAfter, EndsBehindQuery};
ghost use Rattle.cdcl_core.specs.Belongs.{HasCounted};

use crate::answer::Answer;
use crate::choices::Stop;
use crate::fault::SolveFault;
use crate::lines::into_clause;
use crate::search::Search;
use cnf_core::{Clause, Lit};
use refute_log::{LogLine, LogSink};
use watch_arena::ClauseRef;

/// How many clauses are learnt before the search starts again from level 0.
const RESTART: u32 = 256;

impl Search {
    /// Learns a clause from one that is false, at a level above those of the assumptions, and tells it;
    /// or answers that there is no room for it.
    fn learn<L: LogSink>(
        &mut self,
        query: &[Lit],
        clash: ClauseRef,
        log: &mut L,
    ) -> Result<Option<Answer>, SolveFault>
        requires search { IsSearch self.old }
        requires unrefuted { self.old.refuted ≡ false }
        requires asking { IsAsking query.now self.old }
        requires clash { IsClashOf self.old.arena self.old.trail clash.0 }
        requires above { self.old.levels < length self.old.trail.cuts }
        ensures search { OnOk result (IsSearch self.new) }
        ensures learnt { IfOk result (λ r. LearnsOrEnds (L.tells log.old) (L.tells log.new)
            (L.learnt log.old) (L.learnt log.new) query.now self.old self.new r) }
        ensures unspent { IfOk result (λ r. IfSome r (λ a. a ≡ Answer.Spent → ⊥)) }
        ensures on { IfOk result (λ r. r ≡ None → IsAsking query.now self.new × (self.new.refuted ≡ false)) }
        ensures leaves { OnErr result (BreaksOffAt (L.tells log.old) (L.tells log.new) query.now self.old) }
        ensures few { OnErr result (HasCounted 1 (L.learnt log.old) (L.learnt log.new)) }
        ensures cause { IsErrOf result SolveFault.Log → Rose (L.faults log.old) (L.faults log.new) }
        ensures faults { L.faults log.old ≤ L.faults log.new }
        ensures later { L.is_later log.old log.new }
    {
        let Some(clause) = self.derive(clash)? else {
            return Ok(Some(Answer::Room));
        };
        let line = LogLine::Learnt(clause);
        log.tell(&line)?;
        self.take_learnt(into_clause(self.alloc, line))?;
        Ok(None)
    }

    /// Meets a clause that is false: learns from it above the levels of the assumptions, and else
    /// refutes the query.
    fn meet<L: LogSink>(
        &mut self,
        query: &[Lit],
        clash: ClauseRef,
        log: &mut L,
    ) -> Result<Option<Answer>, SolveFault>
        requires search { IsSearch self.old }
        requires unrefuted { self.old.refuted ≡ false }
        requires asking { IsAsking query.now self.old }
        requires named { All (λ l. IsNamed (clauses self.old) l.var) query.now }
        requires clash { IsClashOf self.old.arena self.old.trail clash.0 }
        ensures search { OnOk result (IsSearch self.new) }
        ensures learnt { IfOk result (λ r. LearnsOrEnds (L.tells log.old) (L.tells log.new)
            (L.learnt log.old) (L.learnt log.new) query.now self.old self.new r) }
        ensures unspent { IfOk result (λ r. IfSome r (λ a. a ≡ Answer.Spent → ⊥)) }
        ensures on { IfOk result (λ r. r ≡ None → IsAsking query.now self.new × (self.new.refuted ≡ false)) }
        ensures leaves { OnErr result (BreaksOffAt (L.tells log.old) (L.tells log.new) query.now self.old) }
        ensures few { OnErr result (HasCounted 1 (L.learnt log.old) (L.learnt log.new)) }
        ensures cause { IsErrOf result SolveFault.Log → Rose (L.faults log.old) (L.faults log.new) }
        ensures faults { L.faults log.old ≤ L.faults log.new }
        ensures later { L.is_later log.old log.new }
    {
        if self.levels < self.trail.level() {
            self.learn(query, clash, log)
        } else {
            Ok(Some(self.refute(query, Stop::Clash(clash), log)?))
        }
    }

    /// Meets a clause that is false where nothing may be learnt any more: refutes the query, or gives up.
    fn meet_last<L: LogSink>(
        &mut self,
        query: &[Lit],
        clash: ClauseRef,
        log: &mut L,
    ) -> Result<Answer, SolveFault>
        requires search { IsSearch self.old }
        requires unrefuted { self.old.refuted ≡ false }
        requires asking { IsAsking query.now self.old }
        requires named { All (λ l. IsNamed (clauses self.old) l.var) query.now }
        requires clash { IsClashOf self.old.arena self.old.trail clash.0 }
        ensures search { OnOk result (IsSearch self.new) }
        ensures ends { IfOk result (λ a. EndsSo (L.tells log.old) (L.tells log.new)
            (L.learnt log.old) (L.learnt log.new) query.now self.old self.new a) }
        ensures leaves { OnErr result (BreaksOffAt (L.tells log.old) (L.tells log.new) query.now self.old) }
        ensures counted { OnErr result (L.learnt log.new ≡ L.learnt log.old) }
        ensures cause { IsErrOf result SolveFault.Log → Rose (L.faults log.old) (L.faults log.new) }
        ensures faults { L.faults log.old ≤ L.faults log.new }
        ensures later { L.is_later log.old log.new }
    {
        if self.levels < self.trail.level() {
            Ok(Answer::Spent)
        } else {
            self.refute(query, Stop::Clash(clash), log)
        }
    }

    /// Goes on to the next conflict and learns from it; or to the end of the search.
    fn round<L: LogSink>(
        &mut self,
        query: &[Lit],
        log: &mut L,
    ) -> Result<Option<Answer>, SolveFault>
        requires search { IsSearch self.old }
        requires unrefuted { self.old.refuted ≡ false }
        requires there { AreThere self.old.trail.vars query.now }
        requires distinct { AreDistinct query.now }
        requires named { All (λ l. IsNamed (clauses self.old) l.var) query.now }
        requires asking { IsAsking query.now self.old }
        ensures search { OnOk result (IsSearch self.new) }
        ensures learnt { IfOk result (λ r. LearnsOrEnds (L.tells log.old) (L.tells log.new)
            (L.learnt log.old) (L.learnt log.new) query.now self.old self.new r) }
        ensures unspent { IfOk result (λ r. IfSome r (λ a. a ≡ Answer.Spent → ⊥)) }
        ensures on { IfOk result (λ r. r ≡ None → IsAsking query.now self.new × (self.new.refuted ≡ false)) }
        ensures leaves { OnErr result (BreaksOffAt (L.tells log.old) (L.tells log.new) query.now self.old) }
        ensures few { OnErr result (HasCounted 1 (L.learnt log.old) (L.learnt log.new)) }
        ensures cause { IsErrOf result SolveFault.Log → Rose (L.faults log.old) (L.faults log.new) }
        ensures faults { L.faults log.old ≤ L.faults log.new }
        ensures later { L.is_later log.old log.new }
    {
        match self.descend(query) {
            Stop::Clash(clash) => self.meet(query, clash, log),
            Stop::Denied(l) => Ok(Some(self.refute(query, Stop::Denied(l), log)?)),
            Stop::Complete => Ok(Some(self.complete(query, log)?)),
        }
    }

    /// Goes on to the next conflict, where nothing may be learnt any more; or to the end of the search.
    fn last_round<L: LogSink>(&mut self, query: &[Lit], log: &mut L) -> Result<Answer, SolveFault>
        requires search { IsSearch self.old }
        requires unrefuted { self.old.refuted ≡ false }
        requires there { AreThere self.old.trail.vars query.now }
        requires distinct { AreDistinct query.now }
        requires named { All (λ l. IsNamed (clauses self.old) l.var) query.now }
        requires asking { IsAsking query.now self.old }
        ensures search { OnOk result (IsSearch self.new) }
        ensures ends { IfOk result (λ a. EndsSo (L.tells log.old) (L.tells log.new)
            (L.learnt log.old) (L.learnt log.new) query.now self.old self.new a) }
        ensures leaves { OnErr result (BreaksOffAt (L.tells log.old) (L.tells log.new) query.now self.old) }
        ensures counted { OnErr result (L.learnt log.new ≡ L.learnt log.old) }
        ensures cause { IsErrOf result SolveFault.Log → Rose (L.faults log.old) (L.faults log.new) }
        ensures faults { L.faults log.old ≤ L.faults log.new }
        ensures later { L.is_later log.old log.new }
    {
        match self.descend(query) {
            Stop::Clash(clash) => self.meet_last(query, clash, log),
            Stop::Denied(l) => self.refute(query, Stop::Denied(l), log),
            Stop::Complete => self.complete(query, log),
        }
    }

    /// Goes back to level 0 after each 256 learnt clauses, where so many were learnt before the latest.
    fn restart_after(&mut self, told: u32)
        requires { IsSearch self.old }
        ensures search { IsSearch self.new }
        ensures store { IsSameStore self.old self.new }
        ensures asking { (query : List Literal) → IsAsking query self.old → IsAsking query self.new }
    {
        if told % RESTART == RESTART - 1 {
            self.back_to(0);
        }
    }

    /// At most so many rounds, and the last one; after each 256 learnt clauses from level 0 again.
    fn rounds<L: LogSink>(
        &mut self,
        query: &[Lit],
        budget: u32,
        log: &mut L,
    ) -> Result<Answer, SolveFault>
        requires search { IsSearch self.old }
        requires unrefuted { self.old.refuted ≡ false }
        requires there { AreThere self.old.trail.vars query.now }
        requires distinct { AreDistinct query.now }
        requires named { All (λ l. IsNamed (clauses self.old) l.var) query.now }
        requires asking { IsAsking query.now self.old }
        ensures search { OnOk result (IsSearch self.new) }
        ensures ends { IfOk result (λ a. EndsAfter (L.tells log.old) (L.tells log.new)
            (L.learnt log.old) (L.learnt log.new) query.now self.old self.new a budget) }
        ensures leaves { OnErr result (BreaksOffAt (L.tells log.old) (L.tells log.new) query.now self.old) }
        ensures few { OnErr result (HasCounted budget (L.learnt log.old) (L.learnt log.new)) }
        ensures cause { IsErrOf result SolveFault.Log → Rose (L.faults log.old) (L.faults log.new) }
        ensures faults { L.faults log.old ≤ L.faults log.new }
        ensures later { L.is_later log.old log.new }
    {
        for told in 0..budget {
            if let Some(answer) = self.round(query, log)? {
                return Ok(answer);
            }
            self.restart_after(told);
        }
        self.last_round(query, log)
    }

    /// Tells the query, and searches for its answer.
    pub fn search<L: LogSink>(
        &mut self,
        query: &[Lit],
        budget: u32,
        log: &mut L,
    ) -> Result<Answer, SolveFault>
        requires idle { IsIdle self.old }
        requires distinct { AreDistinct query.now }
        requires named { All (λ l. IsNamed (clauses self.old) l.var) query.now }
        ensures search { OnOk result (IsSearch self.new) }
        ensures searched { IfOk result (λ a. EndsBehindQuery (L.tells log.old) (L.tells log.new)
            (L.learnt log.old) (L.learnt log.new) query.now self.old self.new a budget) }
        ensures leaves { OnErr result (BreaksOffLog (L.tells log.old) (L.tells log.new) self.old) }
        ensures few { OnErr result (HasCounted budget (L.learnt log.old) (L.learnt log.new)) }
        ensures cause { IsErrOf result SolveFault.Log → Rose (L.faults log.old) (L.faults log.new) }
        ensures faults { L.faults log.old ≤ L.faults log.new }
        ensures later { L.is_later log.old log.new }
    {
        log.tell(&LogLine::Query(Clause::new(self.alloc, query)?))?;
        if self.refuted {
            self.analyser.clear();
            log.tell(&LogLine::Refuted(Clause::from_vec(Vec::new(self.alloc))))?;
            return Ok(Answer::Refuted);
        }
        self.levels = 0;
        self.assumed = 0;
        self.rounds(query, budget, log)
    }
}
