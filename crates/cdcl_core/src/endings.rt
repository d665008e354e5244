// How a search ends.
ghost use Rattle.std.specs.Prelude.{◌≡◌, ◌≤◌, ◌<◌, ◌+◌, All, true, false, length, IfOk, OnOk, OnErr, IsErrOf};
ghost use Rattle.std.specs.Prelude.{slice_index};
ghost use Rattle.outside_io.specs.Counts.{Rose};
ghost use Rattle.cnf_core.specs.Clause.{AreDistinct, AreThere, IsThere, IsNamed};
ghost use Rattle.watch_arena.specs.Arena.{IsClashOf};
ghost use Rattle.cdcl_core.specs.Search.{IsSearch, IsAsking, IsDenied, IsAnalysed, IsComplete, IsRefutedBy, IsRefuting};
ghost use Rattle.cdcl_core.specs.Search.{DeniedUpto, clauses};
ghost use Rattle.cdcl_core.specs.Rounds.{EndsSo, BreaksOffAt};

use crate::answer::Answer;
use crate::choices::Stop;
use crate::fault::SolveFault;
use crate::learning::copied;
use crate::search::Search;
use cnf_core::{Clause, Lit};
use plan_core::OutOfMemory;
use refute_log::{LogLine, LogSink};
use std::alloc::Global;
use watch_arena::{ClauseRef, Trail};

/// Whether a literal of the trail was decided.
fn is_decision(trail: &Trail, l: Lit) -> bool
    requires { IsThere trail.now.vars l }
    ensures yes { result ≡ true → (slice_index trail.now.reasons l.var ≡ 0) × (0 < slice_index trail.now.levels l.var) }
    ensures no { result ≡ false → slice_index trail.now.reasons l.var ≡ 0 → slice_index trail.now.levels l.var ≡ 0 }
{
    match trail.reason(l.var()) {
        None => trail.level_of(l.var()) > 0,
        Some(_) => false,
    }
}

/// Adds the negation of the literal at a place of the trail, if that was decided.
fn push_denied(lits: &mut Vec<Lit>, trail: &Trail, i: u32) -> Result<(), OutOfMemory>
    requires { i < length trail.now.lits }
    ensures { OnOk result (DeniedUpto trail.now i lits.old.items → DeniedUpto trail.now (i + 1) lits.new.items) }
{
    let _marks = trail.vars();
    let l = trail.lit(i);
    if is_decision(trail, l) {
        lits.push(l.negated())?;
        Ok(())
    } else {
        Ok(())
    }
}

/// The negations of the literals that were decided.
fn denied(alloc: Global, trail: &Trail) -> Result<Vec<Lit>, OutOfMemory>
    ensures { IfOk result (λ v. DeniedUpto trail.now (length trail.now.lits) v.items) }
{
    let mut lits = Vec::new(alloc);
    for i in 0..trail.len() {
        push_denied(&mut lits, trail, i)?;
    }
    Ok(lits)
}

impl Search {
    /// The clause of a false assumption's negation and those from whose truth that follows.
    fn traced(&mut self, query: &[Lit], l: Lit) -> Result<Clause, OutOfMemory>
        requires search { IsSearch self.old }
        requires asking { IsAsking query.now self.old }
        requires denied { IsDenied query.now self.old l }
        ensures search { OnOk result (IsSearch self.new) }
        ensures same { OnOk result (IsAnalysed self.old self.new) }
        ensures needed { OnOk result (IsRefuting (clauses self.old) query.now self.new.analyser.clause) }
        ensures refuting { IfOk result (λ c. IsRefuting (clauses self.old) query.now c) }
        ensures there { IfOk result (λ c. AreThere self.old.trail.vars c) }
        ensures distinct { IfOk result (λ c. AreDistinct c) }
    {
        self.analyser.trace_back(&self.arena, &self.trail, l);
        Ok(Clause::from_vec(copied(self.alloc, &self.analyser)?))
    }

    /// The clause of the negations of all assumptions that were decided, where a clause is false. The
    /// analyser is left with those of them that the false clause needs.
    fn all_denied(&mut self, query: &[Lit], clash: ClauseRef) -> Result<Clause, OutOfMemory>
        requires search { IsSearch self.old }
        requires asking { IsAsking query.now self.old }
        requires clash { IsClashOf self.old.arena self.old.trail clash.0 }
        requires low { length self.old.trail.cuts ≤ self.old.levels }
        ensures search { OnOk result (IsSearch self.new) }
        ensures same { OnOk result (IsAnalysed self.old self.new) }
        ensures needed { OnOk result (IsRefuting (clauses self.old) query.now self.new.analyser.clause) }
        ensures refuting { IfOk result (λ c. IsRefuting (clauses self.old) query.now c) }
        ensures there { IfOk result (λ c. AreThere self.old.trail.vars c) }
        ensures distinct { IfOk result (λ c. AreDistinct c) }
    {
        self.analyser.trace_clash(&self.arena, &self.trail, clash);
        Ok(Clause::from_vec(denied(self.alloc, &self.trail)?))
    }

    /// A clause of negated assumptions that follows, where the search stopped without a model. The
    /// analyser is left with some of its literals, few of them, that follow too.
    fn refutation(&mut self, query: &[Lit], stop: Stop) -> Result<Clause, OutOfMemory>
        requires search { IsSearch self.old }
        requires asking { IsAsking query.now self.old }
        requires stop { IsRefutedBy query.now self.old stop }
        ensures search { OnOk result (IsSearch self.new) }
        ensures same { OnOk result (IsAnalysed self.old self.new) }
        ensures needed { OnOk result (IsRefuting (clauses self.old) query.now self.new.analyser.clause) }
        ensures refuting { IfOk result (λ c. IsRefuting (clauses self.old) query.now c) }
        ensures there { IfOk result (λ c. AreThere self.old.trail.vars c) }
        ensures distinct { IfOk result (λ c. AreDistinct c) }
    {
        match stop {
            Stop::Denied(l) => self.traced(query, l),
            Stop::Clash(clash) => self.all_denied(query, clash),
            Stop::Complete => Ok(Clause::from_vec(Vec::new(self.alloc))),
        }
    }

    /// Tells that the query has no model.
    pub fn refute<L: LogSink>(
        &mut self,
        query: &[Lit],
        stop: Stop,
        log: &mut L,
    ) -> Result<Answer, SolveFault>
        requires search { IsSearch self.old }
        requires asking { IsAsking query.now self.old }
        requires named { All (λ l. IsNamed (clauses self.old) l.var) query.now }
        requires stop { IsRefutedBy query.now self.old stop }
        ensures search { OnOk result (IsSearch self.new) }
        ensures ends { IfOk result (λ a. EndsSo (L.tells log.old) (L.tells log.new)
            (L.learnt log.old) (L.learnt log.new) query.now self.old self.new a) }
        ensures unspent { IfOk result (λ a. a ≡ Answer.Spent → ⊥) }
        ensures leaves { OnErr result (BreaksOffAt (L.tells log.old) (L.tells log.new) query.now self.old) }
        ensures counted { OnErr result (L.learnt log.new ≡ L.learnt log.old) }
        ensures cause { IsErrOf result SolveFault.Log → Rose (L.faults log.old) (L.faults log.new) }
        ensures faults { L.faults log.old ≤ L.faults log.new }
        ensures later { L.is_later log.old log.new }
    {
        let clause = self.refutation(query, stop)?;
        log.tell(&LogLine::Refuted(clause))?;
        Ok(Answer::Refuted)
    }

    /// Tells that the query has a model.
    pub fn complete<L: LogSink>(&mut self, query: &[Lit], log: &mut L) -> Result<Answer, SolveFault>
        requires search { IsSearch self.old }
        requires complete { IsComplete query.now self.old }
        ensures search { OnOk result (IsSearch self.new) }
        ensures ends { IfOk result (λ a. EndsSo (L.tells log.old) (L.tells log.new)
            (L.learnt log.old) (L.learnt log.new) query.now self.old self.new a) }
        ensures unspent { IfOk result (λ a. a ≡ Answer.Spent → ⊥) }
        ensures leaves { OnErr result (BreaksOffAt (L.tells log.old) (L.tells log.new) query.now self.old) }
        ensures counted { OnErr result (L.learnt log.new ≡ L.learnt log.old) }
        ensures cause { IsErrOf result SolveFault.Log → Rose (L.faults log.old) (L.faults log.new) }
        ensures faults { L.faults log.old ≤ L.faults log.new }
        ensures later { L.is_later log.old log.new }
    {
        log.tell(&LogLine::Model)?;
        Ok(Answer::Model)
    }
}
