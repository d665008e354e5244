// The solver with the formula, and a log, as one thing that is asked.
use crate::asking::{WhyKnown, ask};
use cdcl_core::Solver;
use refute_log::LogSink;
use search_least::LogTeller;
use search_why::{LawOracle, Reply, WhyFault};

/// What is asked: all of it is lent.
#[derive(Drop)]
pub(crate) struct WhySearch<'k, 's, 'l, 'a, L: LogSink> {
    pub(crate) known: &'k WhyKnown<'a>,
    pub(crate) solver: &'s mut Solver,
    pub(crate) log: &'l mut L,
}

impl<'k, 's, 'l, 'a, L: LogSink> LogTeller for WhySearch<'k, 's, 'l, 'a, L> {
    ghost use Rattle.std.specs.Prelude.{◌≡◌};
    ghost use Rattle.law_core.specs.Search.{IsReadyWith, KnowsWith};

    ghost ready = { λ s. IsReadyWith s.known.now s.solver.now };

    ghost knows = { λ s lines. KnowsWith s.known.now s.solver.now lines };

    ghost log = { λ s lines. L.tells s.log.now lines };

    ghost learnt = { λ s. L.learnt s.log.now };

    ghost faults = { λ s. L.faults s.log.now };

    ghost is_later = { λ s t. (t.solver.ghost_name ≡ s.solver.ghost_name)
        × (t.log.ghost_name ≡ s.log.ghost_name) × L.is_later s.log.now t.log.now };

    ghost derives = { λ s lines k. k.belongs.derives };

    ghost due = { λ s lines k. k.belongs.due };
}

impl<'k, 's, 'l, 'a, L: LogSink> LawOracle for WhySearch<'k, 's, 'l, 'a, L> {
    ghost use Rattle.std.specs.Prelude.{◌≤◌};
    ghost use Rattle.std.proofs.Common.{refl, ◌∙◌, subst};
    ghost use Rattle.law_core.specs.Search.{task_with};

    ghost task = { λ s. task_with s.known.now };

    fn laws(&self) -> u32 {
        self.known.selecting.len() as u32
    }

    fn ask(&mut self, wanted: &[u32]) -> Result<Reply, WhyFault> {
        ask(self.known, self.solver, self.log, wanted)
    }

    ghost gives = { λ s lines k. k.told_are };

    ghost within = { λ s lines k. subst (λ n. n ≤ s.known.now.budget) k.learnt_are k.spent };

    ghost one_reading = { λ s a b x y. L.one_reading s.log.now a b x y };

    ghost later_same = { λ s. (refl, refl, L.later_same s.log.now) };

    ghost later_more = { λ a b c h k. (k.0 ∙ h.0, k.1 ∙ h.1, L.later_more a.log.now b.log.now c.log.now h.2 k.2) };
}
