// The solver with the formula, and a log, as one thing that is asked.
use crate::asking::{MovedKnown, ask};
use crate::counted::count_moved;
use cdcl_core::Solver;
use plan_geometry::Drawing;
use refute_log::LogSink;
use search_least::{Answer, CountOracle, LogTeller, MinFault};

/// What is asked: all of it is lent.
#[derive(Drop)]
pub(crate) struct MovedSearch<'k, 's, 'l, 'a, L: LogSink> {
    pub(crate) known: &'k MovedKnown<'a>,
    pub(crate) solver: &'s mut Solver,
    pub(crate) log: &'l mut L,
}

impl<'k, 's, 'l, 'a, L: LogSink> LogTeller for MovedSearch<'k, 's, 'l, 'a, L> {
    ghost use Rattle.std.specs.Prelude.{◌≡◌};
    ghost use Rattle.search_moved.specs.Search.{IsReadyWith, KnowsWith};

    ghost ready = { λ s. IsReadyWith s.known.now s.solver.now };

    ghost knows = { λ s lines. KnowsWith s.known.now s.solver.now lines };

    ghost log = { λ s lines. L.tells s.log.now lines };

    ghost learnt = { λ s. L.learnt s.log.now };

    ghost faults = { λ s. L.faults s.log.now };

    ghost is_later = { λ s t. (t.solver.ghost_name ≡ s.solver.ghost_name)
        × (t.log.ghost_name ≡ s.log.ghost_name) × L.is_later s.log.now t.log.now };

    ghost derives = { λ s lines k. k.belongs.derives };

    ghost due = { λ s lines k. k.belongs.due };
}

impl<'k, 's, 'l, 'a, L: LogSink> CountOracle for MovedSearch<'k, 's, 'l, 'a, L> {
    ghost use Rattle.std.specs.Prelude.{◌≤◌};
    ghost use Rattle.std.proofs.Common.{refl, ◌∙◌, subst};
    ghost use Rattle.plan_core.specs.Drawing.{place};
    ghost use Rattle.drawing_cnf.proofs.VariableLemmas.{moved_within};
    ghost use Rattle.search_moved.specs.Search.{task_with};

    ghost task = { λ s. task_with s.known.now };

    fn count(&self, d: &Drawing) -> u32 {
        count_moved(d, self.known.former)
    }

    fn ask(&mut self, limit: Option<u32>) -> Result<Answer, MinFault> {
        ask(self.known, self.solver, self.log, limit)
    }

    ghost limited = { λ s d one. moved_within s.known.now.former.now (place d) };

    ghost covers = { λ s lines k. k.covers };

    ghost formed = { λ s lines k. k.belongs.formed };

    ghost fits = { λ s lines k. k.fits };

    ghost within = { λ s lines k. subst (λ n. n ≤ s.known.now.budget) k.learnt_are k.spent };

    ghost later_same = { λ s. (refl, refl, L.later_same s.log.now) };

    ghost later_more = { λ a b c h k. (k.0 ∙ h.0, k.1 ∙ h.1, L.later_more a.log.now b.log.now c.log.now h.2 k.2) };
}
