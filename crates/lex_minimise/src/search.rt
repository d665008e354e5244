// The solver with the drawings' clauses, and a log, as one thing that is asked.
use crate::asking::ask;
use crate::building::build;
use cdcl_core::Solver;
use drawing_cnf::{Bounds, Encoded, greatest};
use plan_core::Criterion;
use plan_geometry::Drawing;
use refute_log::LogSink;
use search_least::{Below, Built, LogTeller, MinFault, Oracle, Reply};
use std::alloc::Global;

/// What a search keeps beside the solver and the log.
#[derive(Drop)]
pub(crate) struct Known<'a> {
    pub(crate) alloc: Global,
    /// The formula, with the bounds behind it.
    pub(crate) encoded: Encoded<'a>,
    /// The bounds that were added, in this order.
    pub(crate) told: Vec<Bounds>,
    /// How many clauses may be learnt.
    pub(crate) budget: u32,
    /// How many words all clauses may have.
    pub(crate) room: u32,
}

/// What is asked: all of it is lent.
#[derive(Drop)]
pub(crate) struct Search<'k, 's, 'l, 'a, L: LogSink> {
    pub(crate) known: &'k mut Known<'a>,
    pub(crate) solver: &'s mut Solver,
    pub(crate) log: &'l mut L,
}

impl<'k, 's, 'l, 'a, L: LogSink> LogTeller for Search<'k, 's, 'l, 'a, L> {
    ghost use Rattle.std.specs.Prelude.{◌≡◌};
    ghost use Rattle.lex_minimise.specs.Search.{IsReadyWith, KnowsWith};

    ghost ready = { λ s. IsReadyWith s.known.now s.solver.now };

    ghost knows = { λ s lines. KnowsWith s.known.now s.solver.now lines };

    ghost log = { λ s lines. L.tells s.log.now lines };

    ghost learnt = { λ s. L.learnt s.log.now };

    ghost faults = { λ s. L.faults s.log.now };

    ghost is_later = { λ s t. (t.known.ghost_name ≡ s.known.ghost_name) × (t.solver.ghost_name ≡ s.solver.ghost_name)
        × (t.log.ghost_name ≡ s.log.ghost_name) × L.is_later s.log.now t.log.now };

    ghost derives = { λ s lines k. k.belongs.derives };

    ghost due = { λ s lines k. k.belongs.due };
}

impl<'k, 's, 'l, 'a, L: LogSink> Oracle for Search<'k, 's, 'l, 'a, L> {
    ghost use Rattle.std.specs.Prelude.{◌≤◌};
    ghost use Rattle.std.proofs.Common.{refl, ◌∙◌, subst};
    ghost use Rattle.lex_minimise.specs.Known.{caps_of};
    ghost use Rattle.lex_minimise.specs.Search.{task_with};

    ghost task = { λ s. task_with s.known.now };

    ghost caps = { λ s. caps_of s.known.now.told.items };

    ghost vars = { λ s. s.solver.now.vars };

    fn greatest(&self, c: Criterion) -> u32 {
        greatest(self.known.encoded.graph(), self.known.encoded.grid(), c)
    }

    fn ask(&mut self, bounds: &[Below], near: Option<&Drawing>) -> Result<Reply, MinFault> {
        ask(self.known, self.solver, self.log, bounds, near)
    }

    fn build(&mut self, c: Criterion, cap: u32) -> Result<Built, MinFault> {
        build(self.known, self.solver, self.log, c, cap)
    }

    ghost covers = { λ s lines k. k.covers };

    ghost formed = { λ s lines k. k.belongs.formed };

    ghost fits = { λ s lines k. k.fits };

    ghost within = { λ s lines k. subst (λ n. n ≤ s.known.now.budget) k.learnt_are k.spent };

    ghost few = { λ s lines k. k.few };

    ghost counted = { λ s lines c k. k.counted c };

    ghost apart = { λ s lines k. k.apart };

    ghost one_reading = { λ s a b x y. L.one_reading s.log.now a b x y };

    ghost later_same = { λ s. (refl, refl, refl, L.later_same s.log.now) };

    ghost later_more = { λ a b c h k. (
      k.0 ∙ h.0,
      k.1 ∙ h.1,
      k.2 ∙ h.2,
      L.later_more a.log.now b.log.now c.log.now h.3
          k.3,
    ) };
}
