// Lines of a log.
ghost use Rattle.std.specs.Prelude.{◌≡◌, ◌↔◌, IsTrue, IfOk};
ghost use Rattle.refute_log.specs.Lines.{is_learnt};
ghost use Rattle.refute_log.specs.Log.{IsRefutedWithin};
ghost use Rattle.refute_log.specs.Told.{learnt_after};

use crate::among::are_among;
use cnf_core::{Clause, Lit, Var};
use plan_core::{Criterion, OutOfMemory};
use std::alloc::Global;

/// One line of a log.
#[derive(Drop)]
pub enum LogLine {
    /// A clause of the formula.
    Formula(Clause),
    /// A clause that follows. Its first literal is the asserting one.
    Learnt(Clause),
    /// The variable says that the drawing's value of the criterion is at least `k`.
    Bound {
        /// The criterion that is bounded.
        criterion: Criterion,
        /// The value, in the criterion's unit, 1 to 65,535.
        k: u32,
        /// The variable.
        var: Var,
    },
    /// The literals that are assumed from here on.
    Query(Clause),
    /// A clause of negated assumptions that follows: the query has no answer.
    Refuted(Clause),
    /// The query has an answer.
    Model,
}

fn copy_of(alloc: Global, clause: &Clause) -> Result<Clause, OutOfMemory>
    ensures { IfOk result (λ c. c ≡ clause.now) }
{
    Clause::new(alloc, clause.as_slice())
}

impl LogLine {
    /// Whether the line is a Learnt line.
    pub fn is_learnt(&self) -> bool
        ensures { result ≡ is_learnt self.now }
    {
        matches!(self, LogLine::Learnt(_))
    }

    /// Whether the line is a Refuted line all of whose literals are allowed.
    pub fn is_refuted_within(&self, allowed: &[Lit]) -> bool
        ensures { IsTrue result ↔ IsRefutedWithin allowed.now self.now }
    {
        match self {
            LogLine::Refuted(c) => are_among(c.as_slice(), allowed),
            LogLine::Formula(_) => false,
            LogLine::Learnt(_) => false,
            LogLine::Bound { .. } => false,
            LogLine::Query(_) => false,
            LogLine::Model => false,
        }
    }

    /// The number of Learnt lines after this one, from that before it. It stops at 2^64 - 1.
    pub fn count_after(&self, learnt: u64) -> u64
        ensures { result ≡ learnt_after self.now learnt }
    {
        if self.is_learnt() {
            learnt.saturating_add(1)
        } else {
            learnt
        }
    }

    /// The same line again.
    pub fn copied(&self, alloc: Global) -> Result<LogLine, OutOfMemory>
        ensures { IfOk result (λ line. line ≡ self.now) }
    {
        Ok(match self {
            LogLine::Formula(c) => LogLine::Formula(copy_of(alloc, c)?),
            LogLine::Learnt(c) => LogLine::Learnt(copy_of(alloc, c)?),
            LogLine::Bound { criterion, k, var } => LogLine::Bound {
                criterion: *criterion,
                k: *k,
                var: *var,
            },
            LogLine::Query(c) => LogLine::Query(copy_of(alloc, c)?),
            LogLine::Refuted(c) => LogLine::Refuted(copy_of(alloc, c)?),
            LogLine::Model => LogLine::Model,
        })
    }
}
