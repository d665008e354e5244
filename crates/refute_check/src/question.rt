// The latest query.
ghost use Rattle.std.specs.Prelude.{◌≡◌, IfOk, List};
ghost use Rattle.cnf_core.specs.Lit.{has};
ghost use Rattle.cnf_core.specs.Clause.{AreDistinct};
ghost use Rattle.refute_check.specs.Words.{HasWords};

use cnf_core::{Clause, Lit};
use plan_core::OutOfMemory;
use std::alloc::Global;
use std::collections::BTreeSet;
use std::marker::Model;

/// The literals of a query, with their words in order, so that one is found in few steps.
#[derive(Drop)]
pub(crate) struct Question {
    clause: Clause,
    words: BTreeSet<u32>,
}

impl Model for Question {
    ghost use Rattle.std.specs.Prelude.{List};
    ghost use Rattle.cnf_core.specs.Lit.{Literal};
    ghost use Rattle.refute_check.specs.Words.{HasWords};

    ghost Value = { List Literal };

    ghost view = { λ q. q.clause };

    ghost invariant = { λ q. HasWords q.words q.clause };
}

/// The words of the literals.
fn words_of(alloc: Global, lits: &[Lit]) -> Result<BTreeSet<u32>, OutOfMemory>
    ensures { IfOk result (λ s. HasWords s lits.now) }
{
    let mut words = BTreeSet::new(alloc);
    for l in lits {
        words.insert(l.word())?;
    }
    Ok(words)
}

impl Question {
    /// The query of these literals.
    pub(crate) fn new(alloc: Global, lits: &[Lit]) -> Result<Question, OutOfMemory>
        requires { AreDistinct lits.now }
        ensures { IfOk result (λ q. q ≡ lits.now) }
    {
        let words = words_of(alloc, lits)?;
        let clause = Clause::new(alloc, lits)?;
        Ok(Question { clause, words })
    }

    /// Whether the literal is one of the query.
    pub(crate) fn has(&self, l: Lit) -> bool
        ensures { result ≡ has self.now l }
    {
        self.words.contains(&l.word())
    }
}
