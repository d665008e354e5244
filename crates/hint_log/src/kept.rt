// The clauses that lines may name, by slot, and the judge of lines over them.
ghost use Rattle.std.specs.Prelude.{◌≡◌, ◌≤◌, ◌<◌, ◌+◌, ◌^◌, ◌++◌, [], ◌∷◌, map, length, IfOk, OnOk, OnErr};
ghost use Rattle.std.specs.Prelude.{true, false};
ghost use Rattle.cnf_core.specs.Lit.{negate};
ghost use Rattle.cnf_core.specs.Clause.{AreDistinct, words_of};
ghost use Rattle.hint_log.specs.Looks.{IsHintVerdict};

use crate::judging::judge;
use crate::marks::MarkedLits;
use crate::notes::Notes;
use cnf_core::{Clause, Formula, Lit};
use plan_core::OutOfMemory;
use std::alloc::Global;
use std::marker::Model;

/// The clauses of a formula and learnt ones behind them. The literals of all are by slot.
#[derive(Drop)]
pub(crate) struct KeptClauses {
    room: u32,
    given: Formula,
    learnt: Vec<Clause>,
    words: u64,
    marks: MarkedLits,
    notes: Notes,
}

impl Model for KeptClauses {
    ghost use Rattle.hint_log.specs.Checked.{Kept, kept_of, IsBetweenLines};

    ghost Value = { Kept };

    ghost view = { λ k. kept_of k.room k.given.clauses k.learnt.items };

    ghost invariant = { λ k. IsBetweenLines k.given.clauses k.learnt.items k.words k.marks };
}

impl KeptClauses {
    /// The clauses of the formula, and room for so many words.
    pub(crate) fn new(alloc: Global, f: Formula, room: u32) -> Result<KeptClauses, OutOfMemory>
        ensures room { IfOk result (λ k. k.room ≡ room) }
        ensures clauses { IfOk result (λ k. k.clauses ≡ f.clauses) }
    {
        let words = f.words() as u64;
        let marks = MarkedLits::new(alloc, f.vars())?;
        Ok(KeptClauses {
            room,
            given: f,
            learnt: Vec::new(alloc),
            words,
            marks,
            notes: Notes::new(alloc),
        })
    }

    /// Whether the hints show the clause of these literals: None, or the first place that fails.
    pub(crate) fn judge(&mut self, lits: &[Lit], hints: &[u32]) -> Result<Option<u32>, OutOfMemory>
        requires { length hints.now < 2 ^ 32 }
        ensures same { self.new ≡ self.old }
        ensures verdict { IfOk result (IsHintVerdict self.old.clauses (map negate lits.now) hints.now) }
    {
        self.notes.clear();
        let answer = judge(
            &self.given,
            &self.learnt,
            &mut self.marks,
            &mut self.notes,
            lits,
            hints,
        );
        self.marks.clear();
        answer
    }

    /// Whether a clause of so many literals would pass the room.
    pub(crate) fn lacks_room(&self, length: usize) -> bool
        ensures yes { result ≡ true → self.now.room < words_of self.now.clauses + length + 3 }
        ensures no { result ≡ false → words_of self.now.clauses + length + 3 ≤ self.now.room }
    {
        let room = self.room as usize;
        let taken = self.words as usize;
        room < taken || room - taken < 3 || room - taken - 3 < length
    }

    /// Keeps the clause of these literals, for which there is room.
    pub(crate) fn keep(&mut self, lits: Vec<Lit>) -> Result<(), OutOfMemory>
        requires distinct { AreDistinct lits.items }
        requires fits { words_of self.old.clauses + length lits.items + 3 ≤ self.old.room }
        ensures ok { OnOk result (self.new ≡ record self.old { clauses = self.old.clauses ++ lits.items ∷ [] }) }
        ensures err { OnErr result (self.new ≡ self.old) }
    {
        let length = lits.len() as u64;
        self.learnt.push(Clause::from_vec(lits))?;
        self.words += length + 3;
        Ok(())
    }
}
