// The checker of hinted lines.
ghost use Rattle.std.specs.Prelude.{◌≡◌, ◌<◌, ◌↔◌, ◌^◌, ◌++◌, [], ◌∷◌, ℕ, IsTrue, IfOk, IfErr, OnOk, OnErr};
ghost use Rattle.std.specs.Prelude.{IsErrOf, length};
ghost use Rattle.cnf_core.specs.Clause.{AreDistinct};
ghost use Rattle.hint_log.specs.Hint.{FailsAt, shown_lits, hints_of};
ghost use Rattle.hint_log.specs.Checked.{AcceptsHint, PassesHintRoom, IsHintAnswer, RefutesByHints};

use crate::HintFault;
use crate::hint_line::{HintLine, Numbers};
use crate::kept::KeptClauses;
use crate::slots::Slots;
use cnf_core::{Clause, Formula, Lit};
use plan_core::OutOfMemory;
use refute_log::are_among;
use std::alloc::Global;
use std::marker::Model;

/// Accepts hinted lines that are good after those that it accepted before. The clauses that lines may name are kept by
/// slot.
#[derive(Drop)]
pub struct HintChecker {
    alloc: Global,
    slots: Slots,
    kept: KeptClauses,
    refuted: Vec<Clause>,
}

impl Model for HintChecker {
    ghost use Rattle.hint_log.specs.Checked.{HintFacts, hint_facts, AreKeptBySlot};

    ghost Value = { HintFacts };

    ghost view = { λ c. hint_facts c.slots c.kept c.refuted.items };

    ghost invariant = { λ c. AreKeptBySlot c.slots c.kept };
}

impl HintChecker {
    /// Accepts lines over the clauses of this formula, as long as the words of these and of the Learnt
    /// lines are at most `room`. Where memory can't be had, the formula is dropped.
    pub fn new(alloc: Global, f: Formula, room: u32) -> Result<HintChecker, OutOfMemory>
        ensures room { IfOk result (λ c. c.room ≡ room) }
        ensures clauses { IfOk result (λ c. c.clauses ≡ f.clauses) }
        ensures refuted { IfOk result (λ c. c.refuted ≡ []) }
    {
        let slots = Slots::new(alloc, f.vars())?;
        let kept = KeptClauses::new(alloc, f, room)?;
        Ok(HintChecker {
            alloc,
            slots,
            kept,
            refuted: Vec::new(alloc),
        })
    }

    /// Keeps a refuted clause.
    fn keep_refuted(&mut self, lits: &[Lit]) -> Result<(), OutOfMemory>
        requires distinct { AreDistinct lits.now }
        ensures ok { OnOk result (self.new ≡ record self.old { refuted = self.old.refuted ++ lits.now ∷ [] }) }
        ensures err { OnErr result (self.new ≡ self.old) }
    {
        let clause = Clause::new(self.alloc, lits)?;
        self.refuted.push(clause)?;
        Ok(())
    }

    /// Accepts a Learnt line, or says why not.
    fn feed_learnt(&mut self, lits: &Clause, hints: &Numbers) -> Result<(), HintFault>
        requires { length hints.now < 2 ^ 32 }
        ensures { IsHintAnswer self.old self.new (HintLine.Learnt lits.now hints.now) result }
    {
        let by_slot = self.slots.by_slot(lits.as_slice())?;
        match self.kept.judge(&by_slot, hints.as_slice())? {
            Some(k) => Err(HintFault::BadHint(k)),
            None => {
                if self.kept.lacks_room(by_slot.len()) {
                    return Err(HintFault::Room);
                }
                self.kept.keep(by_slot)?;
                Ok(())
            }
        }
    }

    /// Accepts a Refuted line, or says why not.
    fn feed_refuted(&mut self, lits: &Clause, hints: &Numbers) -> Result<(), HintFault>
        requires { length hints.now < 2 ^ 32 }
        ensures { IsHintAnswer self.old self.new (HintLine.Refuted lits.now hints.now) result }
    {
        let by_slot = self.slots.by_slot(lits.as_slice())?;
        match self.kept.judge(&by_slot, hints.as_slice())? {
            Some(k) => Err(HintFault::BadHint(k)),
            None => {
                self.keep_refuted(lits.as_slice())?;
                Ok(())
            }
        }
    }

    /// Accepts the line where it is good after the lines that were accepted before and there is room for
    /// it. A refused line isn't kept.
    pub fn feed(&mut self, line: &HintLine) -> Result<(), HintFault>
        requires { length (hints_of line.now) < 2 ^ 32 }
        ensures ok { OnOk result (AcceptsHint self.old self.new line.now) }
        ensures bad { IfErr result (λ e. (k : ℕ) → e ≡ HintFault.BadHint k →
            FailsAt self.old.clauses (shown_lits line.now) (hints_of line.now) k) }
        ensures room { IsErrOf result HintFault.Room → PassesHintRoom self.old line.now }
        ensures refused { OnErr result (self.new ≡ self.old) }
    {
        match line {
            HintLine::Learnt { lits, hints } => self.feed_learnt(lits, hints),
            HintLine::Refuted { lits, hints } => self.feed_refuted(lits, hints),
        }
    }

    /// Whether an accepted Refuted line has only literals among the allowed ones.
    pub fn verdict(&self, allowed: &[Lit]) -> bool
        ensures { IsTrue result ↔ RefutesByHints self.now allowed.now }
    {
        for clause in &self.refuted {
            if are_among(clause.as_slice(), allowed) {
                return true;
            }
        }
        false
    }
}
