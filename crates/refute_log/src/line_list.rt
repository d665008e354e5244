// A log in memory.
ghost use Rattle.std.specs.Prelude.{◌≡◌, ◌<◌, ◌≤◌, ◌^◌, ◌++◌, [], ◌∷◌, length, slice_get, Some, OnOk, OnErr};
ghost use Rattle.plan_core.specs.Searching.{FindsFirst};
ghost use Rattle.refute_log.specs.Lines.{MayBeTold, MayAllBeTold};
ghost use Rattle.refute_log.specs.Log.{IsRefutedWithin};

use crate::{LogLine, LogSink, LogSinkFault};
use cnf_core::Lit;
use plan_core::OutOfMemory;
use std::alloc::Global;
use std::marker::Model;

/// Keeps the lines that it is given, and never fails but for memory.
#[derive(Drop)]
pub struct LineList {
    alloc: Global,
    lines: Vec<LogLine>,
    learnt: u64,
}

impl Model for LineList {
    ghost use Rattle.refute_log.specs.Told.{Lines};
    ghost use Rattle.refute_log.specs.LineList.{IsKept};

    ghost Value = { Lines };

    ghost view = { λ s. s.lines.items };

    ghost invariant = { λ s. IsKept s.lines.items s.learnt };
}

impl LineList {
    /// No line was given.
    pub fn new(alloc: Global) -> Self
        ensures { result ≡ [] }
    {
        LineList {
            alloc,
            lines: Vec::new(alloc),
            learnt: 0,
        }
    }

    /// Keeps the line behind the others.
    pub fn push(&mut self, line: LogLine) -> Result<(), OutOfMemory>
        requires { MayBeTold line }
        ensures ok { OnOk result (self.new ≡ self.old ++ line ∷ []) }
        ensures err { OnErr result (self.new ≡ self.old) }
    {
        let learnt = line.count_after(self.learnt);
        self.lines.push(line)?;
        self.learnt = learnt;
        Ok(())
    }

    /// The number of lines.
    pub fn len(&self) -> usize
        ensures value { result ≡ length self.now }
        ensures told { MayAllBeTold self.now }
    {
        self.lines.len()
    }

    /// The line at place `i`, counted from 0.
    pub fn get(&self, i: usize) -> &LogLine
        requires { i < length self.now }
        ensures value { slice_get self.now i ≡ Some result.now }
        ensures told { MayBeTold result.now }
    {
        &self.lines[i]
    }

    /// The place of the first Refuted line all of whose literals are allowed. A list of more lines than
    /// a place can count isn't asked.
    pub fn first_refuted(&self, allowed: &[Lit]) -> Option<u32>
        requires { length self.now ≤ 2 ^ 32 }
        ensures { FindsFirst (λ _ line. IsRefutedWithin allowed.now line) self.now result }
    {
        let mut i = 0;
        while i < self.lines.len() {
            if self.lines[i].is_refuted_within(allowed) {
                return Some(i as u32);
            }
            i += 1;
        }
        None
    }
}

impl LogSink for LineList {
    ghost use Rattle.std.specs.Prelude.{◌≡◌, ⊤};
    ghost use Rattle.std.proofs.Common.{refl, sym, ◌∙◌};
    ghost use Rattle.refute_log.specs.Lines.{MayAllBeTold};
    ghost use Rattle.refute_log.specs.Log.{learnt_count};
    ghost use Rattle.refute_log.specs.LineList.{told_again, counted_again};

    ghost tells = { λ s lines. (s ≡ lines) × MayAllBeTold s };

    ghost learnt = { λ s. learnt_count s };

    ghost faults = { λ _. 0 };

    ghost is_later = { λ _ _. ⊤ };

    fn tell(&mut self, line: &LogLine) -> Result<(), LogSinkFault> {
        let line = line.copied(self.alloc)?;
        self.push(line)?;
        Ok(())
    }

    ghost one_reading = { λ s a b h k. sym h.0 ∙ k.0 };

    ghost told_lines = { λ s lines h. told_again s lines h.0 h.1 };

    ghost counted = { λ s lines h. counted_again s lines h.0 };

    ghost later_same = { λ _. tt };

    ghost later_more = { λ _ _ _ _ _. tt };
}
