// A log that keeps its last line alone, and may fail.
ghost use Rattle.std.specs.Prelude.{◌≡◌, ⊤};

use refute_log::{LogLine, LogSink, LogSinkFault, write_line};
use std::alloc::Global;

/// The text of the last line, and how many lines came. The line behind so many is refused.
#[derive(Drop)]
pub struct LastLine {
    left: u32,
    learnt: u64,
    pub lines: u32,
    pub text: Vec<u8>,
    /// How many lines were refused.
    pub faults: u64,
}

impl LastLine {
    /// The log that takes so many lines.
    pub fn of(alloc: Global, left: u32) -> LastLine {
        LastLine {
            left,
            learnt: 0,
            lines: 0,
            text: Vec::new(alloc),
            faults: 0,
        }
    }
}

impl LogSink for LastLine {
    ghost tells = { λ _ _. ⊥ };

    ghost learnt = { λ s. s.learnt };

    ghost faults = { λ s. s.faults };

    ghost is_later = { λ _ _. ⊤ };

    fn tell(&mut self, line: &LogLine) -> Result<(), LogSinkFault> {
        if self.lines >= self.left {
            self.faults = self.faults.saturating_add(1);
            return Err(LogSinkFault::Failed);
        }
        self.text.clear();
        write_line(line, &mut self.text)?;
        self.lines += 1;
        self.learnt = line.count_after(self.learnt);
        Ok(())
    }

    ghost one_reading = { λ s a b h k. absurd h };

    ghost told_lines = { λ s lines h. absurd h };

    ghost counted = { λ s lines h. absurd h };

    ghost later_same = { λ _. tt };

    ghost later_more = { λ _ _ _ _ _. tt };
}
