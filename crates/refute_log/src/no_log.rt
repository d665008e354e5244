// The log that keeps no line.
ghost use Rattle.std.specs.Prelude.{◌≡◌, ⊤};

use crate::{LogLine, LogSink, LogSinkFault};

/// Counts the Learnt lines that it is given, and keeps none.
#[derive(Drop)]
pub struct NoLog {
    learnt: u64,
}

impl NoLog {
    /// No line was given.
    pub fn new() -> Self
        ensures learnt { ⟦<NoLog as LogSink>⟧.learnt result ≡ 0 }
    {
        NoLog { learnt: 0 }
    }
}

impl LogSink for NoLog {
    ghost tells = { λ _ _. ⊥ };

    ghost learnt = { λ s. s.learnt };

    ghost faults = { λ _. 0 };

    ghost is_later = { λ _ _. ⊤ };

    fn tell(&mut self, line: &LogLine) -> Result<(), LogSinkFault> {
        self.learnt = line.count_after(self.learnt);
        Ok(())
    }

    ghost one_reading = { λ s a b h k. absurd h };

    ghost told_lines = { λ s lines h. absurd h };

    ghost counted = { λ s lines h. absurd h };

    ghost later_same = { λ _. tt };

    ghost later_more = { λ _ _ _ _ _. tt };
}
