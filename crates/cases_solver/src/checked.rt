// A checker as a log.
ghost use Rattle.std.specs.Prelude.{◌≡◌, ⊤};

use refute_check::Checker;
use refute_log::{LogLine, LogSink, LogSinkFault};

/// Feeds each line to a checker, and remembers whether one was refused.
#[derive(Drop)]
pub struct CheckedLog {
    pub checker: Checker,
    pub learnt: u64,
    pub refused: bool,
}

impl LogSink for CheckedLog {
    ghost tells = { λ _ _. ⊥ };

    ghost learnt = { λ s. s.learnt };

    ghost faults = { λ _. 0 };

    ghost is_later = { λ _ _. ⊤ };

    fn tell(&mut self, line: &LogLine) -> Result<(), LogSinkFault> {
        if self.checker.feed(line).is_err() {
            self.refused = true;
        }
        self.learnt = line.count_after(self.learnt);
        Ok(())
    }

    ghost one_reading = { λ s a b h k. absurd h };

    ghost told_lines = { λ s lines h. absurd h };

    ghost counted = { λ s lines h. absurd h };

    ghost later_same = { λ _. tt };

    ghost later_more = { λ _ _ _ _ _. tt };
}
