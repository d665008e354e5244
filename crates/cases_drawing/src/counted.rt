// A log that counts what it is told.
use refute_log::{LogLine, LogSink, LogSinkFault};

/// How many lines came, how many of these are Bound and Learnt lines, and the words of all clauses that came or were
/// learnt.
#[derive(Drop)]
pub struct CountedLog {
    pub lines: u32,
    pub bounds: u32,
    pub learnt: u64,
    pub words: u32,
}

impl CountedLog {
    pub fn new() -> CountedLog {
        CountedLog {
            lines: 0,
            bounds: 0,
            learnt: 0,
            words: 0,
        }
    }
}

/// The words of the clause that a line adds.
fn words_of(line: &LogLine) -> u32 {
    match line {
        LogLine::Formula(clause) | LogLine::Learnt(clause) => {
            u32::try_from(clause.len())
                .unwrap_or(u32::MAX)
                .saturating_add(3)
        }
        _ => 0,
    }
}

impl LogSink for CountedLog {
    ghost use Rattle.std.specs.Prelude.{◌≡◌, ⊤};

    ghost tells = { λ _ _. ⊥ };

    ghost learnt = { λ s. s.learnt };

    ghost faults = { λ _. 0 };

    ghost is_later = { λ _ _. ⊤ };

    fn tell(&mut self, line: &LogLine) -> Result<(), LogSinkFault> {
        if matches!(line, LogLine::Bound { .. }) {
            self.bounds = self.bounds.saturating_add(1);
        }
        self.lines = self.lines.saturating_add(1);
        self.words = self.words.saturating_add(words_of(line));
        self.learnt = line.count_after(self.learnt);
        Ok(())
    }

    ghost one_reading = { λ s a b h k. absurd h };

    ghost told_lines = { λ s lines h. absurd h };

    ghost counted = { λ s lines h. absurd h };

    ghost later_same = { λ _. tt };

    ghost later_more = { λ _ _ _ _ _. tt };
}
