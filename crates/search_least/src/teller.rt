// What tells a log its lines.
ghost use Rattle.std.specs.Prelude.{ℕ};
ghost use Rattle.refute_log.specs.Told.{Lines};
ghost use Rattle.refute_log.specs.Log.{Derives, Due};

/// What asks questions, tells a log each line of a search, and knows these lines. After an error it isn't used further.
pub trait LogTeller {
    /// It can be asked.
    ghost ready: { Self → Type 0 };

    /// The lines that the log took since the start: they belong to what is asked.
    ghost knows: { Self → Lines → Type 0 };

    /// The log says that these are its lines.
    ghost log: { Self → Lines → Type 0 };

    /// How many Learnt lines the log took.
    ghost learnt: { Self → ℕ };

    /// How many faults the log had.
    ghost faults: { Self → ℕ };

    /// The second's log is a later state of the first's.
    ghost is_later: { Self → Self → Type 0 };

    /// The lines that are known derive.
    ghost derives: { (s : Self) (lines : Lines) → knows s lines → Derives lines };

    /// Each Learnt line of them comes where the latest query is open.
    ghost due: { (s : Self) (lines : Lines) → knows s lines → Due lines };
}
