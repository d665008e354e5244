// The clause of a line.
ghost use Rattle.std.specs.Prelude.{◌≡◌};
ghost use Rattle.cdcl_core.specs.Rounds.{line_clause};

use cnf_core::Clause;
use refute_log::LogLine;
use std::alloc::Global;

/// The clause of a line, taken out of it without memory; the empty one where it has none.
pub fn into_clause(alloc: Global, line: LogLine) -> Clause
    ensures { result ≡ line_clause line }
{
    match line {
        LogLine::Formula(c) => c,
        LogLine::Learnt(c) => c,
        LogLine::Query(c) => c,
        LogLine::Refuted(c) => c,
        LogLine::Bound { .. } => Clause::from_vec(Vec::new(alloc)),
        LogLine::Model => Clause::from_vec(Vec::new(alloc)),
    }
}
