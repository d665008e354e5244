// Bounds that a log has.
ghost use Rattle.std.specs.Prelude.{◌≡◌, option_to_list};
ghost use Rattle.refute_log.specs.Lines.{IsWellFormed};
ghost use Rattle.refute_check.specs.Lacking.{told_bound};

use cnf_core::Lit;
use plan_core::Criterion;
use refute_log::LogLine;

/// A Bound line of a log: the literal says that the value of the criterion is at least `k`.
#[derive(Clone, Copy, Debug)]
pub struct ToldBound {
    /// The criterion that is bounded.
    pub criterion: Criterion,
    /// The value, in the criterion's unit.
    pub k: u32,
    /// The positive literal of the line's variable.
    pub literal: Lit,
}

impl ToldBound {
    /// The bound of a line, where it is a Bound line.
    pub fn of(line: &LogLine) -> Option<ToldBound>
        requires { IsWellFormed line.now }
        ensures { option_to_list result ≡ told_bound line.now }
    {
        match line {
            LogLine::Bound { criterion, k, var } => Some(ToldBound {
                criterion: *criterion,
                k: *k,
                literal: Lit::new(*var, true),
            }),
            _ => None,
        }
    }
}
