// What is asked: a formula's clauses, a solver and a log, as one thing.
ghost use Rattle.std.specs.Prelude.{◌≡◌, ◌≤◌, [], OnOk, OnErr, IfOk, IsErrOf, flat_map, length};
ghost use Rattle.outside_io.specs.Counts.{Rose};
ghost use Rattle.plan_core.specs.Drawing.{Drawing as PlainDrawing};
ghost use Rattle.cnf_core.specs.Clause.{words_of};
ghost use Rattle.refute_log.specs.Lines.{MayAllBeTold};
ghost use Rattle.refute_log.specs.Told.{Lines};
ghost use Rattle.refute_log.specs.Log.{added, learnt as learnt_of};
ghost use Rattle.refute_log.specs.Steps.{Continues, Leaves};
ghost use Rattle.search_least.specs.CountTask.{CountTask, IsOne, CoversCounts};
ghost use Rattle.search_least.specs.CountAsked.{IsLimit, IsAnswer, IsRightAnswer};

use crate::{LogTeller, MinFault};
use plan_geometry::Drawing;
use refute_log::Stop;

/// The answer to a question.
#[derive(Drop)]
pub enum Answer {
    /// A drawing with a count below the limit.
    Found(Drawing),
    /// There is none.
    Refuted,
    /// The search stopped.
    Stopped(Stop),
}

/// The clauses of drawings and of a count in a solver, and a log that takes every line. After an error it isn't used
/// further.
pub trait CountOracle: LogTeller {
    /// What is searched.
    ghost task: { Self → CountTask };

    /// The count of a drawing.
    fn count(&self, d: &Drawing) -> u32
        requires ready { Self.ready self.now }
        requires one { IsOne (task self.now) d.now }
        ensures { result ≡ (task self.now).count d.now };

    /// Asks for a drawing with a count below the limit, where there is one.
    fn ask(&mut self, limit: Option<u32>) -> Result<Answer, MinFault>
        requires ready { Self.ready self.old }
        requires limit { IsLimit (task self.old) limit }
        ensures right { IfOk result (IsRightAnswer (task self.old) limit) }
        ensures lines { IfOk result (λ r. Continues Self.knows Self.log Self.learnt self.old self.new (λ lines more.
            IsAnswer (task self.old) lines limit r more)) }
        ensures leaves { OnErr result (Leaves (task self.old).budget [] (Self.knows self.old) (Self.log self.old)
            (Self.log self.new)) }
        ensures ready { OnOk result (Self.ready self.new) }
        ensures task { task self.new ≡ task self.old }
        ensures later { Self.is_later self.old self.new }
        ensures faults { Self.faults self.old ≤ Self.faults self.new }
        ensures cause { IsErrOf result MinFault.Log → Rose (Self.faults self.old) (Self.faults self.new) };

    /// No drawing counts more than has a literal.
    ghost limited: { (s : Self) (d : PlainDrawing) → IsOne (task s) d → (task s).count d ≤ (task s).most };

    /// The lines give each drawing's count.
    ghost covers: { (s : Self) (lines : Lines) → Self.knows s lines → CoversCounts (task s) lines };

    /// A log takes each of them: it is well formed and names no variable twice.
    ghost formed: { (s : Self) (lines : Lines) → Self.knows s lines → MayAllBeTold lines };

    /// Their clauses have room.
    ghost fits: { (s : Self) (lines : Lines) → Self.knows s lines → words_of (flat_map added lines) ≤ (task s).room };

    /// There are no more Learnt lines than the budget allows.
    ghost within: { (s : Self) (lines : Lines) → Self.knows s lines → length (flat_map learnt_of lines)
        ≤ (task s).budget };

    /// Each state is a later state of itself.
    ghost later_same: { (s : Self) → Self.is_later s s };

    /// What is later than a later state is later.
    ghost later_more: { (a b c : Self) → Self.is_later a b → Self.is_later b c → Self.is_later a c };
}
