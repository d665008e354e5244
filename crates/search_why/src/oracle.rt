// What is asked: the drawings' clauses, a solver and a log, as one thing.
ghost use Rattle.std.specs.Prelude.{◌≡◌, ◌≤◌, [], OnOk, OnErr, IfOk, IsErrOf, length, map, flat_map};
ghost use Rattle.outside_io.specs.Counts.{Rose};
ghost use Rattle.refute_log.specs.Told.{Lines};
ghost use Rattle.refute_log.specs.declared.line.LogLine.TheVariants.{Formula};
ghost use Rattle.refute_log.specs.Log.{learnt as learnt_of, Derives, Due, clause_lines};
ghost use Rattle.search_why.specs.Task.{Task};
ghost use Rattle.refute_log.specs.Steps.{Continues, Leaves};
ghost use Rattle.search_why.specs.Asked.{AreLawPlaces, IsRightReply, TellsReply};

use crate::WhyFault;
use plan_core::Items;
use plan_geometry::Drawing;
use refute_log::Stop;
use search_least::LogTeller;

/// The answer to a question.
#[derive(Drop)]
pub enum Reply {
    /// A loose drawing that meets the laws.
    Found(Drawing),
    /// There is none: these of the places can't be met together.
    Refuted(Items<u32>),
    /// The search stopped.
    Stopped(Stop),
}

/// The clauses of loose drawings with laws to choose in a solver, and a log that takes every line. After an error it
/// isn't used further.
pub trait LawOracle: LogTeller {
    /// What is searched.
    ghost task: { Self → Task };

    /// How many laws there are to choose.
    fn laws(&self) -> u32
        requires { Self.ready self.now }
        ensures { result ≡ length (task self.now).laws };

    /// Asks for a loose drawing that meets the laws at these places.
    fn ask(&mut self, wanted: &[u32]) -> Result<Reply, WhyFault>
        requires ready { Self.ready self.old }
        requires places { AreLawPlaces (task self.old) wanted.now }
        ensures right { IfOk result (IsRightReply (task self.old) wanted.now) }
        ensures lines { IfOk result (λ r. Continues Self.knows Self.log Self.learnt self.old self.new (λ lines more.
            TellsReply (task self.old) r lines more)) }
        ensures leaves { OnErr result (Leaves (task self.old).budget [] (Self.knows self.old) (Self.log self.old)
            (Self.log self.new)) }
        ensures ready { OnOk result (Self.ready self.new) }
        ensures task { task self.new ≡ task self.old }
        ensures later { Self.is_later self.old self.new }
        ensures faults { Self.faults self.old ≤ Self.faults self.new }
        ensures cause { IsErrOf result WhyFault.Log → Rose (Self.faults self.old) (Self.faults self.new) };

    /// Their Formula lines are the task's clauses, and they have no Bound line.
    ghost gives: { (s : Self) (lines : Lines) → Self.knows s lines → clause_lines lines
        ≡ map Formula (task s).clauses };

    /// There are no more Learnt lines than the budget allows.
    ghost within: { (s : Self) (lines : Lines) → Self.knows s lines → length (flat_map learnt_of lines)
        ≤ (task s).budget };

    /// A log has one list of lines at most.
    ghost one_reading: { (s : Self) (a b : Lines) → Self.log s a → Self.log s b → a ≡ b };

    /// Each state is a later state of itself.
    ghost later_same: { (s : Self) → Self.is_later s s };

    /// What is later than a later state is later.
    ghost later_more: { (a b c : Self) → Self.is_later a b → Self.is_later b c → Self.is_later a c };
}
