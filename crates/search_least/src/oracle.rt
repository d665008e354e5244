// What is asked: the drawings' clauses, a solver and a log, as one thing.
ghost use Rattle.std.specs.Prelude.{◌≡◌, ◌≤◌, ⊤, ℕ, [], All, OnOk, OnErr, IfOk, IsErrOf, MatchOption, flat_map, length};
ghost use Rattle.outside_io.specs.Counts.{Rose};
ghost use Rattle.plan_core.specs.declared.criterion.Criterion.{Criterion as Measure};
ghost use Rattle.cnf_core.specs.declared.limits.TheConstants.{VARS};
ghost use Rattle.cnf_core.specs.Clause.{words_of};
ghost use Rattle.refute_log.specs.Lines.{MayAllBeTold};
ghost use Rattle.refute_log.specs.Told.{Lines};
ghost use Rattle.refute_log.specs.Log.{added, learnt as learnt_of};
ghost use Rattle.refute_log.specs.Bounds.{CoversDrawings};
ghost use Rattle.refute_log.specs.Expected.{caps as caps_of, sum_lines};
ghost use Rattle.search_least.specs.Task.{Task, IsLawful, greatest_of};
ghost use Rattle.search_least.specs.declared.oracle.Built.TheVariants.{Whole as AllOfThem};
ghost use Rattle.refute_log.specs.Steps.{Continues, Leaves};
ghost use Rattle.search_least.specs.Built.{IsBuild, AreBuiltTo};
ghost use Rattle.search_least.specs.Asked.{IsReply, IsRightReply, IsWithinCap, AreOnce, AreApart};

use crate::{LogTeller, MinFault};
use plan_core::Criterion;
use plan_geometry::Drawing;
use refute_log::Stop;

/// The value of the criterion is below the limit.
#[derive(Clone, Copy)]
pub struct Below {
    /// The criterion.
    pub criterion: Criterion,
    /// One more than the greatest value that is asked for, in the criterion's unit.
    pub limit: u32,
}

/// The answer to a question.
#[derive(Drop)]
pub enum Reply {
    /// A drawing that meets the bounds.
    Found(Drawing),
    /// There is none.
    Refuted,
    /// The search stopped.
    Stopped(Stop),
}

/// Whether the clauses of a criterion were added.
#[derive(Clone, Copy)]
pub enum Built {
    /// All of them.
    Whole,
    /// None: there is no room for them.
    NoRoom,
}

/// The clauses of a file's drawings in a solver, and a log that takes every line. After an error it isn't used further.
pub trait Oracle: LogTeller {
    /// What is searched.
    ghost task: { Self → Task };

    /// How many bounds of each criterion there are.
    ghost caps: { Self → Measure → ℕ };

    /// How many variables there are.
    ghost vars: { Self → ℕ };

    /// The greatest value that the criterion can have.
    fn greatest(&self, c: Criterion) -> u32
        ensures { result ≡ greatest_of (task self.now) c };

    /// Asks for a drawing that meets all bounds, which are of different criteria. The search begins near the drawing
    /// that is given, or from nothing where none is.
    fn ask(&mut self, bounds: &[Below], near: Option<&Drawing>) -> Result<Reply, MinFault>
        requires ready { Self.ready self.old }
        requires near { MatchOption near ⊤ (λ d. IsLawful (task self.old) d.now) }
        requires there { All (IsWithinCap (caps self.old)) bounds.now }
        requires once { AreOnce bounds.now }
        ensures right { IfOk result (IsRightReply (task self.old) bounds.now) }
        ensures lines { IfOk result (λ r. Continues Self.knows Self.log Self.learnt self.old self.new (λ lines more.
            IsReply (task self.old) lines bounds.now r more)) }
        ensures leaves { OnErr result (Leaves (task self.old).budget [] (Self.knows self.old) (Self.log self.old)
            (Self.log self.new)) }
        ensures ready { OnOk result (Self.ready self.new) }
        ensures task { task self.new ≡ task self.old }
        ensures caps { OnOk result (caps self.new ≡ caps self.old) }
        ensures vars { OnOk result (vars self.new ≡ vars self.old) }
        ensures later { Self.is_later self.old self.new }
        ensures faults { Self.faults self.old ≤ Self.faults self.new }
        ensures cause { IsErrOf result MinFault.Log → Rose (Self.faults self.old) (Self.faults self.new) };

    /// Adds the clauses and the bounds of a criterion up to the cap, all or none.
    fn build(&mut self, c: Criterion, cap: u32) -> Result<Built, MinFault>
        requires ready { Self.ready self.old }
        requires positive { 1 ≤ cap }
        requires limit { cap ≤ greatest_of (task self.old) c }
        requires none { caps self.old c ≡ 0 }
        ensures ready { IfOk result (λ b. b ≡ AllOfThem → Self.ready self.new) }
        ensures built { IfOk result (λ b. AreBuiltTo (task self.old) (caps self.old) (vars self.old) c cap b
            (caps self.new) (vars self.new)) }
        ensures lines { IfOk result (λ b. Continues Self.knows Self.log Self.learnt self.old self.new (λ lines more.
            IsBuild (task self.old) (vars self.old) c cap b lines more)) }
        ensures leaves { let p = task self.old in
            OnErr result (Leaves 0 (sum_lines p.encoding (vars self.old) c cap)
            (Self.knows self.old) (Self.log self.old) (Self.log self.new)) }
        ensures task { task self.new ≡ task self.old }
        ensures later { Self.is_later self.old self.new }
        ensures faults { Self.faults self.old ≤ Self.faults self.new }
        ensures cause { IsErrOf result MinFault.Log → Rose (Self.faults self.old) (Self.faults self.new) };

    /// The lines cover the lawful drawings.
    ghost covers: { (s : Self) (lines : Lines) → Self.knows s lines → CoversDrawings (task s).graph (task s).above
        (task s).grid lines };

    /// A log takes each of them: it is well formed and names no variable twice.
    ghost formed: { (s : Self) (lines : Lines) → Self.knows s lines → MayAllBeTold lines };

    /// Their clauses have room.
    ghost fits: { (s : Self) (lines : Lines) → Self.knows s lines → words_of (flat_map added lines) ≤ (task s).room };

    /// There are no more Learnt lines than the budget allows.
    ghost within: { (s : Self) (lines : Lines) → Self.knows s lines → length (flat_map learnt_of lines)
        ≤ (task s).budget };

    /// With them there are no more variables than there may be.
    ghost few: { (s : Self) (lines : Lines) → Self.knows s lines → vars s ≤ VARS };

    /// They have just these bounds.
    ghost counted: { (s : Self) (lines : Lines) (c : Measure) → Self.knows s lines
        → caps_of (greatest_of (task s)) lines c ≡ caps s c };

    /// No two of these bounds have one variable.
    ghost apart: { (s : Self) (lines : Lines) → Self.knows s lines → AreApart lines };

    /// A log has one list of lines at most.
    ghost one_reading: { (s : Self) (a b : Lines) → Self.log s a → Self.log s b → a ≡ b };

    /// Each state is a later state of itself.
    ghost later_same: { (s : Self) → Self.is_later s s };

    /// What is later than a later state is later.
    ghost later_more: { (a b c : Self) → Self.is_later a b → Self.is_later b c → Self.is_later a c };
}
