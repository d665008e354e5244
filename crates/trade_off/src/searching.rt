// The whole search for the front.
ghost use Rattle.std.specs.Prelude.{◌≡◌, ◌≢◌, ◌≤◌, IfOk, OnErr, IsErrOf};
ghost use Rattle.outside_io.specs.Counts.{Rose};
ghost use Rattle.search_least.specs.Task.{IsLawful};
ghost use Rattle.search_least.specs.Outcome.{IsFresh, first_lines};
ghost use Rattle.refute_log.specs.Told.{Lines};
ghost use Rattle.refute_log.specs.Steps.{ToldBehind};
ghost use Rattle.trade_off.specs.Outcome.{IsRightFront, IsFrontAfter, IsFrontLeft};

use crate::building::build_both;
use crate::collecting::collect;
use crate::{FrontEnd, FrontList, PairList};
use plan_core::Criterion;
use search_least::{Built, MinFault, Oracle};
use std::alloc::Global;

/// The front of two criteria, or as far as the search comes. The oracle knows the drawings' clauses, and no bound yet.
/// What the outcome says of drawings holds with every log. The search gives the log further lines behind the clauses;
/// together they are the lines of a search with this end. After an error a log whose lines were the clauses derives,
/// and its Formula and Bound lines are the first of those that are expected. It has no more Learnt lines than the
/// budget allows. Where the search stopped in a question, the log has all of these lines, the latest question has no
/// answer, and asks for the pair behind those that are there; no Model line answers the same one. Where it stopped
/// before the first question, there is no pair.
pub fn find_front<O: Oracle>(
    alloc: Global,
    oracle: &mut O,
    a: Criterion,
    b: Criterion,
) -> Result<FrontList, MinFault>
    requires ready { O.ready oracle.old }
    requires fresh { IsFresh (O.task oracle.old) (O.caps oracle.old) (O.vars oracle.old) }
    requires start { O.knows oracle.old (first_lines (O.task oracle.old)) }
    requires apart { a ≢ b }
    ensures right { IfOk result (λ r. IsRightFront (IsLawful (O.task oracle.old)) a b r.pairs r.ending) }
    ensures lines { IfOk result (λ r. let p = O.task oracle.old in
        ToldBehind (O.knows oracle.new) (O.log oracle.old) (O.log oracle.new) (O.learnt oracle.old)
        (O.learnt oracle.new) (first_lines p) (IsFrontAfter p a b r.pairs r.ending)) }
    ensures left { let p = O.task oracle.old in
        OnErr result (O.log oracle.old (first_lines p) → (lines : Lines) → O.log oracle.new lines →
        IsFrontLeft p a b lines) }
    ensures task { O.task oracle.new ≡ O.task oracle.old }
    ensures later { O.is_later oracle.old oracle.new }
    ensures faults { O.faults oracle.old ≤ O.faults oracle.new }
    ensures cause { IsErrOf result MinFault.Log → Rose (O.faults oracle.old) (O.faults oracle.new) }
{
    match build_both(oracle, a, b)? {
        Built::NoRoom => Ok(FrontList {
            pairs: PairList::new(alloc),
            ending: FrontEnd::Room,
        }),
        Built::Whole => collect(alloc, oracle, a, b),
    }
}
