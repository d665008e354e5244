// The whole search.
ghost use Rattle.std.specs.Prelude.{◌≡◌, ◌≤◌, ◌++◌, [], OnErr, IfOk, IsErrOf};
ghost use Rattle.outside_io.specs.Counts.{Rose};
ghost use Rattle.search_why.specs.Task.{HasAllLaws};
ghost use Rattle.refute_log.specs.Steps.{Continues, Leaves};
ghost use Rattle.search_why.specs.Outcome.{IsRightOutcome, TellsOutcome};

use crate::narrowing::narrow;
use crate::oracle::{LawOracle, Reply};
use crate::places::{all_places, keep_only};
use crate::{Outcome, WhyFault};
use std::alloc::Global;

/// A lawful drawing, or laws that explain why there is none and of which none can be left out, or as far as the search
/// comes. What the outcome says of drawings holds with every log. A search that stopped keeps no lawful drawing back.
/// After an error a log whose lines were the known ones derives, has no further Formula line, and no more Learnt lines
/// than the budget allows.
pub fn find_laws<O: LawOracle>(alloc: Global, oracle: &mut O) -> Result<Outcome, WhyFault>
    requires ready { O.ready oracle.old }
    requires laws { HasAllLaws (O.task oracle.old) }
    ensures right { IfOk result (IsRightOutcome (O.task oracle.old)) }
    ensures lines { IfOk result (λ o. Continues O.knows O.log O.learnt oracle.old oracle.new (λ lines more.
        TellsOutcome (O.task oracle.old) o lines more)) }
    ensures leaves { OnErr result (Leaves (O.task oracle.old).budget [] (O.knows oracle.old) (O.log oracle.old)
        (O.log oracle.new)) }
    ensures task { O.task oracle.new ≡ O.task oracle.old }
    ensures later { O.is_later oracle.old oracle.new }
    ensures faults { O.faults oracle.old ≤ O.faults oracle.new }
    ensures cause { IsErrOf result WhyFault.Log → Rose (O.faults oracle.old) (O.faults oracle.new) }
{
    let mut all = all_places(alloc, oracle.laws())?;
    match oracle.ask(&all)? {
        Reply::Found(d) => Ok(Outcome::Exists(d)),
        Reply::Refuted(core) => {
            keep_only(&mut all, core.as_slice());
            narrow(alloc, oracle, all)
        }
        Reply::Stopped(stop) => Ok(Outcome::Stopped(stop)),
    }
}
