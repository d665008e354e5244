// Laws that can't be met together, and none of which can be left out.
ghost use Rattle.std.specs.Prelude.{◌≡◌, ◌≤◌, ◌++◌, ◌∷◌, [], None, OnOk, OnErr, IfOk, IsErrOf, length};
ghost use Rattle.outside_io.specs.Counts.{Rose};
ghost use Rattle.search_why.specs.declared.outcome.Outcome.TheVariants.{Laws};
ghost use Rattle.search_why.specs.Task.{HasAllLaws};
ghost use Rattle.search_why.specs.Narrowed.{IsNarrowed, TellsNarrowed};
ghost use Rattle.refute_log.specs.Steps.{Continues, Leaves};
ghost use Rattle.search_why.specs.Asked.{AreLawPlaces, NoneMeetsLaws, TellsStop};
ghost use Rattle.search_why.specs.Outcome.{IsRightOutcome};

use crate::oracle::{LawOracle, Reply};
use crate::places::{both, keep_only};
use crate::{Outcome, WhyFault};
use plan_core::Items;
use plan_geometry::Drawing;
use refute_log::Stop;
use std::alloc::Global;

/// The laws that can't be left out, those that are still left to take away, and a drawing without each of the first.
#[derive(Drop)]
struct Progress {
    kept: Vec<u32>,
    left: Vec<u32>,
    without: Vec<Drawing>,
}

/// Takes a law away: where the others can't be met together it is left out, and else it is kept.
fn take_away<O: LawOracle>(
    alloc: Global,
    oracle: &mut O,
    progress: &mut Progress,
    law: u32,
) -> Result<Option<Stop>, WhyFault>
    requires ready { O.ready oracle.old }
    requires narrowed { IsNarrowed (O.task oracle.old) progress.old.kept.items (progress.old.left.items ++ law ∷ [])
        progress.old.without.items }
    ensures ready { OnOk result (O.ready oracle.new) }
    ensures narrowed { IfOk result (λ s. s ≡ None →
        IsNarrowed (O.task oracle.old) progress.new.kept.items progress.new.left.items progress.new.without.items) }
    ensures fewer { length progress.new.left.items ≤ length progress.old.left.items }
    ensures lines { IfOk result (λ s. Continues O.knows O.log O.learnt oracle.old oracle.new (λ lines more.
        TellsStop (O.task oracle.old) s (lines ++ more))) }
    ensures leaves { OnErr result (Leaves (O.task oracle.old).budget [] (O.knows oracle.old) (O.log oracle.old)
        (O.log oracle.new)) }
    ensures task { O.task oracle.new ≡ O.task oracle.old }
    ensures later { O.is_later oracle.old oracle.new }
    ensures faults { O.faults oracle.old ≤ O.faults oracle.new }
    ensures cause { IsErrOf result WhyFault.Log → Rose (O.faults oracle.old) (O.faults oracle.new) }
{
    let wanted = both(alloc, &progress.kept, &progress.left)?;
    match oracle.ask(&wanted)? {
        Reply::Found(d) => {
            progress.kept.push(law)?;
            progress.without.push(d)?;
            Ok(None)
        }
        Reply::Refuted(core) => {
            keep_only(&mut progress.left, core.as_slice());
            Ok(None)
        }
        Reply::Stopped(stop) => Ok(Some(stop)),
    }
}

/// The laws left to take away, before any was taken.
fn begin(alloc: Global, left: Vec<u32>) -> Progress
    ensures kept { result.kept.items ≡ [] }
    ensures left { result.left.items ≡ left.items }
    ensures without { result.without.items ≡ [] }
{
    Progress {
        kept: Vec::new(alloc),
        left,
        without: Vec::new(alloc),
    }
}

/// The laws that can't be left out, with their drawings.
fn finish(progress: Progress) -> Outcome
    ensures { result ≡ Laws progress.kept.items progress.without.items }
{
    let Progress { kept, without, .. } = progress;
    Outcome::Laws {
        places: Items::from_vec(kept),
        without: Items::from_vec(without),
    }
}

/// Takes one law after another away.
pub(crate) fn narrow<O: LawOracle>(
    alloc: Global,
    oracle: &mut O,
    left: Vec<u32>,
) -> Result<Outcome, WhyFault>
    requires ready { O.ready oracle.old }
    requires laws { HasAllLaws (O.task oracle.old) }
    requires places { AreLawPlaces (O.task oracle.old) left.items }
    requires none { NoneMeetsLaws (O.task oracle.old) left.items }
    ensures right { IfOk result (IsRightOutcome (O.task oracle.old)) }
    ensures lines { IfOk result (λ o. Continues O.knows O.log O.learnt oracle.old oracle.new (λ lines more.
        TellsNarrowed (O.task oracle.old) o (lines ++ more))) }
    ensures leaves { OnErr result (Leaves (O.task oracle.old).budget [] (O.knows oracle.old) (O.log oracle.old)
        (O.log oracle.new)) }
    ensures task { O.task oracle.new ≡ O.task oracle.old }
    ensures later { O.is_later oracle.old oracle.new }
    ensures faults { O.faults oracle.old ≤ O.faults oracle.new }
    ensures cause { IsErrOf result WhyFault.Log → Rose (O.faults oracle.old) (O.faults oracle.new) }
{
    let mut progress = begin(alloc, left);
    while let Some(law) = progress.left.pop() {
        if let Some(stop) = take_away(alloc, oracle, &mut progress, law)? {
            return Ok(Outcome::Stopped(stop));
        }
    }
    Ok(finish(progress))
}
