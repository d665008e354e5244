// The whole search.
ghost use Rattle.std.specs.Prelude.{◌≡◌, ◌≤◌, ◌<◌, ◌+◌, ◌++◌, [], None, All, IfOk, OnOk, OnErr, IsErrOf, length};
ghost use Rattle.std.specs.Prelude.{slice_get, Some};
ghost use Rattle.outside_io.specs.Counts.{Rose};
ghost use Rattle.plan_core.specs.Order.{IsOrder};
ghost use Rattle.search_least.specs.Task.{IsLawful};
ghost use Rattle.refute_log.specs.Steps.{ToldBehind, Continues, StillDerives};
ghost use Rattle.search_least.specs.State.{Counted, SearchState, LeavesSearch};
ghost use Rattle.search_least.specs.Outcome.{IsOutcome, IsRightOutcome, IsFresh, IsLeastLeft, first_lines};
ghost use Rattle.refute_log.specs.Told.{Lines};

use crate::advancing::advance;
use crate::oracle::{Oracle, Reply};
use crate::outcome::stopped_with;
use crate::{MinFault, Outcome};
use plan_core::Order;
use plan_geometry::Drawing;
use std::alloc::Global;

/// From the first drawing on.
fn improve<O: Oracle>(
    alloc: Global,
    oracle: &mut O,
    wanted: &Order,
    places: usize,
    first: Drawing,
) -> Result<Outcome, MinFault>
    requires ready { O.ready oracle.old }
    requires order { IsOrder wanted.now }
    requires places { places ≡ length wanted.now }
    requires counted { Counted (O.task oracle.old) wanted.now 0 (O.caps oracle.old) (O.vars oracle.old) }
    requires lawful { IsLawful (O.task oracle.old) first }
    ensures task { O.task oracle.new ≡ O.task oracle.old }
    ensures lines { IfOk result (λ o. Continues O.knows O.log O.learnt oracle.old oracle.new (λ lines more.
        SearchState (O.task oracle.old) wanted.now 0 [] first (O.caps oracle.old) lines →
        IsOutcome (O.task oracle.old) wanted.now o (lines ++ more))) }
    ensures left { let p = O.task oracle.old in
        OnErr result (LeavesSearch p wanted.now (SearchState p wanted.now 0 [] first (O.caps oracle.old))
        (O.knows oracle.old) (O.log oracle.old) (O.log oracle.new)) }
    ensures later { O.is_later oracle.old oracle.new }
    ensures faults { O.faults oracle.old ≤ O.faults oracle.new }
    ensures cause { IsErrOf result MinFault.Log → Rose (O.faults oracle.old) (O.faults oracle.new) }
{
    let mut best = first;
    let mut held = Vec::new(alloc);
    for i in 0..places {
        let advanced = advance(alloc, oracle, wanted, i, &mut held, best)?;
        match advanced.stop {
            Some(stop) => {
                return Ok(stopped_with(stop, Some(advanced.best), advanced.settled));
            }
            None => {
                best = advanced.best;
            }
        }
    }
    Ok(Outcome::Best(best))
}

/// From the first question on.
fn search<O: Oracle>(alloc: Global, oracle: &mut O, wanted: &Order) -> Result<Outcome, MinFault>
    requires ready { O.ready oracle.old }
    requires fresh { IsFresh (O.task oracle.old) (O.caps oracle.old) (O.vars oracle.old) }
    ensures lines { IfOk result (λ o. Continues O.knows O.log O.learnt oracle.old oracle.new (λ lines more.
        lines ≡ first_lines (O.task oracle.old) → IsOutcome (O.task oracle.old) wanted.now o (lines ++ more))) }
    ensures task { O.task oracle.new ≡ O.task oracle.old }
    ensures left { let p = O.task oracle.old in
        OnErr result (LeavesSearch p wanted.now (λ lines. lines ≡ first_lines p) (O.knows oracle.old)
        (O.log oracle.old) (O.log oracle.new)) }
    ensures later { O.is_later oracle.old oracle.new }
    ensures faults { O.faults oracle.old ≤ O.faults oracle.new }
    ensures cause { IsErrOf result MinFault.Log → Rose (O.faults oracle.old) (O.faults oracle.new) }
{
    let places = wanted.len();
    match oracle.ask(&[], None)? {
        Reply::Found(first) => improve(alloc, oracle, wanted, places, first),
        Reply::Refuted => Ok(Outcome::NoDrawing),
        Reply::Stopped(stop) => Ok(stopped_with(stop, None, 0)),
    }
}

/// A lawful drawing with the least values in the wanted order, or as far as the search comes. The oracle knows the
/// drawings' clauses, and no bound yet. What the outcome says of drawings holds with every log. The search gives the
/// log further lines behind the clauses; together they are the lines of a search with this outcome. After an error a
/// log whose lines were known derives. Where they were the clauses, its Formula and Bound lines are the first of those
/// that are expected, and it has no more Learnt lines than the budget allows.
pub fn least_values<O: Oracle>(
    alloc: Global,
    oracle: &mut O,
    wanted: &Order,
) -> Result<Outcome, MinFault>
    requires ready { O.ready oracle.old }
    requires fresh { IsFresh (O.task oracle.old) (O.caps oracle.old) (O.vars oracle.old) }
    requires start { O.knows oracle.old (first_lines (O.task oracle.old)) }
    ensures right { IfOk result (IsRightOutcome (O.task oracle.old) wanted.now) }
    ensures lines { IfOk result (λ o. let p = O.task oracle.old in let l = first_lines p in
        ToldBehind (O.knows oracle.new) (O.log oracle.old) (O.log oracle.new) (O.learnt oracle.old)
        (O.learnt oracle.new) l (λ m. IsOutcome p wanted.now o (l ++ m))) }
    ensures task { O.task oracle.new ≡ O.task oracle.old }
    ensures still { OnErr result (StillDerives (O.knows oracle.old) (O.log oracle.old) (O.log oracle.new)) }
    ensures left { let p = O.task oracle.old in
        OnErr result (O.log oracle.old (first_lines p) → (lines : Lines) → O.log oracle.new lines →
        IsLeastLeft p wanted.now lines) }
    ensures later { O.is_later oracle.old oracle.new }
    ensures faults { O.faults oracle.old ≤ O.faults oracle.new }
    ensures cause { IsErrOf result MinFault.Log → Rose (O.faults oracle.old) (O.faults oracle.new) }
{
    search(alloc, oracle, wanted)
}
