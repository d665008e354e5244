// The search for the least count.
ghost use Rattle.std.specs.Prelude.{◌≡◌, ◌≤◌, ◌++◌, [], IfOk, OnErr, IsErrOf};
ghost use Rattle.outside_io.specs.Counts.{Rose};
ghost use Rattle.refute_log.specs.Steps.{ToldBehind, Continues, KnowsSome, Leaves};
ghost use Rattle.search_least.specs.Fewest.{IsRightFewest, IsFewestLog, formula_lines};
ghost use Rattle.search_least.specs.CountTask.{IsOne};
ghost use Rattle.search_least.specs.Run.{IsRunOfDrawings, IsRunToEnd};

use crate::fewest::stopped_with;
use crate::{Answer, CountOracle, Fewest, MinFault};
use plan_geometry::Drawing;

/// From the first drawing on: asks for less until there is none.
fn lower<Q: CountOracle>(questions: &mut Q, first: Drawing) -> Result<Fewest, MinFault>
    requires ready { Q.ready questions.old }
    requires known { KnowsSome Q.knows questions.old }
    requires one { IsOne (Q.task questions.old) first }
    ensures task { Q.task questions.new ≡ Q.task questions.old }
    ensures right { IfOk result (IsRightFewest (Q.task questions.old)) }
    ensures lines { let p = Q.task questions.old in
        IfOk result (λ r. Continues Q.knows Q.log Q.learnt questions.old questions.new
        (IsRunToEnd p (p.count first) r)) }
    ensures leaves { OnErr result (Leaves (Q.task questions.old).budget [] (Q.knows questions.old)
        (Q.log questions.old) (Q.log questions.new)) }
    ensures later { Q.is_later questions.old questions.new }
    ensures faults { Q.faults questions.old ≤ Q.faults questions.new }
    ensures cause { IsErrOf result MinFault.Log → Rose (Q.faults questions.old) (Q.faults questions.new) }
{
    let mut best = first;
    let mut count = questions.count(&best);
    while count > 0 {
        match questions.ask(Some(count))? {
            Answer::Found(d) => {
                count = questions.count(&d);
                best = d;
            }
            Answer::Refuted => {
                return Ok(Fewest::Best(best));
            }
            Answer::Stopped(stop) => {
                return Ok(stopped_with(stop, Some(best)));
            }
        }
    }
    Ok(Fewest::Best(best))
}

/// A drawing with the least count, or as far as the search comes: it asks for any drawing, and then for a smaller count
/// until there is none. What the outcome says of drawings holds with every log. The search gives the log further lines
/// behind the formula; together they are the lines of a search with this outcome. After an error a log whose lines were
/// the known ones derives, has no further Formula line, and no more Learnt lines than the budget allows.
pub fn least_count<Q: CountOracle>(questions: &mut Q) -> Result<Fewest, MinFault>
    requires ready { Q.ready questions.old }
    requires start { Q.knows questions.old (formula_lines (Q.task questions.old)) }
    ensures right { IfOk result (IsRightFewest (Q.task questions.old)) }
    ensures lines { IfOk result (λ r. let s = questions.old in let n = questions.new in let p = Q.task s in
        ToldBehind (Q.knows n) (Q.log s) (Q.log n) (Q.learnt s) (Q.learnt n) (formula_lines p)
        (λ more. IsFewestLog p r (formula_lines p ++ more))) }
    ensures leaves { OnErr result (Leaves (Q.task questions.old).budget [] (Q.knows questions.old)
        (Q.log questions.old) (Q.log questions.new)) }
    ensures task { Q.task questions.new ≡ Q.task questions.old }
    ensures later { Q.is_later questions.old questions.new }
    ensures faults { Q.faults questions.old ≤ Q.faults questions.new }
    ensures cause { IsErrOf result MinFault.Log → Rose (Q.faults questions.old) (Q.faults questions.new) }
{
    match questions.ask(None)? {
        Answer::Found(first) => lower(questions, first),
        Answer::Refuted => Ok(Fewest::NoDrawing),
        Answer::Stopped(stop) => Ok(stopped_with(stop, None)),
    }
}
