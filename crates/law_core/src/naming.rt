// The laws of an explanation by their names.
ghost use Rattle.std.specs.Prelude.{◌≡◌, ◌<◌, All, IfOk, length, map};
ghost use Rattle.plan_core.specs.Lawful.{Instance};
ghost use Rattle.lawful_check.specs.Breaks.{break_of};
ghost use Rattle.law_core.specs.Law.{instance_of};
ghost use Rattle.law_core.specs.Chosen.{listed_law};
ghost use Rattle.law_core.specs.Why.{HasLawPlaces, IsWhyOf};

use crate::ending::Why;
use crate::parties::Law;
use lawful_check::LawBreak;
use plan_core::{Items, OutOfMemory};
use refute_log::Stop;
use search_why::Outcome;
use std::alloc::Global;

/// The name of the law at a place.
fn name_at(laws: &[Law], n: u32) -> LawBreak
    requires { n < length laws.now }
    ensures { result ≡ break_of (listed_law (map instance_of laws.now) n) }
{
    laws[n as usize].named()
}

/// The names of the laws at these places.
fn names_of(alloc: Global, laws: &[Law], places: &[u32]) -> Result<Vec<LawBreak>, OutOfMemory>
    requires { All (λ n. n < length laws.now) places.now }
    ensures { IfOk result (λ v. v.items ≡ map (λ n. break_of (listed_law (map instance_of laws.now) n)) places.now) }
{
    let mut names = Vec::new(alloc);
    for n in places {
        names.push(name_at(laws, *n))?;
    }
    Ok(names)
}

/// The answer of a search that came to this, among these laws.
pub(crate) fn answer_of(alloc: Global, laws: &[Law], outcome: Outcome) -> Result<Why, OutOfMemory>
    requires { HasLawPlaces (length laws.now) outcome }
    ensures { IfOk result (IsWhyOf (map instance_of laws.now) outcome) }
{
    match outcome {
        Outcome::Exists(d) => Ok(Why::Exists(d)),
        Outcome::Laws { places, without } => Ok(Why::Laws {
            laws: Items::from_vec(names_of(alloc, laws, places.as_slice())?),
            without,
        }),
        Outcome::Stopped(Stop::BudgetSpent) => Ok(Why::Spent),
        Outcome::Stopped(Stop::RoomFull) => Ok(Why::Room),
    }
}
