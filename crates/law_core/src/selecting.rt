// The selecting variables of laws to choose.
ghost use Rattle.std.specs.Prelude.{◌≡◌, ◌≤◌, ◌+◌, ◌-◌, IfOk, map};
ghost use Rattle.cnf_core.specs.declared.limits.TheConstants.{VARS};
ghost use Rattle.law_core.specs.Law.{instance_of};
ghost use Rattle.law_core.specs.Choices.{choice_size, choices_size, selectors};

use crate::parties::Law;
use plan_core::OutOfMemory;
use std::alloc::Global;

/// How many variables a law to choose has: the selecting one, the one behind it, and its own.
fn choice_size(law: Law) -> u32
    ensures { result ≡ choice_size (instance_of law) }
{
    match law {
        Law::Ordered(_, _) | Law::Aligned(_) | Law::Over(_, _) => 2,
        Law::Apart(_, _) => 4,
        Law::Parted(_, _) => 3,
    }
}

/// How many variables laws to choose have.
fn choices_size(laws: &[Law]) -> u32
    requires few { choices_size (map instance_of laws.now) ≤ VARS + 1 }
    ensures { result ≡ choices_size (map instance_of laws.now) }
{
    let mut sum = 0;
    for law in laws {
        sum += choice_size(*law);
    }
    sum
}

/// The selecting variables of laws whose variables begin at this one.
fn selectors_from(alloc: Global, first: u32, laws: &[Law]) -> Result<Vec<u32>, OutOfMemory>
    requires few { first + choices_size (map instance_of laws.now) ≤ VARS + 1 }
    ensures { IfOk result (λ v. v.items ≡ selectors first (map instance_of laws.now)) }
{
    let mut selecting = Vec::new(alloc);
    let mut at = first;
    for law in laws {
        selecting.push(at)?;
        at += choice_size(*law);
    }
    Ok(selecting)
}

/// The selecting variables of laws behind which a formula has no further variable.
pub(crate) fn selectors_of(alloc: Global, vars: u32, laws: &[Law]) -> Result<Vec<u32>, OutOfMemory>
    requires few { vars ≤ VARS }
    requires room { choices_size (map instance_of laws.now) ≤ vars }
    ensures { IfOk result (λ v. v.items ≡ selectors (vars + 1 - choices_size (map instance_of laws.now))
        (map instance_of laws.now)) }
{
    let size = choices_size(laws);
    selectors_from(alloc, vars + 1 - size, laws)
}
