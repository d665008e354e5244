// Looking at one clause.
ghost use Rattle.std.specs.Prelude.{◌≡◌, ◌≤◌, ◌<◌, ◌+◌, ◌*◌, [], ◌∷◌, true, false, length};
ghost use Rattle.cnf_core.specs.Lit.{negate};
ghost use Rattle.cnf_core.specs.Clause.{AreThere, AreDistinct};
ghost use Rattle.cnf_core.specs.Propagation.{IsConsistent};
ghost use Rattle.cnf_core.specs.Trail.{marked};
ghost use Rattle.refute_check.specs.Scans.{IsScan, IsTruth};

use crate::places::Rest;
use cnf_core::Lit;

/// What a clause is where some literals are true.
pub(crate) enum Scan {
    /// All literals are false.
    Falsified,
    /// All literals but this one are false, and this one is neither.
    Unit(Lit),
    /// A literal is true, or two aren't false.
    Quiet,
}

/// What a literal is.
pub(crate) enum Truth {
    True,
    False,
    Unset,
}

/// Whether the literal is marked, or its negation is, or none of them. One that is marked beside its
/// negation is true.
pub(crate) fn truth_of(truth: &[bool], vars: u32, l: Lit) -> Truth
    requires table { length truth.now ≡ 2 * vars + 2 }
    requires there { l.var ≤ vars }
    ensures { IsTruth (marked truth.now) l result }
{
    if truth[l.word() as usize] {
        return Truth::True;
    }
    if truth[l.negated().word() as usize] {
        return Truth::False;
    }
    Truth::Unset
}

/// Looks at a clause, up to its second literal that isn't false.
pub(crate) fn scan_clause(clause: &[Lit], truth: &[bool], vars: u32) -> Scan
    requires table { length truth.now ≡ 2 * vars + 2 }
    requires there { AreThere vars clause.now }
    requires distinct { AreDistinct clause.now }
    requires consistent { IsConsistent (marked truth.now) }
    ensures { IsScan (marked truth.now) clause.now result }
{
    let mut candidate: Option<Lit> = None;
    for l in clause {
        match truth_of(truth, vars, *l) {
            Truth::True => return Scan::Quiet,
            Truth::False => {}
            Truth::Unset => match candidate {
                None => candidate = Some(*l),
                Some(_) => return Scan::Quiet,
            },
        }
    }
    match candidate {
        None => Scan::Falsified,
        Some(u) => Scan::Unit(u),
    }
}

/// Looks at the literals of a clause beside a false one.
pub(crate) fn scan_rest(rest: Rest, truth: &[bool], vars: u32) -> Scan
    requires table { length truth.now ≡ 2 * vars + 2 }
    requires first { rest.first.var ≤ vars }
    requires last { rest.last.var ≤ vars }
    requires consistent { IsConsistent (marked truth.now) }
    ensures { IsScan (marked truth.now) (rest.first ∷ rest.last ∷ []) result }
{
    match truth_of(truth, vars, rest.first) {
        Truth::True => Scan::Quiet,
        Truth::False => match truth_of(truth, vars, rest.last) {
            Truth::True => Scan::Quiet,
            Truth::False => Scan::Falsified,
            Truth::Unset => Scan::Unit(rest.last),
        },
        Truth::Unset => match truth_of(truth, vars, rest.last) {
            Truth::True => Scan::Quiet,
            Truth::False => Scan::Unit(rest.first),
            Truth::Unset => {
                if rest.first == rest.last {
                    Scan::Unit(rest.first)
                } else {
                    Scan::Quiet
                }
            }
        },
    }
}
