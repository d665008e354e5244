// Law 4: slopes at a node.
ghost use Rattle.std.specs.Prelude.{◌≡◌, ◌≤◌, ◌+◌, length};
ghost use Rattle.cnf_core.specs.declared.limits.TheConstants.{VARS};
ghost use Rattle.cnf_core.specs.declared.literal.LitOrTruth.TheVariants.{False};
ghost use Rattle.cnf_core.specs.Clause.{AreThere};
ghost use Rattle.cnf_core.specs.LitOrTruth.{yes, flip};
ghost use Rattle.cnf_core.specs.Added.{AddsClauses};
ghost use Rattle.edge_shape.specs.EdgeVars.{edge_size, lits_of, EdgeIsPlaced};
ghost use Rattle.cnf_laws.specs.Guards.{pair_clauses, unless_rules, PairsWithin};
ghost use Rattle.cnf_laws.specs.Stands.{end_slope};
ghost use Rattle.cnf_laws.specs.LawClauses.{flat_rules, same_rules, one_more_rules, greater_rules, diverge_rules};
ghost use Rattle.cnf_laws.specs.LawClauses.{switch_rules, falling_rules, crossing_rules};
ghost use Rattle.cnf_laws.specs.Parties.{slope_of};

use cnf_core::{CnfFault, Formula, Lit, LitOrTruth};
use edge_shape::EdgeVars;
use plan_core::{Compass, Side};

/// Adds the clauses of these lists, which hold unless one of the literals is true.
fn add_pairs(f: &mut Formula, lists: &[[LitOrTruth; 2]], unless: &[Lit]) -> Result<(), CnfFault>
    requires within { PairsWithin f.old.vars lists.now }
    requires unless { AreThere f.old.vars unless.now }
    ensures { AddsClauses result f.old f.new (pair_clauses unless.now lists.now) (length unless.now + 2) }
{
    for list in lists {
        f.add_clause(unless, list)?;
    }
    Ok(())
}

/// The west or the east end of an edge.
#[derive(Clone, Copy)]
pub(crate) struct EndOf<'a> {
    pub edge: &'a EdgeVars,
    pub west: bool,
}

/// "The line rises at this end."
fn rises(e: &EndOf) -> LitOrTruth
    ensures value { result ≡ yes (end_slope e.now.west (lits_of e.now.edge.now)).rises }
    ensures placed { EdgeIsPlaced e.now.edge.now.first e.now.edge.now.high e.now.edge.now.width }
{
    if e.west {
        e.edge.west_up()
    } else {
        e.edge.east_up()
    }
}

/// "The line falls at this end."
fn falls(e: &EndOf) -> LitOrTruth
    ensures value { result ≡ yes (end_slope e.now.west (lits_of e.now.edge.now)).falls }
    ensures placed { EdgeIsPlaced e.now.edge.now.first e.now.edge.now.high e.now.edge.now.width }
{
    if e.west {
        e.edge.west_down()
    } else {
        e.edge.east_down()
    }
}

const NO: LitOrTruth = LitOrTruth::False;

/// The line is level at this end.
pub(crate) fn add_flat(f: &mut Formula, a: &EndOf, unless: &[Lit]) -> Result<(), CnfFault>
    requires a_there { a.now.edge.now.first + edge_size a.now.edge.now.high a.now.edge.now.width ≤ f.old.vars + 1 }
    requires unless { AreThere f.old.vars unless.now }
    ensures { AddsClauses result f.old f.new
        (unless_rules unless.now (flat_rules (slope_of a.now))) (length unless.now + 2) }
{
    add_pairs(
        f,
        &[[rises(a).negated(), NO], [falls(a).negated(), NO]],
        unless,
    )
}

/// Two ends have one slope.
pub(crate) fn add_same(
    f: &mut Formula,
    a: &EndOf,
    b: &EndOf,
    unless: &[Lit],
) -> Result<(), CnfFault>
    requires a_there { a.now.edge.now.first + edge_size a.now.edge.now.high a.now.edge.now.width ≤ f.old.vars + 1 }
    requires b_there { b.now.edge.now.first + edge_size b.now.edge.now.high b.now.edge.now.width ≤ f.old.vars + 1 }
    requires unless { AreThere f.old.vars unless.now }
    ensures { AddsClauses result f.old f.new
        (unless_rules unless.now
        (same_rules (slope_of a.now) (slope_of b.now)))
        (length unless.now + 2) }
{
    add_pairs(
        f,
        &[
            [rises(a).negated(), rises(b)],
            [rises(b).negated(), rises(a)],
            [falls(a).negated(), falls(b)],
            [falls(b).negated(), falls(a)],
        ],
        unless,
    )
}

/// The second slope is one more than the first.
fn add_one_more(f: &mut Formula, a: &EndOf, b: &EndOf, unless: &[Lit]) -> Result<(), CnfFault>
    requires a_there { a.now.edge.now.first + edge_size a.now.edge.now.high a.now.edge.now.width ≤ f.old.vars + 1 }
    requires b_there { b.now.edge.now.first + edge_size b.now.edge.now.high b.now.edge.now.width ≤ f.old.vars + 1 }
    requires unless { AreThere f.old.vars unless.now }
    ensures { AddsClauses result f.old f.new
        (unless_rules unless.now
        (one_more_rules (slope_of a.now)
        (slope_of b.now)))
        (length unless.now + 2) }
{
    add_pairs(
        f,
        &[
            [rises(a).negated(), NO],
            [falls(b).negated(), NO],
            [falls(a), rises(b)],
            [falls(a).negated(), rises(b).negated()],
        ],
        unless,
    )
}

/// The second slope is the greater.
fn add_greater(f: &mut Formula, a: &EndOf, b: &EndOf, unless: &[Lit]) -> Result<(), CnfFault>
    requires a_there { a.now.edge.now.first + edge_size a.now.edge.now.high a.now.edge.now.width ≤ f.old.vars + 1 }
    requires b_there { b.now.edge.now.first + edge_size b.now.edge.now.high b.now.edge.now.width ≤ f.old.vars + 1 }
    requires unless { AreThere f.old.vars unless.now }
    ensures { AddsClauses result f.old f.new
        (unless_rules unless.now
        (greater_rules (slope_of a.now) (slope_of b.now)))
        (length unless.now + 2) }
{
    add_pairs(
        f,
        &[
            [falls(b).negated(), NO],
            [rises(a).negated(), NO],
            [rises(b), falls(a)],
        ],
        unless,
    )
}

/// The slope of the diverging leg.
fn add_diverging(
    f: &mut Formula,
    legs: Compass,
    branch: Side,
    a: &EndOf,
    b: &EndOf,
    unless: &[Lit],
) -> Result<(), CnfFault>
    requires a_there { a.now.edge.now.first + edge_size a.now.edge.now.high a.now.edge.now.width ≤ f.old.vars + 1 }
    requires b_there { b.now.edge.now.first + edge_size b.now.edge.now.high b.now.edge.now.width ≤ f.old.vars + 1 }
    requires unless { AreThere f.old.vars unless.now }
    ensures { AddsClauses result f.old f.new
        (unless_rules unless.now
        (diverge_rules legs branch (slope_of a.now)
        (slope_of b.now))) (length unless.now + 2) }
{
    match (legs, branch) {
        (Compass::East, Side::Upper) => add_one_more(f, a, b, unless),
        (Compass::East, Side::Lower) => add_one_more(f, b, a, unless),
        (Compass::West, Side::Upper) => add_one_more(f, b, a, unless),
        (Compass::West, Side::Lower) => add_one_more(f, a, b, unless),
    }
}

/// Law 4 at a switch.
pub(crate) fn add_switch(
    f: &mut Formula,
    legs: Compass,
    branch: Side,
    trunk: &EndOf,
    straight: &EndOf,
    diverging: &EndOf,
    unless: &[Lit],
) -> Result<(), CnfFault>
    requires trunk_there { trunk.now.edge.now.first + edge_size trunk.now.edge.now.high trunk.now.edge.now.width
        ≤ f.old.vars + 1 }
    requires straight_there { straight.now.edge.now.first + edge_size straight.now.edge.now.high
        straight.now.edge.now.width
        ≤ f.old.vars + 1 }
    requires diverging_there { diverging.now.edge.now.first + edge_size diverging.now.edge.now.high
        diverging.now.edge.now.width
        ≤ f.old.vars + 1 }
    requires unless { AreThere f.old.vars unless.now }
    ensures { AddsClauses result f.old f.new
        (unless_rules unless.now
        (switch_rules legs branch (slope_of trunk.now)
        (slope_of straight.now)
        (slope_of diverging.now))) (length unless.now + 2) }
{
    add_same(f, straight, trunk, unless)?;
    add_diverging(f, legs, branch, trunk, diverging, unless)
}

/// Law 4 for the falling path at a crossing, and which of the two is the rising one.
fn add_falling(
    f: &mut Formula,
    west_upper: &EndOf,
    west_lower: &EndOf,
    east_lower: &EndOf,
    unless: &[Lit],
) -> Result<(), CnfFault>
    requires a_there { west_upper.now.edge.now.first + edge_size west_upper.now.edge.now.high
        west_upper.now.edge.now.width
        ≤ f.old.vars + 1 }
    requires b_there { west_lower.now.edge.now.first + edge_size west_lower.now.edge.now.high
        west_lower.now.edge.now.width
        ≤ f.old.vars + 1 }
    requires c_there { east_lower.now.edge.now.first + edge_size east_lower.now.edge.now.high
        east_lower.now.edge.now.width
        ≤ f.old.vars + 1 }
    requires unless { AreThere f.old.vars unless.now }
    ensures { AddsClauses result f.old f.new
        (unless_rules unless.now
        (falling_rules (slope_of west_upper.now)
        (slope_of west_lower.now)
        (slope_of east_lower.now))) (length unless.now + 2) }
{
    add_same(f, west_upper, east_lower, unless)?;
    add_greater(f, west_upper, west_lower, unless)
}

/// Law 4 at a crossing.
pub(crate) fn add_crossing(
    f: &mut Formula,
    west_upper: &EndOf,
    west_lower: &EndOf,
    east_upper: &EndOf,
    east_lower: &EndOf,
    unless: &[Lit],
) -> Result<(), CnfFault>
    requires a_there { west_upper.now.edge.now.first + edge_size west_upper.now.edge.now.high
        west_upper.now.edge.now.width
        ≤ f.old.vars + 1 }
    requires b_there { west_lower.now.edge.now.first + edge_size west_lower.now.edge.now.high
        west_lower.now.edge.now.width
        ≤ f.old.vars + 1 }
    requires c_there { east_upper.now.edge.now.first + edge_size east_upper.now.edge.now.high
        east_upper.now.edge.now.width
        ≤ f.old.vars + 1 }
    requires d_there { east_lower.now.edge.now.first + edge_size east_lower.now.edge.now.high
        east_lower.now.edge.now.width
        ≤ f.old.vars + 1 }
    requires unless { AreThere f.old.vars unless.now }
    ensures { AddsClauses result f.old f.new
        (unless_rules unless.now
        (crossing_rules (slope_of west_upper.now)
        (slope_of west_lower.now)
        (slope_of east_upper.now)
        (slope_of east_lower.now))) (length unless.now + 2) }
{
    add_same(f, west_lower, east_upper, unless)?;
    add_falling(f, west_upper, west_lower, east_lower, unless)
}
