// Laws 4, 6 and 7 for all nodes and edges.
ghost use Rattle.std.specs.Prelude.{◌≡◌, ◌≤◌, ◌<◌, ◌+◌, ◌-◌, ◌*◌, length, [], ◌∷◌, cond, ◌||◌, not};
ghost use Rattle.cnf_core.specs.declared.limits.TheConstants.{VARS};
ghost use Rattle.cnf_core.specs.declared.literal.LitOrTruth.TheVariants.{False};
ghost use Rattle.cnf_core.specs.Clause.{AreThere};
ghost use Rattle.cnf_core.specs.Added.{AddsClauses, AddsBlock};
ghost use Rattle.plan_core.specs.Lawful.{Aligned, Over, Parted};
ghost use Rattle.port_graph.specs.Plain.{plain_ports};
ghost use Rattle.track_order.specs.Order.{is_above, is_overlap};
ghost use Rattle.edge_shape.specs.EdgeVars.{edge_spot, edge_size, lits_of, EdgeIsPlaced};
ghost use Rattle.cnf_laws.specs.Guards.{unless_rules};
ghost use Rattle.cnf_laws.specs.Stands.{slope_vars};
ghost use Rattle.cnf_laws.specs.LawClauses.{flat_rules, same_rules, switch_rules, crossing_rules, aligned_clauses};
ghost use Rattle.cnf_laws.specs.LawClauses.{over_clauses, parted_clauses};
ghost use Rattle.cnf_laws.specs.Expected.{drawing_vars, laws_first, edge_first, instances_from, pairs_from};
ghost use Rattle.cnf_laws.specs.Expected.{instance_pairs};
ghost use Rattle.cnf_laws.specs.Expected.{below_by, pair_by, edge_pair};
ghost use Rattle.cnf_laws.specs.AddsLaws.{AddsLaws};

use crate::aligned::{EndOf, add_crossing, add_flat, add_same, add_switch};
use crate::over::{SharingEdge, add_over, add_parted};
use crate::rank::node_vars;
use cnf_core::{CnfFault, Formula, Lit, LitOrTruth};
use edge_shape::EdgeVars;
use plan_core::{Compass, EdgeNo, Grid, NodeNo, Side};
use port_graph::{PortGraph, Ports};
use track_order::TrackOrder;

/// The variables of an edge, in each formula that begins with those of a graph's nodes and edges on a grid.
pub fn edge_vars(g: &PortGraph, grid: &Grid, e: EdgeNo) -> EdgeVars
    requires { e.0 < length g.now.edges }
    ensures lits { lits_of result ≡ (drawing_vars g.now grid.now).edge e.0 }
    ensures edge { result ≡ edge_spot (edge_first g.now grid.now e.0) grid.now.height grid.now.width }
    ensures within { edge_first g.now grid.now e.0 + edge_size grid.now.height grid.now.width ≤ laws_first g.now
        grid.now }
{
    let high = u32::from(grid.height());
    let width = u32::from(grid.width());
    // what the types keep
    let _ = g.edges();
    let first = 1 + u32::from(g.nodes()) * (high + width);
    let size = 6 + high + width * (high + 5);
    EdgeVars::at(first + u32::from(e.0) * size, grid)
}

/// Law 4 at an end.
fn add_end(
    f: &mut Formula,
    g: &PortGraph,
    grid: &Grid,
    n: NodeNo,
    e: EdgeNo,
    unless: &[Lit],
) -> Result<(), CnfFault>
    requires there { laws_first g.now grid.now ≤ f.old.vars + 1 }
    requires e { e.0 < length g.now.edges }
    requires unless { AreThere f.old.vars unless.now }
    ensures { AddsClauses result f.old f.new
        (unless_rules unless.now (flat_rules (slope_vars g.now (drawing_vars g.now grid.now) n.0 e.0)))
        (length unless.now + 2) }
{
    let vars = edge_vars(g, grid, e);
    add_flat(
        f,
        &EndOf {
            edge: &vars,
            west: g.west(e) == n,
        },
        unless,
    )
}

/// Law 4 at a joint.
fn add_joint(
    f: &mut Formula,
    g: &PortGraph,
    grid: &Grid,
    n: NodeNo,
    west: EdgeNo,
    east: EdgeNo,
    unless: &[Lit],
) -> Result<(), CnfFault>
    requires there { laws_first g.now grid.now ≤ f.old.vars + 1 }
    requires west { west.0 < length g.now.edges }
    requires east { east.0 < length g.now.edges }
    requires unless { AreThere f.old.vars unless.now }
    ensures { AddsClauses result f.old f.new
        (unless_rules unless.now
        (same_rules (slope_vars g.now (drawing_vars g.now grid.now) n.0 west.0)
        (slope_vars g.now (drawing_vars g.now grid.now) n.0 east.0))) (length unless.now + 2) }
{
    let west_vars = edge_vars(g, grid, west);
    let east_vars = edge_vars(g, grid, east);
    add_same(
        f,
        &EndOf {
            edge: &west_vars,
            west: g.west(west) == n,
        },
        &EndOf {
            edge: &east_vars,
            west: g.west(east) == n,
        },
        unless,
    )
}

/// Law 6 for two edges: the first is over the second.
pub(crate) fn add_over_between(
    f: &mut Formula,
    g: &PortGraph,
    grid: &Grid,
    e: EdgeNo,
    h: EdgeNo,
    unless: &[Lit],
) -> Result<(), CnfFault>
    requires there { laws_first g.now grid.now ≤ f.old.vars + 1 }
    requires e { e.0 < length g.now.edges }
    requires h { h.0 < length g.now.edges }
    requires unless { AreThere f.old.vars unless.now }
    ensures { AddsClauses result f.old f.new
        (over_clauses g.now (drawing_vars g.now grid.now) grid.now.width e.0 h.0 False unless.now)
        (length unless.now + 7) }
{
    let e_vars = edge_vars(g, grid, e);
    let h_vars = edge_vars(g, grid, h);
    let (west, east) = (g.west(e), g.east(e));
    // what the types keep
    let _ = g.nodes();
    let west_vars = node_vars(g, grid, west);
    let east_vars = node_vars(g, grid, east);
    let higher = SharingEdge {
        edge: &e_vars,
        west: &west_vars.x,
        east: &east_vars.x,
        shares_west: g.west(h) == west || g.east(h) == west,
        shares_east: g.west(h) == east || g.east(h) == east,
    };
    add_over(
        f,
        &higher,
        &h_vars,
        grid.width(),
        &LitOrTruth::False,
        unless,
    )
}

/// Law 6 for two edges, as a part of the formula.
#[tactic(auto, using(crate::proofs::LawCode::one_law, cnf_core::proofs::BlockLemmas::block_of_clauses))]
fn add_over_pair(
    f: &mut Formula,
    g: &PortGraph,
    grid: &Grid,
    e: EdgeNo,
    h: EdgeNo,
) -> Result<(), CnfFault>
    requires there { laws_first g.now grid.now ≤ f.old.vars + 1 }
    requires e { e.0 < length g.now.edges }
    requires h { h.0 < length g.now.edges }
    ensures { AddsLaws result f.old f.new g.now (drawing_vars g.now grid.now) grid.now.width (Over e.0 h.0 ∷ []) 7 }
{
    add_over_between(f, g, grid, e, h, &[])
}

/// Law 7 for two edges: one of them is over the other.
pub(crate) fn add_parted_between(
    f: &mut Formula,
    g: &PortGraph,
    grid: &Grid,
    e: EdgeNo,
    h: EdgeNo,
    unless: &[Lit],
) -> Result<(), CnfFault>
    requires there { laws_first g.now grid.now ≤ f.old.vars + 1 }
    requires e { e.0 < length g.now.edges }
    requires h { h.0 < length g.now.edges }
    requires unless { AreThere f.old.vars unless.now }
    ensures { AddsBlock result f.old f.new 1
        (parted_clauses g.now (drawing_vars g.now grid.now) grid.now.width e.0 h.0 (f.old.vars + 1) unless.now)
        (length unless.now + 7) }
{
    let e_vars = edge_vars(g, grid, e);
    let h_vars = edge_vars(g, grid, h);
    let (e_west, e_east) = (g.west(e), g.east(e));
    let (h_west, h_east) = (g.west(h), g.east(h));
    // what the types keep
    let _ = g.nodes();
    let (e_from, e_to) = (node_vars(g, grid, e_west), node_vars(g, grid, e_east));
    let (h_from, h_to) = (node_vars(g, grid, h_west), node_vars(g, grid, h_east));
    let one = SharingEdge {
        edge: &e_vars,
        west: &e_from.x,
        east: &e_to.x,
        shares_west: h_west == e_west || h_east == e_west,
        shares_east: h_west == e_east || h_east == e_east,
    };
    let two = SharingEdge {
        edge: &h_vars,
        west: &h_from.x,
        east: &h_to.x,
        shares_west: e_west == h_west || e_east == h_west,
        shares_east: e_west == h_east || e_east == h_east,
    };
    add_parted(f, &one, &two, grid.width(), unless)
}

/// Law 7 for two edges, as a part of the formula.
#[tactic(auto, using(crate::proofs::LawCode::one_law))]
fn add_parted_pair(
    f: &mut Formula,
    g: &PortGraph,
    grid: &Grid,
    e: EdgeNo,
    h: EdgeNo,
) -> Result<(), CnfFault>
    requires there { laws_first g.now grid.now ≤ f.old.vars + 1 }
    requires e { e.0 < length g.now.edges }
    requires h { h.0 < length g.now.edges }
    ensures { AddsLaws result f.old f.new g.now (drawing_vars g.now grid.now) grid.now.width (Parted e.0 h.0 ∷ []) 7 }
{
    add_parted_between(f, g, grid, e, h, &[])
}

/// Law 4 at a switch of the graph.
fn add_switch_at(
    f: &mut Formula,
    g: &PortGraph,
    grid: &Grid,
    n: NodeNo,
    legs: Compass,
    branch: Side,
    trunk: EdgeNo,
    straight: EdgeNo,
    diverging: EdgeNo,
    unless: &[Lit],
) -> Result<(), CnfFault>
    requires there { laws_first g.now grid.now ≤ f.old.vars + 1 }
    requires trunk { trunk.0 < length g.now.edges }
    requires straight { straight.0 < length g.now.edges }
    requires diverging { diverging.0 < length g.now.edges }
    requires unless { AreThere f.old.vars unless.now }
    ensures { let at = slope_vars g.now (drawing_vars g.now grid.now) n.0 in
        AddsClauses result f.old f.new
        (unless_rules unless.now (switch_rules legs branch (at trunk.0) (at straight.0) (at diverging.0)))
        (length unless.now + 2) }
{
    let a = edge_vars(g, grid, trunk);
    let b = edge_vars(g, grid, straight);
    let c = edge_vars(g, grid, diverging);
    add_switch(
        f,
        legs,
        branch,
        &EndOf {
            edge: &a,
            west: g.west(trunk) == n,
        },
        &EndOf {
            edge: &b,
            west: g.west(straight) == n,
        },
        &EndOf {
            edge: &c,
            west: g.west(diverging) == n,
        },
        unless,
    )
}

/// Law 4 at a crossing of the graph.
fn add_crossing_at(
    f: &mut Formula,
    g: &PortGraph,
    grid: &Grid,
    n: NodeNo,
    west_upper: EdgeNo,
    west_lower: EdgeNo,
    east_upper: EdgeNo,
    east_lower: EdgeNo,
    unless: &[Lit],
) -> Result<(), CnfFault>
    requires there { laws_first g.now grid.now ≤ f.old.vars + 1 }
    requires a { west_upper.0 < length g.now.edges }
    requires b { west_lower.0 < length g.now.edges }
    requires c { east_upper.0 < length g.now.edges }
    requires d { east_lower.0 < length g.now.edges }
    requires unless { AreThere f.old.vars unless.now }
    ensures { let s = slope_vars g.now (drawing_vars g.now grid.now) n.0 in
        AddsClauses result f.old f.new (unless_rules unless.now (crossing_rules (s west_upper.0) (s west_lower.0)
        (s east_upper.0) (s east_lower.0))) (length unless.now + 2) }
{
    let a = edge_vars(g, grid, west_upper);
    let b = edge_vars(g, grid, west_lower);
    let c = edge_vars(g, grid, east_upper);
    let d = edge_vars(g, grid, east_lower);
    add_crossing(
        f,
        &EndOf {
            edge: &a,
            west: g.west(west_upper) == n,
        },
        &EndOf {
            edge: &b,
            west: g.west(west_lower) == n,
        },
        &EndOf {
            edge: &c,
            west: g.west(east_upper) == n,
        },
        &EndOf {
            edge: &d,
            west: g.west(east_lower) == n,
        },
        unless,
    )
}

/// Law 4 at a node.
pub(crate) fn add_ports(
    f: &mut Formula,
    g: &PortGraph,
    grid: &Grid,
    n: NodeNo,
    unless: &[Lit],
) -> Result<(), CnfFault>
    requires there { laws_first g.now grid.now ≤ f.old.vars + 1 }
    requires n { n.0 < length g.now.nodes }
    requires unless { AreThere f.old.vars unless.now }
    ensures { AddsClauses result f.old f.new (aligned_clauses g.now (drawing_vars g.now grid.now) n.0 unless.now)
        (length unless.now + 2) }
{
    match g.ports(n) {
        Ports::End { edge, .. } => add_end(f, g, grid, n, edge, unless),
        Ports::Joint { west, east } => add_joint(f, g, grid, n, west, east, unless),
        Ports::Switch {
            legs,
            branch,
            trunk,
            straight,
            diverging,
        } => add_switch_at(
            f, g, grid, n, legs, branch, trunk, straight, diverging, unless,
        ),
        Ports::Crossing {
            west_upper,
            west_lower,
            east_upper,
            east_lower,
        } => add_crossing_at(
            f, g, grid, n, west_upper, west_lower, east_upper, east_lower, unless,
        ),
    }
}

/// Law 4 for a node.
#[tactic(auto, using(crate::proofs::LawCode::one_law_added))]
fn add_aligned_node(f: &mut Formula, g: &PortGraph, grid: &Grid, n: u16) -> Result<(), CnfFault>
    requires there { laws_first g.now grid.now ≤ f.old.vars + 1 }
    requires n { n < length g.now.nodes }
    ensures { AddsLaws result f.old f.new g.now (drawing_vars g.now grid.now) grid.now.width (Aligned n ∷ []) 7 }
{
    add_ports(f, g, grid, NodeNo(n), &[])
}

/// Law 4 for each node.
pub(crate) fn add_aligned_nodes(f: &mut Formula, g: &PortGraph, grid: &Grid) -> Result<(), CnfFault>
    requires there { laws_first g.now grid.now ≤ f.old.vars + 1 }
    ensures { AddsLaws result f.old f.new g.now (drawing_vars g.now grid.now) grid.now.width
        (instances_from (λ n. Aligned n ∷ []) 0 (length g.now.nodes)) 7 }
{
    let end = g.nodes();
    for n in 0..end {
        add_aligned_node(f, g, grid, n)?;
    }
    Ok(())
}

/// Law 6 for two edges, where the first is above the second.
fn add_over_where(
    f: &mut Formula,
    g: &PortGraph,
    grid: &Grid,
    above: bool,
    e: EdgeNo,
    h: EdgeNo,
) -> Result<(), CnfFault>
    requires there { laws_first g.now grid.now ≤ f.old.vars + 1 }
    requires e { e.0 < length g.now.edges }
    requires h { h.0 < length g.now.edges }
    ensures { AddsLaws result f.old f.new g.now (drawing_vars g.now grid.now) grid.now.width
        (cond above (Over e.0 h.0 ∷ []) [])
        7 }
{
    if above {
        return add_over_pair(f, g, grid, e, h);
    }
    Ok(())
}

/// Law 7 for two edges, where neither is above the other and they overlap.
fn add_parted_where(
    f: &mut Formula,
    g: &PortGraph,
    grid: &Grid,
    other: bool,
    e: EdgeNo,
    h: EdgeNo,
) -> Result<(), CnfFault>
    requires there { laws_first g.now grid.now ≤ f.old.vars + 1 }
    requires e { e.0 < length g.now.edges }
    requires h { h.0 < length g.now.edges }
    ensures { AddsLaws result f.old f.new g.now (drawing_vars g.now grid.now) grid.now.width
        (cond other [] (Parted e.0 h.0 ∷ []))
        7 }
{
    if other {
        return Ok(());
    }
    add_parted_pair(f, g, grid, e, h)
}

/// One of two edges is above the other, or they don't overlap.
pub fn is_settled(above: bool, below: bool, overlap: bool) -> bool
    ensures { result ≡ (above || (below || not overlap)) }
{
    above || (below || !overlap)
}

/// Law 6 for the second edge over the first, and law 7.
fn add_below_by(
    f: &mut Formula,
    g: &PortGraph,
    grid: &Grid,
    above: bool,
    below: bool,
    overlap: bool,
    e: EdgeNo,
    h: EdgeNo,
) -> Result<(), CnfFault>
    requires there { laws_first g.now grid.now ≤ f.old.vars + 1 }
    requires e { e.0 < length g.now.edges }
    requires h { h.0 < length g.now.edges }
    ensures { AddsLaws result f.old f.new g.now (drawing_vars g.now grid.now) grid.now.width
        (below_by above below overlap e.0 h.0) 7 }
{
    add_over_where(f, g, grid, below, h, e)?;
    add_parted_where(f, g, grid, is_settled(above, below, overlap), e, h)
}

/// Laws 6 and 7 for two edges, by which is above which.
fn add_pair_by(
    f: &mut Formula,
    g: &PortGraph,
    grid: &Grid,
    above: bool,
    below: bool,
    overlap: bool,
    e: EdgeNo,
    h: EdgeNo,
) -> Result<(), CnfFault>
    requires there { laws_first g.now grid.now ≤ f.old.vars + 1 }
    requires e { e.0 < length g.now.edges }
    requires h { h.0 < length g.now.edges }
    ensures { AddsLaws result f.old f.new g.now (drawing_vars g.now grid.now) grid.now.width
        (pair_by above below overlap e.0 h.0)
        7 }
{
    add_over_where(f, g, grid, above, e, h)?;
    add_below_by(f, g, grid, above, below, overlap, e, h)
}

/// Laws 6 and 7 for two edges.
fn add_edge_pair(
    f: &mut Formula,
    g: &PortGraph,
    grid: &Grid,
    t: &TrackOrder,
    e: u16,
    h: u16,
) -> Result<(), CnfFault>
    requires there { laws_first g.now grid.now ≤ f.old.vars + 1 }
    requires edges { t.now.edges ≡ length g.now.edges }
    requires e { e < length g.now.edges }
    requires h { h < length g.now.edges }
    ensures { AddsLaws result f.old f.new g.now (drawing_vars g.now grid.now) grid.now.width
        (edge_pair (is_above t.now) (is_overlap t.now) e h) 7 }
{
    let (one, two) = (EdgeNo(e), EdgeNo(h));
    add_pair_by(
        f,
        g,
        grid,
        t.above(one, two),
        t.above(two, one),
        t.overlap(one, two),
        one,
        two,
    )
}

/// Laws 6 and 7 for an edge and each behind it.
fn add_edge_row(
    f: &mut Formula,
    g: &PortGraph,
    grid: &Grid,
    t: &TrackOrder,
    e: u16,
) -> Result<(), CnfFault>
    requires there { laws_first g.now grid.now ≤ f.old.vars + 1 }
    requires edges { t.now.edges ≡ length g.now.edges }
    requires e { e < length g.now.edges }
    ensures { AddsLaws result f.old f.new g.now (drawing_vars g.now grid.now) grid.now.width
        (pairs_from (length g.now.edges) (edge_pair (is_above t.now) (is_overlap t.now)) e) 7 }
{
    let end = g.edges();
    for h in e + 1..end {
        add_edge_pair(f, g, grid, t, e, h)?;
    }
    Ok(())
}

/// Laws 6 and 7 for each two edges.
pub(crate) fn add_edge_pairs(
    f: &mut Formula,
    g: &PortGraph,
    grid: &Grid,
    t: &TrackOrder,
) -> Result<(), CnfFault>
    requires there { laws_first g.now grid.now ≤ f.old.vars + 1 }
    requires edges { t.now.edges ≡ length g.now.edges }
    ensures { AddsLaws result f.old f.new g.now (drawing_vars g.now grid.now) grid.now.width
        (instance_pairs (length g.now.edges) (edge_pair (is_above t.now) (is_overlap t.now))) 7 }
{
    let end = g.edges();
    for e in 0..end {
        add_edge_row(f, g, grid, t, e)?;
    }
    Ok(())
}
