// What is reached from the two edges of each fork.
ghost use Rattle.std.specs.Prelude.{◌<◌, ◌∷◌, ◌++◌, ◌↔◌, [], List, length, IfOk, OnOk, IsTrue, All, Any};
ghost use Rattle.plan_core.specs.Graph.{node};
ghost use Rattle.track_order.specs.Above.{Fork, fork, leg_fork, forks};
ghost use Rattle.track_order.specs.Walks.{AreWalks};
ghost use Rattle.track_order.specs.Splits.{IsFitting, AreSplits, IsSplitBy, forks_before};

use crate::order::Row;
use crate::reaching::reach;
use crate::walking::Walks;
use plan_core::{Compass, EdgeNo, Items, NodeNo, OutOfMemory, Side};
use port_graph::{PortGraph, Ports};
use std::alloc::Global;

/// What is reached from the upper and from the lower edge of a fork, each with an entry for each
/// edge.
#[derive(Drop)]
pub(crate) struct Split {
    pub(crate) upper: Row,
    pub(crate) lower: Row,
}

/// Adds the split of the fork of these two edges.
#[tactic(auto, using(crate::proofs::SplitLemmas::splits_on))]
fn add_split(
    alloc: Global,
    g: &PortGraph,
    walks: &Walks,
    way: Compass,
    upper: EdgeNo,
    lower: EdgeNo,
    splits: &mut Items<Split>,
) -> Result<(), OutOfMemory>
    requires walks { AreWalks g.now walks.now }
    requires upper { upper.0 < length g.now.edges }
    requires lower { lower.0 < length g.now.edges }
    ensures { OnOk result ((of : List Fork) → AreSplits g.now of splits.old →
        AreSplits g.now (of ++ fork way upper.0 lower.0 ∷ []) splits.new) }
{
    let order = walks.order(way);
    let upper = reach(alloc, g, way, order, upper.0)?;
    let lower = reach(alloc, g, way, order, lower.0)?;
    splits.push(Split { upper, lower })
}

/// Adds the split of a switch's legs.
fn add_legs(
    alloc: Global,
    g: &PortGraph,
    walks: &Walks,
    legs: Compass,
    branch: Side,
    straight: EdgeNo,
    diverging: EdgeNo,
    splits: &mut Items<Split>,
) -> Result<(), OutOfMemory>
    requires walks { AreWalks g.now walks.now }
    requires straight { straight.0 < length g.now.edges }
    requires diverging { diverging.0 < length g.now.edges }
    ensures { OnOk result ((of : List Fork) → AreSplits g.now of splits.old →
        AreSplits g.now (of ++ leg_fork legs branch straight.0 diverging.0 ∷ []) splits.new) }
{
    match branch {
        Side::Upper => add_split(alloc, g, walks, legs, diverging, straight, splits),
        Side::Lower => add_split(alloc, g, walks, legs, straight, diverging, splits),
    }
}

/// Adds the splits of a node's forks.
fn add_splits(
    alloc: Global,
    g: &PortGraph,
    walks: &Walks,
    n: NodeNo,
    splits: &mut Items<Split>,
) -> Result<(), OutOfMemory>
    requires walks { AreWalks g.now walks.now }
    requires there { n.0 < length g.now.nodes }
    ensures { OnOk result ((of : List Fork) → AreSplits g.now of splits.old →
        AreSplits g.now (of ++ forks (node g.now n.0).ports) splits.new) }
{
    match g.ports(n) {
        Ports::End { .. } | Ports::Joint { .. } => Ok(()),
        Ports::Switch {
            legs,
            branch,
            straight,
            diverging,
            ..
        } => add_legs(alloc, g, walks, legs, branch, straight, diverging, splits),
        Ports::Crossing {
            west_upper,
            west_lower,
            east_upper,
            east_lower,
        } => {
            add_split(
                alloc,
                g,
                walks,
                Compass::West,
                west_upper,
                west_lower,
                splits,
            )?;
            add_split(
                alloc,
                g,
                walks,
                Compass::East,
                east_upper,
                east_lower,
                splits,
            )
        }
    }
}

/// The splits of all forks.
#[tactic(auto, using(crate::proofs::SplitLemmas::splits_begin))]
pub(crate) fn all_splits(
    alloc: Global,
    g: &PortGraph,
    walks: &Walks,
) -> Result<Items<Split>, OutOfMemory>
    requires { AreWalks g.now walks.now }
    ensures { IfOk result (λ splits. AreSplits g.now (forks_before g.now (length g.now.nodes)) splits) }
{
    let mut splits = Items::new(alloc);
    for n in 0..g.nodes() {
        add_splits(alloc, g, walks, NodeNo(n), &mut splits)?;
    }
    Ok(splits)
}

/// Whether the split has `e` on its upper and `f` on its lower side.
fn is_split_by(split: &Split, e: u16, f: u16) -> bool
    requires { IsFitting split.now e f }
    ensures { IsTrue result ↔ IsSplitBy split.now e f }
{
    let (e, f) = (e as usize, f as usize);
    *split.upper.get(e) && !*split.lower.get(e) && *split.lower.get(f) && !*split.upper.get(f)
}

/// Whether some split has `e` on its upper and `f` on its lower side.
pub(crate) fn are_split(splits: &[Split], e: u16, f: u16) -> bool
    requires { All (λ s. IsFitting s e f) splits.now }
    ensures { IsTrue result ↔ Any (λ s. IsSplitBy s e f) splits.now }
{
    for split in splits {
        if is_split_by(split, e, f) {
            return true;
        }
    }
    false
}
