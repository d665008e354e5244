// Runs and sites in the order of their numbers.
ghost use Rattle.std.specs.Prelude.{◌≡◌, ◌++◌, map, OnOk, IfOk};
ghost use Rattle.std.specs.List.Sorted.{IsPermutation, IsNonDecreasingBy};
ghost use Rattle.plan_core.specs.Topology.{IsResolved};
ghost use Rattle.port_graph.specs.declared.runs.Join.{Join};
ghost use Rattle.port_graph.specs.declared.sites.Site.{Site};
ghost use Rattle.port_graph.specs.Runs.{joins as all_joins};
ghost use Rattle.port_graph.specs.Ordered.{AreRunsOf};

use crate::pieces::pieces;
use crate::{Join, Run, Site};
use plan_core::{OutOfMemory, Topology};
use std::alloc::Global;

/// Puts nodes in the order of the file.
pub(crate) fn order_sites(sites: &mut Vec<Site>)
    ensures same { IsPermutation sites.old.items sites.new.items }
    ensures rise { IsNonDecreasingBy (λ (s : Site). s.spot.at) sites.new.items }
{
    sites.sort_unstable_by_key(|site| site.spot.at);
}

/// Puts joins in the order of the file.
fn order_joins(joins: &mut Vec<Join>)
    ensures same { IsPermutation joins.old.items joins.new.items }
    ensures rise { IsNonDecreasingBy (λ (j : Join). j.at) joins.new.items }
{
    joins.sort_unstable_by_key(|join| join.at);
}

/// Adds the runs of joins.
fn push_joins(joins: Vec<Join>, runs: &mut Vec<Run>) -> Result<(), OutOfMemory>
    ensures { OnOk result (runs.new.items ≡ runs.old.items ++ map (λ (j : Join). j.run) joins.items) }
{
    for join in joins {
        let Join { at: _, run } = join;
        runs.push(run)?;
    }
    Ok(())
}

/// All runs of a topology in the order of their numbers: the pieces, and then the joins in the order
/// of the file.
pub(crate) fn runs(alloc: Global, t: &Topology, joins: Vec<Join>) -> Result<Vec<Run>, OutOfMemory>
    requires resolved { IsResolved t.now }
    requires joins { joins.items ≡ all_joins t.now }
    ensures { IfOk result (λ runs. AreRunsOf t.now runs.items) }
{
    let mut joins = joins;
    let mut runs = pieces(alloc, t)?;
    order_joins(&mut joins);
    push_joins(joins, &mut runs)?;
    Ok(runs)
}
