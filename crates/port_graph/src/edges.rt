// The edges that runs become, or the first run whose nodes have one mileage.
ghost use Rattle.std.specs.Prelude.{◌≡◌, ◌+◌, ◌<◌, ◌≤◌, ◌^◌, ◌∷◌, ◌++◌, [], List, map, length, All, IfOk, IfErr, OnOk};
ghost use Rattle.plan_core.specs.declared.limits.TheConstants.{MAX_NODES, MAX_EDGES};
ghost use Rattle.port_graph.specs.Plain.{plain_edge};
ghost use Rattle.port_graph.specs.Sites.{number_among};
ghost use Rattle.port_graph.specs.TopologyGraph.{west_of, east_of, edge_among, IsForward};
ghost use Rattle.port_graph.specs.declared.runs.Run.{Run};
ghost use Rattle.port_graph.specs.Ordered.{IsLevelAt, IsLevelFault};

use crate::rows::EdgeRow;
use crate::{GraphFault, Run, Site, Spot};
use plan_core::{EdgeNo, NodeNo, OutOfMemory};
use std::alloc::Global;

/// How many of these nodes are before a place of the file; there are at most 128.
fn node_number(sites: &[Site], at: usize) -> NodeNo
    requires { length sites.now ≤ MAX_NODES }
    ensures { result.0 ≡ number_among sites.now at }
{
    NodeNo(sites.iter().filter(|site| site.spot.at < at).count() as u16)
}

/// The node of smaller mileage of a run.
fn west_spot(run: &Run) -> Spot
    ensures { result ≡ west_of run.now }
{
    if run.from.mile.0 < run.to.mile.0 {
        run.from
    } else {
        run.to
    }
}

/// The node of greater mileage of a run.
fn east_spot(run: &Run) -> Spot
    ensures { result ≡ east_of run.now }
{
    if run.from.mile.0 < run.to.mile.0 {
        run.to
    } else {
        run.from
    }
}

/// Adds the edge that a run becomes where these are the nodes.
fn push_edge_row(
    alloc: Global,
    sites: &[Site],
    run: &Run,
    rows: &mut Vec<EdgeRow>,
) -> Result<(), OutOfMemory>
    requires { length sites.now ≤ MAX_NODES }
    ensures { OnOk result (map plain_edge rows.new.items ≡
        map plain_edge rows.old.items ++ edge_among sites.now run.now ∷ []) }
{
    let track = run.track.copied(alloc)?;
    let west = node_number(sites, west_spot(run).at);
    let east = node_number(sites, east_spot(run).at);
    rows.push(EdgeRow { track, west, east })?;
    Ok(())
}

/// The edges that runs become where these are the nodes.
pub(crate) fn edge_rows(
    alloc: Global,
    sites: &[Site],
    runs: &[Run],
) -> Result<Vec<EdgeRow>, OutOfMemory>
    requires { length sites.now ≤ MAX_NODES }
    ensures { IfOk result (λ rows. map plain_edge rows.items ≡ map (edge_among sites.now) runs.now) }
{
    let mut rows = Vec::new(alloc);
    for run in runs {
        push_edge_row(alloc, sites, run, &mut rows)?;
    }
    Ok(rows)
}

/// The fault of a run whose nodes have one mileage.
fn level_fault(alloc: Global, run: &Run, number: usize) -> GraphFault
    requires { number < 2 ^ 16 }
    ensures { (runs : List Run) → IsLevelAt runs number run.now → IsLevelFault runs result }
{
    match run.track.copied(alloc) {
        Ok(track) => GraphFault::NotForward {
            edge: EdgeNo(number as u16),
            track,
            mileage: run.to.mile,
        },
        Err(_) => GraphFault::Memory,
    }
}

/// That each run's nodes differ in mileage, or the fault of the first of which they don't.
pub(crate) fn check_forward(alloc: Global, runs: &[Run]) -> Result<(), GraphFault>
    requires { length runs.now ≤ MAX_EDGES }
    ensures forward { OnOk result (All IsForward runs.now) }
    ensures fault { IfErr result (λ fault. IsLevelFault runs.now fault) }
{
    for (number, run) in runs.iter().enumerate() {
        if run.from.mile == run.to.mile {
            return Err(level_fault(alloc, run, number));
        }
    }
    Ok(())
}
