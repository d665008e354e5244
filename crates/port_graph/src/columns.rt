// The columns of a graph's nodes.
ghost use Rattle.std.specs.Prelude.{◌≡◌, ◌≤◌, ℤ, ◌<ℤ◌, Some, length, slice_get, AllPairs, Contains, IfOk};
ghost use Rattle.plan_core.specs.declared.limits.TheConstants.{MAX_NODES};
ghost use Rattle.port_graph.specs.Columns.{rising};
ghost use Rattle.port_graph.specs.Plain.{miles_of};
ghost use Rattle.port_graph.specs.Kept.{ArePlaces};

use crate::rows::NodeRow;
use plan_core::{ColumnNo, OutOfMemory};
use std::alloc::Global;

/// The number of columns of nodes, and the column of each.
pub fn number_columns(alloc: Global, nodes: &[NodeRow]) -> Result<(u16, Vec<ColumnNo>), OutOfMemory>
    requires { length nodes.now ≤ MAX_NODES }
    ensures count { IfOk result (λ r. r.0 ≡ length (rising (miles_of nodes.now))) }
    ensures places { IfOk result (λ r. ArePlaces (rising (miles_of nodes.now)) (miles_of nodes.now) r.1.items) }
{
    let columns = distinct_mileages(alloc, nodes)?;
    let numbers = column_numbers(alloc, nodes, &columns)?;
    Ok((columns.len() as u16, numbers))
}

/// The distinct mileages of nodes, in rising order.
fn distinct_mileages(alloc: Global, nodes: &[NodeRow]) -> Result<Vec<i64>, OutOfMemory>
    ensures { IfOk result (λ c. c.items ≡ rising (miles_of nodes.now)) }
{
    let mut mileages = listed_mileages(alloc, nodes)?;
    put_in_order(&mut mileages);
    Ok(mileages)
}

fn listed_mileages(alloc: Global, nodes: &[NodeRow]) -> Result<Vec<i64>, OutOfMemory>
    ensures { IfOk result (λ l. l.items ≡ miles_of nodes.now) }
{
    let mut mileages = Vec::with_capacity(alloc, nodes.len())?;
    for node in nodes {
        mileages.push(node.mileage.0)?;
    }
    Ok(mileages)
}

fn put_in_order(mileages: &mut Vec<i64>)
    ensures { mileages.new.items ≡ rising mileages.old.items }
{
    mileages.sort_unstable();
    mileages.dedup();
}

/// The column of each node, in the nodes' order.
fn column_numbers(
    alloc: Global,
    nodes: &[NodeRow],
    columns: &[i64],
) -> Result<Vec<ColumnNo>, OutOfMemory>
    requires columns { columns.now ≡ rising (miles_of nodes.now) }
    requires few { length columns.now ≤ MAX_NODES }
    ensures { IfOk result (λ c. ArePlaces columns.now (miles_of nodes.now) c.items) }
{
    let mut numbers = Vec::with_capacity(alloc, nodes.len())?;
    for node in nodes {
        numbers.push(column_number(columns, node.mileage.0))?;
    }
    Ok(numbers)
}

fn column_number(columns: &[i64], mileage: i64) -> ColumnNo
    requires rise { AllPairs (λ (x y : ℤ). x <ℤ y) columns.now }
    requires there { Contains columns.now mileage }
    requires few { length columns.now ≤ MAX_NODES }
    ensures { slice_get columns.now result.0 ≡ Some mileage }
{
    match columns.binary_search(&mileage) {
        Ok(place) => ColumnNo(place as u16),
        Err(_) => unreachable!(),
    }
}
