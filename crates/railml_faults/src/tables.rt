// What is kept of rows while they are judged and built from.
ghost use Rattle.std.specs.Prelude.{◌≡◌, IfOk};
ghost use Rattle.railml_read.specs.Formed.{AreFormed};
ghost use Rattle.railml_faults.specs.Tables.{AreTablesOf, entry_in};

use crate::children::{all_children, only_children};
use crate::ids::number_ids;
use crate::outside::positions;
use crate::references::targets;
use plan_core::{Micro, OutOfMemory};
use railml_read::{Elem, ElemKind};
use std::alloc::Global;

/// Tables with an entry for each row. They have its children, and its only topology, begin, end and connection, if it
/// has just one. They have the connection that it refers to. Each of these is a row's number. They have the row's
/// position too, in micrometres. `repeated` has no entries: it is the first row whose id an earlier row bears.
#[derive(Drop)]
pub struct Tables {
    pub children: Vec<Vec<u32>>,
    pub topologies: Vec<Option<u32>>,
    pub begins: Vec<Option<u32>>,
    pub ends: Vec<Option<u32>>,
    pub connections: Vec<Option<u32>>,
    pub repeated: Option<usize>,
    pub targets: Vec<Option<u32>>,
    pub positions: Vec<Option<Micro>>,
}

impl Tables {
    /// The tables of rows.
    pub fn new(alloc: Global, rows: &[Elem]) -> Result<Self, OutOfMemory>
        requires { AreFormed rows.now }
        ensures { IfOk result (λ tables. AreTablesOf rows.now tables) }
    {
        let children = all_children(alloc, rows)?;
        let topologies = only_children(alloc, rows, &children, ElemKind::Topology)?;
        let begins = only_children(alloc, rows, &children, ElemKind::Begin)?;
        let ends = only_children(alloc, rows, &children, ElemKind::End)?;
        let connections = only_children(alloc, rows, &children, ElemKind::Connection)?;
        let ids = number_ids(alloc, rows)?;
        let targets = targets(alloc, rows, &ids.numbers)?;
        let positions = positions(alloc, rows)?;
        Ok(Tables {
            children,
            topologies,
            begins,
            ends,
            connections,
            repeated: ids.repeated,
            targets,
            positions,
        })
    }
}

/// An entry of a table of numbers, if it is there and isn't empty.
pub fn entry(table: &[Option<u32>], i: usize) -> Option<u32>
    ensures { result ≡ entry_in table.now i }
{
    match table.get(i) {
        Some(entry) => *entry,
        None => None,
    }
}
