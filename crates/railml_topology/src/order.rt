// Switches and crossings in their order along a track.
ghost use Rattle.std.specs.Prelude.{◌≡◌, ◌<◌, ◌^◌, true, ℕ, ℤ, List, map, filter, length, All, IfOk, Some};
ghost use Rattle.std.specs.Prelude.{Option};
ghost use Rattle.railml_faults.specs.Rows.{ReadsMetres, HasPosition};
ghost use Rattle.railml_faults.specs.Tables.{ListsChildren};
ghost use Rattle.railml_topology.specs.Plans.{is_inner as passes_inner, IsStanding, IsOfSize};
ghost use Rattle.railml_topology.specs.Resolved.{AreInner};
ghost use Rattle.railml_topology.specs.Sound.{AreSoundRows};
ghost use Rattle.railml_topology.specs.declared.order.Standing.{Standing as Placed};

use plan_core::{Items, OutOfMemory, Text};
use rail_mileage::read_metres;
use railml_faults::is_of_kind;
use railml_read::{Elem, ElemKind};
use std::alloc::Global;

/// A row with its position in micrometres. Rows are in the order of these.
#[derive(Clone, Copy, PartialEq, Eq, PartialOrd, Ord)]
pub(crate) struct Standing {
    position: i64,
    row: u32,
}

/// The number of micrometres that a text gives in metres.
pub(crate) fn metres_in(text: &Option<Text>) -> i64
    requires there { (t : List ℕ) × (z : ℤ) × (text.now ≡ Some t) × ReadsMetres t z }
    ensures reads { (t : List ℕ) → text.now ≡ Some t → ReadsMetres t result }
    ensures within { IsOfSize (10 ^ 15) result }
{
    match text {
        Some(text) => match read_metres(text.bytes()) {
            Some(metres) => metres.0,
            None => unreachable!(),
        },
        None => unreachable!(),
    }
}

/// The position of a row that has one.
pub(crate) fn position_of(row: &Elem) -> i64
    requires there { (z : ℤ) × HasPosition row.now z }
    ensures reads { HasPosition row.now result }
    ensures within { IsOfSize (10 ^ 15) result }
{
    metres_in(&row.attrs.pos)
}

/// Whether the row of this number is a switch or a crossing.
fn is_inner(rows: &[Elem], number: u32) -> bool
    ensures { result ≡ passes_inner rows.now number }
{
    is_of_kind(rows, number, ElemKind::Switch) || is_of_kind(rows, number, ElemKind::Crossing)
}

/// A switch or a crossing with its position.
fn standing_at(rows: &[Elem], number: u32) -> Standing
    requires sound { AreSoundRows rows.now }
    requires inner { passes_inner rows.now number ≡ true }
    ensures row { result.row ≡ number }
    ensures standing { IsStanding rows.now result }
{
    Standing {
        position: position_of(&rows[number as usize]),
        row: number,
    }
}

/// The switches and crossings among these rows, with their positions.
fn standings(alloc: Global, rows: &[Elem], numbers: &[u32]) -> Result<Vec<Standing>, OutOfMemory>
    requires sound { AreSoundRows rows.now }
    ensures rows { IfOk result (λ list. map (λ (s : Placed). s.row) list.items
        ≡ filter (passes_inner rows.now) numbers.now) }
    ensures standing { IfOk result (λ list. All (IsStanding rows.now) list.items) }
{
    let mut list = Vec::new(alloc);
    for number in numbers {
        if is_inner(rows, *number) {
            list.push(standing_at(rows, *number))?;
        }
    }
    Ok(list)
}

/// The rows of a list of rows with positions.
fn numbers_of(alloc: Global, list: &[Standing]) -> Result<Items<u32>, OutOfMemory>
    ensures { IfOk result (λ numbers. numbers ≡ map (λ (s : Placed). s.row) list.now) }
{
    let numbers = list.iter().map(|s| s.row).collect(alloc)?;
    Ok(Items::from_vec(numbers))
}

/// The switches and crossings of a topology, in their order along the track.
pub(crate) fn inner_rows(
    alloc: Global,
    rows: &[Elem],
    children: &[Vec<u32>],
    topology: u32,
) -> Result<Items<u32>, OutOfMemory>
    requires sound { AreSoundRows rows.now }
    requires table { ListsChildren rows.now children.now }
    requires within { topology < length rows.now }
    ensures { IfOk result (λ inner. AreInner rows.now topology inner) }
{
    let mut list = standings(alloc, rows, &children[topology as usize])?;
    list.sort_unstable();
    numbers_of(alloc, &list)
}
