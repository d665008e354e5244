// The order in which variables are given.
ghost use Rattle.std.specs.Prelude.{◌≡◌};

use cnf_core::Var;
use pick_heap::Heap;
use std::alloc::Global;
use std::test::Fail;

/// Bumps variables of six, so many times each.
fn bump_all(heap: &mut Heap, bumps: &[(u32, u32)])
    requires { heap.old.vars ≡ 6 }
    ensures { heap.new.vars ≡ 6 }
{
    'each: for (v, times) in bumps {
        'often: for _ in 0..*times {
            if 1 <= *v && *v <= 6 {
                heap.bump(Var(*v));
            }
        }
    }
}

/// The order in which six variables are given that are bumped so, and 0 behind them. The first is given, put back twice
/// and given again.
fn order_of(alloc: Global, bumps: &[(u32, u32)]) -> Result<Vec<u32>, Fail> {
    let mut heap = Heap::with_vars(alloc, 5)?;
    heap.add_vars(1)?;
    bump_all(&mut heap, bumps);
    if let Some(v) = heap.pop() {
        heap.put_back(v);
        heap.put_back(v);
    }
    let mut order = Vec::new(alloc);
    for _ in 0..7 {
        order.push(heap.pop().map_or(0, |v| v.0))?;
    }
    Ok(order)
}

/// Which variables are bumped, how often, and the order in which they are given.
type Row = (&'static [(u32, u32)], [u32; 7]);

/// The most active comes first, and of equals the least. In the second row all are halved once, when 3 is bumped for
/// the last time; 2 and 4 are then bumped more often than half of 40.
static ROWS: [Row; 2] = [
    (&[(4, 1), (6, 2)], [6, 4, 1, 2, 3, 5, 0]),
    (&[(1, 40), (3, 64), (2, 21), (4, 21)], [3, 2, 4, 1, 5, 6, 0]),
];

fn order_all(alloc: Global) -> Result<(), Fail> {
    for (bumps, order) in &ROWS {
        if order_of(alloc, bumps)?.as_slice() != order.as_slice() {
            return Err(Fail::new(order[0]));
        }
    }
    Ok(())
}

#[test]
fn the_most_active_comes_first_and_of_equals_the_least(rt: HostRuntime) -> Result<(), Fail> {
    order_all(rt.alloc())
}
