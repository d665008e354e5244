// The truth values of the bounds behind the drawing's clauses.
ghost use Rattle.std.specs.Prelude.{◌≡◌, ◌≤◌, ◌<◌, ℕ, ◌+◌, length, map};
ghost use Rattle.cnf_core.specs.declared.limits.TheConstants.{VARS};
ghost use Rattle.cnf_core.specs.Assignment.{SameOutside};
ghost use Rattle.cnf_core.specs.Truths.{assignment};
ghost use Rattle.plan_core.specs.Values.{values_of};
ghost use Rattle.track_order.specs.Order.{is_above, is_overlap};
ghost use Rattle.cnf_laws.specs.Expected.{drawing_vars, formula_size};
ghost use Rattle.drawing_cnf.specs.Bounds.{IsExact};
ghost use Rattle.drawing_cnf.specs.Bounded.{bounds_clauses, AreBehind};
ghost use Rattle.drawing_cnf.specs.Kept.{bound_of, AreKept};
ghost use Rattle.drawing_cnf.specs.Whole.{bounds_last, last_with};
ghost use Rattle.drawing_cnf.specs.Puts.{IsPutTo, HoldsBefore, AreInRow, sums_size, sums_clauses};

use crate::kept_bound::KeptBound;
use crate::put::Subject;
use crate::put_laws::put_variable;
use cnf_core::Truths;
use plan_core::Values;

/// Makes the cap variables behind the last one say "the value is at least k", and changes no other.
fn put_block(m: &mut Truths, last: u32, cap: u32, value: u32)
    requires there { last + cap ≤ length m.old }
    requires small { last + cap ≤ VARS }
    ensures exact { IsExact (assignment m.new) last cap value }
    ensures same { SameOutside (last + 1) cap (assignment m.old) (assignment m.new) }
    ensures vars { length m.new ≡ length m.old }
{
    let end = 1 + cap;
    for k in 1..end {
        put_variable(m, last + k, k <= value);
    }
}

/// Puts a bound's variables, and then those of its sums, by the truth of their inputs.
fn put_bound(k: &KeptBound, value: u32, m: &mut Truths)
    requires in_row { AreInRow (k.now.last + k.now.cap) k.now.sums.items }
    requires there { k.now.last + k.now.cap + sums_size k.now.sums.items ≤ length m.old }
    requires small { k.now.last + k.now.cap + sums_size k.now.sums.items ≤ VARS }
    ensures same { SameOutside (k.now.last + 1) (k.now.cap + sums_size k.now.sums.items) (assignment m.old)
        (assignment m.new) }
    ensures exact { IsExact (assignment m.new) k.now.last k.now.cap value }
    ensures holds { HoldsBefore (k.now.last + k.now.cap + sums_size k.now.sums.items + 1) (assignment m.new)
        (sums_clauses k.now.sums.items) }
    ensures vars { length m.new ≡ length m.old }
{
    put_block(m, k.last, k.cap, value);
    for s in &k.sums {
        s.put(m);
    }
}

/// Puts all bounds, one behind another, of which the first follows the drawing's clauses.
pub(crate) fn put_bounds(s: &Subject, bounds: &[KeptBound], values: &Values, m: &mut Truths)
    requires values { values.now ≡ values_of s.now.drawing.now }
    requires kept { AreKept s.now.graph.now s.now.grid.now bounds.now }
    requires behind { AreBehind s.now.graph.now (drawing_vars s.now.graph.now s.now.grid.now) s.now.grid.now
        (formula_size s.now.graph.now (is_above s.now.order.now) (is_overlap s.now.order.now) s.now.grid.now)
        (map bound_of bounds.now) }
    requires put { IsPutTo s.now.graph.now s.now.grid.now s.now.drawing.now (assignment m.old)
        (formula_size s.now.graph.now (is_above s.now.order.now) (is_overlap s.now.order.now) s.now.grid.now + 1) }
    requires there { bounds_last s.now.graph.now (drawing_vars s.now.graph.now s.now.grid.now) s.now.grid.now
        (formula_size s.now.graph.now (is_above s.now.order.now) (is_overlap s.now.order.now) s.now.grid.now)
        (map bound_of bounds.now) ≤ length m.old }
    requires small { bounds_last s.now.graph.now (drawing_vars s.now.graph.now s.now.grid.now) s.now.grid.now
        (formula_size s.now.graph.now (is_above s.now.order.now) (is_overlap s.now.order.now) s.now.grid.now)
        (map bound_of bounds.now) ≤ VARS }
    ensures below { (y : ℕ) →
        y ≤ formula_size s.now.graph.now (is_above s.now.order.now) (is_overlap s.now.order.now) s.now.grid.now →
        assignment m.new y ≡ assignment m.old y }
    ensures holds { let g = s.now.graph.now in let grid = s.now.grid.now in let bs = map bound_of bounds.now in
        HoldsBefore (last_with g s.now.order.now grid bs + 1) (assignment m.new)
        (bounds_clauses g (drawing_vars g grid) grid bs) }
    ensures later { (y : ℕ) → last_with s.now.graph.now s.now.order.now s.now.grid.now (map bound_of bounds.now) < y →
        assignment m.new y ≡ assignment m.old y }
    ensures vars { length m.new ≡ length m.old }
{
    for k in bounds {
        put_bound(k, values.of(k.criterion), m);
    }
}
