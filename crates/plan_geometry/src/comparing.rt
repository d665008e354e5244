// Which of two drawings is better.
ghost use Rattle.std.specs.Prelude.{◌↔◌, IsTrue};
ghost use Rattle.plan_core.specs.Values.{Better};

use plan_core::{Order, Values};

/// Whether `a` is lexicographically less than `b` along the order.
pub fn better(a: &Values, b: &Values, o: &Order) -> bool
    ensures { IsTrue result ↔ Better o.now a.now b.now }
{
    for i in 0..o.len() {
        let c = o.get(i);
        let (first, second) = (a.of(c), b.of(c));
        if first != second {
            return first < second;
        }
    }
    false
}
