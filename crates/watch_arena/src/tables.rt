// The tables of a trail grow, all or none.
ghost use Rattle.std.specs.Prelude.{◌≡◌, ◌*◌, ◌<◌, ◌^◌, ◌+◌, ◌++◌, length, replicate, true, OnOk, OnErr, take, false};
ghost use Rattle.cnf_core.specs.Lit.{literal};

use cnf_core::{Lit, Var, lengthen};
use plan_core::OutOfMemory;

/// Makes the tables of a trail longer by `n` variables, or some of them where memory fails.
fn lengthen_each(
    truth: &mut Vec<bool>,
    order: &mut Vec<Lit>,
    starts: &mut Vec<u32>,
    reasons: &mut Vec<u32>,
    levels: &mut Vec<u32>,
    n: u32,
) -> Result<(), OutOfMemory>
    ensures truth { OnOk result (truth.new.items ≡ truth.old.items ++ replicate (2 * n) false) }
    ensures order { OnOk result (order.new.items ≡ order.old.items ++ replicate (2 * n) (literal 1 true)) }
    ensures starts { OnOk result (starts.new.items ≡ starts.old.items ++ replicate (2 * n) 0) }
    ensures reasons { OnOk result (reasons.new.items ≡ reasons.old.items ++ replicate n 0) }
    ensures levels { OnOk result (levels.new.items ≡ levels.old.items ++ replicate n 0) }
    ensures truth_front { take (length truth.old.items) truth.new.items ≡ truth.old.items }
    ensures order_front { take (length order.old.items) order.new.items ≡ order.old.items }
    ensures starts_front { take (length starts.old.items) starts.new.items ≡ starts.old.items }
    ensures reasons_front { take (length reasons.old.items) reasons.new.items ≡ reasons.old.items }
    ensures levels_front { take (length levels.old.items) levels.new.items ≡ levels.old.items }
{
    lengthen(truth, 2 * n as usize, false)?;
    lengthen(order, 2 * n as usize, Lit::new(Var(1), true))?;
    lengthen(starts, 2 * n as usize, 0)?;
    lengthen(reasons, n as usize, 0)?;
    lengthen(levels, n as usize, 0)
}

/// Makes the tables of a trail longer by `n` variables, or leaves all of them where memory fails.
pub fn lengthen_all(
    truth: &mut Vec<bool>,
    order: &mut Vec<Lit>,
    starts: &mut Vec<u32>,
    reasons: &mut Vec<u32>,
    levels: &mut Vec<u32>,
    n: u32,
) -> Result<(), OutOfMemory>
    ensures truth { OnOk result (truth.new.items ≡ truth.old.items ++ replicate (2 * n) false) }
    ensures order { OnOk result (order.new.items ≡ order.old.items ++ replicate (2 * n) (literal 1 true)) }
    ensures starts { OnOk result (starts.new.items ≡ starts.old.items ++ replicate (2 * n) 0) }
    ensures reasons { OnOk result (reasons.new.items ≡ reasons.old.items ++ replicate n 0) }
    ensures levels { OnOk result (levels.new.items ≡ levels.old.items ++ replicate n 0) }
    ensures no_truth { OnErr result (truth.new.items ≡ truth.old.items) }
    ensures no_order { OnErr result (order.new.items ≡ order.old.items) }
    ensures no_starts { OnErr result (starts.new.items ≡ starts.old.items) }
    ensures no_reasons { OnErr result (reasons.new.items ≡ reasons.old.items) }
    ensures no_levels { OnErr result (levels.new.items ≡ levels.old.items) }
{
    let lens = [
        truth.len(),
        order.len(),
        starts.len(),
        reasons.len(),
        levels.len(),
    ];
    match lengthen_each(truth, order, starts, reasons, levels, n) {
        Ok(()) => Ok(()),
        Err(e) => {
            truth.truncate(lens[0]);
            order.truncate(lens[1]);
            starts.truncate(lens[2]);
            reasons.truncate(lens[3]);
            levels.truncate(lens[4]);
            Err(e)
        }
    }
}
