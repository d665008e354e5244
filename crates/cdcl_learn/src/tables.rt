// The tables of the working clause grow, all or none.
ghost use Rattle.std.specs.Prelude.{◌≡◌, ◌++◌, length, replicate, take, true, false, OnOk, OnErr};
ghost use Rattle.cnf_core.specs.Lit.{literal};

use cnf_core::{Lit, Var, lengthen};
use plan_core::OutOfMemory;

/// Makes the tables longer by `n` places, or some of them where memory fails.
fn lengthen_each(
    seen: &mut Vec<bool>,
    touched: &mut Vec<u32>,
    rest: &mut Vec<Lit>,
    n: u32,
) -> Result<(), OutOfMemory>
    ensures seen { OnOk result (seen.new.items ≡ seen.old.items ++ replicate n false) }
    ensures touched { OnOk result (touched.new.items ≡ touched.old.items ++ replicate n 0) }
    ensures rest { OnOk result (rest.new.items ≡ rest.old.items ++ replicate n (literal 1 true)) }
    ensures seen_front { take (length seen.old.items) seen.new.items ≡ seen.old.items }
    ensures touched_front { take (length touched.old.items) touched.new.items ≡ touched.old.items }
    ensures rest_front { take (length rest.old.items) rest.new.items ≡ rest.old.items }
{
    lengthen(seen, n as usize, false)?;
    lengthen(touched, n as usize, 0)?;
    lengthen(rest, n as usize, Lit::new(Var(1), true))
}

/// Makes the tables longer by `n` places, or leaves all of them where memory fails.
pub fn lengthen_all(
    seen: &mut Vec<bool>,
    touched: &mut Vec<u32>,
    rest: &mut Vec<Lit>,
    n: u32,
) -> Result<(), OutOfMemory>
    ensures seen { OnOk result (seen.new.items ≡ seen.old.items ++ replicate n false) }
    ensures touched { OnOk result (touched.new.items ≡ touched.old.items ++ replicate n 0) }
    ensures rest { OnOk result (rest.new.items ≡ rest.old.items ++ replicate n (literal 1 true)) }
    ensures no_seen { OnErr result (seen.new.items ≡ seen.old.items) }
    ensures no_touched { OnErr result (touched.new.items ≡ touched.old.items) }
    ensures no_rest { OnErr result (rest.new.items ≡ rest.old.items) }
{
    let lens = [seen.len(), touched.len(), rest.len()];
    match lengthen_each(seen, touched, rest, n) {
        Ok(()) => Ok(()),
        Err(e) => {
            seen.truncate(lens[0]);
            touched.truncate(lens[1]);
            rest.truncate(lens[2]);
            Err(e)
        }
    }
}
