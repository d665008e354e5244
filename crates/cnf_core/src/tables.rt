// Tables by variable or literal, which grow with the variables.
ghost use Rattle.std.specs.Prelude.{◌≡◌, ◌++◌, replicate, OnOk, OnErr};

use plan_core::OutOfMemory;

/// Puts `n` times the value behind the others, or leaves the table where memory fails.
pub fn lengthen<T: Copy + Drop>(table: &mut Vec<T>, n: usize, value: T) -> Result<(), OutOfMemory>
    ensures more { OnOk result (table.new.items ≡ table.old.items ++ replicate n value) }
    ensures none { OnErr result (table.new.items ≡ table.old.items) }
{
    let before = table.len();
    for i in 0..n {
        match table.push(value) {
            Ok(()) => {}
            Err(_) => {
                table.truncate(before);
                return Err(OutOfMemory);
            }
        }
    }
    Ok(())
}
