// A mileage, written.
ghost use Rattle.std.specs.Prelude.{◌≡◌, ◌<◌, ◌+◌, ◌++◌, ◌^◌, OnOk, OnErr, IfOk};
ghost use Rattle.rail_mileage.specs.MetresText.{metres_text, six_digits as last_six};

use crate::METRE;
use itoa::Buffer;
use plan_core::{Micro, OutOfMemory};
use std::alloc::Global;

/// The bytes of the longest text, that of the least `i64`.
const LONGEST: usize = 21;

/// The last six digits of a number, with zeros in front where there are fewer.
fn six_digits(n: u64) -> [u8; 6]
    ensures { result ≡ last_six n }
{
    [
        b'0' + (n / 100_000 % 10) as u8,
        b'0' + (n / 10_000 % 10) as u8,
        b'0' + (n / 1_000 % 10) as u8,
        b'0' + (n / 100 % 10) as u8,
        b'0' + (n / 10 % 10) as u8,
        b'0' + (n % 10) as u8,
    ]
}

/// The text of a mileage.
fn text_of(alloc: Global, m: Micro) -> Result<Vec<u8>, OutOfMemory>
    ensures { IfOk result (λ text. text.items ≡ metres_text m.0) }
{
    let size = m.0.unsigned_abs();
    let mut text = Vec::with_capacity(alloc, LONGEST)?;
    if m.0 < 0 {
        text.push(b'-')?;
    }
    text.extend_from_slice(Buffer::new().format(size / METRE).as_bytes())?;
    text.push(b'.')?;
    text.extend_from_slice(&six_digits(size))?;
    Ok(text)
}

/// Appends a mileage in metres: `-` where it is negative, the whole metres, a point and six digits.
/// Want of memory leaves what was there.
pub fn write_metres(alloc: Global, m: Micro, into: &mut Vec<u8>) -> Result<(), OutOfMemory>
    ensures ok { OnOk result (into.new.items ≡ into.old.items ++ metres_text m.0) }
    ensures err { OnErr result (into.new.items ≡ into.old.items) }
{
    let text = text_of(alloc, m)?;
    into.extend_from_slice(&text)?;
    Ok(())
}
