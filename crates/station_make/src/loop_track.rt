// The text of a loop's track.
ghost use Rattle.std.specs.Prelude.{◌≡◌, ◌<◌, ◌++◌, OnOk, flat_map};
ghost use Rattle.std.specs.List.{range_with_len};
ghost use Rattle.station_make.specs.Station.{loops};
ghost use Rattle.station_make.specs.StationText.{loop_begin, loop_end, loop_track};

use crate::numbered::push_numbered;
use crate::station::{leaving, loops};
use outside_io::push_text;
use plan_core::OutOfMemory;

fn push_loop_begin(i: u32, into: &mut Vec<u8>) -> Result<(), OutOfMemory>
    requires { i < 15 }
    ensures { OnOk result (into.new.items ≡ into.old.items ++ loop_begin i) }
{
    push_numbered(into, b"<trackBegin id=\"lb", i)?;
    push_numbered(into, b"\" pos=\"0\" absPos=\"", leaving(i))?;
    push_numbered(into, b"\"><connection id=\"da", i)?;
    push_numbered(into, b"\" ref=\"ca", i)?;
    push_text(into, b"\"/></trackBegin>\n")
}

fn push_loop_end(i: u32, into: &mut Vec<u8>) -> Result<(), OutOfMemory>
    ensures { OnOk result (into.new.items ≡ into.old.items ++ loop_end i) }
{
    push_numbered(into, b"<trackEnd id=\"le", i)?;
    push_text(into, b"\" pos=\"600\"")?;
    push_numbered(into, b"><connection id=\"db", i)?;
    push_numbered(into, b"\" ref=\"cb", i)?;
    push_text(into, b"\"/></trackEnd>\n")
}

fn push_loop_track(i: u32, into: &mut Vec<u8>) -> Result<(), OutOfMemory>
    requires { i < 15 }
    ensures { OnOk result (into.new.items ≡ into.old.items ++ loop_track i) }
{
    push_numbered(into, b"<track id=\"l", i)?;
    push_text(into, b"\" name=\"loop\"><trackTopology>\n")?;
    push_loop_begin(i, into)?;
    push_loop_end(i, into)?;
    push_text(into, b"</trackTopology></track>\n")
}

/// Appends the tracks of all loops.
pub fn push_loop_tracks(n: u32, into: &mut Vec<u8>) -> Result<(), OutOfMemory>
    ensures { OnOk result (into.new.items ≡ into.old.items ++ flat_map loop_track (range_with_len 0 (loops n))) }
{
    for i in 0..loops(n) {
        push_loop_track(i, into)?;
    }
    Ok(())
}
