// The text of the main track.
ghost use Rattle.std.specs.Prelude.{◌≡◌, ◌<◌, ◌++◌, OnOk, flat_map};
ghost use Rattle.std.specs.List.{range_with_len};
ghost use Rattle.station_make.specs.Station.{loops};
ghost use Rattle.station_make.specs.StationText.{eastward_hand, westward_hand, leaving_switch, returning_switch};
ghost use Rattle.station_make.specs.StationText.{switches, main_begin, main_end, main_track};

use crate::numbered::push_numbered;
use crate::station::{leaving, loops, main_length, returning, side};
use outside_io::push_text;
use plan_core::{OutOfMemory, Side};

fn eastward_hand(side: Side) -> &'static [u8]
    ensures { result.now ≡ eastward_hand side }
{
    match side {
        Side::Upper => b"left",
        Side::Lower => b"right",
    }
}

fn westward_hand(side: Side) -> &'static [u8]
    ensures { result.now ≡ westward_hand side }
{
    match side {
        Side::Upper => b"right",
        Side::Lower => b"left",
    }
}

fn push_leaving_switch(i: u32, side: Side, into: &mut Vec<u8>) -> Result<(), OutOfMemory>
    requires { i < 15 }
    ensures { OnOk result (into.new.items ≡ into.old.items ++ leaving_switch i side) }
{
    push_numbered(into, b"<switch id=\"a", i)?;
    push_numbered(into, b"\" pos=\"", leaving(i))?;
    push_numbered(into, b"\"><connection id=\"ca", i)?;
    push_numbered(into, b"\" ref=\"da", i)?;
    push_text(into, b"\" course=\"")?;
    push_text(into, eastward_hand(side))?;
    push_text(into, b"\" orientation=\"outgoing\"/></switch>\n")
}

fn push_returning_switch(i: u32, side: Side, into: &mut Vec<u8>) -> Result<(), OutOfMemory>
    requires { i < 15 }
    ensures { OnOk result (into.new.items ≡ into.old.items ++ returning_switch i side) }
{
    push_numbered(into, b"<switch id=\"b", i)?;
    push_numbered(into, b"\" pos=\"", returning(i))?;
    push_numbered(into, b"\"><connection id=\"cb", i)?;
    push_numbered(into, b"\" ref=\"db", i)?;
    push_text(into, b"\" course=\"")?;
    push_text(into, westward_hand(side))?;
    push_text(into, b"\" orientation=\"incoming\"/></switch>\n")
}

fn push_switches(n: u32, i: u32, into: &mut Vec<u8>) -> Result<(), OutOfMemory>
    requires { i < 15 }
    ensures { OnOk result (into.new.items ≡ into.old.items ++ switches n i) }
{
    push_leaving_switch(i, side(n, i), into)?;
    push_returning_switch(i, side(n, i), into)
}

fn push_all_switches(n: u32, into: &mut Vec<u8>) -> Result<(), OutOfMemory>
    ensures { OnOk result (into.new.items ≡ into.old.items ++ flat_map (switches n) (range_with_len 0 (loops n))) }
{
    for i in 0..loops(n) {
        push_switches(n, i, into)?;
    }
    Ok(())
}

fn push_main_begin(n: u32, into: &mut Vec<u8>) -> Result<(), OutOfMemory>
    ensures { OnOk result (into.new.items ≡ into.old.items ++ main_begin n) }
{
    push_text(into, b"<track id=\"m\" name=\"main\"><trackTopology>\n")?;
    push_text(
        into,
        b"<trackBegin id=\"mb\" pos=\"0\" absPos=\"0\"><openEnd id=\"mo\"/></trackBegin>\n",
    )?;
    push_numbered(into, b"<trackEnd id=\"me\" pos=\"", main_length(n))?;
    push_text(into, b"\"><openEnd id=\"mp\"/></trackEnd>\n")?;
    push_text(into, b"<connections>\n")
}

/// Appends the main track.
pub fn push_main_track(n: u32, into: &mut Vec<u8>) -> Result<(), OutOfMemory>
    ensures { OnOk result (into.new.items ≡ into.old.items ++ main_track n) }
{
    push_main_begin(n, into)?;
    push_all_switches(n, into)?;
    push_text(into, b"</connections></trackTopology></track>\n")
}
