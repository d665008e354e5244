// The file of a station.
ghost use Rattle.std.specs.Prelude.{◌≡◌, ◌≤◌, ◌++◌, length, OnOk, IfOk};
ghost use Rattle.station_make.specs.StationText.{byte_order_mark, file_begin, file_end, station_text};

use crate::loop_track::push_loop_tracks;
use crate::main_track::push_main_track;
use crate::numbered::push_numbered;
use outside_io::push_text;
use plan_core::{MAX_FILE_BYTES, OutOfMemory};
use std::alloc::Global;

fn push_byte_order_mark(into: &mut Vec<u8>) -> Result<(), OutOfMemory>
    ensures { OnOk result (into.new.items ≡ into.old.items ++ byte_order_mark) }
{
    push_text(into, b"\xef\xbb\xbf")
}

fn push_file_begin(n: u32, into: &mut Vec<u8>) -> Result<(), OutOfMemory>
    ensures { OnOk result (into.new.items ≡ into.old.items ++ file_begin n) }
{
    push_text(into, b"<?xml version=\"1.0\" encoding=\"UTF-8\"?>\n")?;
    push_numbered(into, b"<!-- station ", n)?;
    push_text(into, b" -->\n")?;
    push_text(
        into,
        b"<railml xmlns=\"http://www.railml.org/schemas/2013\" version=\"2.2\">\n",
    )?;
    push_text(
        into,
        b"<metadata><dc:title xmlns:dc=\"http://purl.org/dc/elements/1.1/\">station</dc:title></metadata>\n",
    )?;
    push_text(into, b"<infrastructure id=\"i\"><tracks>\n")
}

fn push_file_end(into: &mut Vec<u8>) -> Result<(), OutOfMemory>
    ensures { OnOk result (into.new.items ≡ into.old.items ++ file_end) }
{
    push_text(into, b"</tracks></infrastructure></railml>\n")
}

fn file_of(alloc: Global, n: u32) -> Result<Vec<u8>, OutOfMemory>
    ensures { IfOk result (λ file. file.items ≡ station_text n) }
{
    let mut file = Vec::new(alloc);
    push_byte_order_mark(&mut file)?;
    push_file_begin(n, &mut file)?;
    push_main_track(n, &mut file)?;
    push_loop_tracks(n, &mut file)?;
    push_file_end(&mut file)?;
    Ok(file)
}

/// The file of the station of this number: a railML file with a byte order mark, which a reader of railML
/// files takes by its length.
pub fn make(alloc: Global, n: u32) -> Result<Vec<u8>, OutOfMemory>
    ensures text { IfOk result (λ file. file.items ≡ station_text n) }
    ensures length { IfOk result (λ file. length file.items ≤ MAX_FILE_BYTES) }
{
    file_of(alloc, n)
}
