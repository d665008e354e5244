// The text of signals on a drawing.
ghost use Rattle.std.specs.Prelude.{◌≡◌, ◌<◌, ◌++◌, ℕ, [], ◌∷◌, codes, length, flat_map, slice_get, Some, OnOk};
ghost use Rattle.std.specs.Fmt.{decimal};
ghost use Rattle.outside_io.specs.Contents.{Begins};
ghost use Rattle.outside_io.specs.Fields.{spaced, line_text};
ghost use Rattle.plan_objects.specs.Places.{numbers};
ghost use Rattle.plan_objects.specs.Spread.{HasRoomFor};
ghost use Rattle.plan_objects.specs.SignalsText.{column_in, height_in, id_at as id_there, signal_line, signals_text};

use crate::Placed;
use crate::checks::id_of;
use outside_io::{push_field, push_number_field, push_text};
use plan_core::{OutOfMemory, Point};
use plan_geometry::Drawing;
use railml_read::{SignalElem, SignalRows};

/// The point of its edge's line at which a signal is.
fn point_of(placed: &Placed, i: u16, d: &Drawing) -> Point
    requires there { i < length placed.now }
    requires room { HasRoomFor placed.now d.now i }
    ensures column { result.x ≡ column_in placed.now d.now i }
    ensures height { result.y ≡ height_in placed.now d.now i }
{
    let x = placed.column(i, d);
    let line = d.line(placed.edge_of(i));
    match line.height_at(x) {
        Some(y) => Point { x, y },
        None => unreachable!(),
    }
}

fn signal_at(signals: &[SignalElem], i: u16) -> &SignalElem
    requires { i < length signals.now }
    ensures { slice_get signals.now i ≡ Some result.now }
{
    &signals[i as usize]
}

/// The id of a signal.
fn id_at(signals: &[SignalElem], i: u16) -> &str
    requires { i < length signals.now }
    ensures { result.now ≡ id_there signals.now i }
{
    id_of(signal_at(signals, i))
}

/// Appends the front of a signal's line: its number and its id.
fn push_name(into: &mut Vec<u8>, i: u16, id: &str) -> Result<(), OutOfMemory>
    ensures ok { OnOk result (into.new.items ≡ into.old.items ++ codes "signal" ++ spaced (decimal i ∷ id.now ∷ [])) }
    ensures begins { Begins into.old.items into.new.items }
{
    push_text(into, b"signal")?;
    push_number_field(into, u32::from(i))?;
    push_field(into, id.as_bytes())
}

/// Appends the rest of it: its edge, its point, and the line feed.
fn push_point(into: &mut Vec<u8>, edge: u16, at: Point) -> Result<(), OutOfMemory>
    ensures ok { OnOk result (into.new.items
        ≡ into.old.items ++ spaced (decimal edge ∷ decimal at.x ∷ decimal at.y ∷ []) ++ codes "\n") }
    ensures begins { Begins into.old.items into.new.items }
{
    push_number_field(into, u32::from(edge))?;
    push_number_field(into, u32::from(at.x))?;
    push_number_field(into, u32::from(at.y))?;
    push_text(into, b"\n")
}

fn push_signal(
    signals: &[SignalElem],
    placed: &Placed,
    d: &Drawing,
    i: u16,
    into: &mut Vec<u8>,
) -> Result<(), OutOfMemory>
    requires read { i < length signals.now }
    requires there { i < length placed.now }
    requires room { HasRoomFor placed.now d.now i }
    ensures ok { OnOk result (into.new.items ≡ into.old.items ++ signal_line signals.now placed.now d.now i) }
    ensures begins { Begins into.old.items into.new.items }
{
    push_name(into, i, id_at(signals, i))?;
    push_point(into, placed.edge_of(i).0, point_of(placed, i, d))
}

fn push_signals(
    signals: &[SignalElem],
    placed: &Placed,
    d: &Drawing,
    into: &mut Vec<u8>,
) -> Result<(), OutOfMemory>
    requires same { length signals.now ≡ length placed.now }
    requires room { (i : ℕ) → i < length placed.now → HasRoomFor placed.now d.now i }
    ensures ok { OnOk result (into.new.items
        ≡ into.old.items ++ flat_map (signal_line signals.now placed.now d.now) (numbers placed.now)) }
    ensures begins { Begins into.old.items into.new.items }
{
    for i in 0..placed.len() {
        push_signal(signals, placed, d, i, into)?;
    }
    Ok(())
}

fn push_count(into: &mut Vec<u8>, count: u16) -> Result<(), OutOfMemory>
    ensures ok { OnOk result (into.new.items ≡ into.old.items ++ line_text (codes "signals") (decimal count ∷ [])) }
    ensures begins { Begins into.old.items into.new.items }
{
    push_text(into, b"signals")?;
    push_number_field(into, u32::from(count))?;
    push_text(into, b"\n")
}

/// Appends the text of signals with these places on a drawing that has room for each. Where memory couldn't be had,
/// `into` begins with what it held.
pub fn write_signals(
    signals: &SignalRows,
    placed: &Placed,
    d: &Drawing,
    into: &mut Vec<u8>,
) -> Result<(), OutOfMemory>
    requires same { length signals.now ≡ length placed.now }
    requires room { (i : ℕ) → i < length placed.now → HasRoomFor placed.now d.now i }
    ensures ok { OnOk result (into.new.items ≡ into.old.items ++ signals_text signals.now placed.now d.now) }
    ensures begins { Begins into.old.items into.new.items }
{
    push_count(into, placed.len())?;
    push_signals(signals.as_slice(), placed, d, into)
}
