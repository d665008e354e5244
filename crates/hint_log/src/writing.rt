// The text of a hinted line and of the caps, written.
ghost use Rattle.std.specs.Prelude.{◌≡◌, ◌++◌, ◌∷◌, [], decimal, map, OnOk, OnErr};
ghost use Rattle.outside_io.specs.Contents.{Begins};
ghost use Rattle.outside_io.specs.Fields.{spaced, unended_text};
ghost use Rattle.refute_log.specs.Lines.{clause_fields, log_line_text};
ghost use Rattle.hint_log.specs.HintedLines.{line_of};
ghost use Rattle.hint_log.specs.HintText.{number_fields, hint_text, ended_hint, ended_caps};

use crate::HintLine;
use cnf_core::Lit;
use outside_io::{push_field, push_number_field, push_text};
use plan_core::{OutOfMemory, Values};
use refute_log::write_literals;

/// Appends a letter, each literal and `0`.
fn write_clause(letter: &[u8], literals: &[Lit], into: &mut Vec<u8>) -> Result<(), OutOfMemory>
    ensures ok { OnOk result (into.new.items ≡ into.old.items ++ unended_text letter.now (clause_fields literals.now)) }
    ensures begins { Begins into.old.items into.new.items }
{
    push_text(into, letter)?;
    write_literals(literals, into)?;
    push_field(into, b"0")
}

/// Appends each number, a space before it.
fn write_each(numbers: &[u32], into: &mut Vec<u8>) -> Result<(), OutOfMemory>
    ensures ok { OnOk result (into.new.items ≡ into.old.items ++ spaced (map decimal numbers.now)) }
    ensures begins { Begins into.old.items into.new.items }
{
    for number in numbers {
        push_number_field(into, *number)?;
    }
    Ok(())
}

/// Appends each number and `0`.
fn write_numbers(numbers: &[u32], into: &mut Vec<u8>) -> Result<(), OutOfMemory>
    ensures ok { OnOk result (into.new.items ≡ into.old.items ++ spaced (number_fields numbers.now)) }
    ensures begins { Begins into.old.items into.new.items }
{
    write_each(numbers, into)?;
    push_field(into, b"0")
}

/// Appends the line's literals, with the letter of its kind.
fn write_line(line: &HintLine, into: &mut Vec<u8>) -> Result<(), OutOfMemory>
    ensures ok { OnOk result (into.new.items ≡ into.old.items ++ log_line_text (line_of line.now)) }
    ensures begins { Begins into.old.items into.new.items }
{
    match line {
        HintLine::Learnt { lits, .. } => write_clause(b"l", lits.as_slice(), into),
        HintLine::Refuted { lits, .. } => write_clause(b"r", lits.as_slice(), into),
    }
}

/// Appends the line's text with its line feed, or the front of it that memory was had for.
fn append_hint(line: &HintLine, into: &mut Vec<u8>) -> Result<(), OutOfMemory>
    ensures ok { OnOk result (into.new.items ≡ into.old.items ++ ended_hint line.now) }
    ensures begins { Begins into.old.items into.new.items }
{
    write_line(line, into)?;
    write_numbers(line.hints().as_slice(), into)?;
    push_text(into, b"\n")
}

/// Appends the line's text with its line feed. Where memory couldn't be had, `into` is as it was.
pub fn write_hint(line: &HintLine, into: &mut Vec<u8>) -> Result<(), OutOfMemory>
    ensures ok { OnOk result (into.new.items ≡ into.old.items ++ ended_hint line.now) }
    ensures err { OnErr result (into.new.items ≡ into.old.items) }
{
    let length = into.len();
    match append_hint(line, into) {
        Ok(()) => Ok(()),
        Err(fault) => {
            into.truncate(length);
            Err(fault)
        }
    }
}

/// Appends the line of the caps, or the front of it that memory was had for.
fn append_caps(caps: &Values, into: &mut Vec<u8>) -> Result<(), OutOfMemory>
    ensures ok { OnOk result (into.new.items ≡ into.old.items ++ ended_caps caps.now) }
    ensures begins { Begins into.old.items into.new.items }
{
    push_text(into, b"caps")?;
    write_each(&[caps.height, caps.bends, caps.diagonal, caps.width], into)?;
    push_text(into, b"\n")
}

/// Appends the line of the caps with its line feed. Where memory couldn't be had, `into` is as it was.
pub fn write_caps(caps: &Values, into: &mut Vec<u8>) -> Result<(), OutOfMemory>
    ensures ok { OnOk result (into.new.items ≡ into.old.items ++ ended_caps caps.now) }
    ensures err { OnErr result (into.new.items ≡ into.old.items) }
{
    let length = into.len();
    match append_caps(caps, into) {
        Ok(()) => Ok(()),
        Err(fault) => {
            into.truncate(length);
            Err(fault)
        }
    }
}
