// The text of a line, written.
ghost use Rattle.std.specs.Prelude.{◌≡◌, ◌++◌, ◌∷◌, [], codes, decimal, map, OnOk, OnErr};
ghost use Rattle.outside_io.specs.Contents.{Begins};
ghost use Rattle.outside_io.specs.Criteria.{criterion_word as word_of};
ghost use Rattle.outside_io.specs.Fields.{spaced, unended_text};
ghost use Rattle.refute_log.specs.Lines.{IsWellFormed, literal_sign, literal_text, clause_fields, ended_text};

use crate::LogLine;
use cnf_core::{Clause, Lit};
use outside_io::{criterion_word, push_field, push_number, push_number_field, push_text};
use plan_core::{Criterion, OutOfMemory};

fn write_literal(literal: Lit, into: &mut Vec<u8>) -> Result<(), OutOfMemory>
    ensures ok { OnOk result (into.new.items ≡ into.old.items ++ literal_text literal) }
    ensures begins { Begins into.old.items into.new.items }
{
    let sign: &[u8] = if literal.positive() { b"" } else { b"-" };
    push_text(into, sign)?;
    push_number(into, u64::from(literal.var().0))
}

/// Appends a space and a literal.
fn write_literal_field(literal: Lit, into: &mut Vec<u8>) -> Result<(), OutOfMemory>
    ensures ok { OnOk result (into.new.items ≡ into.old.items ++ (32 ∷ literal_text literal)) }
    ensures begins { Begins into.old.items into.new.items }
{
    push_text(into, b" ")?;
    write_literal(literal, into)
}

/// Appends each literal, a space before it.
pub fn write_literals(literals: &[Lit], into: &mut Vec<u8>) -> Result<(), OutOfMemory>
    ensures ok { OnOk result (into.new.items ≡ into.old.items ++ spaced (map literal_text literals.now)) }
    ensures begins { Begins into.old.items into.new.items }
{
    for literal in literals {
        write_literal_field(*literal, into)?;
    }
    Ok(())
}

fn write_clause(letter: &[u8], clause: &Clause, into: &mut Vec<u8>) -> Result<(), OutOfMemory>
    ensures ok { OnOk result (into.new.items ≡ into.old.items ++ unended_text letter.now (clause_fields clause.now)) }
    ensures begins { Begins into.old.items into.new.items }
{
    push_text(into, letter)?;
    write_literals(clause.as_slice(), into)?;
    push_field(into, b"0")
}

fn write_bound(
    criterion: Criterion,
    k: u32,
    variable: u32,
    into: &mut Vec<u8>,
) -> Result<(), OutOfMemory>
    ensures ok { OnOk result (into.new.items ≡ into.old.items ++ unended_text (codes "b")
        (word_of criterion ∷ decimal k ∷ decimal variable ∷ [])) }
    ensures begins { Begins into.old.items into.new.items }
{
    push_text(into, b"b")?;
    push_field(into, criterion_word(criterion).as_bytes())?;
    push_number_field(into, k)?;
    push_number_field(into, variable)
}

/// Appends the line's text with its line feed, or the front of it that memory was had for.
fn append_line(line: &LogLine, into: &mut Vec<u8>) -> Result<(), OutOfMemory>
    requires { IsWellFormed line.now }
    ensures ok { OnOk result (into.new.items ≡ into.old.items ++ ended_text line.now) }
    ensures begins { Begins into.old.items into.new.items }
{
    match line {
        LogLine::Formula(c) => write_clause(b"f", c, into)?,
        LogLine::Learnt(c) => write_clause(b"l", c, into)?,
        LogLine::Bound { criterion, k, var } => write_bound(*criterion, *k, var.0, into)?,
        LogLine::Query(c) => write_clause(b"q", c, into)?,
        LogLine::Refuted(c) => write_clause(b"r", c, into)?,
        LogLine::Model => push_text(into, b"m")?,
    }
    push_text(into, b"\n")
}

/// Appends the line's text with its line feed. Where memory couldn't be had, `into` is as it was.
pub fn write_line(line: &LogLine, into: &mut Vec<u8>) -> Result<(), OutOfMemory>
    requires { IsWellFormed line.now }
    ensures ok { OnOk result (into.new.items ≡ into.old.items ++ ended_text line.now) }
    ensures err { OnErr result (into.new.items ≡ into.old.items) }
{
    let length = into.len();
    match append_line(line, into) {
        Ok(()) => Ok(()),
        Err(fault) => {
            into.truncate(length);
            Err(fault)
        }
    }
}
