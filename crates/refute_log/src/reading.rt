// A line, read from its text.
ghost use Rattle.std.specs.Prelude.{◌≡◌, ◌≢◌, ◌≤◌, ◌⊎◌, ◌↔◌, ◌++◌, ◌∷◌, ℕ, List, codes, MatchOption, MatchResult, IfOk};
ghost use Rattle.std.specs.Prelude.{IfErr, IsErrOf, IsTrue};
ghost use Rattle.plan_core.specs.Exactly.{AnswersExactly};
ghost use Rattle.plan_core.specs.declared.criterion.Criterion.{Criterion as Bounded};
ghost use Rattle.outside_io.specs.Numbers.{IsNumberIn, IsNumberField};
ghost use Rattle.refute_log.specs.LineForm.{Field};
ghost use Rattle.refute_log.specs.LineText.{IsTextOf, IsWantOrFault, IsLineFault};
ghost use Rattle.refute_log.specs.FieldText.{HasBound};

use crate::fields::{is_number, read_number};
use crate::literals::{is_end, read_clause};
use crate::{LineTextFault, LogLine, LogWhat};
use cnf_core::{LAST_VAR, Var};
use outside_io::{MAX_NUMBER, cut_field, read_criterion};
use plan_core::Criterion;
use std::alloc::Global;

/// The criterion and the two fields for numbers of the text behind the letter of a Bound line.
fn split_bound(text: &[u8]) -> Option<(Criterion, &[u8], &[u8])>
    ensures { MatchOption result ((c : Bounded) (k x : Field) → HasBound text.now c k x → ⊥)
        (λ p. HasBound text.now p.0 p.1.now p.2.now) }
{
    let (word, rest) = cut_field(text)?;
    let criterion = read_criterion(word)?;
    let (k, variable) = cut_field(rest)?;
    if !is_number(k) || !is_number(variable) {
        return None;
    }
    Some((criterion, k, variable))
}

/// The value and the variable's number that the two fields are the canonical decimals of.
fn read_bounded(k: &[u8], variable: &[u8]) -> Option<(u32, u32)>
    ensures { MatchOption result (IsNumberField 1 MAX_NUMBER k.now × IsNumberField 1 LAST_VAR variable.now → ⊥)
        (λ p. IsNumberIn 1 MAX_NUMBER k.now p.0 × IsNumberIn 1 LAST_VAR variable.now p.1) }
{
    let k = read_number(k, MAX_NUMBER)?;
    let variable = read_number(variable, LAST_VAR)?;
    Some((k, variable))
}

/// The Bound line of the text behind its letter.
fn read_bound(text: &[u8], line: u32) -> Result<LogLine, LineTextFault>
    ensures line { IfOk result (IsTextOf (codes "b " ++ text.now)) }
    ensures fault { IfErr result (IsWantOrFault (codes "b " ++ text.now) line) }
{
    let Some((criterion, k, variable)) = split_bound(text) else {
        return Err(LineTextFault::Log {
            what: LogWhat::Form,
            line,
        });
    };
    let Some((k, variable)) = read_bounded(k, variable) else {
        return Err(LineTextFault::Log {
            what: LogWhat::Number,
            line,
        });
    };
    Ok(LogLine::Bound {
        criterion,
        k,
        var: Var(variable),
    })
}

/// The Learnt line of the text behind its letter.
fn read_learnt(alloc: Global, text: &[u8], line: u32) -> Result<LogLine, LineTextFault>
    ensures line { IfOk result (IsTextOf (codes "l " ++ text.now)) }
    ensures fault { IfErr result (IsWantOrFault (codes "l " ++ text.now) line) }
{
    if is_end(text) {
        return Err(LineTextFault::Log {
            what: LogWhat::Form,
            line,
        });
    }
    Ok(LogLine::Learnt(read_clause(alloc, text, line)?))
}

/// The line of a letter and of the text behind the space that follows it.
fn read_lettered(
    alloc: Global,
    letter: u8,
    text: &[u8],
    line: u32,
) -> Result<LogLine, LineTextFault>
    ensures line { IfOk result (IsTextOf (letter ∷ (codes " " ++ text.now))) }
    ensures fault { IfErr result (IsWantOrFault (letter ∷ (codes " " ++ text.now)) line) }
{
    match letter {
        b'f' => Ok(LogLine::Formula(read_clause(alloc, text, line)?)),
        b'l' => read_learnt(alloc, text, line),
        b'b' => read_bound(text, line),
        b'q' => Ok(LogLine::Query(read_clause(alloc, text, line)?)),
        b'r' => Ok(LogLine::Refuted(read_clause(alloc, text, line)?)),
        _ => Err(LineTextFault::Log {
            what: LogWhat::Form,
            line,
        }),
    }
}

/// The first byte, and what follows the space behind it, if there is one.
fn split_letter(text: &[u8]) -> Option<(u8, &[u8])>
    ensures { MatchOption result ((letter : ℕ) (rest : List ℕ) → text.now ≢ letter ∷ (codes " " ++ rest))
        (λ p. text.now ≡ p.0 ∷ (codes " " ++ p.1.now)) }
{
    match text {
        [letter, b' ', rest @ ..] => Some((*letter, rest)),
        _ => None,
    }
}

fn is_model(text: &[u8]) -> bool
    ensures { IsTrue result ↔ (text.now ≡ codes "m") }
{
    matches!(text, [b'm'])
}

/// The line that the text is, or its fault.
fn read_text(alloc: Global, text: &[u8], line: u32) -> Result<LogLine, LineTextFault>
    ensures line { IfOk result (IsTextOf text.now) }
    ensures fault { IfErr result (IsWantOrFault text.now line) }
{
    match split_letter(text) {
        Some((letter, rest)) => read_lettered(alloc, letter, rest, line),
        None => {
            if is_model(text) {
                Ok(LogLine::Model)
            } else {
                Err(LineTextFault::Log {
                    what: LogWhat::Form,
                    line,
                })
            }
        }
    }
}

/// The line whose text this is, without its line feed, or the text's first fault. `number` is the
/// number of the line in its log, which a fault names; the first line of a log's text is line 1.
/// `Form` comes before `Number`, and `Number` before `Twice`; `Header` never comes.
pub fn read_line(alloc: Global, text: &[u8], number: u32) -> Result<LogLine, LineTextFault>
    ensures { AnswersExactly result LineTextFault.Memory (IsTextOf text.now) (IsLineFault text.now number) }
{
    read_text(alloc, text, number)
}
