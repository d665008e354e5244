// The literals of a line's text.
ghost use Rattle.std.specs.Prelude.{◌≡◌, ◌≢◌, ◌↔◌, codes, map, AllPairs, IsTrue, IfOk, IfErr, MatchBool};
ghost use Rattle.cnf_core.specs.Clause.{Avoids, AreDistinct};
ghost use Rattle.refute_log.specs.LineForm.{IsLiteral};
ghost use Rattle.refute_log.specs.LineText.{IsFaultWhere};
ghost use Rattle.refute_log.specs.FieldText.{HasLiterals, AddsLiteral, HasFieldsFault};

use crate::fields::{is_number, read_literal};
use crate::{LineTextFault, LogWhat};
use cnf_core::{Clause, Lit, Var};
use outside_io::cut_field;
use std::alloc::{AllocError, Global};

/// Up to so many literals are compared in pairs, and more are ordered.
const FEW: usize = 16;

/// Appends the literal that the field is the text of, and says whether it is one.
fn add_literal(literals: &mut Vec<Lit>, field: &[u8]) -> Result<bool, AllocError>
    ensures { IfOk result (λ right. MatchBool right (AddsLiteral literals.old.items literals.new.items field.now)
        (IsLiteral field.now → ⊥)) }
{
    match read_literal(field) {
        Some(literal) => {
            literals.push(literal)?;
            Ok(true)
        }
        None => Ok(false),
    }
}

/// Whether nothing is left but the last field.
pub(crate) fn is_end(text: &[u8]) -> bool
    ensures { IsTrue result ↔ (text.now ≡ codes "0") }
{
    matches!(text, [b'0'])
}

/// The literals of the text behind a line's letter, which ends with the field `0`.
fn read_literals(alloc: Global, text: &[u8], line: u32) -> Result<Vec<Lit>, LineTextFault>
    ensures literals { IfOk result (λ v. HasLiterals text.now v.items) }
    ensures fault { IfErr result (IsFaultWhere (HasFieldsFault text.now) line) }
{
    let mut literals = Vec::new(alloc);
    let mut right = true;
    let mut rest = text;
    while let Some((field, after)) = cut_field(rest) {
        if !add_literal(&mut literals, field)? {
            if !is_number(field) {
                return Err(LineTextFault::Log {
                    what: LogWhat::Form,
                    line,
                });
            }
            right = false;
        }
        rest = after;
    }
    if !is_end(rest) {
        return Err(LineTextFault::Log {
            what: LogWhat::Form,
            line,
        });
    }
    if !right {
        return Err(LineTextFault::Log {
            what: LogWhat::Number,
            line,
        });
    }
    Ok(literals)
}

/// The variables' numbers, in the literals' order.
fn variables_of(alloc: Global, literals: &[Lit]) -> Result<Vec<u32>, AllocError>
    ensures { IfOk result (λ v. v.items ≡ map (λ l. l.var) literals.now) }
{
    let mut variables = Vec::with_capacity(alloc, literals.len())?;
    for literal in literals {
        variables.push(literal.var().0)?;
    }
    Ok(variables)
}

/// Whether no number is there twice. They are ordered for this.
fn none_twice(numbers: &mut Vec<u32>) -> bool
    ensures { IsTrue result ↔ AllPairs (λ x y. x ≢ y) numbers.old.items }
{
    numbers.sort_unstable();
    numbers.is_sorted_by(|x, y| x < y)
}

/// Whether none of the literals has this variable.
fn lack(literals: &[Lit], variable: Var) -> bool
    ensures { IsTrue result ↔ Avoids variable.0 literals.now }
{
    for literal in literals {
        if literal.var() == variable {
            return false;
        }
    }
    true
}

/// Whether no variable is there twice among the literals, of which each is compared with all behind it.
fn are_apart(literals: &[Lit]) -> bool
    ensures { IsTrue result ↔ AreDistinct literals.now }
{
    let mut rest = literals;
    while let [first, behind @ ..] = rest {
        if !lack(behind, first.var()) {
            return false;
        }
        rest = behind;
    }
    true
}

/// Whether no variable is there twice among the literals.
pub fn are_distinct(alloc: Global, literals: &[Lit]) -> Result<bool, AllocError>
    ensures { IfOk result (λ distinct. IsTrue distinct ↔ AreDistinct literals.now) }
{
    if literals.len() <= FEW {
        return Ok(are_apart(literals));
    }
    let mut variables = variables_of(alloc, literals)?;
    Ok(none_twice(&mut variables))
}

/// The clause of the text behind a line's letter.
pub(crate) fn read_clause(alloc: Global, text: &[u8], line: u32) -> Result<Clause, LineTextFault>
    ensures literals { IfOk result (λ c. HasLiterals text.now c) }
    ensures distinct { IfOk result (λ c. AreDistinct c) }
    ensures fault { IfErr result (IsFaultWhere (HasFieldsFault text.now) line) }
{
    let literals = read_literals(alloc, text, line)?;
    if !are_distinct(alloc, &literals)? {
        return Err(LineTextFault::Log {
            what: LogWhat::Twice,
            line,
        });
    }
    Ok(Clause::from_vec(literals))
}
