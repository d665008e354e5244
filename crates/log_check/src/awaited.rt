// The lines that are expected of a log and haven't come yet.
ghost use Rattle.std.specs.Prelude.{◌≡◌, ◌<◌, ◌+◌, ◌↔◌, ◌∷◌, IsTrue, MatchOption};
ghost use Rattle.refute_log.specs.declared.line.LogLine.TheVariants.{Formula as FormulaLine, Bound as BoundLine};
ghost use Rattle.refute_log.specs.Told.{Lines};
ghost use Rattle.log_check.specs.Awaited.{lines_from, AreParts, awaited_lines, IsAwaited, HasMore};

use cnf_core::{ClauseNo, Formula, Lit};
use plan_core::Criterion;
use refute_log::LogLine;

/// A part of the expected lines.
#[derive(Clone, Copy, Debug)]
pub enum Part {
    /// Formula lines of the formula's next clauses, up to this number of them, counted from 0.
    ClausesTo(u32),
    /// Bound lines of a criterion for 1 up to a cap.
    Bounds {
        /// The criterion.
        criterion: Criterion,
        /// The variable before those of the bounds.
        last: u32,
        /// The greatest number that has a bound.
        cap: u32,
    },
}

/// The expected lines that haven't come yet: those of the parts, from a clause of the formula on, but for the first
/// bounds of the first part.
#[derive(Clone, Copy)]
pub(crate) struct Awaited<'a> {
    pub(crate) formula: &'a Formula,
    pub(crate) parts: &'a [Part],
    pub(crate) clause: u32,
    pub(crate) bound: u32,
}

/// All lines of the parts.
pub(crate) fn all_awaited<'a>(formula: &'a Formula, parts: &'a [Part]) -> Awaited<'a>
    requires { AreParts formula.now.clauses parts.now }
    ensures awaited { IsAwaited result }
    ensures lines { awaited_lines result ≡ lines_from formula.now.clauses parts.now 0 0 }
{
    Awaited {
        formula,
        parts,
        clause: 0,
        bound: 0,
    }
}

/// Whether the literals are the same.
fn are_same(a: &[Lit], b: &[Lit]) -> bool
    ensures { IsTrue result ↔ (a.now ≡ b.now) }
{
    a == b
}

/// Whether the line is that of this clause.
fn is_clause(line: &LogLine, lits: &[Lit]) -> bool
    ensures { IsTrue result ↔ (line.now ≡ FormulaLine lits.now) }
{
    match line {
        LogLine::Formula(clause) => are_same(clause.as_slice(), lits),
        _ => false,
    }
}

/// Whether the line is this Bound line.
fn is_bound(line: &LogLine, c: Criterion, number: u32, variable: u32) -> bool
    ensures { IsTrue result ↔ (line.now ≡ BoundLine c number (record { 0 = variable })) }
{
    match line {
        LogLine::Bound { criterion, k, var } => {
            *criterion == c && *k == number && var.0 == variable
        }
        _ => false,
    }
}

/// The lines that are awaited, from the first part on that has one still to come.
#[tactic(auto, using(crate::proofs::AwaitedLemmas::skipping))]
fn skipped<'a>(awaited: &Awaited<'a>) -> Awaited<'a>
    requires { IsAwaited awaited.now }
    ensures awaited { IsAwaited result }
    ensures same { awaited_lines result ≡ awaited_lines awaited.now }
    ensures more { HasMore result.parts.now result.clause result.bound }
{
    match awaited.parts.split_first() {
        None => *awaited,
        Some((part, rest)) => match part {
            Part::ClausesTo(end) => {
                if awaited.clause < *end {
                    return *awaited;
                }
                skipped(&Awaited {
                    formula: awaited.formula,
                    parts: rest,
                    clause: *end,
                    bound: 0,
                })
            }
            Part::Bounds { cap, .. } => {
                if awaited.bound < *cap {
                    return *awaited;
                }
                skipped(&Awaited {
                    formula: awaited.formula,
                    parts: rest,
                    clause: awaited.clause,
                    bound: 0,
                })
            }
        },
    }
}

/// What is awaited behind the next line, where this is it and the first part has it.
fn step<'a>(awaited: &Awaited<'a>, line: &LogLine) -> Option<Awaited<'a>>
    requires awaited { IsAwaited awaited.now }
    requires more { HasMore awaited.now.parts.now awaited.now.clause awaited.now.bound }
    ensures { MatchOption result ((more : Lines) → awaited_lines awaited.now ≡ line.now ∷ more → ⊥)
        (λ a. IsAwaited a × (awaited_lines awaited.now ≡ line.now ∷ awaited_lines a)) }
{
    let (part, _) = awaited.parts.split_first()?;
    match part {
        Part::ClausesTo(_) => {
            // its number is one of these
            let _ = awaited.formula.clauses();
            if !is_clause(line, awaited.formula.lits_of(ClauseNo(awaited.clause))) {
                return None;
            }
            Some(Awaited {
                formula: awaited.formula,
                parts: awaited.parts,
                clause: awaited.clause + 1,
                bound: awaited.bound,
            })
        }
        Part::Bounds {
            criterion,
            last,
            ..
        } => {
            let k = awaited.bound + 1;
            if !is_bound(line, *criterion, k, *last + k) {
                return None;
            }
            Some(Awaited {
                formula: awaited.formula,
                parts: awaited.parts,
                clause: awaited.clause,
                bound: k,
            })
        }
    }
}

/// What is awaited behind the next line, where this is it.
pub(crate) fn behind<'a>(awaited: &Awaited<'a>, line: &LogLine) -> Option<Awaited<'a>>
    requires { IsAwaited awaited.now }
    ensures { MatchOption result ((more : Lines) → awaited_lines awaited.now ≡ line.now ∷ more → ⊥)
        (λ a. IsAwaited a × (awaited_lines awaited.now ≡ line.now ∷ awaited_lines a)) }
{
    let next = skipped(awaited);
    step(&next, line)
}
