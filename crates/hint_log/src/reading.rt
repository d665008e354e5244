// A hinted line, read from its text.
ghost use Rattle.std.specs.Prelude.{◌≡◌, ℕ, List, Some, IfOk, IfErr, MatchResult};
ghost use Rattle.plan_core.specs.Exactly.{AnswersExactly};
ghost use Rattle.hint_log.specs.Hint.{hints_of};
ghost use Rattle.hint_log.specs.HintedLines.{line_of};
ghost use Rattle.hint_log.specs.HintFaults.{IsHintOf, HasHintTextFault, IsHintWhere, IsHintTextFault};
ghost use Rattle.hint_log.specs.Parts.{IsCutBehindZero, IsUnjoined, fault_of};

use crate::cutting::{begins_hinted, cut_literals};
use crate::numbers::read_numbers;
use crate::{HintLine, HintTextFault, HintsWhat, Numbers};
use refute_log::{LineTextFault, LogLine, LogWhat, read_line};
use std::alloc::Global;

/// The line of a log with these numbers behind it, which are none where one of them isn't right.
fn with_hints(read: LogLine, hints: Option<Numbers>, line: u32) -> Result<HintLine, HintTextFault>
    ensures line { IfOk result (λ h. (line_of h ≡ read) × (hints ≡ Some (hints_of h))) }
    ensures fault { IfErr result (IsHintWhere (IsUnjoined read hints) line) }
{
    match read {
        LogLine::Learnt(lits) => match hints {
            Some(hints) => Ok(HintLine::Learnt { lits, hints }),
            None => Err(HintTextFault::Hints {
                what: HintsWhat::Number,
                line,
            }),
        },
        LogLine::Refuted(lits) => match hints {
            Some(hints) => Ok(HintLine::Refuted { lits, hints }),
            None => Err(HintTextFault::Hints {
                what: HintsWhat::Number,
                line,
            }),
        },
        LogLine::Formula(_) | LogLine::Bound { .. } | LogLine::Query(_) | LogLine::Model => Err(
            HintTextFault::Hints {
                what: HintsWhat::Form,
                line,
            },
        ),
    }
}

/// The fault of the whole line, by that of its literals, and whether its numbers are right.
fn whole_fault(what: LogWhat, right: bool) -> HintsWhat
    ensures { result ≡ fault_of what right }
{
    match what {
        LogWhat::Header => HintsWhat::Header,
        LogWhat::Form => HintsWhat::Form,
        LogWhat::Number => HintsWhat::Number,
        LogWhat::Twice => {
            if right {
                HintsWhat::Twice
            } else {
                HintsWhat::Number
            }
        }
    }
}

/// The line of a text that is cut behind its literals, or its fault.
fn read_parts(
    alloc: Global,
    front: &[u8],
    rest: &[u8],
    line: u32,
) -> Result<HintLine, HintTextFault>
    ensures line { IfOk result (λ h. (text : List ℕ) → IsCutBehindZero text front.now rest.now → IsHintOf text h) }
    ensures fault { IfErr result (IsHintWhere (λ what. (text : List ℕ) → IsCutBehindZero text front.now rest.now →
        HasHintTextFault text what) line) }
{
    if !begins_hinted(front) {
        return Err(HintTextFault::Hints {
            what: HintsWhat::Form,
            line,
        });
    }
    let hints = match read_numbers(alloc, rest, line) {
        Ok(hints) => hints,
        Err(fault) => return Err(fault),
    };
    match read_line(alloc, front, line) {
        Ok(read) => with_hints(read, hints, line),
        Err(LineTextFault::Log { what, .. }) => Err(HintTextFault::Hints {
            what: whole_fault(what, hints.is_some()),
            line,
        }),
        Err(LineTextFault::Memory) => Err(HintTextFault::Memory),
    }
}

/// The line that the text is, or its fault.
fn read_text(alloc: Global, text: &[u8], line: u32) -> Result<HintLine, HintTextFault>
    ensures line { IfOk result (IsHintOf text.now) }
    ensures fault { IfErr result (IsHintWhere (HasHintTextFault text.now) line) }
{
    match cut_literals(text) {
        Some((front, rest)) => read_parts(alloc, front, rest, line),
        None => Err(HintTextFault::Hints {
            what: HintsWhat::Form,
            line,
        }),
    }
}

/// The line whose text this is, without its line feed, or the text's first fault. `number` is the number of the line in
/// the whole text, which a fault names. `Form` comes before `Number`, and `Number` before `Twice`; `Header` and `Range`
/// never come.
pub fn read_hint(alloc: Global, text: &[u8], number: u32) -> Result<HintLine, HintTextFault>
    ensures { AnswersExactly result HintTextFault.Memory (IsHintOf text.now) (IsHintTextFault text.now number) }
{
    read_text(alloc, text, number)
}
