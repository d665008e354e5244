// How many bounds of each criterion a log's text has.
ghost use Rattle.std.specs.Prelude.{◌≡◌, ◌≤◌, ◌<◌, ◌+◌, [], ◌∷◌, IfOk, min};
ghost use Rattle.plan_core.specs.declared.criterion.Criterion.{Criterion as Measured};
ghost use Rattle.plan_core.specs.Values.{value_of, limit_of};
ghost use Rattle.refute_log.specs.Told.{Lines};
ghost use Rattle.refute_log.specs.Expected.{caps};
ghost use Rattle.log_check.specs.TextLines.{AreToldBounds, HasToldBounds, told_bound_line};
ghost use Rattle.log_check.specs.Counted.{count_more, count_of, IsCountOf};

use drawing_cnf::greatest;
use outside_io::{behind, cut_line};
use plan_core::{Criterion, Grid, OutOfMemory, Values};
use port_graph::PortGraph;
use refute_log::{LineTextFault, LogLine, read_line};
use std::alloc::Global;

/// What a Bound line begins with.
const LETTER: &[u8] = b"b";

/// The greatest value of each criterion that a drawing may have.
pub fn greatest_values(g: &PortGraph, grid: &Grid) -> Values
    ensures { (c : Measured) → value_of result c ≡ limit_of g.now grid.now c }
{
    Values {
        height: greatest(g, grid, Criterion::Height),
        bends: greatest(g, grid, Criterion::Bends),
        diagonal: greatest(g, grid, Criterion::Diagonal),
        width: greatest(g, grid, Criterion::Width),
    }
}

/// The numbers with one more of a criterion.
fn one_more(numbers: &Values, c: Criterion) -> Values
    requires { value_of numbers.now c < 4294967295 }
    ensures { (d : Measured) → value_of result d ≡ count_more c (value_of numbers.now) d }
{
    let mut more = *numbers;
    match c {
        Criterion::Height => more.height += 1,
        Criterion::Bends => more.bends += 1,
        Criterion::Diagonal => more.diagonal += 1,
        Criterion::Width => more.width += 1,
    }
    more
}

/// The numbers with one more of a criterion, if one is found, none above its greatest.
fn counted(numbers: &Values, greatest: &Values, found: Option<Criterion>) -> Values
    requires { (c : Measured) → value_of numbers.now c ≤ value_of greatest.now c }
    ensures { (d : Measured) → value_of result d ≡ min (value_of numbers.now d + count_of found d)
        (value_of greatest.now d) }
{
    match found {
        None => *numbers,
        Some(c) => {
            if numbers.of(c) < greatest.of(c) {
                one_more(numbers, c)
            } else {
                *numbers
            }
        }
    }
}

/// The criterion of a Bound line.
fn criterion_of(line: &LogLine) -> Option<Criterion>
    ensures { IsCountOf result (told_bound_line line.now) }
{
    match line {
        LogLine::Bound { criterion, .. } => Some(*criterion),
        LogLine::Formula(_)
        | LogLine::Learnt(_)
        | LogLine::Query(_)
        | LogLine::Refuted(_)
        | LogLine::Model => None,
    }
}

/// The criterion that the text is a Bound line of, if it is one without a fault. A line that begins with another
/// letter isn't read.
fn bounded(alloc: Global, text: &[u8]) -> Result<Option<Criterion>, OutOfMemory>
    ensures { IfOk result (λ found. (lines : Lines) × AreToldBounds (text.now ∷ []) lines × IsCountOf found lines) }
{
    let Some(_) = behind(text, LETTER) else {
        return Ok(None);
    };
    match read_line(alloc, text, 0) {
        Ok(line) => Ok(criterion_of(&line)),
        Err(LineTextFault::Log { .. }) => Ok(None),
        Err(LineTextFault::Memory) => Err(OutOfMemory),
    }
}

/// How many Bound lines without a fault the text has of each criterion, none above its greatest.
pub fn caps_in(alloc: Global, log: &[u8], greatest: &Values) -> Result<Values, OutOfMemory>
    ensures { IfOk result (λ v. (lines : Lines) × HasToldBounds log.now lines
        × ((c : Measured) → value_of v c ≡ caps (value_of greatest.now) lines c)) }
{
    let mut numbers = Values {
        height: 0,
        bends: 0,
        diagonal: 0,
        width: 0,
    };
    let mut rest = log;
    while let Some((text, more)) = cut_line(rest) {
        let found = bounded(alloc, text)?;
        numbers = counted(&numbers, greatest, found);
        rest = more;
    }
    Ok(numbers)
}
