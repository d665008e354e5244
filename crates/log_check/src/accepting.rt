// The lines of a log, accepted or refused one after another.
ghost use Rattle.std.specs.Prelude.{◌≡◌, [], ◌∷◌, ◌++◌, IfOk, IfSome, OnOk, MatchOption, MatchBool, option_to_list};
ghost use Rattle.refute_log.specs.Lines.{IsWellFormed};
ghost use Rattle.refute_log.specs.Told.{Lines};
ghost use Rattle.refute_log.specs.Log.{clause_line};
ghost use Rattle.log_check.specs.Expectation.{Expectation};
ghost use Rattle.log_check.specs.Accepted.{AreAccepted};
ghost use Rattle.log_check.specs.Refused.{IsRefusedFor};
ghost use Rattle.log_check.specs.Awaited.{IsAwaited};
ghost use Rattle.log_check.specs.Progress.{AreAwaited, HasAccepted, HasCompared, IsCompared, IsNextAwaited};
ghost use Rattle.log_check.specs.Progress.{refusals_of};

use crate::awaited::{Awaited, behind};
use crate::verdict::Refusal;
use plan_core::OutOfMemory;
use refute_check::{Checker, LineFault, ToldBound};
use refute_log::LogLine;

/// What is kept of the lines that were accepted.
#[derive(Drop)]
pub(crate) struct Progress<'a> {
    /// The expected lines that haven't come yet; none where what is expected passes the limits.
    pub(crate) awaited: Option<Awaited<'a>>,
    /// A checker that accepted the lines.
    pub(crate) checker: Checker,
    /// The bounds of their Bound lines.
    pub(crate) bounds: Vec<ToldBound>,
}

/// What a line is to the expected lines.
#[derive(Clone, Copy)]
pub(crate) enum Compared<'a> {
    /// It is neither a Formula nor a Bound line, and is compared with none.
    Same,
    /// It is the next one, and these follow.
    Next(Awaited<'a>),
    /// It is refused for this.
    Wrong(Refusal),
}

/// Whether it is a Formula or Bound line.
pub(crate) fn is_clause_line(line: &LogLine) -> bool
    ensures { MatchBool result (clause_line line.now ≡ line.now ∷ []) (clause_line line.now ≡ []) }
{
    matches!(line, LogLine::Formula(_) | LogLine::Bound { .. })
}

/// Compares a line with what is awaited.
fn compare<'a>(awaited: &Option<Awaited<'a>>, line: &LogLine) -> Compared<'a>
    requires { IfSome awaited.now IsAwaited }
    ensures ready { IsNextAwaited result }
    ensures compared { (e : Expectation) (lines : Lines) → AreAccepted e lines → AreAwaited e lines awaited.now →
        IsCompared e lines line.now result }
{
    if !is_clause_line(line) {
        return Compared::Same;
    }
    match awaited {
        None => Compared::Wrong(Refusal::Room),
        Some(now) => match behind(now, line) {
            None => Compared::Wrong(Refusal::Differs),
            Some(more) => Compared::Next(more),
        },
    }
}

/// The refusal of a line that the checker refuses; none where memory is wanting.
fn refusal_of(fault: LineFault) -> Option<Refusal>
    ensures { option_to_list result ≡ refusals_of fault }
{
    match fault {
        LineFault::NewVar => Some(Refusal::NewVar),
        LineFault::WrongQuery => Some(Refusal::WrongQuery),
        LineFault::Room => Some(Refusal::Room),
        LineFault::NotImplied => Some(Refusal::NotImplied),
        LineFault::NotNew => Some(Refusal::NotNew),
        LineFault::Memory => None,
    }
}

/// Feeds the checker a line that was compared, and answers why it is refused, if it is.
fn feed(progress: &mut Progress<'_>, line: &LogLine) -> Result<Option<Refusal>, OutOfMemory>
    requires { IsWellFormed line.now }
    ensures awaited { progress.new.awaited ≡ progress.old.awaited }
    ensures judged { IfOk result (λ r. (e : Expectation) (before : Lines) → HasCompared e before line.now progress.old →
        MatchOption r (HasAccepted e (before ++ line.now ∷ []) progress.new) (IsRefusedFor e before line.now)) }
{
    match progress.checker.feed(line) {
        Ok(()) => {
            if let Some(bound) = ToldBound::of(line) {
                progress.bounds.push(bound)?;
            }
            Ok(None)
        }
        Err(fault) => match refusal_of(fault) {
            Some(why) => Ok(Some(why)),
            None => Err(OutOfMemory),
        },
    }
}

/// Accepts a line, or answers why it is refused.
pub(crate) fn accept(
    progress: &mut Progress<'_>,
    line: &LogLine,
) -> Result<Option<Refusal>, OutOfMemory>
    requires formed { IsWellFormed line.now }
    requires awaited { IfSome progress.old.awaited IsAwaited }
    ensures awaited { OnOk result (IfSome progress.new.awaited IsAwaited) }
    ensures judged { IfOk result (λ r. (e : Expectation) (before : Lines) → HasAccepted e before progress.old →
        MatchOption r (HasAccepted e (before ++ line.now ∷ []) progress.new) (IsRefusedFor e before line.now)) }
{
    match compare(&progress.awaited, line) {
        Compared::Wrong(why) => Ok(Some(why)),
        Compared::Next(more) => {
            progress.awaited = Some(more);
            feed(progress, line)
        }
        Compared::Same => feed(progress, line),
    }
}
