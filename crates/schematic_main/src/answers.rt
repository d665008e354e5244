// What each command answers.
ghost use Rattle.std.specs.Prelude.{◌≡◌, ◌≤◌, ◌⊎◌, [], IfOk, IsOkAnd, IsErrOf, length};
ghost use Rattle.outside_io.specs.Counts.{Rose};
ghost use Rattle.run_input.specs.Status.{IsAnswered, IsRefused};
ghost use Rattle.run_input.specs.Met.{between, ReadsInputs, IsUnread, IsUnwritten, HasLeft};
ghost use Rattle.refute_log.specs.ToldTo.{told_to};
ghost use Rattle.schematic_main.specs.Commands.{HasApartPair, inputs_of, outputs_of, AnswersAlone, MayWrite, MayTell};
ghost use Rattle.schematic_main.specs.Commands.{MayLeave, Owes, TraceMayHold};
ghost use Rattle.run_input.specs.SearchLog.{DerivesIfNew, TellsIfNew};
ghost use Rattle.run_input.specs.Written.{AreFilesApart};
ghost use Rattle.schematic_main.specs.Run.{CommandFailsToWrite};

use outside_io::Files;
use plan_words::Command;
use refute_log::LogSink;
use run_check::{check, recheck, trim, verify};
use run_draw_front::{Asked, FrontAsked, draw, front, made, signals, trial};
use run_explain_redraw::{ExplainAsked, RedrawAsked, explain, redraw};
use run_input::{Cut, Reply, print};
use std::alloc::Global;

/// What a command answers.
pub fn answer_to<F: Files, T: LogSink>(
    alloc: Global,
    command: &Command,
    files: &mut F,
    trace: &mut T,
) -> Result<Reply, Cut>
    requires apart { AreFilesApart (outputs_of command.now) }
    requires pair { HasApartPair command.now }
    ensures answer { let met = between (F.at files.old) (F.at files.new) in
        let told = told_to T.tells T.learnt trace.old trace.new in
        IfOk result (λ r. Owes command.now met told r.status r.text.items) }
    ensures reads { let met = between (F.at files.old) (F.at files.new) in
        ReadsInputs (length (inputs_of command.now)) (IsOkAnd result (λ r. IsAnswered r.status)) met }
    ensures unread { let met = between (F.at files.old) (F.at files.new) in
        inputs_of command.now ≡ [] → IsUnread met }
    ensures unwritten { let met = between (F.at files.old) (F.at files.new) in
        IsOkAnd result (λ r. AnswersAlone command.now r.status) ⊎ (MayWrite command.now met → ⊥) → IsUnwritten met }
    ensures leaves { let met = between (F.at files.old) (F.at files.new) in
        HasLeft met (λ name bytes. (IsOkAnd result (λ r. IsRefused r.status) → ⊥)
        × MayLeave command.now met (told_to T.tells T.learnt trace.old trace.new) name bytes) }
    ensures cause { let met = between (F.at files.old) (F.at files.new) in
        IsErrOf result Cut.Unwritten → CommandFailsToWrite command.now met (Rose (T.faults trace.old) (T.faults
        trace.new)) }
    ensures later { (F.at files.old).read_faults ≤ (F.at files.new).read_faults }
    ensures derives { DerivesIfNew (T.tells trace.old) (T.tells trace.new) }
    ensures begins { let met = between (F.at files.old) (F.at files.new) in
        TellsIfNew (TraceMayHold command.now met) (T.tells trace.old) (T.tells trace.new) }
    ensures traced { T.is_later trace.old trace.new }
    ensures untold { let met = between (F.at files.old) (F.at files.new) in
        IsOkAnd result (λ r. IsRefused r.status) ⊎ (MayTell command.now met → ⊥) → trace.new ≡ trace.old }
{
    match command {
        Command::Draw {
            input,
            grid,
            order,
            budget,
            svg,
            log,
        } => {
            let asked = Asked {
                grid,
                order,
                budget: *budget,
                svg,
                log,
            };
            draw(alloc, input, &asked, files, trace)
        }
        Command::Graph { input } => Ok(print(alloc, input, files)?),
        Command::Verify { input, sheet } => Ok(verify(alloc, input, sheet, files)?),
        Command::Check { input, sheet, log } => Ok(check(alloc, input, sheet, log, files)?),
        Command::Make { n } => Ok(made(alloc, *n)?),
        Command::Trial { n } => trial(alloc, *n, trace),
        Command::Signals {
            input,
            grid,
            order,
            budget,
            log,
        } => {
            let asked = Asked {
                grid,
                order,
                budget: *budget,
                svg: &None,
                log,
            };
            signals(alloc, input, &asked, files, trace)
        }
        Command::Front {
            input,
            first,
            second,
            grid,
            budget,
        } => {
            let asked = FrontAsked {
                grid,
                first: *first,
                second: *second,
                budget: *budget,
            };
            front(alloc, input, &asked, files, trace)
        }
        Command::Redraw {
            input,
            former,
            sheet,
            grid,
            budget,
            log,
        } => {
            let asked = RedrawAsked {
                grid,
                budget: *budget,
                log,
            };
            redraw(alloc, input, former, sheet, &asked, files, trace)
        }
        Command::Explain {
            input,
            grid,
            budget,
        } => {
            let asked = ExplainAsked {
                grid,
                budget: *budget,
            };
            explain(alloc, input, &asked, files, trace)
        }
        Command::Trim {
            input,
            sheet,
            log,
            hints,
        } => Ok(trim(alloc, input, sheet, log, hints, files)?),
        Command::Recheck {
            input,
            sheet,
            hints,
        } => Ok(recheck(alloc, input, sheet, hints, files)?),
    }
}
