// Laws of lines and their texts. The functions change nothing: their contracts are the laws.
ghost use Rattle.std.specs.Prelude.{◌≡◌, ◌↔◌, ◌++◌, ℕ, List, codes};
ghost use Rattle.outside_io.specs.Fields.{LacksByte};
ghost use Rattle.refute_log.specs.declared.line.LogLine.{LogLine as Line};
ghost use Rattle.refute_log.specs.declared.fault.LogWhat.{LogWhat as What};
ghost use Rattle.refute_log.specs.Lines.{IsWellFormed, MayBeTold, log_line_text, ended_text};
ghost use Rattle.refute_log.specs.LineForm.{LineForm, IsOfForm, HasRightNumbers};
ghost use Rattle.refute_log.specs.LineText.{SpellsLine, IsTextOf, HasLineFault};

use crate::LogLine;

/// A text has one form at most.
pub fn one_form()
    ensures { (text : List ℕ) (a b : LineForm) → IsOfForm text a → IsOfForm text b → a ≡ b }
{}

/// A text is that of one line at most.
pub fn one_line()
    ensures { (text : List ℕ) (a b : Line) → SpellsLine text a → SpellsLine text b → a ≡ b }
{}

/// A text is that of a well-formed line exactly where it has a form whose numbers are right.
pub fn right_numbers_make_a_line()
    ensures { (text : List ℕ) → ((form : LineForm) × IsOfForm text form × HasRightNumbers form)
        ↔ ((line : Line) × SpellsLine text line) }
{}

/// The text of a well-formed line, as `write_line` writes it, is the text of this line, so it is read
/// as the same line again.
pub fn written_is_read_again(line: &LogLine)
    requires { IsWellFormed line.now }
    ensures { IsTextOf (log_line_text line.now) line.now }
{
    match line {
        LogLine::Formula(clause)
        | LogLine::Learnt(clause)
        | LogLine::Query(clause)
        | LogLine::Refuted(clause) => {
            let _ = clause.as_slice();
        }
        LogLine::Bound { .. } | LogLine::Model => {}
    }
}

/// The text of a line that a log may take is the text of this line alone. It has no line feed but the one that ends
/// it.
pub fn told_lines_are_read_alone()
    ensures read { (line : Line) → MayBeTold line → IsTextOf (log_line_text line) line }
    ensures one_line { (line : Line) → MayBeTold line → LacksByte 10 (log_line_text line) }
    ensures ended { (line : Line) → ended_text line ≡ log_line_text line ++ codes "\n" }
{}

/// A text has one fault at most, and none where it is that of a line in which no variable is twice.
pub fn one_line_or_one_fault()
    ensures fault { (text : List ℕ) (a b : What) → HasLineFault text a → HasLineFault text b → a ≡ b }
    ensures line { (text : List ℕ) (line : Line) (what : What) → IsTextOf text line → HasLineFault text what → ⊥ }
{}
